//! Products and combinations of residues by the row operation of the field: each factor is looked at once for a row of
//! places.

ghost use Rattle.std.specs.Prelude.{◌≡◌, ℕ, ◌-◌, ◌+◌, ◌*◌, ◌<◌, ◌≤◌, length, true};
ghost use Rattle.ring_core.specs.Ring.{IsElem};
ghost use Rattle.ring_core.specs.Coeffs.{coeff, are_elems, first_values};
ghost use Rattle.linear_algebra.specs.Combines.{combined};
ghost use Rattle.residue_field.specs.declared.TheConstants.{WIDTH};
ghost use Rattle.residue_field.specs.Residue.{product};
ghost use Rattle.field_tower.specs.steps.Places.{IsModulus, stored, stored_ops};
ghost use Rattle.field_tower.specs.steps.Lanes.{letter_row};
ghost use Rattle.field_tower.specs.steps.Images.{image_at, combined_images};

use super::places;
use residue_field::{Code, TopElem, WIDTH};
use ring_core::Field;
use ring_core::lists::coeff_at;

/// Adds to the first `n` places of `out` those of the rows from the place `start` on, each times the factor at its place.
fn add_rows<F: Field<Elem = Code>>(
    field: &F,
    n: usize,
    out: &mut [Code],
    factors: &[Code],
    rows: &[TopElem],
    start: usize,
)
    requires room { n ≤ WIDTH }
    requires places { n ≤ length out.old }
    requires out { are_elems (F.ops field.now) out.old ≡ true }
    requires factors { are_elems (F.ops field.now) factors.now ≡ true }
    requires rows { (k : ℕ) → k < length rows.now → are_elems (F.ops field.now) (image_at rows.now k).0 ≡ true }
    requires count { start + length factors.now ≤ length rows.now }
    ensures elems { are_elems (F.ops field.now) out.new ≡ true }
    ensures added { let r = F.ops field.now in
        (l : ℕ) → l < n → coeff r out.new l
        ≡ r.add (coeff r out.old l) (combined r (length factors.now) (coeff r factors.now) (λ j. coeff r (image_at rows.now (start + j)).0) l) }
    ensures past { let r = F.ops field.now in (l : ℕ) → n ≤ l → coeff r out.new l ≡ coeff r out.old l }
{
    for i in 0..factors.len() {
        let image = rows[start + i];
        field.add_row(out, 0, coeff_at(field, factors, i), &image.0[..n]);
    }
}

/// Zero at as many places as a plain product may have.
fn no_sums<F: Field<Elem = Code>>(field: &F) -> [Code; 2 * WIDTH]
    ensures values { (i : ℕ) → coeff (F.ops field.now) result i ≡ (F.ops field.now).zero }
    ensures elems { are_elems (F.ops field.now) result ≡ true }
{
    [field.zero(); 2 * WIDTH]
}

/// The coefficients of the product of the polynomials with the coefficients `a` and `b`.
fn plain_product<F: Field<Elem = Code>>(field: &F, a: &[Code], b: &[Code]) -> [Code; 2 * WIDTH]
    requires left { are_elems (F.ops field.now) a.now ≡ true }
    requires right { are_elems (F.ops field.now) b.now ≡ true }
    requires room { length a.now + length b.now ≤ 2 * WIDTH }
    ensures elems { are_elems (F.ops field.now) result ≡ true }
    ensures values { let r = F.ops field.now in (k : ℕ) → k < 2 * WIDTH → coeff r result k ≡ product r (coeff r a.now) (coeff r b.now) k }
{
    let mut sums = no_sums(field);
    for i in 0..a.len() {
        field.add_row(&mut sums, i, coeff_at(field, a, i), b);
    }
    sums
}

/// The product of residues, where `letters` holds the residues of the powers of the letter from the degree of the
/// modulus on: the plain product, and each of its coefficients from that degree on times the row of its power.
pub(crate) fn mul<F: Field<Elem = Code>>(
    field: &F,
    modulus: &[Code],
    letters: &[TopElem],
    a: TopElem,
    b: TopElem,
) -> TopElem
    requires monic { IsModulus (F.ops field.now) modulus.now }
    requires letters { letters.now ≡ first_values (length modulus.now - 1) (letter_row (F.ops field.now) modulus.now) }
    requires left { IsElem (stored_ops (F.ops field.now) modulus.now) a }
    requires right { IsElem (stored_ops (F.ops field.now) modulus.now) b }
    ensures { result ≡ (stored_ops (F.ops field.now) modulus.now).mul a b }
{
    let n = modulus.len() - 1;
    let product = plain_product(field, &a.0[..n], &b.0[..n]);
    let mut places = places::residue_of(field, &product[..n]).0;
    add_rows(field, n, &mut places, &product[n..2 * n - 1], letters, 0);
    TopElem(places)
}

/// The sum of the `n` images from the place `start` on, each multiplied with the coefficient of `c` at its place.
pub(crate) fn combination<F: Field<Elem = Code>>(
    field: &F,
    n: usize,
    images: &[TopElem],
    start: usize,
    c: TopElem,
) -> TopElem
    requires positive { 0 < n }
    requires room { n ≤ WIDTH }
    requires coeffs { are_elems (F.ops field.now) c.0 ≡ true }
    requires images { (k : ℕ) → k < length images.now → are_elems (F.ops field.now) (image_at images.now k).0 ≡ true }
    requires row { start + n ≤ length images.now }
    ensures { result ≡ stored (F.ops field.now) (n - 1) (combined_images (F.ops field.now) n images.now start c) }
{
    let mut places = places::zeros(field);
    add_rows(field, n, &mut places, &c.0[..n], images, start);
    TopElem(places)
}

/// The sum of residues, as one row.
pub(crate) fn add<F: Field<Elem = Code>>(
    field: &F,
    modulus: &[Code],
    a: TopElem,
    b: TopElem,
) -> TopElem
    requires monic { IsModulus (F.ops field.now) modulus.now }
    requires left { IsElem (stored_ops (F.ops field.now) modulus.now) a }
    requires right { IsElem (stored_ops (F.ops field.now) modulus.now) b }
    ensures { result ≡ (stored_ops (F.ops field.now) modulus.now).add a b }
{
    let mut places = a.0;
    field.add_row(&mut places, 0, field.one(), &b.0);
    TopElem(places)
}
