//! Products, negatives and sums of images in top fields, in the way that is fast for the base.

ghost use Rattle.std.specs.Prelude.{◌≡◌, ℕ, ◌+◌, ◌-◌, ◌<◌, ◌≤◌, length, true};
ghost use Rattle.ring_core.specs.Ring.{IsElem};
ghost use Rattle.ring_core.specs.Coeffs.{are_elems, first_values};
ghost use Rattle.residue_field.specs.declared.TheConstants.{WIDTH};
ghost use Rattle.residue_field.specs.Base.{ops_of};
ghost use Rattle.field_tower.specs.steps.Places.{IsModulus, IsStored, stored, stored_ops};
ghost use Rattle.field_tower.specs.steps.Lanes.{letter_row};
ghost use Rattle.field_tower.specs.steps.Images.{image_at, combined_images};

use super::algebra::Algebra;
use super::base::BaseField;
use super::residue_ring::Residues;
use super::{bits, modular, row_products};
use residue_field::{Code, TopElem};

/// The product of residues, where `letters` holds the residues of the powers of the letter from the degree of the
/// modulus on.
pub(crate) fn mul(
    base: &BaseField,
    modulus: &[Code],
    letters: &[TopElem],
    a: TopElem,
    b: TopElem,
) -> TopElem
    requires monic { IsModulus (ops_of base.now) modulus.now }
    requires letters { letters.now ≡ first_values (length modulus.now - 1) (letter_row (ops_of base.now) modulus.now) }
    requires left { IsElem (stored_ops (ops_of base.now) modulus.now) a }
    requires right { IsElem (stored_ops (ops_of base.now) modulus.now) b }
    ensures { result ≡ (stored_ops (ops_of base.now) modulus.now).mul a b }
{
    if bits::is_binary(base) {
        bits::mul(base, modulus, a, b)
    } else if base.s() == 1 {
        modular::mul(base, modulus, letters, a, b)
    } else {
        row_products::mul(base, modulus, letters, a, b)
    }
}

/// The negative of a residue: in characteristic two the residue itself.
pub(crate) fn neg(base: &BaseField, modulus: &[Code], a: TopElem) -> TopElem
    requires monic { IsModulus (ops_of base.now) modulus.now }
    requires elem { IsElem (stored_ops (ops_of base.now) modulus.now) a }
    ensures { result ≡ (stored_ops (ops_of base.now) modulus.now).neg a }
{
    if base.p() == 2 {
        a
    } else {
        let ring = Residues {
            field: base,
            modulus,
        };
        ring.neg(a)
    }
}

/// The sum of the `n` images from the place `start` on, each multiplied with the coefficient of `c` at its place.
pub(crate) fn combination(
    base: &BaseField,
    n: usize,
    images: &[TopElem],
    start: usize,
    c: TopElem,
) -> TopElem
    requires positive { 0 < n }
    requires room { n ≤ WIDTH }
    requires coeffs { are_elems (ops_of base.now) c.0 ≡ true }
    requires images { (k : ℕ) → k < length images.now → IsStored (ops_of base.now) (n - 1) (image_at images.now k) }
    requires row { start + n ≤ length images.now }
    ensures { result ≡ stored (ops_of base.now) (n - 1) (combined_images (ops_of base.now) n images.now start c) }
{
    if bits::is_binary(base) {
        bits::combination(base, n, images, start, c)
    } else if base.s() == 1 {
        modular::combination(base, n, images, start, c)
    } else {
        row_products::combination(base, n, images, start, c)
    }
}
