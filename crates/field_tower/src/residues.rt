ghost use Rattle.std.specs.Prelude.{◌≡◌, ℕ, ◌+◌, ◌-◌, ◌<◌, ◌≤◌, length, true};
ghost use Rattle.ring_core.specs.Ring.{IsElem};
ghost use Rattle.ring_core.specs.Coeffs.{coeff, are_elems};
ghost use Rattle.residue_field.specs.Residue.{shifted, times_x, residue, product};

use ring_core::Field;
use ring_core::lists::coeff_at;

/// The coefficient at `i` of `list` times the letter.
fn shifted_at<F: Field>(field: &F, list: &[F::Elem], i: usize) -> F::Elem
    requires { are_elems (F.ops field.now) list.now ≡ true }
    ensures value { result ≡ shifted (F.ops field.now) (coeff (F.ops field.now) list.now) i }
    ensures elem { IsElem (F.ops field.now) result }
{
    if i == 0 {
        field.zero()
    } else {
        coeff_at(field, list, i - 1)
    }
}

/// The coefficient at `i` of `c b` plus the letter times `out`, less the multiple of the modulus by `top`.
fn step_at<F: Field>(
    field: &F,
    modulus: &[F::Elem],
    c: F::Elem,
    b: &[F::Elem],
    out: &[F::Elem],
    top: F::Elem,
    i: usize,
) -> F::Elem
    requires modulus { are_elems (F.ops field.now) modulus.now ≡ true }
    requires factor { IsElem (F.ops field.now) c }
    requires right { are_elems (F.ops field.now) b.now ≡ true }
    requires out { are_elems (F.ops field.now) out.now ≡ true }
    requires top { IsElem (F.ops field.now) top }
    ensures value { let r = F.ops field.now in
        result ≡ r.add (r.mul c (coeff r b.now i)) (r.add (shifted r (coeff r out.now) i) (r.neg (r.mul top (coeff r modulus.now i)))) }
    ensures elem { IsElem (F.ops field.now) result }
{
    let scaled = field.mul(c, coeff_at(field, b, i));
    let cleared = field.neg(field.mul(top, coeff_at(field, modulus, i)));
    field.add(scaled, field.add(shifted_at(field, out, i), cleared))
}

/// Puts zero in the first `n` places.
fn clear<F: Field>(field: &F, n: usize, out: &mut [F::Elem])
    requires room { n ≤ length out.old }
    requires out { are_elems (F.ops field.now) out.old ≡ true }
    ensures cleared { (i : ℕ) → i < n → coeff (F.ops field.now) out.new i ≡ (F.ops field.now).zero }
    ensures kept { (i : ℕ) → n ≤ i → coeff (F.ops field.now) out.new i ≡ coeff (F.ops field.now) out.old i }
    ensures elems { are_elems (F.ops field.now) out.new ≡ true }
{
    for i in 0..n {
        out[i] = field.zero();
    }
}

/// Makes the residue `out` into `c b` plus the letter times `out`, in place, going down from the top.
pub(crate) fn step<F: Field>(
    field: &F,
    modulus: &[F::Elem],
    c: F::Elem,
    b: &[F::Elem],
    out: &mut [F::Elem],
)
    requires degree { 2 ≤ length modulus.now }
    requires room { length modulus.now ≤ length out.old + 1 }
    requires modulus { are_elems (F.ops field.now) modulus.now ≡ true }
    requires factor { IsElem (F.ops field.now) c }
    requires right { are_elems (F.ops field.now) b.now ≡ true }
    requires out { are_elems (F.ops field.now) out.old ≡ true }
    ensures values { (i : ℕ) → i < length modulus.now - 1 → let r = F.ops field.now in
        coeff r out.new i ≡ r.add (r.mul c (coeff r b.now i)) (times_x r (length modulus.now - 2) (coeff r modulus.now) (coeff r out.old) i) }
    ensures kept { (i : ℕ) → length modulus.now - 1 ≤ i → coeff (F.ops field.now) out.new i ≡ coeff (F.ops field.now) out.old i }
    ensures elems { are_elems (F.ops field.now) out.new ≡ true }
{
    let n = modulus.len() - 1;
    let top = coeff_at(field, out, n - 1);
    for i in (0..n).rev() {
        let next = step_at(field, modulus, c, b, out, top, i);
        out[i] = next;
    }
}

/// Puts the product of the residues `a` and `b` in `out`, all lowest coefficient first. The modulus has
/// the degree `n`, one less than its length: its top coefficient is taken to be one, and is never read.
/// `a` and `b` are zero from place `n` on, and `out` keeps what stands there. Takes no memory, and makes
/// at most `2 n^2` products of coefficients.
pub fn multiply<F: Field>(
    field: &F,
    modulus: &[F::Elem],
    a: &[F::Elem],
    b: &[F::Elem],
    out: &mut [F::Elem],
)
    requires degree { 2 ≤ length modulus.now }
    requires room { length modulus.now ≤ length out.old + 1 }
    requires modulus { are_elems (F.ops field.now) modulus.now ≡ true }
    requires left { are_elems (F.ops field.now) a.now ≡ true }
    requires right { are_elems (F.ops field.now) b.now ≡ true }
    requires out { are_elems (F.ops field.now) out.old ≡ true }
    requires left_past { (i : ℕ) → length modulus.now - 1 ≤ i → coeff (F.ops field.now) a.now i ≡ (F.ops field.now).zero }
    requires right_past { (i : ℕ) → length modulus.now - 1 ≤ i → coeff (F.ops field.now) b.now i ≡ (F.ops field.now).zero }
    ensures values { (i : ℕ) → i < length modulus.now - 1 → let r = F.ops field.now in let n = length modulus.now - 2 in
        coeff r out.new i ≡ residue r n (coeff r modulus.now) (n + 1 + (n + 1)) (product r (coeff r a.now) (coeff r b.now)) i }
    ensures kept { (i : ℕ) → length modulus.now - 1 ≤ i → coeff (F.ops field.now) out.new i ≡ coeff (F.ops field.now) out.old i }
    ensures elems { are_elems (F.ops field.now) out.new ≡ true }
{
    let n = modulus.len() - 1;
    clear(field, n, out);
    for i in (0..n).rev() {
        step(field, modulus, coeff_at(field, a, i), b, out);
    }
}
