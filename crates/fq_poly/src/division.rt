//! Division with remainder, over slices.
ghost use Rattle.std.specs.Prelude.{◌≡◌, ℕ, ◌+◌, ◌-◌, ◌<◌, ◌≤◌, IfOk, length, true};
ghost use Rattle.ring_core.specs.Ring.{IsElem};
ghost use Rattle.ring_core.specs.Coeffs.{coeff, trim, are_elems, is_canonical};
ghost use Rattle.ring_core.specs.Twisted.{list_add};
ghost use Rattle.fq_poly.specs.Poly.{poly_mul};
ghost use Rattle.fq_poly.specs.Division.{IsDivision};

use ring_core::lists::{coeff_at, copy_list, trimmed};
use ring_core::rows::{add_scaled, zero_list};
use ring_core::{E, Field, NoMemory};
use std::alloc::Global;

/// Clears the places of `rest` from the top down, by multiples of `b`, until fewer coefficients than
/// those of `b` may differ from zero, and writes the multiples to `quotient`, which holds zeros.
/// `inverse` is that of the top coefficient of `b`.
fn clear_places<F: Field>(
    field: &F,
    b: &[E<F>],
    inverse: E<F>,
    rest: &mut [E<F>],
    quotient: &mut [E<F>],
)
    requires divisor { is_canonical (F.ops field.now) b.now ≡ true }
    requires nonzero { 0 < length b.now }
    requires inverse_in { IsElem (F.ops field.now) inverse }
    requires inverts { let r = F.ops field.now in r.mul (coeff r b.now (length b.now - 1)) inverse ≡ r.one }
    requires rest { are_elems (F.ops field.now) rest.old ≡ true }
    requires quotient { are_elems (F.ops field.now) quotient.old ≡ true }
    requires places { length quotient.old ≡ length rest.old - (length b.now - 1) }
    requires zeros { let r = F.ops field.now in (k : ℕ) → coeff r quotient.old k ≡ r.zero }
    ensures rest { are_elems (F.ops field.now) rest.new ≡ true }
    ensures quotient { are_elems (F.ops field.now) quotient.new ≡ true }
    ensures sum { let r = F.ops field.now in
        trim r rest.old ≡ list_add r (poly_mul r (trim r quotient.new) b.now) (trim r rest.new) }
    ensures cleared { let r = F.ops field.now in (n : ℕ) → length b.now ≤ n + 1 → coeff r rest.new n ≡ r.zero }
{
    let above = b.len() - 1;
    for k in (0..quotient.len()).rev() {
        let top = coeff_at(field, rest, k + above);
        let factor = field.mul(top, inverse);
        quotient[k] = factor;
        let minus = field.neg(factor);
        add_scaled(field, rest, k, minus, b);
    }
}

/// Quotient and remainder of `a` by `b`, which isn't zero; `inverse` is that of the top coefficient of `b`.
pub fn divide_list<F: Field>(
    alloc: Global,
    field: &F,
    a: &[E<F>],
    b: &[E<F>],
    inverse: E<F>,
) -> Result<(Vec<E<F>>, Vec<E<F>>), NoMemory>
    requires dividend { is_canonical (F.ops field.now) a.now ≡ true }
    requires divisor { is_canonical (F.ops field.now) b.now ≡ true }
    requires nonzero { 0 < length b.now }
    requires inverse_in { IsElem (F.ops field.now) inverse }
    requires inverts { let r = F.ops field.now in r.mul (coeff r b.now (length b.now - 1)) inverse ≡ r.one }
    ensures { IfOk result (λ p. IsDivision (F.ops field.now) a.now b.now p.0.items p.1.items) }
{
    let places = a.len().saturating_sub(b.len() - 1);
    let mut rest = copy_list(alloc, a)?;
    let mut quotient = zero_list(alloc, field, places)?;
    clear_places(field, b, inverse, &mut rest, &mut quotient);
    Ok((trimmed(field, quotient), trimmed(field, rest)))
}
