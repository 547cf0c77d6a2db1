//! Multiples of polynomials by a constant.
ghost use Rattle.std.specs.Prelude.{◌≡◌, ◌-◌, ◌<◌, IfOk, length, true};
ghost use Rattle.ring_core.specs.Ring.{IsElem};
ghost use Rattle.ring_core.specs.Coeffs.{coeff, are_elems, is_canonical, first_values};
ghost use Rattle.ring_core.specs.Monomial.{constant};
ghost use Rattle.fq_poly.specs.Poly.{poly_ops, poly_mul};

use fq_poly::Poly;
use ring_core::lists::{coeff_at, scaled_values, trimmed};
use ring_core::{E, Field, NoMemory};
use std::alloc::Global;

/// The product of the constant `factor` and the polynomial.
fn scaled_poly<F: Field>(
    alloc: Global,
    field: &F,
    factor: E<F>,
    poly: &Poly<E<F>>,
) -> Result<Poly<E<F>>, NoMemory>
    requires factor { IsElem (F.ops field.now) factor }
    requires elem { is_canonical (F.ops field.now) poly.now ≡ true }
    ensures { IfOk result (λ v. let r = F.ops field.now in v ≡ poly_mul r (constant r factor) poly.now) }
{
    let values = scaled_values(alloc, field, factor, poly.as_slice())?;
    Ok(Poly::from_vec(trimmed(field, values)))
}

/// The products of the constant `factor` and the polynomials.
pub(super) fn scaled_polys<F: Field>(
    alloc: Global,
    field: &F,
    factor: E<F>,
    polys: &[Poly<E<F>>],
) -> Result<Vec<Poly<E<F>>>, NoMemory>
    requires factor { IsElem (F.ops field.now) factor }
    requires elems { are_elems (poly_ops (F.ops field.now)) polys.now ≡ true }
    ensures { let r = F.ops field.now in IfOk result
        (λ v. v.items ≡ first_values (length polys.now) (λ i. poly_mul r (constant r factor) (coeff (poly_ops r) polys.now i))) }
{
    let mut list = Vec::new(alloc);
    for i in 0..polys.len() {
        let one = scaled_poly(alloc, field, factor, &polys[i])?;
        list.push(one)?;
    }
    Ok(list)
}

/// The constant coefficient of the last member.
pub(super) fn top_constant<F: Field>(field: &F, polys: &[Poly<E<F>>]) -> E<F>
    requires some { 0 < length polys.now }
    requires elems { are_elems (poly_ops (F.ops field.now)) polys.now ≡ true }
    ensures value { let r = F.ops field.now in
        result ≡ coeff r (coeff (poly_ops r) polys.now (length polys.now - 1)) 0 }
    ensures elem { IsElem (F.ops field.now) result }
{
    coeff_at(field, polys[polys.len() - 1].as_slice(), 0)
}
