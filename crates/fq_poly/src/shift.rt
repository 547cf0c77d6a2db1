//! Products with powers of the letter, over slices.
ghost use Rattle.std.specs.Prelude.{◌≡◌, IfOk, true};
ghost use Rattle.ring_core.specs.Coeffs.{is_canonical};
ghost use Rattle.ring_core.specs.Powers.{power_of};
ghost use Rattle.fq_poly.specs.Poly.{poly_mul, poly_ops, letter};

use ring_core::rows::zero_list;
use ring_core::{E, Field, NoMemory};
use std::alloc::Global;

/// The product of a polynomial and the `k`-th power of the letter. A length past `usize` is want of memory.
pub fn shifted_list<F: Field>(
    alloc: Global,
    field: &F,
    list: &[E<F>],
    k: usize,
) -> Result<Vec<E<F>>, NoMemory>
    requires { is_canonical (F.ops field.now) list.now ≡ true }
    ensures value { IfOk result
        (λ v. let r = F.ops field.now in v.items ≡ poly_mul r list.now (power_of (poly_ops r) (letter r) k)) }
    ensures elem { IfOk result (λ v. is_canonical (F.ops field.now) v.items ≡ true) }
{
    if list.is_empty() {
        return Ok(Vec::new(alloc));
    }
    let mut coeffs = zero_list(alloc, field, k)?;
    coeffs.extend_from_slice(list)?;
    Ok(coeffs)
}
