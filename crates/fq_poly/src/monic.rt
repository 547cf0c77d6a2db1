//! Monic multiples, over slices.
ghost use Rattle.std.specs.Prelude.{◌≡◌, ◌-◌, ◌<◌, IfOk, length, true};
ghost use Rattle.ring_core.specs.Ring.{IsElem};
ghost use Rattle.ring_core.specs.Coeffs.{coeff, is_canonical};
ghost use Rattle.fq_poly.specs.Monic.{IsMonicMultiple};

use super::ring::PolyRing;
use ring_core::product::scaled_list;
use ring_core::{E, Field, NoMemory};
use std::alloc::Global;

/// The multiple with top coefficient one of a polynomial that isn't zero; `inverse` is that of its top
/// coefficient.
pub fn monic_list<F: Field>(
    alloc: Global,
    ring: &PolyRing<F>,
    list: &[E<F>],
    inverse: E<F>,
) -> Result<Vec<E<F>>, NoMemory>
    requires list { is_canonical (F.ops ring.now) list.now ≡ true }
    requires nonzero { 0 < length list.now }
    requires inverse_in { IsElem (F.ops ring.now) inverse }
    requires inverts { let r = F.ops ring.now in r.mul (coeff r list.now (length list.now - 1)) inverse ≡ r.one }
    ensures { IfOk result (λ v. IsMonicMultiple (F.ops ring.now) list.now v.items) }
{
    Ok(scaled_list(alloc, ring, inverse, list)?)
}
