ghost use Rattle.std.specs.Prelude.{◌≡◌, ◌≢◌, ℕ, ◌*◌, ◌^◌, ◌<◌, [], MatchOption, length, true};
ghost use Rattle.ring_core.specs.Ring.{IsElem};
ghost use Rattle.ring_core.specs.Coeffs.{is_canonical};
ghost use Rattle.central_coords.specs.Coordinates.{IsLeadingPlace};
ghost use Rattle.central_coords.specs.steps.Highest.{IsHighestCoordinate};

use ore_poly::Ore;
use ring_core::lists::coeff_at;
use ring_core::{E, Field, FrobField};

/// The highest index of a coordinate of `c` that isn't zero; None exactly at zero.
fn highest_coordinate<K: FrobField>(k: &K, c: E<K>) -> Option<usize>
    requires { IsElem (K.ops k.now) c }
    ensures { MatchOption result (c ≡ (K.ops k.now).zero) (IsHighestCoordinate (K.Base.ops (K.base_of k.now)) (K.frob_ops k.now) c) }
{
    for j in (0..k.degree()).rev() {
        let member = k.coord(c, j);
        if !k.base().equal(member, k.base().zero()) {
            return Some(j);
        }
    }
    None
}

/// The highest index with a nonzero coordinate of `u`; None exactly at zero. All coordinates of `u` have to be so few
/// that a `usize` counts them. Takes no memory.
pub fn lead<K: FrobField>(k: &K, u: &Ore<E<K>>) -> Option<usize>
    requires elem { is_canonical (K.ops k.now) u.now ≡ true }
    requires room { length u.now * (K.frob_ops k.now).degree < 2 ^ 64 }
    ensures { let r = K.ops k.now in MatchOption result (u.now ≡ []) (IsLeadingPlace r (K.Base.ops (K.base_of k.now)) (K.frob_ops k.now) u.now) }
{
    let Some(last) = u.len().checked_sub(1) else {
        return None;
    };
    let top = coeff_at(k, u.as_slice(), last);
    let Some(j) = highest_coordinate(k, top) else {
        // the top coefficient isn't zero
        unreachable!()
    };
    Some(last * k.degree() + j)
}
