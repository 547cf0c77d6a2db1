//! Pairs of nonzero elements that multiply to zero, from an element that refuses the field.

ghost use Rattle.std.specs.Prelude.{◌≡◌, ◌≢◌, ℕ, MatchOption};
ghost use Rattle.ring_core.specs.Ring.{IsElem};
ghost use Rattle.ring_core.specs.Powers.{power_of};
ghost use Rattle.field_tower.specs.Constants.{IsFieldOfCodes};
ghost use Rattle.field_tower.specs.Pairs.{IsPair};
ghost use Rattle.field_tower.specs.steps.Kernel.{IsLow, IsNonzero};

use super::algebra::Algebra;
use residue_field::Code;

/// The product of two elements, None where it is zero.
fn nonzero_product<A: Algebra>(algebra: &A, a: A::Elem, b: A::Elem) -> Option<A::Elem>
    requires left { IsElem (A.ops algebra.now) a }
    requires right { IsElem (A.ops algebra.now) b }
    ensures { let t = A.ops algebra.now in MatchOption result (t.mul a b ≡ t.zero) (IsNonzero t (t.mul a b)) }
{
    let product = algebra.mul(a, b);
    if algebra.is_zero(product) {
        None
    } else {
        Some(product)
    }
}

/// The element `x` less the constant `c`.
fn less_constant<A: Algebra>(algebra: &A, x: A::Elem, c: Code) -> A::Elem
    requires elem { IsElem (A.ops algebra.now) x }
    requires constant { IsElem (A.Constants.ops (A.constants_of algebra.now)) c }
    ensures value { let t = A.ops algebra.now in result ≡ t.add x (t.neg ((A.coords_of algebra.now).embed c)) }
    ensures elem { IsElem (A.ops algebra.now) result }
{
    let negative = algebra.neg(algebra.constant(c));
    algebra.add(x, negative)
}

/// A power of `x`, and `x`, where the power `q` of the nonzero element `x` is zero.
pub(crate) fn power_pair<A: Algebra>(algebra: &A, q: u32, x: A::Elem) -> (A::Elem, A::Elem)
    requires constants { IsFieldOfCodes (A.Constants.ops (A.constants_of algebra.now)) q }
    requires elem { IsElem (A.ops algebra.now) x }
    requires above { IsLow (A.Constants.ops (A.constants_of algebra.now)) (A.coords_of algebra.now) 0 x → ⊥ }
    requires power { let t = A.ops algebra.now in power_of t x q ≡ t.zero }
    ensures { IsPair (A.ops algebra.now) result.0 result.1 }
{
    let mut power = algebra.one();
    for _i in 0..q {
        let Some(next) = nonzero_product(algebra, power, x) else {
            return (power, x);
        };
        power = next;
    }
    unreachable!()
}

/// A product of `x` less some constants, and `x` less the next constant, where the element `x` is no
/// constant and its power by the number `q` of constants is `x`.
pub(crate) fn factor_pair<A: Algebra>(algebra: &A, q: u32, x: A::Elem) -> (A::Elem, A::Elem)
    requires constants { IsFieldOfCodes (A.Constants.ops (A.constants_of algebra.now)) q }
    requires elem { IsElem (A.ops algebra.now) x }
    requires above { IsLow (A.Constants.ops (A.constants_of algebra.now)) (A.coords_of algebra.now) 1 x → ⊥ }
    requires power { power_of (A.ops algebra.now) x q ≡ x }
    ensures { IsPair (A.ops algebra.now) result.0 result.1 }
{
    let mut product = algebra.one();
    for c in 0..q {
        let factor = less_constant(algebra, x, c as Code);
        let Some(next) = nonzero_product(algebra, product, factor) else {
            return (product, factor);
        };
        product = next;
    }
    unreachable!()
}
