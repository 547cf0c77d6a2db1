//! Commutative rings of finite dimension over a field of codes, given by the coordinates of their elements.

ghost use Rattle.std.specs.Prelude.{◌≡◌, ℕ, ◌<◌, length, true};
ghost use Rattle.ring_core.specs.Ring.{RingOps, IsElem};
ghost use Rattle.ring_core.specs.Coeffs.{coeff, are_elems, first_values};
ghost use Rattle.ring_core.specs.Powers.{power_of};
ghost use Rattle.residue_field.specs.Algebra.{Coordinates, IsAlgebra, unit_of};

use residue_field::Code;
use ring_core::Field;

/// A commutative ring that is a space of finite dimension over a field of codes. An element is told by its
/// coordinates, of which sums and products with constants go by each; the constants are the elements
/// whose coordinates past the first are zero. No operation takes memory, and each answer is an element.
pub trait Algebra {
    type Elem: Copy;

    type Constants: Field<Elem = Code>;

    ghost constants_of: { Self → Self.Constants };

    /// The operations, of which the contracts of the methods speak.
    ghost ops: { Self → RingOps Self.Elem };

    /// The coordinates, the elements that they make, and the constants within the ring.
    ghost coords_of: { Self → Coordinates ℕ Self.Elem };

    /// The field of the constants.
    fn constants(&self) -> &Self::Constants
        ensures { result.now ≡ constants_of self.now };

    /// How many coordinates an element has, at least one.
    fn dimension(&self) -> usize
        ensures { result ≡ (coords_of self.now).dimension };

    /// The coordinates of `x`, of which there are `dimension` many.
    fn coords<'x>(&self, x: &'x Self::Elem) -> &'x [Code]
        requires { IsElem (ops self.now) x.now }
        ensures { result.now ≡ first_values (coords_of self.now).dimension ((coords_of self.now).coord x.now) };

    /// The element with these coordinates, of which there are `dimension` many.
    fn of_coords(&self, list: &[Code]) -> Self::Elem
        requires elems { are_elems (Self.Constants.ops (constants_of self.now)) list.now ≡ true }
        requires places { length list.now ≡ (coords_of self.now).dimension }
        ensures value { result ≡ (coords_of self.now).of_coords (coeff (Self.Constants.ops (constants_of self.now)) list.now) }
        ensures elem { IsElem (ops self.now) result };

    /// The element with coordinate one at place `j` and zero at the others.
    fn unit(&self, j: usize) -> Self::Elem
        requires { j < (coords_of self.now).dimension }
        ensures value { result ≡ unit_of (Self.Constants.ops (constants_of self.now)) (coords_of self.now) j }
        ensures elem { IsElem (ops self.now) result };

    /// The element that the constant `c` is in this ring.
    fn constant(&self, c: Code) -> Self::Elem
        requires { IsElem (Self.Constants.ops (constants_of self.now)) c }
        ensures value { result ≡ (coords_of self.now).embed c }
        ensures elem { IsElem (ops self.now) result };

    /// The neutral element of the product.
    fn one(&self) -> Self::Elem
        ensures value { result ≡ (ops self.now).one }
        ensures elem { IsElem (ops self.now) result };

    /// The sum.
    fn add(&self, a: Self::Elem, b: Self::Elem) -> Self::Elem
        requires left { IsElem (ops self.now) a }
        requires right { IsElem (ops self.now) b }
        ensures value { result ≡ (ops self.now).add a b }
        ensures elem { IsElem (ops self.now) result };

    /// The negative.
    fn neg(&self, a: Self::Elem) -> Self::Elem
        requires { IsElem (ops self.now) a }
        ensures value { result ≡ (ops self.now).neg a }
        ensures elem { IsElem (ops self.now) result };

    /// The product.
    fn mul(&self, a: Self::Elem, b: Self::Elem) -> Self::Elem
        requires left { IsElem (ops self.now) a }
        requires right { IsElem (ops self.now) b }
        ensures value { result ≡ (ops self.now).mul a b }
        ensures elem { IsElem (ops self.now) result };

    /// Whether `a` is zero.
    fn is_zero(&self, a: Self::Elem) -> bool
        requires { IsElem (ops self.now) a }
        ensures { result ≡ (ops self.now).same a (ops self.now).zero };

    ghost laws: { (k : Self) → IsAlgebra (Self.Constants.ops (constants_of k)) (ops k) (coords_of k) };
}

/// `a` multiplied `k` times, one for `k = 0`: by squares, at most two products for each binary digit of
/// `k`.
pub(crate) fn power<A: Algebra>(algebra: &A, a: A::Elem, k: u32) -> A::Elem
    requires { IsElem (A.ops algebra.now) a }
    ensures value { result ≡ power_of (A.ops algebra.now) a k }
    ensures elem { IsElem (A.ops algebra.now) result }
{
    if k == 0 {
        return algebra.one();
    }
    if k == 1 {
        return a;
    }
    let half = power(algebra, a, k / 2);
    let square = algebra.mul(half, half);
    if k % 2 == 0 {
        square
    } else {
        algebra.mul(square, a)
    }
}
