ghost use Rattle.std.specs.Prelude.{◌≡◌, IfOk};
ghost use Rattle.ring_core.specs.Ring.{RingOps, IsElem, IsRing, IsCommutative};

use super::memory::NoMemory;
use std::alloc::Global;

/// A ring with one, whose products need not commute. Each operation gives a new element, or
/// `NoMemory` where memory is refused, and then nothing has changed.
pub trait Ring {
    type Elem: Drop;

    /// The operations, of which the contracts of the methods speak.
    ghost ops: { Self → RingOps Self.Elem };

    /// Whether `a` is an element of this ring.
    fn is_elem(&self, a: &Self::Elem) -> bool
        ensures { result ≡ (ops self.now).is_elem a.now };

    /// The neutral element of the sum.
    fn zero(&self, alloc: Global) -> Result<Self::Elem, NoMemory>
        ensures value { IfOk result (λ v. v ≡ (ops self.now).zero) }
        ensures elem { IfOk result (IsElem (ops self.now)) };

    /// The neutral element of the product.
    fn one(&self, alloc: Global) -> Result<Self::Elem, NoMemory>
        ensures value { IfOk result (λ v. v ≡ (ops self.now).one) }
        ensures elem { IfOk result (IsElem (ops self.now)) };

    /// An element equal to `a`.
    fn copy(&self, alloc: Global, a: &Self::Elem) -> Result<Self::Elem, NoMemory>
        requires { IsElem (ops self.now) a.now }
        ensures value { IfOk result (λ v. v ≡ a.now) }
        ensures elem { IfOk result (IsElem (ops self.now)) };

    /// The sum.
    fn add(&self, alloc: Global, a: &Self::Elem, b: &Self::Elem) -> Result<Self::Elem, NoMemory>
        requires left { IsElem (ops self.now) a.now }
        requires right { IsElem (ops self.now) b.now }
        ensures value { IfOk result (λ v. v ≡ (ops self.now).add a.now b.now) }
        ensures elem { IfOk result (IsElem (ops self.now)) };

    /// The negative.
    fn neg(&self, alloc: Global, a: &Self::Elem) -> Result<Self::Elem, NoMemory>
        requires { IsElem (ops self.now) a.now }
        ensures value { IfOk result (λ v. v ≡ (ops self.now).neg a.now) }
        ensures elem { IfOk result (IsElem (ops self.now)) };

    /// The product of `a` and `b`, in this order.
    fn mul(&self, alloc: Global, a: &Self::Elem, b: &Self::Elem) -> Result<Self::Elem, NoMemory>
        requires left { IsElem (ops self.now) a.now }
        requires right { IsElem (ops self.now) b.now }
        ensures value { IfOk result (λ v. v ≡ (ops self.now).mul a.now b.now) }
        ensures elem { IfOk result (IsElem (ops self.now)) };

    /// Whether the two elements are equal. Takes no memory.
    fn equal(&self, a: &Self::Elem, b: &Self::Elem) -> bool
        requires left { IsElem (ops self.now) a.now }
        requires right { IsElem (ops self.now) b.now }
        ensures { result ≡ (ops self.now).same a.now b.now };

    ghost laws: { (r : Self) → IsRing (ops r) };
}

/// A ring whose products commute.
pub trait CommRing: Ring {
    ghost commutes: { (r : Self) → IsCommutative (Self.ops r) };
}
