ghost use Rattle.std.specs.Prelude.{◌≡◌, ℕ, ◌+◌, ◌<◌, ◌≤◌, IfSome, Option, length, true};
ghost use Rattle.ring_core.specs.Ring.{RingOps, IsElem, IsRing};
ghost use Rattle.ring_core.specs.Field.{FrobOps, IsField, IsFrobField};
ghost use Rattle.ring_core.specs.Coeffs.{coeff, are_elems};

/// A field. No operation takes memory, and each answer is an element.
pub trait Field {
    type Elem: Copy;

    /// The operations, of which the contracts of the methods speak.
    ghost ops: { Self → RingOps Self.Elem };

    /// What `inv` answers.
    ghost inv_of: { Self → Self.Elem → Option Self.Elem };

    /// The ring laws of the operations, as the bodies of this trait's own methods cite them: those do not see `laws`.
    ghost ring: { (k : Self) → IsRing (ops k) };

    /// Whether `a` is an element of this field.
    fn is_elem(&self, a: Self::Elem) -> bool
        ensures { result ≡ (ops self.now).is_elem a };

    /// The neutral element of the sum.
    fn zero(&self) -> Self::Elem
        ensures value { result ≡ (ops self.now).zero }
        ensures elem { IsElem (ops self.now) result };

    /// The neutral element of the product.
    fn one(&self) -> Self::Elem
        ensures value { result ≡ (ops self.now).one }
        ensures elem { IsElem (ops self.now) result };

    /// The sum.
    fn add(&self, a: Self::Elem, b: Self::Elem) -> Self::Elem
        requires left { IsElem (ops self.now) a }
        requires right { IsElem (ops self.now) b }
        ensures value { result ≡ (ops self.now).add a b }
        ensures elem { IsElem (ops self.now) result };

    /// The negative.
    fn neg(&self, a: Self::Elem) -> Self::Elem
        requires { IsElem (ops self.now) a }
        ensures value { result ≡ (ops self.now).neg a }
        ensures elem { IsElem (ops self.now) result };

    /// The product.
    fn mul(&self, a: Self::Elem, b: Self::Elem) -> Self::Elem
        requires left { IsElem (ops self.now) a }
        requires right { IsElem (ops self.now) b }
        ensures value { result ≡ (ops self.now).mul a b }
        ensures elem { IsElem (ops self.now) result };

    /// The element whose product with `a` is one; None exactly where `a` is zero.
    fn inv(&self, a: Self::Elem) -> Option<Self::Elem>
        requires { IsElem (ops self.now) a }
        ensures value { result ≡ inv_of self.now a }
        ensures elem { IfSome result (IsElem (ops self.now)) };

    /// Whether the two elements are equal.
    fn equal(&self, a: Self::Elem, b: Self::Elem) -> bool
        requires left { IsElem (ops self.now) a }
        requires right { IsElem (ops self.now) b }
        ensures { result ≡ (ops self.now).same a b };

    /// Adds `c` times `row` to `out`, from the place `i` on: `c row[k]` to `out[i + k]`. This body makes one
    /// product for each member of `row`; a field may have a faster one.
    fn add_row(&self, out: &mut [Self::Elem], i: usize, c: Self::Elem, row: &[Self::Elem])
        requires room { i + length row.now ≤ length out.old }
        requires out { are_elems (ops self.now) out.old ≡ true }
        requires factor { IsElem (ops self.now) c }
        requires row { are_elems (ops self.now) row.now ≡ true }
        ensures elems { are_elems (ops self.now) out.new ≡ true }
        ensures below { let r = ops self.now in (k : ℕ) → k < i → coeff r out.new k ≡ coeff r out.old k }
        ensures added { let r = ops self.now in
            (k : ℕ) → coeff r out.new (i + k) ≡ r.add (coeff r out.old (i + k)) (r.mul c (coeff r row.now k)) }
    {
        for j in 0..row.len() {
            let term = self.mul(c, row[j]);
            out[i + j] = self.add(out[i + j], term);
        }
    }

    ghost laws: { (k : Self) → IsField (ops k) (inv_of k) };
}

/// The elements of the field `K`.
pub type E<K> = <K as Field>::Elem;

/// The elements of the base of the field `K`.
pub type B<K> = <<K as FrobField>::Base as Field>::Elem;

/// A field of finite degree over a base field with `q` elements, with its Frobenius, the power `q`,
/// and with coordinates over the base. No operation takes memory.
pub trait FrobField: Field {
    type Base: Field;

    ghost base_of: { Self → Self.Base };

    /// The operations that a field over a base has beside those of a field.
    ghost frob_ops: { Self → FrobOps Self.Elem Self.Base.Elem };

    /// The base field.
    fn base(&self) -> &Self::Base
        ensures { result.now ≡ base_of self.now };

    /// The degree over the base, from 1 to 16.
    fn degree(&self) -> usize
        ensures { result ≡ (frob_ops self.now).degree };

    /// The element that `b` of the base is in this field.
    fn embed(&self, b: B<Self>) -> Self::Elem
        requires { IsElem (Self.Base.ops (base_of self.now)) b }
        ensures value { result ≡ (frob_ops self.now).embed b }
        ensures elem { IsElem (Self.ops self.now) result };

    /// The power of `c` by `q^i`, where the base has `q` elements.
    fn frob(&self, c: Self::Elem, i: usize) -> Self::Elem
        requires { IsElem (Self.ops self.now) c }
        ensures value { result ≡ (frob_ops self.now).frob c i }
        ensures elem { IsElem (Self.ops self.now) result };

    /// Coordinate `j` of `c` over the base.
    fn coord(&self, c: Self::Elem, j: usize) -> B<Self>
        requires elem { IsElem (Self.ops self.now) c }
        requires place { j < (frob_ops self.now).degree }
        ensures value { result ≡ (frob_ops self.now).coord c j }
        ensures elem { IsElem (Self.Base.ops (base_of self.now)) result };

    /// The element with these coordinates, of which there are `degree` many.
    fn of_coords(&self, list: &[B<Self>]) -> Self::Elem
        requires elems { are_elems (Self.Base.ops (base_of self.now)) list.now ≡ true }
        requires places { length list.now ≡ (frob_ops self.now).degree }
        ensures value { result ≡ (frob_ops self.now).of_coords list.now }
        ensures elem { IsElem (Self.ops self.now) result };

    ghost frob_laws: { (k : Self) → IsFrobField (Self.ops k) (Self.Base.ops (base_of k)) (frob_ops k) };
}
