//! The calls of a ring and of a field through their bounds.
ghost use Rattle.std.specs.Prelude.{◌≡◌, IfOk};
ghost use Rattle.ring_core.specs.Ring.{IsElem};

use ring_core::{E, Field, Ring};
use std::alloc::Global;
use std::test::Fail;

/// `a`, which must be an element of the ring.
pub fn checked<R: Ring>(ring: &R, a: R::Elem) -> Result<R::Elem, Fail>
    ensures { IfOk result (IsElem (R.ops ring.now)) }
{
    if ring.is_elem(&a) {
        Ok(a)
    } else {
        Err(Fail::new("an element of the ring"))
    }
}

/// `c`, which must be an element of the field.
pub fn elem<K: Field>(field: &K, c: E<K>) -> Result<E<K>, Fail>
    ensures value { IfOk result (λ e. e ≡ c) }
    ensures elem { IfOk result (IsElem (K.ops field.now)) }
{
    if field.is_elem(c) {
        Ok(c)
    } else {
        Err(Fail::new("an element of the field"))
    }
}

/// That `a` is as wanted.
pub fn is_same<R: Ring>(ring: &R, a: &R::Elem, want: &R::Elem, what: &str) -> Result<(), Fail>
    requires left { IsElem (R.ops ring.now) a.now }
    requires right { IsElem (R.ops ring.now) want.now }
{
    if ring.equal(a, want) {
        Ok(())
    } else {
        Err(Fail::new(what))
    }
}

/// That the sum and the product of `a` and `b` are as wanted, and what zero, one, the negative and the
/// copy do.
pub fn check_calls<R: Ring>(
    alloc: Global,
    ring: &R,
    a: &R::Elem,
    b: &R::Elem,
    sum: &R::Elem,
    product: &R::Elem,
) -> Result<(), Fail>
    requires left { IsElem (R.ops ring.now) a.now }
    requires right { IsElem (R.ops ring.now) b.now }
    requires sum { IsElem (R.ops ring.now) sum.now }
    requires product { IsElem (R.ops ring.now) product.now }
{
    is_same(ring, &ring.add(alloc, a, b)?, sum, "the sum")?;
    is_same(ring, &ring.mul(alloc, a, b)?, product, "the product")?;
    let zero = ring.zero(alloc)?;
    is_same(ring, &ring.add(alloc, a, &zero)?, a, "a + 0")?;
    let negative = ring.neg(alloc, a)?;
    is_same(ring, &ring.add(alloc, a, &negative)?, &zero, "a - a")?;
    let one = ring.one(alloc)?;
    let copy = ring.copy(alloc, a)?;
    is_same(ring, &ring.mul(alloc, &one, a)?, &copy, "1 a")
}
