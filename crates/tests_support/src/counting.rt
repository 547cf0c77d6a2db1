//! Fields and rings that count what is asked of them. Contracts see each as what it counts for.
ghost use Rattle.std.specs.Prelude.{◌≡◌};

use ring_core::{B, E, Field, FrobField, NoMemory, Ring};
use std::alloc::Global;
use std::cell::Cell;
use std::marker::Model;

fn count_one(counter: &Cell<u64>) {
    count_many(counter, 1);
}

fn count_many(counter: &Cell<u64>, n: usize) {
    counter.set(counter.get().wrapping_add(n as u64));
}

/// A field that counts its products, its inverses, and the steps of its Frobenius where it has one. A row that is added to
/// another counts as one product for each of its members, whatever the field has for it.
#[derive(Drop)]
pub struct CountingField<'k, K: Field> {
    field: &'k K,
    products: Cell<u64>,
    inverses: Cell<u64>,
    steps: Cell<u64>,
}

impl<'k, K: Field> Model for CountingField<'k, K> {
    ghost Value = { K };

    ghost view = { λ c. c.field.now };
}

impl<'k, K: Field> CountingField<'k, K> {
    /// The field, with nothing counted.
    pub fn new(field: &'k K) -> CountingField<'k, K>
        ensures { result ≡ field.now }
    {
        CountingField {
            field,
            products: Cell::new(0),
            inverses: Cell::new(0),
            steps: Cell::new(0),
        }
    }

    /// How many products were asked for.
    pub fn products(&self) -> u64 {
        self.products.get()
    }

    /// How many inverses were asked for.
    pub fn inverses(&self) -> u64 {
        self.inverses.get()
    }

    /// How many times the Frobenius was asked for.
    pub fn steps(&self) -> u64 {
        self.steps.get()
    }
}

impl<'k, K: Field> Field for CountingField<'k, K> {
    type Elem = E<K>;

    ghost ops = { λ k. K.ops k };

    ghost inv_of = { λ k. K.inv_of k };

    ghost ring = { λ k. K.ring k };

    fn is_elem(&self, a: E<K>) -> bool {
        self.field.is_elem(a)
    }

    fn zero(&self) -> E<K> {
        self.field.zero()
    }

    fn one(&self) -> E<K> {
        self.field.one()
    }

    fn add(&self, a: E<K>, b: E<K>) -> E<K> {
        self.field.add(a, b)
    }

    fn neg(&self, a: E<K>) -> E<K> {
        self.field.neg(a)
    }

    fn mul(&self, a: E<K>, b: E<K>) -> E<K> {
        count_one(&self.products);
        self.field.mul(a, b)
    }

    fn inv(&self, a: E<K>) -> Option<E<K>> {
        count_one(&self.inverses);
        self.field.inv(a)
    }

    fn equal(&self, a: E<K>, b: E<K>) -> bool {
        self.field.equal(a, b)
    }

    fn add_row(&self, out: &mut [E<K>], i: usize, c: E<K>, row: &[E<K>]) {
        count_many(&self.products, row.len());
        self.field.add_row(out, i, c, row)
    }

    ghost laws = { λ k. K.laws k };
}

impl<'k, K: FrobField> FrobField for CountingField<'k, K> {
    type Base = K::Base;

    ghost base_of = { λ k. K.base_of k };

    ghost frob_ops = { λ k. K.frob_ops k };

    fn base(&self) -> &K::Base {
        self.field.base()
    }

    fn degree(&self) -> usize {
        self.field.degree()
    }

    fn embed(&self, b: B<K>) -> E<K> {
        self.field.embed(b)
    }

    fn frob(&self, c: E<K>, i: usize) -> E<K> {
        count_one(&self.steps);
        self.field.frob(c, i)
    }

    fn coord(&self, c: E<K>, j: usize) -> B<K> {
        self.field.coord(c, j)
    }

    fn of_coords(&self, list: &[B<K>]) -> E<K> {
        self.field.of_coords(list)
    }

    ghost frob_laws = { λ k. K.frob_laws k };
}

/// A ring that counts its products.
#[derive(Drop)]
pub struct CountingRing<'r, R: Ring> {
    ring: &'r R,
    products: Cell<u64>,
}

impl<'r, R: Ring> Model for CountingRing<'r, R> {
    ghost Value = { R };

    ghost view = { λ c. c.ring.now };
}

impl<'r, R: Ring> CountingRing<'r, R> {
    /// The ring, with nothing counted.
    pub fn new(ring: &'r R) -> CountingRing<'r, R>
        ensures { result ≡ ring.now }
    {
        CountingRing {
            ring,
            products: Cell::new(0),
        }
    }

    /// How many products were asked for.
    pub fn products(&self) -> u64 {
        self.products.get()
    }
}

impl<'r, R: Ring> Ring for CountingRing<'r, R> {
    type Elem = R::Elem;

    ghost ops = { λ r. R.ops r };

    fn is_elem(&self, a: &R::Elem) -> bool {
        self.ring.is_elem(a)
    }

    fn zero(&self, alloc: Global) -> Result<R::Elem, NoMemory> {
        self.ring.zero(alloc)
    }

    fn one(&self, alloc: Global) -> Result<R::Elem, NoMemory> {
        self.ring.one(alloc)
    }

    fn copy(&self, alloc: Global, a: &R::Elem) -> Result<R::Elem, NoMemory> {
        self.ring.copy(alloc, a)
    }

    fn add(&self, alloc: Global, a: &R::Elem, b: &R::Elem) -> Result<R::Elem, NoMemory> {
        self.ring.add(alloc, a, b)
    }

    fn neg(&self, alloc: Global, a: &R::Elem) -> Result<R::Elem, NoMemory> {
        self.ring.neg(alloc, a)
    }

    fn mul(&self, alloc: Global, a: &R::Elem, b: &R::Elem) -> Result<R::Elem, NoMemory> {
        count_one(&self.products);
        self.ring.mul(alloc, a, b)
    }

    fn equal(&self, a: &R::Elem, b: &R::Elem) -> bool {
        self.ring.equal(a, b)
    }

    ghost laws = { λ r. R.laws r };
}
