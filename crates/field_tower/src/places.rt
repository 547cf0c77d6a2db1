ghost use Rattle.std.specs.Prelude.{◌≡◌, ℕ, ◌-◌, ◌*◌, ◌^◌, ◌≤◌, ◌<◌, List, length, drop, cond, nat_eq, true};
ghost use Rattle.ring_core.specs.Ring.{IsElem};
ghost use Rattle.ring_core.specs.Coeffs.{coeff, are_elems, same_lists};
ghost use Rattle.residue_field.specs.declared.TheConstants.{WIDTH};
ghost use Rattle.residue_field.specs.Residue.{constant_at};
ghost use Rattle.residue_field.specs.TopElem.{are_zeros, top_places};
ghost use Rattle.residue_field.specs.steps.Stored.{residue_unit};
ghost use Rattle.field_tower.specs.steps.Places.{IsModulus, stored, stored_ops};

use residue_field::{Code, TopElem, WIDTH};
use ring_core::Field;
use ring_core::lists::{all_elems, coeff_at, equal_lists};

/// Whether each member of `list` is zero.
fn are_zero<F: Field<Elem = Code>>(field: &F, list: &[Code]) -> bool
    requires { are_elems (F.ops field.now) list.now ≡ true }
    ensures { result ≡ are_zeros (F.ops field.now) list.now }
{
    for i in 0..list.len() {
        if !field.equal(coeff_at(field, list, i), field.zero()) {
            return false;
        }
    }
    true
}

/// Whether `a` has elements of `field` at its first `n` places and zero past them.
pub(crate) fn is_residue<F: Field<Elem = Code>>(field: &F, n: usize, a: TopElem) -> bool
    requires positive { 0 < n }
    requires room { n ≤ WIDTH }
    ensures { result ≡ (top_places (F.ops field.now) (n - 1)).is_elem a }
{
    all_elems(field, &a.0) && are_zero(field, &a.0[n..])
}

/// Whether `a` and `b` are equal, place by place.
pub(crate) fn equal<F: Field<Elem = Code>>(field: &F, a: TopElem, b: TopElem) -> bool
    requires left { are_elems (F.ops field.now) a.0 ≡ true }
    requires right { are_elems (F.ops field.now) b.0 ≡ true }
    ensures { result ≡ same_lists (F.ops field.now) a.0 b.0 }
{
    equal_lists(field, &a.0, &b.0)
}

/// Zero at each place.
pub(crate) fn zeros<F: Field<Elem = Code>>(field: &F) -> [Code; WIDTH]
    ensures values { (i : ℕ) → coeff (F.ops field.now) result i ≡ (F.ops field.now).zero }
    ensures elems { are_elems (F.ops field.now) result ≡ true }
{
    [field.zero(); WIDTH]
}

/// The residue of the constant `c`, modulo a polynomial of any degree.
pub(crate) fn constant<F: Field<Elem = Code>>(field: &F, c: Code) -> TopElem
    ensures { (n : ℕ) → result ≡ stored (F.ops field.now) n (constant_at (F.ops field.now) c) }
{
    let mut places = zeros(field);
    places[0] = c;
    TopElem(places)
}

/// The residue of the power `j` of the letter, modulo a polynomial of degree `n`.
pub(crate) fn unit<F: Field<Elem = Code>>(field: &F, n: usize, j: usize) -> TopElem
    requires place { j < n }
    requires room { n ≤ WIDTH }
    ensures { result ≡ residue_unit (F.ops field.now) (top_places (F.ops field.now) (n - 1)) j }
{
    let mut list = zeros(field);
    list[j] = field.one();
    TopElem(list)
}

/// Whether the residue `a` is zero.
pub(crate) fn is_zero<F: Field<Elem = Code>>(field: &F, a: TopElem) -> bool
    requires { are_elems (F.ops field.now) a.0 ≡ true }
    ensures { (d : ℕ) → result ≡ (top_places (F.ops field.now) d).same a (stored (F.ops field.now) d (λ i. (F.ops field.now).zero)) }
{
    equal(field, a, constant(field, field.zero()))
}

/// The residue with the coefficients of `list`, lowest first.
pub(crate) fn residue_of<F: Field<Elem = Code>>(field: &F, list: &[Code]) -> TopElem
    requires elems { are_elems (F.ops field.now) list.now ≡ true }
    requires some { 0 < length list.now }
    requires room { length list.now ≤ WIDTH }
    ensures { result ≡ stored (F.ops field.now) (length list.now - 1) (coeff (F.ops field.now) list.now) }
{
    let mut places = zeros(field);
    for i in 0..list.len() {
        places[i] = coeff_at(field, list, i);
    }
    TopElem(places)
}

/// The residue one, modulo a polynomial of any degree.
pub(crate) fn one<F: Field<Elem = Code>>(field: &F) -> TopElem
    ensures value { (modulus : List ℕ) → result ≡ (stored_ops (F.ops field.now) modulus).one }
    ensures elem { (modulus : List ℕ) → IsModulus (F.ops field.now) modulus → IsElem (stored_ops (F.ops field.now) modulus) result }
{
    constant(field, field.one())
}
