//! Modules from lists, and polynomials over the base as lists of elements of the field.
ghost use Rattle.std.specs.Prelude.{◌≡◌, IfOk, true};
ghost use Rattle.ring_core.specs.Coeffs.{is_canonical};
ghost use Rattle.drinfeld_mod.specs.Module.{IsModule, constant_of};

use drinfeld_mod::{Module, make};
use fq_poly::Poly;
use ring_core::lists::all_elems;
use ring_core::{B, E, Field, FrobField};
use std::alloc::Global;
use std::test::Fail;
use tests_support::rings::elem;
use tests_support::twisted::{poly, row};

/// The lists of a text with `; ` between them, by the numbers of their elements.
pub fn rows<C: Copy>(alloc: Global, names: &[C], text: &str) -> Result<Vec<Vec<C>>, Fail> {
    let mut lists = Vec::new(alloc);
    for part in text.split("; ") {
        let Ok(()) = lists.push(row(alloc, names, part)?) else {
            return Err(Fail::new("memory for a list"));
        };
    }
    Ok(lists)
}

/// The module with these coefficients, lowest first.
pub fn module<K: FrobField>(alloc: Global, field: &K, list: &[E<K>]) -> Result<Module<E<K>>, Fail>
    ensures { IfOk result (IsModule (K.ops field.now)) }
{
    if !all_elems(field, list) {
        return Err(Fail::new("elements of the field"));
    }
    match make(alloc, field, list) {
        Ok(phi) => Ok(phi),
        Err(_) => Err(Fail::new("a module")),
    }
}

/// That the modules have the same constant.
pub fn meet<K: FrobField>(field: &K, phi: &Module<E<K>>, psi: &Module<E<K>>) -> Result<(), Fail>
    requires source { IsModule (K.ops field.now) phi.now }
    requires target { IsModule (K.ops field.now) psi.now }
    ensures { IfOk result (λ _. constant_of (K.ops field.now) phi.now ≡ constant_of (K.ops field.now) psi.now) }
{
    let source = elem(field, phi.constant())?;
    let target = elem(field, psi.constant())?;
    if field.equal(source, target) {
        Ok(())
    } else {
        Err(Fail::new("modules with the same constant"))
    }
}

/// The element of the field that `b` of the base is.
fn embedded_one<K: FrobField>(field: &K, b: B<K>) -> Result<E<K>, Fail> {
    let b = elem(field.base(), b)?;
    Ok(field.embed(b))
}

/// The elements of the field that these of the base are.
pub fn embedded<K: FrobField>(alloc: Global, field: &K, list: &[B<K>]) -> Result<Vec<E<K>>, Fail> {
    let mut images = Vec::new(alloc);
    for b in list {
        let Ok(()) = images.push(embedded_one(field, *b)?) else {
            return Err(Fail::new("memory for a list"));
        };
    }
    Ok(images)
}

/// The first coordinate of `c` over the base: the element of the base that `c` is, where it is one.
fn in_base<K: FrobField>(field: &K, c: E<K>) -> Result<B<K>, Fail> {
    let c = elem(field, c)?;
    if field.degree() == 0 {
        return Err(Fail::new("a degree"));
    }
    Ok(field.coord(c, 0))
}

/// The polynomial over the base whose coefficients are these elements of the field, lowest first.
pub fn base_poly<K: FrobField>(alloc: Global, field: &K, list: &[E<K>]) -> Result<Poly<B<K>>, Fail>
    ensures { IfOk result (λ a. is_canonical (K.Base.ops (K.base_of field.now)) a ≡ true) }
{
    let mut coefficients = Vec::new(alloc);
    for c in list {
        let Ok(()) = coefficients.push(in_base(field, *c)?) else {
            return Err(Fail::new("memory for a list"));
        };
    }
    poly(alloc, field.base(), &coefficients)
}
