ghost use Rattle.std.specs.Prelude.{◌≡◌, IfOk, true};
ghost use Rattle.ring_core.specs.Ring.{IsElem};
ghost use Rattle.ring_core.specs.Coeffs.{are_elems};
ghost use Rattle.ring_core.specs.Powers.{power_of};
ghost use Rattle.operand_value.specs.steps.Powers.{ArePowers};
ghost use Rattle.operand_value.specs.Values.{signed, sum_value, term_value, factor_value, sum_values};

use super::letters::Letters;
use super::powers::{Uses, power_among, powers_of_a, powers_of_z};
use ring_core::{E, Field, NoMemory};
use script_lang::{Factor, Sum, Term};
use std::alloc::Global;

/// `a`, negated where there is a minus.
fn signed<F: Field>(field: &F, minus: bool, a: E<F>) -> E<F>
    requires { IsElem (F.ops field.now) a }
    ensures value { result ≡ signed (F.ops field.now) minus a }
    ensures elem { IsElem (F.ops field.now) result }
{
    if minus { field.neg(a) } else { a }
}

/// The power `k` of the letter `a`.
fn power_of_a<F: Letters>(field: &F, powers: &[E<F>], k: u32) -> E<F>
    requires { ArePowers (F.ops field.now) (F.letters field.now).a powers.now }
    ensures value { result ≡ power_of (F.ops field.now) (F.letters field.now).a k }
    ensures elem { IsElem (F.ops field.now) result }
{
    let a = field.a();
    power_among(field, powers, a, k)
}

/// The power `k` of the letter `z`.
fn power_of_z<F: Letters>(field: &F, powers: &[E<F>], k: u32) -> E<F>
    requires { ArePowers (F.ops field.now) (F.letters field.now).z powers.now }
    ensures value { result ≡ power_of (F.ops field.now) (F.letters field.now).z k }
    ensures elem { IsElem (F.ops field.now) result }
{
    let z = field.z();
    power_among(field, powers, z, k)
}

/// The number `n`.
fn number<F: Letters>(field: &F, n: u32) -> E<F>
    ensures value { result ≡ (F.letters field.now).number n }
    ensures elem { IsElem (F.ops field.now) result }
{
    field.number(n)
}

/// The value of a sum in a field: numbers and letters are what `Letters` says. No power of the letter
/// that ends a term counts. `a` and `z` are powers of the letters that are made.
#[cycle(value)]
fn sum_value<F: Letters>(field: &F, a: &[E<F>], z: &[E<F>], sum: &Sum) -> E<F>
    requires a { ArePowers (F.ops field.now) (F.letters field.now).a a.now }
    requires z { ArePowers (F.ops field.now) (F.letters field.now).z z.now }
    ensures value { result ≡ sum_value (F.ops field.now) (F.letters field.now) sum.now }
    ensures elem { IsElem (F.ops field.now) result }
{
    let mut total = field.zero();
    for term in sum.terms.as_slice() {
        total = field.add(total, term_value(field, a, z, term));
    }
    total
}

/// The value of a term without the power of the letter that ends it.
#[cycle(value)]
pub(crate) fn term_value<F: Letters>(field: &F, a: &[E<F>], z: &[E<F>], term: &Term) -> E<F>
    requires a { ArePowers (F.ops field.now) (F.letters field.now).a a.now }
    requires z { ArePowers (F.ops field.now) (F.letters field.now).z z.now }
    ensures value { result ≡ term_value (F.ops field.now) (F.letters field.now) term.now }
    ensures elem { IsElem (F.ops field.now) result }
{
    let mut product = field.one();
    for factor in term.factors.as_slice() {
        product = field.mul(product, factor_value(field, a, z, factor));
    }
    signed(field, term.minus, product)
}

/// The value of a factor.
#[cycle(value)]
fn factor_value<F: Letters>(field: &F, a: &[E<F>], z: &[E<F>], factor: &Factor) -> E<F>
    requires a { ArePowers (F.ops field.now) (F.letters field.now).a a.now }
    requires z { ArePowers (F.ops field.now) (F.letters field.now).z z.now }
    ensures value { result ≡ factor_value (F.ops field.now) (F.letters field.now) factor.now }
    ensures elem { IsElem (F.ops field.now) result }
{
    match factor {
        Factor::Number(n) => number(field, *n),
        Factor::A(k) => power_of_a(field, a, *k),
        Factor::Z(k) => power_of_z(field, z, *k),
        Factor::Group(sum) => sum_value(field, a, z, sum),
    }
}

/// How many powers of the letters the sums look up.
fn uses_of_sums(sums: &[Sum]) -> Uses {
    let mut uses = Uses::none();
    for sum in sums {
        uses.count(sum);
    }
    uses
}

/// The values of the sums of a list, in its order.
pub fn sum_values<F: Letters>(alloc: Global, field: &F, sums: &[Sum]) -> Result<Vec<E<F>>, NoMemory>
    ensures value { IfOk result (λ v. v.items ≡ sum_values (F.ops field.now) (F.letters field.now) sums.now) }
    ensures elem { IfOk result (λ v. are_elems (F.ops field.now) v.items ≡ true) }
{
    let uses = uses_of_sums(sums);
    let a = powers_of_a(alloc, field, uses)?;
    let z = powers_of_z(alloc, field, uses)?;
    let mut values = Vec::new(alloc);
    for sum in sums {
        values.push(sum_value(field, &a, &z, sum))?;
    }
    Ok(values)
}
