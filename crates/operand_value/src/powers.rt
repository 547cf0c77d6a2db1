//! The powers of the letters of a sum, made once: a factor looks its power up.
ghost use Rattle.std.specs.Prelude.{◌≡◌, IfOk, length, true};
ghost use Rattle.ring_core.specs.Ring.{IsElem};
ghost use Rattle.ring_core.specs.Powers.{power_of};
ghost use Rattle.operand_value.specs.steps.Powers.{ArePowers};

use super::letters::Letters;
use ring_core::lists::coeff_at;
use ring_core::{E, Field, NoMemory, field_power};
use script_lang::{Factor, Sum, Term};
use std::alloc::Global;

/// The most powers of a letter that are made before a sum is read.
const MOST: usize = 128;

/// How many powers of each letter are looked up.
#[derive(Clone, Copy)]
pub(crate) struct Uses {
    a: usize,
    z: usize,
}

impl Uses {
    /// None so far.
    pub(crate) fn none() -> Uses {
        Uses { a: 0, z: 0 }
    }

    /// Counts those of a sum.
    #[cycle(uses)]
    pub(crate) fn count(&mut self, sum: &Sum) {
        for term in sum.terms.as_slice() {
            self.count_term(term);
        }
    }

    /// Counts those of a term.
    #[cycle(uses)]
    fn count_term(&mut self, term: &Term) {
        for factor in term.factors.as_slice() {
            self.count_factor(factor);
        }
    }

    /// Counts those of a factor.
    #[cycle(uses)]
    fn count_factor(&mut self, factor: &Factor) {
        match factor {
            Factor::Number(_) => {}
            Factor::A(_) => self.a = self.a.saturating_add(1),
            Factor::Z(_) => self.z = self.z.saturating_add(1),
            Factor::Group(sum) => self.count(sum),
        }
    }
}

/// The first `n` powers of `x`, from the power zero on.
fn powers<F: Field>(alloc: Global, field: &F, x: E<F>, n: usize) -> Result<Vec<E<F>>, NoMemory>
    requires { IsElem (F.ops field.now) x }
    ensures { IfOk result (λ v. ArePowers (F.ops field.now) x v.items) }
{
    let mut powers = Vec::with_capacity(alloc, n)?;
    let mut next = field.one();
    for i in 0..n {
        powers.push(next)?;
        next = field.mul(next, x);
    }
    Ok(powers)
}

/// Powers of the letter `a`: no more than are looked up, so that a sum makes at most one product more for
/// each, and none past the first but for high exponents.
pub(crate) fn powers_of_a<F: Letters>(
    alloc: Global,
    field: &F,
    uses: Uses,
) -> Result<Vec<E<F>>, NoMemory>
    ensures { IfOk result (λ v. ArePowers (F.ops field.now) (F.letters field.now).a v.items) }
{
    powers(alloc, field, field.a(), uses.a.min(MOST))
}

/// Powers of the letter `z`, as many as of `a`.
pub(crate) fn powers_of_z<F: Letters>(
    alloc: Global,
    field: &F,
    uses: Uses,
) -> Result<Vec<E<F>>, NoMemory>
    ensures { IfOk result (λ v. ArePowers (F.ops field.now) (F.letters field.now).z v.items) }
{
    powers(alloc, field, field.z(), uses.z.min(MOST))
}

/// The power `k` of `x`: one of those that are made, or made now.
pub(crate) fn power_among<F: Field>(field: &F, powers: &[E<F>], x: E<F>, k: u32) -> E<F>
    requires elem { IsElem (F.ops field.now) x }
    requires powers { ArePowers (F.ops field.now) x powers.now }
    ensures value { result ≡ power_of (F.ops field.now) x k }
    ensures elem { IsElem (F.ops field.now) result }
{
    let place = k as usize;
    if place < powers.len() {
        coeff_at(field, powers, place)
    } else {
        field_power(field, x, k as u128)
    }
}
