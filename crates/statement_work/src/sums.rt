ghost use Rattle.std.specs.Prelude.{◌≡◌, ◌≢◌, true, false, IfOk, IfErr};
ghost use Rattle.ring_core.specs.Coeffs.{is_canonical};
ghost use Rattle.ring_core.specs.Twisted.{list_add, list_neg, list_mul};
ghost use Rattle.residue_field.specs.Top.{ops_of_top, frob_of_top};
ghost use Rattle.statement_work.specs.Refusals.{is_too_large};
ghost use Rattle.statement_work.specs.Results.{gives_value};

use answer::Answer;
use field_tower::{TopElem, Tower};
use ore_poly::{Ore, OreRing};
use ring_core::{NoMemory, Ring};
use script_parse::{Limits, SizeKind};
use statement_operands::Stop;
use std::alloc::Global;

/// The sum of two twisted polynomials.
pub(crate) fn add(
    alloc: Global,
    t: &Tower,
    u: &Ore<TopElem>,
    v: &Ore<TopElem>,
) -> Result<Answer, NoMemory>
    requires left { is_canonical (ops_of_top t.now) u.now ≡ true }
    requires right { is_canonical (ops_of_top t.now) v.now ≡ true }
    ensures ok { IfOk result (λ a. a ≡ Answer.Twisted (list_add (ops_of_top t.now) u.now v.now)) }
    ensures elem { IfOk result (λ a. gives_value t.now a ≡ true) }
{
    Ok(Answer::Twisted(OreRing::new(t).add(alloc, u, v)?))
}

/// The difference of two twisted polynomials.
pub(crate) fn sub(
    alloc: Global,
    t: &Tower,
    u: &Ore<TopElem>,
    v: &Ore<TopElem>,
) -> Result<Answer, NoMemory>
    requires left { is_canonical (ops_of_top t.now) u.now ≡ true }
    requires right { is_canonical (ops_of_top t.now) v.now ≡ true }
    ensures ok { IfOk result (λ a. a ≡ Answer.Twisted (list_add (ops_of_top t.now) u.now (list_neg (ops_of_top t.now) v.now))) }
    ensures elem { IfOk result (λ a. gives_value t.now a ≡ true) }
{
    let ring = OreRing::new(t);
    let negative = ring.neg(alloc, v)?;
    Ok(Answer::Twisted(ring.add(alloc, u, &negative)?))
}

/// The product of two twisted polynomials. It is too large where the degrees of two that aren't zero
/// add to more than the limit of degrees.
pub(crate) fn mul(
    alloc: Global,
    t: &Tower,
    u: &Ore<TopElem>,
    v: &Ore<TopElem>,
) -> Result<Answer, Stop>
    requires left { is_canonical (ops_of_top t.now) u.now ≡ true }
    requires right { is_canonical (ops_of_top t.now) v.now ≡ true }
    ensures ok { IfOk result (λ a. (is_too_large u.now v.now ≡ false) × (a ≡ Answer.Twisted (list_mul (ops_of_top t.now) (frob_of_top t.now).frob u.now v.now))) }
    ensures elem { IfOk result (λ a. gives_value t.now a ≡ true) }
    ensures stop { IfErr result (λ c. c ≢ Stop.NoMemory → (is_too_large u.now v.now ≡ true) × (c ≡ Stop.Size SizeKind.Degree)) }
{
    if is_too_large(u, v) {
        return Err(Stop::Size(SizeKind::Degree));
    }
    let product = OreRing::new(t).mul(alloc, u, v)?;
    Ok(Answer::Twisted(product))
}

/// Whether the degrees of two twisted polynomials that aren't zero add to more than the limit.
fn is_too_large(u: &Ore<TopElem>, v: &Ore<TopElem>) -> bool
    ensures { result ≡ is_too_large u.now v.now }
{
    let most = Limits::version_1().degree;
    match u.degree() {
        None => false,
        Some(m) => match v.degree() {
            None => false,
            Some(n) => m > most || n > most - m,
        },
    }
}
