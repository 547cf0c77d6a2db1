//! Homomorphisms of two modules, whose constants are to be equal.
ghost use Rattle.std.specs.Prelude.{◌≡◌, ◌≢◌, ◌↔◌, IsTrue, true, false, IfOk, IfErr, OnOk};
ghost use Rattle.ring_core.specs.Coeffs.{is_canonical};
ghost use Rattle.residue_field.specs.Top.{ops_of_top, frob_of_top};
ghost use Rattle.drinfeld_mod.specs.Module.{IsModule, constant_of};
ghost use Rattle.morphism.specs.Homomorphism.{IsHomomorphism};
ghost use Rattle.statement_work.specs.Refusals.{constants_differ};
ghost use Rattle.statement_work.specs.Results.{gives_value};
ghost use Rattle.statement_work.specs.Works.{IsTruth};

use answer::Answer;
use drinfeld_mod::Module;
use field_tower::{TopElem, Tower};
use morphism::is_homomorphism;
use ore_poly::Ore;
use ring_core::lists::coeff_at;
use ring_core::{E, Field};
use statement_operands::{MeaningKind, Stop};
use std::alloc::Global;

/// Refuses two modules whose constants differ.
pub(crate) fn same_constant<K: Field>(
    field: &K,
    phi: &Module<E<K>>,
    psi: &Module<E<K>>,
) -> Result<(), Stop>
    requires source { IsModule (K.ops field.now) phi.now }
    requires target { IsModule (K.ops field.now) psi.now }
    ensures told { OnOk result (constants_differ (K.ops field.now) phi.now psi.now ≡ false) }
    ensures equal { OnOk result (constant_of (K.ops field.now) phi.now ≡ constant_of (K.ops field.now) psi.now) }
    ensures stop { IfErr result (λ c. (constants_differ (K.ops field.now) phi.now psi.now ≡ true) × (c ≡ Stop.Meaning MeaningKind.OtherConstant)) }
{
    let source = coeff_at(field, phi.as_slice(), 0);
    let target = coeff_at(field, psi.as_slice(), 0);
    if field.equal(source, target) {
        Ok(())
    } else {
        Err(Stop::Meaning(MeaningKind::OtherConstant))
    }
}

/// Whether `u` is a homomorphism from `phi` to `psi`, whose constants are to be equal.
pub(crate) fn check(
    alloc: Global,
    t: &Tower,
    phi: &Module<TopElem>,
    psi: &Module<TopElem>,
    u: &Ore<TopElem>,
) -> Result<Answer, Stop>
    requires source { IsModule (ops_of_top t.now) phi.now }
    requires target { IsModule (ops_of_top t.now) psi.now }
    requires candidate { is_canonical (ops_of_top t.now) u.now ≡ true }
    ensures ok { IfOk result (λ a. (constants_differ (ops_of_top t.now) phi.now psi.now ≡ false) × IsTruth a (IsHomomorphism (ops_of_top t.now) (frob_of_top t.now).frob phi.now psi.now u.now)) }
    ensures elem { IfOk result (λ a. gives_value t.now a ≡ true) }
    ensures stop { IfErr result (λ c. c ≢ Stop.NoMemory → (constants_differ (ops_of_top t.now) phi.now psi.now ≡ true) × (c ≡ Stop.Meaning MeaningKind.OtherConstant)) }
{
    same_constant(t, phi, psi)?;
    let yes = is_homomorphism(alloc, t, phi, psi, u)?;
    Ok(Answer::Truth(yes))
}
