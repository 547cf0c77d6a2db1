//! The residues of the powers of the letter from the degree of the modulus on.

ghost use Rattle.std.specs.Prelude.{◌≡◌, ◌-◌, IfOk, length};
ghost use Rattle.ring_core.specs.Ring.{IsElem};
ghost use Rattle.ring_core.specs.Coeffs.{coeff, first_values};
ghost use Rattle.residue_field.specs.Residue.{times_x};
ghost use Rattle.field_tower.specs.steps.Places.{IsModulus, stored, stored_ops};
ghost use Rattle.field_tower.specs.steps.Lanes.{letter_row};

use super::places;
use super::residues::step;
use residue_field::{Code, TopElem};
use ring_core::lists::coeff_at;
use ring_core::{Field, NoMemory};
use std::alloc::Global;

/// The letter times the residue `x`.
fn times_letter<F: Field<Elem = Code>>(field: &F, modulus: &[Code], x: TopElem) -> TopElem
    requires monic { IsModulus (F.ops field.now) modulus.now }
    requires elem { IsElem (stored_ops (F.ops field.now) modulus.now) x }
    ensures { let r = F.ops field.now in
        result ≡ stored r (length modulus.now - 2) (times_x r (length modulus.now - 2) (coeff r modulus.now) (coeff r x.0)) }
{
    let mut list = x.0;
    step(field, modulus, field.zero(), modulus, &mut list);
    TopElem(list)
}

/// The residue of the power of the letter by the degree of the modulus: minus the low coefficients of the modulus.
fn first_row<F: Field<Elem = Code>>(field: &F, modulus: &[Code]) -> TopElem
    requires monic { IsModulus (F.ops field.now) modulus.now }
    ensures { result ≡ letter_row (F.ops field.now) modulus.now 0 }
{
    let mut places = places::zeros(field);
    for i in 0..modulus.len() - 1 {
        places[i] = field.neg(coeff_at(field, modulus, i));
    }
    TopElem(places)
}

/// As many residues of powers of the letter as the modulus has degree, from that power on.
pub(crate) fn letter_rows<F: Field<Elem = Code>>(
    alloc: Global,
    field: &F,
    modulus: &[Code],
) -> Result<Vec<TopElem>, NoMemory>
    requires monic { IsModulus (F.ops field.now) modulus.now }
    ensures { IfOk result (λ v. v.items ≡ first_values (length modulus.now - 1) (letter_row (F.ops field.now) modulus.now)) }
{
    let mut rows = Vec::new(alloc);
    let mut x = first_row(field, modulus);
    for _t in 0..modulus.len() - 1 {
        rows.push(x)?;
        x = times_letter(field, modulus, x);
    }
    Ok(rows)
}
