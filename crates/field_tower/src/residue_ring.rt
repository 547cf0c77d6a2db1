//! The ring of residues modulo a polynomial over a field of codes.

ghost use Rattle.std.specs.Prelude.{◌≡◌, ◌-◌, length};
ghost use Rattle.ring_core.specs.Coeffs.{coeff};
ghost use Rattle.residue_field.specs.Residue.{residue_letter};
ghost use Rattle.residue_field.specs.TopElem.{top_places};
ghost use Rattle.field_tower.specs.steps.Places.{IsModulus, stored_ops};
ghost use Rattle.field_tower.specs.steps.Algebra.{stored_coords, stored_algebra};

use super::algebra::Algebra;
use super::places;
use super::residues::multiply;
use residue_field::{Code, TopElem};
use ring_core::Field;
use ring_core::lists::coeff_at;

/// The ring of the residues modulo `modulus`, which is monic of a degree from 1 to `WIDTH`. An element has
/// its coefficients, lowest first, at the places below the degree, and zero past them.
#[derive(Drop)]
pub(crate) struct Residues<'f, F: Field<Elem = Code>> {
    pub(crate) field: &'f F,
    pub(crate) modulus: &'f [Code],
    ghost monic: { IsModulus (F.ops field.now) modulus.now },
}

impl<'f, F: Field<Elem = Code>> Residues<'f, F> {
    /// The residue of the letter. Modulo a polynomial of degree 1 it is minus the constant of the modulus.
    pub(crate) fn letter(&self) -> TopElem
        ensures { let r = F.ops self.now.field.now in let n = length self.now.modulus.now - 2 in
            result ≡ residue_letter r n (coeff r self.now.modulus.now) (top_places r n) }
    {
        let mut places = places::zeros(self.field);
        if self.modulus.len() == 2 {
            places[0] = self.field.neg(coeff_at(self.field, self.modulus, 0));
        } else {
            places[1] = self.field.one();
        }
        TopElem(places)
    }
}

impl<'f, F: Field<Elem = Code>> Algebra for Residues<'f, F> {
    type Elem = TopElem;

    type Constants = F;

    ghost constants_of = { λ k. k.field.now };

    ghost ops = { λ k. stored_ops (F.ops k.field.now) k.modulus.now };

    ghost coords_of = { λ k. stored_coords (F.ops k.field.now) k.modulus.now };

    fn constants(&self) -> &F {
        self.field
    }

    fn dimension(&self) -> usize {
        self.modulus.len() - 1
    }

    fn coords<'x>(&self, x: &'x TopElem) -> &'x [Code] {
        &x.0[..self.modulus.len() - 1]
    }

    fn of_coords(&self, list: &[Code]) -> TopElem {
        places::residue_of(self.field, list)
    }

    fn unit(&self, j: usize) -> TopElem {
        places::unit(self.field, self.modulus.len() - 1, j)
    }

    fn constant(&self, c: Code) -> TopElem {
        places::constant(self.field, c)
    }

    fn one(&self) -> TopElem {
        places::one(self.field)
    }

    fn add(&self, a: TopElem, b: TopElem) -> TopElem {
        let mut places = places::zeros(self.field);
        for i in 0..self.modulus.len() - 1 {
            places[i] = self.field.add(
                coeff_at(self.field, &a.0, i),
                coeff_at(self.field, &b.0, i),
            );
        }
        TopElem(places)
    }

    fn neg(&self, a: TopElem) -> TopElem {
        let mut places = places::zeros(self.field);
        for i in 0..self.modulus.len() - 1 {
            places[i] = self.field.neg(coeff_at(self.field, &a.0, i));
        }
        TopElem(places)
    }

    fn mul(&self, a: TopElem, b: TopElem) -> TopElem {
        let mut places = places::zeros(self.field);
        multiply(self.field, self.modulus, &a.0, &b.0, &mut places);
        TopElem(places)
    }

    fn is_zero(&self, a: TopElem) -> bool {
        places::is_zero(self.field, a)
    }

    ghost laws = { λ k. stored_algebra (F.ops k.field.now) (F.laws k.field.now).ring (F.laws k.field.now).mul_comm k.modulus.now k.monic };
}
