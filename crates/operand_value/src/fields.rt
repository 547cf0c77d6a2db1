//! The numbers and letters of the finite fields.
ghost use Rattle.std.specs.Prelude.{◌≡◌, ◌%◌};
ghost use Rattle.ring_core.specs.Ring.{IsElem};
ghost use Rattle.residue_field.specs.Base.{ops_of, letter_code};
ghost use Rattle.residue_field.specs.Top.{ops_of_top, embed_of, letter_of};
ghost use Rattle.operand_value.specs.Fields.{prime_letters, base_letters, top_letters};

use super::letters::Letters;
use field_tower::{BaseField, Code, PrimeField, TopElem, Tower};
use ring_core::{Field, FrobField};

/// The number `n` modulo the prime of the base, as an element of the base.
fn reduced(base: &BaseField, n: u32) -> Code
    ensures value { result ≡ n % base.now.p }
    ensures elem { IsElem (ops_of base.now) result }
{
    (n % base.p()) as Code
}

impl Letters for PrimeField {
    ghost letters = { λ k. prime_letters k.p };

    fn number(&self, n: u32) -> Code {
        (n % self.p) as Code
    }

    fn a(&self) -> Code {
        self.zero()
    }

    fn z(&self) -> Code {
        self.zero()
    }
}

impl Letters for BaseField {
    ghost letters = { base_letters };

    fn number(&self, n: u32) -> Code {
        reduced(self, n)
    }

    fn a(&self) -> Code {
        self.letter()
    }

    fn z(&self) -> Code {
        self.zero()
    }
}

impl Letters for Tower {
    ghost letters = { top_letters };

    fn number(&self, n: u32) -> TopElem {
        self.embed(reduced(self.base(), n))
    }

    fn a(&self) -> TopElem {
        self.embed(self.base().letter())
    }

    fn z(&self) -> TopElem {
        self.letter()
    }
}
