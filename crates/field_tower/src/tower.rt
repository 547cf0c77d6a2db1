ghost use Rattle.std.specs.Prelude.{◌≡◌, ◌+◌, ◌-◌, ◌*◌, IfOk, MatchOption, length, true};
ghost use Rattle.ring_core.specs.Ring.{IsElem};
ghost use Rattle.ring_core.specs.Coeffs.{are_elems, first_values};
ghost use Rattle.residue_field.specs.Base.{ops_of, size_of};
ghost use Rattle.residue_field.specs.Top.{Top, IsTop, top_ops, top_code, ops_of_top, inverse_of_top, embed_of, frob_of_top, letter_of};
ghost use Rattle.residue_field.proofs.TopLaws.{top_field, top_ring};
ghost use Rattle.residue_field.proofs.TopFrob.{top_frob_field};
ghost use Rattle.residue_field.specs.declared.TheConstants.{WIDTH};
ghost use Rattle.finite_ring.specs.Finite.{HasNoPair};
ghost use Rattle.field_tower.specs.steps.Places.{IsModulus};
ghost use Rattle.field_tower.specs.Pairs.{IsPair};
ghost use Rattle.field_tower.specs.steps.Images.{frob_image};
ghost use Rattle.field_tower.specs.steps.Lanes.{letter_row};
ghost use Rattle.field_tower.specs.steps.LetterPowers.{letter_image};
ghost use Rattle.field_tower.specs.steps.Norm.{conjugate_product};
ghost use Rattle.minimal_poly.specs.MinPoly.{IsMinPoly};

use super::accept::find_pair;
use super::algebra::Algebra;
use super::base::BaseField;
use super::fault::TowerFault;
use super::frobenius::images;
use super::letters::letter_rows;
use super::powers::letter_images;
use super::residue_ring::Residues;
use super::{places, products, row_products};
use fq_poly::Poly;
use minimal_poly::min_poly;
use residue_field::{Code, TopElem, WIDTH};
use ring_core::{Field, FrobField, NoMemory};
use std::alloc::Global;
use std::marker::Model;

/// The field of the residues modulo a polynomial over a base field. Its elements have their
/// coefficients, lowest first, at the places below the degree, and 0 past them.
#[derive(Drop)]
pub struct Tower {
    base: BaseField,
    n: u32,
    modulus: Vec<Code>,
    images: Vec<TopElem>,
    letters: Vec<TopElem>,
    ghost is_top: { IsTop base n modulus.items },
    ghost images_are: { images.items ≡ first_values (n * n) (frob_image base n modulus.items) },
    ghost letters_are: { letters.items ≡ first_values (length modulus.items - 1) (letter_row (ops_of base) modulus.items) },
}

impl Model for Tower {
    ghost Value = { Top };

    ghost coded = { top_code };

    ghost view = { λ t. record { base = t.base; n = t.n; modulus = t.modulus.items; is_top = t.is_top } };
}

/// A refusal to make a top field, with the base field that was handed in.
#[derive(Drop)]
pub struct TowerRefused {
    /// The base field, unchanged.
    pub base: BaseField,
    /// Why the data are no top field.
    pub why: TowerFault,
}

/// Two nonzero residues modulo `modulus` of degree `n` whose product is zero, None where there are none.
fn top_pair(
    alloc: Global,
    base: &BaseField,
    n: usize,
    modulus: &[Code],
    powers: &[TopElem],
) -> Result<Option<(TopElem, TopElem)>, NoMemory>
    requires monic { IsModulus (ops_of base.now) modulus.now }
    requires degree { length modulus.now ≡ n + 1 }
    requires powers { powers.now ≡ first_values (length modulus.now - 1) (letter_image (ops_of base.now) (size_of base.now) modulus.now) }
    ensures { let t = top_ops base.now (n - 1) modulus.now in
        IfOk result (λ o. MatchOption o (HasNoPair t) (λ pair. IsPair t pair.0 pair.1)) }
{
    let ring = Residues {
        field: base,
        modulus,
    };
    find_pair(alloc, &ring, base.q(), powers)
}

/// What a top field keeps beside its base.
#[derive(Drop)]
struct TopParts {
    modulus: Vec<Code>,
    images: Vec<TopElem>,
    letters: Vec<TopElem>,
}

impl Tower {
    ghost use Rattle.std.specs.Prelude.{MatchResult};
    ghost use Rattle.field_tower.specs.MakeTop.{MakesTop, IsTopFault};
    ghost use Rattle.field_tower.specs.steps.Parts.{ArePartsOf};

    /// The field of the residues modulo `modulus`, whose `n + 1` members are elements of `base`, lowest
    /// coefficient first. The refusals come in this order: `TooLarge` where `n` is 0 or more than
    /// `WIDTH`; `BadModulus` where the list hasn't `n + 1` members or the last isn't 1; `ZeroDivisors`
    /// where two nonzero residues multiply to zero, with such a pair; and `NoMemory` where memory is
    /// refused. Each hands the base field back unchanged. No pairs are tried: the answer is found by two
    /// linear systems of `n` rows over the base.
    pub fn make(
        alloc: Global,
        base: BaseField,
        n: u32,
        modulus: &[Code],
    ) -> Result<Tower, TowerRefused>
        requires members { are_elems (ops_of base) modulus.now ≡ true }
        ensures { MakesTop base n modulus.now result }
    {
        match Tower::parts(alloc, &base, n, modulus) {
            Ok(
                TopParts {
                    modulus,
                    images,
                    letters,
                },
            ) => Ok(Tower {
                base,
                n,
                modulus,
                images,
                letters,
            }),
            Err(why) => Err(TowerRefused { base, why }),
        }
    }

    /// What the top field of these data keeps beside the base, or why they are no top field.
    fn parts(
        alloc: Global,
        base: &BaseField,
        n: u32,
        modulus: &[Code],
    ) -> Result<TopParts, TowerFault>
        requires members { are_elems (ops_of base.now) modulus.now ≡ true }
        ensures { MatchResult result (λ parts. ArePartsOf base.now n modulus.now parts.modulus.items parts.images.items parts.letters.items) (IsTopFault base.now n modulus.now) }
    {
        let degree = n as usize;
        if degree == 0 || degree > WIDTH {
            return Err(TowerFault::TooLarge);
        }
        if modulus.len() != degree + 1 || modulus[degree] != base.one() {
            return Err(TowerFault::BadModulus);
        }
        let Ok(letters) = letter_rows(alloc, base, modulus) else {
            return Err(TowerFault::NoMemory);
        };
        let Ok(powers) = letter_images(alloc, base, modulus, &letters) else {
            return Err(TowerFault::NoMemory);
        };
        match top_pair(alloc, base, degree, modulus, &powers) {
            Ok(None) => (),
            Ok(Some((a, b))) => return Err(TowerFault::ZeroDivisors { a, b }),
            Err(NoMemory) => return Err(TowerFault::NoMemory),
        }
        let Ok(images) = images(alloc, base, degree, modulus, &powers) else {
            return Err(TowerFault::NoMemory);
        };
        let Ok(modulus) = Vec::from_slice(alloc, modulus) else {
            return Err(TowerFault::NoMemory);
        };
        Ok(TopParts {
            modulus,
            images,
            letters,
        })
    }

    /// The monic polynomial of least degree over the base that has the root `c`, lowest coefficient first.
    /// Only want of memory refuses it.
    pub fn min_poly(&self, alloc: Global, c: TopElem) -> Result<Poly<Code>, NoMemory>
        requires { IsElem (ops_of_top self.now) c }
        ensures { IfOk result (IsMinPoly (ops_of_top self.now) (ops_of self.now.base) (embed_of self.now) c) }
    {
        Ok(min_poly(alloc, self, c)?)
    }

    /// The product of the first `k` conjugates of `a` past `a` itself. That of the first `j + k` is that of
    /// the first `j` times the image of that of the first `k` by `j` steps of Frobenius: with `j = k` there
    /// are at most two products and two steps for each binary digit of `k`.
    fn conjugates(&self, a: TopElem, k: usize) -> TopElem
        requires { IsElem (ops_of_top self.now) a }
        ensures value { result ≡ conjugate_product (ops_of_top self.now) (frob_of_top self.now) a k }
        ensures elem { IsElem (ops_of_top self.now) result }
    {
        if k == 0 {
            return self.one();
        }
        if k == 1 {
            return self.frob(a, 1);
        }
        let half = self.conjugates(a, k / 2);
        let raised = self.frob(half, k / 2);
        let double = self.mul(half, raised);
        if k % 2 == 0 {
            double
        } else {
            self.frob(self.mul(double, a), 1)
        }
    }

    /// `a` times the constant `d`, by one row operation.
    fn scaled(&self, a: TopElem, d: Code) -> TopElem
        requires elem { IsElem (ops_of_top self.now) a }
        requires factor { IsElem (ops_of self.now.base) d }
        ensures value { result ≡ (ops_of_top self.now).mul a (embed_of self.now d) }
        ensures elem { IsElem (ops_of_top self.now) result }
    {
        let mut places = places::zeros(&self.base);
        self.base.add_row(&mut places, 0, d, &a.0);
        TopElem(places)
    }

    /// The residue of the polynomial `z`.
    pub fn letter(&self) -> TopElem
        ensures { result ≡ letter_of self.now }
    {
        let ring = Residues {
            field: &self.base,
            modulus: &self.modulus,
        };
        ring.letter()
    }
}

impl Field for Tower {
    type Elem = TopElem;

    ghost ops = { ops_of_top };

    ghost inv_of = { inverse_of_top };

    ghost ring = { top_ring };

    ghost laws = { top_field };

    fn is_elem(&self, a: TopElem) -> bool {
        places::is_residue(&self.base, self.n as usize, a)
    }

    fn zero(&self) -> TopElem {
        places::constant(&self.base, self.base.zero())
    }

    fn one(&self) -> TopElem {
        places::constant(&self.base, self.base.one())
    }

    fn add(&self, a: TopElem, b: TopElem) -> TopElem {
        row_products::add(&self.base, &self.modulus, a, b)
    }

    fn neg(&self, a: TopElem) -> TopElem {
        products::neg(&self.base, &self.modulus, a)
    }

    fn mul(&self, a: TopElem, b: TopElem) -> TopElem {
        products::mul(&self.base, &self.modulus, &self.letters, a, b)
    }

    fn inv(&self, a: TopElem) -> Option<TopElem> {
        let others = self.conjugates(a, self.degree() - 1);
        let norm = self.mul(others, a);
        match self.base.inv(norm.0[0]) {
            None => None,
            Some(d) => Some(self.scaled(others, d)),
        }
    }

    fn equal(&self, a: TopElem, b: TopElem) -> bool {
        places::equal(&self.base, a, b)
    }
}

impl FrobField for Tower {
    type Base = BaseField;

    ghost base_of = { λ t. t.base };

    ghost frob_ops = { frob_of_top };

    ghost frob_laws = { top_frob_field };

    fn base(&self) -> &BaseField {
        &self.base
    }

    fn degree(&self) -> usize {
        self.n as usize
    }

    fn embed(&self, b: Code) -> TopElem {
        places::constant(&self.base, b)
    }

    fn frob(&self, c: TopElem, i: usize) -> TopElem {
        let n = self.n as usize;
        products::combination(&self.base, n, &self.images, i % n * n, c)
    }

    fn coord(&self, c: TopElem, j: usize) -> Code {
        c.0[j]
    }

    fn of_coords(&self, list: &[Code]) -> TopElem {
        places::residue_of(&self.base, list)
    }
}
