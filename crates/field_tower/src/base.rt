ghost use Rattle.std.specs.Prelude.{◌≡◌, ◌≢◌, ◌-◌, ◌+◌, ◌/◌, ◌<◌, ◌≤◌, ◌^◌, IfOk, MatchOption, MatchResult, length, slice_index, true, Some};
ghost use Rattle.ring_core.specs.Ring.{IsElem};
ghost use Rattle.ring_core.specs.Coeffs.{are_elems};
ghost use Rattle.ring_core.specs.Powers.{power_of};
ghost use Rattle.finite_ring.specs.Finite.{HasNoPair};
ghost use Rattle.field_tower.specs.steps.Kinds.{AreSums, AreSums-prop, AreProducts, AreProducts-prop};
ghost use Rattle.residue_field.specs.Sizes.{most_codes};
ghost use Rattle.residue_field.specs.Prime.{is_listed, prime_ops};
ghost use Rattle.residue_field.specs.Base.{Base, IsBase, base_code, ops_of, size_of, inverse_of, letter_code};
ghost use Rattle.residue_field.proofs.BaseLaws.{base_field, base_ring};
ghost use Rattle.field_tower.specs.declared.size.TheConstants.{CODES};
ghost use Rattle.field_tower.specs.steps.Codes.{code_ops};
ghost use Rattle.field_tower.specs.Pairs.{IsPair};
ghost use Rattle.field_tower.specs.MakeBase.{MakesBase, IsBaseOf, reduced as reduced_list};
ghost use Rattle.field_tower.specs.steps.Parts.{IsFaultOf};

use super::accept::{find_pair, unit_powers};
use super::codes::Codes;
use super::fault::BaseFault;
use super::logs::{ProductKind, Products};
use super::prime::PrimeField;
use super::remainders::{less_once, remainder};
use super::residue_ring::Residues;
use super::row_sums::add_multiple;
use super::size::{is_listed, size};
use super::tables::{SumKind, Sums, Tables, made_tables};
use residue_field::Code;
use ring_core::{Field, NoMemory};
use std::alloc::Global;
use std::marker::Model;

/// The field of `q = p^s` elements. Its elements are the codes below `q`, whose digits in base `p` are
/// the coefficients of a residue, lowest first.
#[derive(Drop)]
pub struct BaseField {
    p: u32,
    s: u32,
    q: usize,
    modulus: Vec<Code>,
    // for remainders modulo p without a division
    reciprocal: u64,
    tables: Tables,
    ghost is_base: { IsBase p s modulus.items },
    ghost count: { q ≡ p ^ s },
    ghost small: { q ≤ CODES },
    ghost reciprocal_is: { reciprocal ≡ 4294967296 / p },
    ghost are_sums: { AreSums p (s - 1) q modulus.items tables.sums } by { AreSums-prop p (s - 1) q modulus.items tables.sums },
    ghost are_products: { AreProducts p (s - 1) q modulus.items tables.products } by { AreProducts-prop p (s - 1) q modulus.items tables.products },
}

impl Model for BaseField {
    ghost Value = { Base };

    ghost coded = { base_code };

    ghost view = { λ f. record { p = f.p; s = f.s; modulus = f.modulus.items; is_base = f.is_base } };
}

/// The members of `modulus` modulo `p`.
fn reduced(alloc: Global, p: u32, modulus: &[u32]) -> Result<Vec<Code>, NoMemory>
    requires positive { 0 < p }
    requires small { p ≤ CODES }
    ensures { IfOk result (λ list. list.items ≡ reduced_list p modulus.now) }
{
    let mut list = Vec::new(alloc);
    for c in modulus {
        list.push((*c % p) as Code)?;
    }
    Ok(list)
}

impl BaseField {
    /// The field of the residues modulo `modulus`, whose `s + 1` numbers are taken modulo `p`, lowest
    /// coefficient first. The refusals come in this order: `TooLarge` where `p` is no listed prime, `s`
    /// is 0 or `p^s` is more than `CODES`; `BadModulus` where the list hasn't `s + 1` members or the
    /// last isn't 1 modulo `p`; `ZeroDivisors` where two nonzero codes multiply to zero, with such a
    /// pair; and `NoMemory` where memory is refused. No pairs are tried: the answer is found by two
    /// linear systems of `s` rows over the numbers modulo `p`.
    pub fn make(alloc: Global, p: u32, s: u32, modulus: &[u32]) -> Result<BaseField, BaseFault>
        ensures { MakesBase p s modulus.now result }
    {
        if !is_listed(p) || s == 0 {
            return Err(BaseFault::TooLarge);
        }
        let Some(q) = size(p as usize, s as usize) else {
            return Err(BaseFault::TooLarge);
        };
        let n = s as usize;
        if modulus.len() != n + 1 || modulus[n] % p != 1 {
            return Err(BaseFault::BadModulus);
        }
        let Ok(modulus) = reduced(alloc, p, modulus) else {
            return Err(BaseFault::NoMemory);
        };
        make_reduced(alloc, PrimeField { p }, s, q, modulus)
    }

    /// The prime that the field stands on.
    pub fn p(&self) -> u32
        ensures { result ≡ self.now.p }
    {
        self.p
    }

    /// The degree over the numbers modulo the prime.
    pub fn s(&self) -> u32
        ensures { result ≡ self.now.s }
    {
        self.s
    }

    /// How many elements the field has.
    pub fn q(&self) -> u32
        ensures value { result ≡ size_of self.now }
        ensures small { result ≤ most_codes }
    {
        self.q as u32
    }

    /// The residue of the polynomial `a`. Modulo a polynomial of degree 1 it is minus the constant of the
    /// modulus.
    pub fn letter(&self) -> Code
        ensures value { result ≡ letter_code self.now }
        ensures elem { IsElem (ops_of self.now) result }
    {
        if self.s == 1 {
            ((self.p - self.modulus[0] as u32) % self.p) as Code
        } else {
            self.p as Code
        }
    }

    /// The codes, for what is computed by their digits.
    fn codes(&self) -> Codes<'_>
        ensures ops { code_ops result ≡ ops_of self.now }
        ensures count { result.q ≡ size_of self.now }
    {
        Codes {
            prime: PrimeField { p: self.p },
            modulus: &self.modulus,
            q: self.q,
        }
    }

    /// The reciprocal of the prime in 32 bits.
    pub(super) fn reciprocal(&self) -> u64
        ensures { result ≡ 4294967296 / self.now.p }
    {
        self.reciprocal
    }

    /// How the field adds.
    pub(super) fn sums(&self) -> &Sums
        ensures { let k = self.now in AreSums k.p (k.s - 1) (size_of k) k.modulus result.now }
    {
        &self.tables.sums
    }

    /// How the field multiplies.
    pub(super) fn products(&self) -> &Products
        ensures { let k = self.now in AreProducts k.p (k.s - 1) (size_of k) k.modulus result.now }
    {
        &self.tables.products
    }

    /// The product of two codes.
    fn product(&self, a: Code, b: Code) -> Code
        requires left { IsElem (ops_of self.now) a }
        requires right { IsElem (ops_of self.now) b }
        ensures value { result ≡ (ops_of self.now).mul a b }
        ensures elem { IsElem (ops_of self.now) result }
    {
        match self.tables.products.kind {
            ProductKind::Modular => {
                remainder(a as u32 * b as u32, self.p, self.reciprocal) as Code
            }
            ProductKind::Logged => {
                let logs = &self.tables.products.logs;
                self.tables.products.powers[logs[a as usize] as usize + logs[b as usize] as usize]
            }
            ProductKind::Digital => self.codes().product(a as usize, b as usize),
        }
    }

    /// The inverse of a nonzero code: the power whose logarithm brings that of `a` to `q - 1`, if the product is one, else the
    /// power `q - 2`.
    fn inverse(&self, a: Code) -> Code
        requires elem { IsElem (ops_of self.now) a }
        requires nonzero { a ≢ 0 }
        ensures value { Some result ≡ inverse_of self.now a }
        ensures elem { IsElem (ops_of self.now) result }
    {
        if let ProductKind::Logged = self.tables.products.kind {
            let inverse = self.tables.products.powers[self.q
                - 1
                - self.tables.products.logs[a as usize] as usize];
            if (inverse as usize) < self.q && self.product(a, inverse) == 1 {
                return inverse;
            }
        }
        self.power(a, self.q - 2)
    }

    /// `a` multiplied `k` times, one for `k = 0`. The inverse can't call `field_power`, whose proof stands on
    /// this type's proof of the laws of a field.
    fn power(&self, a: Code, k: usize) -> Code
        requires { IsElem (ops_of self.now) a }
        ensures value { result ≡ power_of (ops_of self.now) a k }
        ensures elem { IsElem (ops_of self.now) result }
    {
        if k == 0 {
            return 1;
        }
        if k == 1 {
            return a;
        }
        let half = self.power(a, k / 2);
        let square = self.product(half, half);
        if k % 2 == 0 {
            square
        } else {
            self.product(square, a)
        }
    }
}

/// Two nonzero codes whose product is zero, None where there are none.
fn code_pair(alloc: Global, codes: &Codes) -> Result<Option<(Code, Code)>, NoMemory>
    ensures { let k = code_ops codes.now in IfOk result (λ o. MatchOption o (HasNoPair k) (λ pair. IsPair k pair.0 pair.1)) }
{
    let ring = Residues {
        field: &codes.prime,
        modulus: codes.modulus,
    };
    let powers = unit_powers(alloc, &ring, codes.prime.p)?;
    let Some((a, b)) = find_pair(alloc, &ring, codes.prime.p, &powers)? else {
        return Ok(None);
    };
    let left = codes.code(a);
    let right = codes.code(b);
    Ok(Some((left, right)))
}

/// What `make` answers once the modulus is monic of degree `s` and reduced.
fn make_reduced(
    alloc: Global,
    prime: PrimeField,
    s: u32,
    q: usize,
    modulus: Vec<Code>,
) -> Result<BaseField, BaseFault>
    requires degree { 0 < s }
    requires count { q ≡ prime.p ^ s }
    requires small { q ≤ CODES }
    requires members { length modulus.items ≡ s + 1 }
    requires elems { are_elems (prime_ops prime.p) modulus.items ≡ true }
    requires monic { slice_index modulus.items s ≡ 1 }
    ensures { MatchResult result (IsBaseOf prime.p s modulus.items) (IsFaultOf prime.p s modulus.items) }
{
    let codes = Codes {
        prime,
        modulus: &modulus,
        q,
    };
    match code_pair(alloc, &codes) {
        Ok(None) => (),
        Ok(Some((a, b))) => return Err(BaseFault::ZeroDivisors { a, b }),
        Err(NoMemory) => return Err(BaseFault::NoMemory),
    }
    let Ok(tables) = made_tables(alloc, &codes) else {
        return Err(BaseFault::NoMemory);
    };
    Ok(BaseField {
        p: prime.p,
        s,
        q,
        modulus,
        reciprocal: 4294967296 / prime.p as u64,
        tables,
    })
}

impl Field for BaseField {
    type Elem = Code;

    ghost ops = { ops_of };

    ghost inv_of = { inverse_of };

    ghost ring = { base_ring };

    ghost laws = { base_field };

    fn is_elem(&self, a: Code) -> bool {
        (a as usize) < self.q
    }

    fn zero(&self) -> Code {
        0
    }

    fn one(&self) -> Code {
        1
    }

    fn add(&self, a: Code, b: Code) -> Code {
        match self.tables.sums.kind {
            SumKind::Modular => less_once(a as u32 + b as u32, self.p) as Code,
            SumKind::Binary => a ^ b,
            SumKind::Tabled => self.tables.sums.table[a as usize * self.q + b as usize],
            SumKind::Digital => self.codes().sum(a as usize, b as usize),
        }
    }

    fn neg(&self, a: Code) -> Code {
        match self.tables.sums.kind {
            SumKind::Modular => less_once(self.p - a as u32, self.p) as Code,
            SumKind::Binary => a,
            SumKind::Tabled => self.tables.sums.negatives[a as usize],
            SumKind::Digital => self.codes().negative(a as usize),
        }
    }

    fn mul(&self, a: Code, b: Code) -> Code {
        self.product(a, b)
    }

    fn inv(&self, a: Code) -> Option<Code> {
        if a == 0 { None } else { Some(self.inverse(a)) }
    }

    fn equal(&self, a: Code, b: Code) -> bool {
        a == b
    }

    fn add_row(&self, out: &mut [Code], i: usize, c: Code, row: &[Code]) {
        add_multiple(self, out, i, c, row)
    }
}
