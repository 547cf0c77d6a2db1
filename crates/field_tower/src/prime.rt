ghost use Rattle.std.specs.Prelude.{◌≡◌, ◌<◌, ◌≤◌, ◌%◌, ◌^◌, MatchOption, true, false};
ghost use Rattle.field_tower.specs.declared.size.TheConstants.{CODES};
ghost use Rattle.residue_field.specs.Prime.{is_listed as is_listed_prime, prime_ops, prime_inv};
ghost use Rattle.residue_field.proofs.Listed.{listed_large, prime_field};
ghost use Rattle.residue_field.proofs.Modular.{prime_ring};

use super::size::is_listed;
use residue_field::Code;
use ring_core::Field;

/// The numbers below a listed prime `p`, with sums and products modulo `p`. The primes that are listed are
/// 2, 3, 5, 7, 11, 13, 251 and 257.
#[derive(Clone, Copy)]
pub struct PrimeField {
    /// The prime.
    pub p: u32,
    ghost listed: { is_listed_prime p ≡ true },
}

impl PrimeField {
    /// The field of the numbers modulo `p`; None exactly where `p` is no listed prime.
    pub fn new(p: u32) -> Option<PrimeField>
        ensures { MatchOption result (is_listed_prime p ≡ false) (λ k. k.p ≡ p) }
    {
        if is_listed(p) {
            Some(PrimeField { p })
        } else {
            None
        }
    }
}

/// `a^k` modulo `p`.
fn power(p: u32, a: Code, k: u32) -> Code
    requires large { 1 < p }
    requires small { p ≤ CODES }
    ensures { result ≡ (a ^ k) % p }
{
    let mut result = 1;
    for _i in 0..k {
        result = result * a as u32 % p;
    }
    result as Code
}

impl Field for PrimeField {
    type Elem = Code;

    ghost ops = { λ k. prime_ops k.p };

    ghost inv_of = { λ k. prime_inv k.p };

    ghost ring = { λ k. prime_ring k.p (listed_large k.p k.listed) };

    ghost laws = { λ k. prime_field k.p k.listed };

    fn is_elem(&self, a: Code) -> bool {
        (a as u32) < self.p
    }

    fn zero(&self) -> Code {
        0
    }

    fn one(&self) -> Code {
        1
    }

    fn add(&self, a: Code, b: Code) -> Code {
        ((a as u32 + b as u32) % self.p) as Code
    }

    fn neg(&self, a: Code) -> Code {
        ((self.p - a as u32) % self.p) as Code
    }

    fn mul(&self, a: Code, b: Code) -> Code {
        ((a as u32 * b as u32) % self.p) as Code
    }

    fn inv(&self, a: Code) -> Option<Code> {
        if a == 0 {
            None
        } else {
            Some(power(self.p, a, self.p - 2))
        }
    }

    fn equal(&self, a: Code, b: Code) -> bool {
        a == b
    }
}
