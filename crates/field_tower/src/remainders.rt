//! Remainders modulo a prime without a division: by the reciprocal of the prime, or by the fraction of the prime that a
//! factor is, which are known before the numbers are.
ghost use Rattle.std.specs.Prelude.{◌≡◌, ◌+◌, ◌*◌, ◌/◌, ◌%◌, ◌<◌, ◌≤◌};

use residue_field::Code;

/// `x` modulo `p`, for `x` below `2 p`.
pub(super) fn less_once(x: u32, p: u32) -> u32
    requires { x < 2 * p }
    ensures { result ≡ x % p }
{
    if x < p { x } else { x - p }
}

/// `x` modulo `p` by the reciprocal of `p` in 32 bits, where the quotient is too small by one at most.
pub(super) fn remainder(x: u32, p: u32, reciprocal: u64) -> u32
    requires large { 1 < p }
    requires reciprocal { reciprocal ≡ 4294967296 / p }
    ensures { result ≡ x % p }
{
    let quotient = ((x as u64 * reciprocal) >> 32) as u32;
    less_once(x - quotient * p, p)
}

/// `65536 c / p` or one less, by the reciprocal of `p` in 32 bits.
pub(super) fn fraction_of(p: u16, reciprocal: u64, c: Code) -> u16
    requires small { p ≤ 257 }
    requires reciprocal { reciprocal ≡ 4294967296 / p }
    requires factor { c < p }
    ensures low { result * p ≤ c * 65536 }
    ensures high { c * 65536 ≤ result * p + p }
{
    (c as u64 * reciprocal >> 16) as u16
}

/// `a + c x` modulo `p`, where `fraction` is `65536 c / p` or one less: so `fraction x / 65536` is the quotient of `c x` by `p` or one
/// less. Words of 16 bits suffice, and are several times faster than those of 32: where `c x` has more, what is left of it has not.
pub(super) fn added_product(p: u16, fraction: u16, a: Code, c: Code, x: Code) -> Code
    requires small { p ≤ 257 }
    requires low { fraction * p ≤ c * 65536 }
    requires high { c * 65536 ≤ fraction * p + p }
    requires sum { a < p }
    requires factor { x < p }
    ensures { result ≡ (a + c * x) % p }
{
    let quotient = (x as u32 * fraction as u32 >> 16) as u16;
    let rest = c.wrapping_mul(x).wrapping_sub(quotient.wrapping_mul(p));
    let sum = a + rest;
    if sum < p { sum } else { sum - p }
}
