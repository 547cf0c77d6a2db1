ghost use Rattle.std.specs.Prelude.{◌≡◌, ◌<◌, ◌≤◌, ◌^◌, MatchOption};
ghost use Rattle.field_tower.specs.declared.size.TheConstants.{CODES};
ghost use Rattle.residue_field.specs.Prime.{is_listed as is_listed_prime};

use residue_field::Code;

/// A base field has at most this many elements.
pub const CODES: usize = Code::MAX as usize + 1;

/// Whether a base field may stand on `p`.
pub(crate) fn is_listed(p: u32) -> bool
    ensures { result ≡ is_listed_prime p }
{
    p == 2 || p == 3 || p == 5 || p == 7 || p == 11 || p == 13 || p == 251 || p == 257
}

/// `p^s`, None where that is more than the number of codes.
pub(crate) fn size(p: usize, s: usize) -> Option<usize>
    requires { 2 ≤ p }
    ensures { MatchOption result (CODES < p ^ s) (λ q. (q ≡ p ^ s) × (q ≤ CODES)) }
{
    let mut q = 1;
    for _i in 0..s {
        if p > CODES / q {
            return None;
        }
        q *= p;
    }
    Some(q)
}
