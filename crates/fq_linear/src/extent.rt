//! Where a row can be nonzero.

ghost use Rattle.std.specs.Prelude.{◌≡◌, ◌≤◌, ◌⊎◌};

/// The places of a row which can be nonzero: those from `low` to `end`, without `end`, and those from `high`
/// on.
#[derive(Clone, Copy)]
pub(super) struct Extent {
    pub(super) low: usize,
    pub(super) end: usize,
    pub(super) high: usize,
}

/// The lesser of two numbers.
pub(super) fn lesser(a: usize, b: usize) -> usize
    ensures left { result ≤ a }
    ensures right { result ≤ b }
    ensures one { (result ≡ a) ⊎ (result ≡ b) }
{
    if a < b { a } else { b }
}

/// The greater of two numbers.
pub(super) fn greater(a: usize, b: usize) -> usize
    ensures left { a ≤ result }
    ensures right { b ≤ result }
    ensures one { (result ≡ a) ⊎ (result ≡ b) }
{
    if a < b { b } else { a }
}

/// An extent that holds two others.
pub(super) fn joined(a: Extent, b: Extent) -> Extent
    ensures low_left { result.low ≤ a.low }
    ensures low_right { result.low ≤ b.low }
    ensures end_left { a.end ≤ result.end }
    ensures end_right { b.end ≤ result.end }
    ensures high_left { result.high ≤ a.high }
    ensures high_right { result.high ≤ b.high }
{
    let low = lesser(a.low, b.low);
    let end = greater(a.end, b.end);
    let high = lesser(a.high, b.high);
    Extent { low, end, high }
}
