ghost use Rattle.std.specs.Prelude.{◌≡◌, ◌==◌};
ghost use Rattle.std.specs.List.{list_any};

/// A read or a write failed, and the count of faults of its source or sink rose.
#[derive(Clone, Copy, Debug)]
pub struct Failed;

// Whether `number` is one of `numbers`.
pub(crate) fn is_listed(numbers: &[u32], number: u64) -> bool
    ensures { result ≡ list_any (λ n. n == number) numbers.now }
{
    numbers.iter().any(|n| u64::from(*n) == number)
}
