ghost use Rattle.std.specs.Prelude.{◌≡◌};
ghost use Rattle.frobenius_rel.specs.declared.fault.NoPower.TheVariants.{NoMemory as OutOfMemory};

use ring_core::NoMemory;
use thiserror::Error;

/// Why there is no power of the least relation that has the degree of the rank.
#[derive(Debug, Drop, Error)]
pub enum NoPower {
    /// The degree `m` of the least relation doesn't divide the rank `r`.
    #[error("the degree {m} of the least relation doesn't divide the rank {r}")]
    Degrees { m: usize, r: usize },
    /// Memory was refused.
    #[error("out of memory")]
    NoMemory,
}

impl From<NoMemory> for NoPower {
    ghost from_gives = { λ _ e. e ≡ OutOfMemory };

    fn from(_: NoMemory) -> NoPower {
        NoPower::NoMemory
    }
}
