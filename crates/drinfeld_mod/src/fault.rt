ghost use Rattle.std.specs.Prelude.{◌≡◌};
ghost use Rattle.drinfeld_mod.specs.declared.fault.ModuleFault.TheVariants.{NoMemory as OutOfMemory};

use ring_core::NoMemory;
use thiserror::Error;

/// Why a list is no module.
#[derive(Debug, Drop, Error)]
pub enum ModuleFault {
    /// The list has fewer than two members, or its last is zero.
    #[error("a module has a rank of at least one")]
    NoRank,
    /// The list has a rank, which is above the greatest one.
    #[error("the rank of a module is at most eight")]
    TooLarge,
    /// Memory was refused.
    #[error("out of memory")]
    NoMemory,
}

impl From<NoMemory> for ModuleFault {
    ghost from_gives = { λ _ e. e ≡ OutOfMemory };

    fn from(_: NoMemory) -> ModuleFault {
        ModuleFault::NoMemory
    }
}
