ghost use Rattle.std.specs.Prelude.{◌≡◌};
ghost use Rattle.fq_poly.specs.declared.fault.PolyFault.TheVariants.{NoMemory as OutOfMemory};

use ring_core::NoMemory;
use thiserror::Error;

/// Why a division or a monic multiple has no answer.
#[derive(Debug, Drop, Error)]
pub enum PolyFault {
    /// The divisor is zero, or the polynomial of which a monic multiple was asked.
    #[error("division by the zero polynomial")]
    ZeroDivisor,
    /// Memory was refused.
    #[error("out of memory")]
    NoMemory,
}

impl From<NoMemory> for PolyFault {
    ghost from_gives = { λ _ e. e ≡ OutOfMemory };

    fn from(_: NoMemory) -> PolyFault {
        PolyFault::NoMemory
    }
}
