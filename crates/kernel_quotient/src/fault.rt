ghost use Rattle.std.specs.Prelude.{◌≡◌};
ghost use Rattle.kernel_quotient.specs.declared.fault.NoQuotient.TheVariants.{NoMemory as OutOfMemory};

use ore_poly::Ore;
use ring_core::NoMemory;

/// Why a module has no quotient by a twisted polynomial.
#[derive(Drop)]
pub enum NoQuotient<C> {
    /// The twisted polynomial is zero.
    Zero,
    /// It leaves this remainder, which isn't zero.
    Remainder(Ore<C>),
    /// It leaves no remainder, but the other factor has this constant, which isn't that of the module.
    Constant(C),
    /// Memory was refused.
    NoMemory,
}

impl<C> From<NoMemory> for NoQuotient<C> {
    ghost from_gives = { λ _ e. e ≡ OutOfMemory };

    fn from(_: NoMemory) -> NoQuotient<C> {
        NoQuotient::NoMemory
    }
}
