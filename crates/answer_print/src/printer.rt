ghost use Rattle.std.specs.Prelude.{◌≡◌, ◌++◌, OnOk};
ghost use Rattle.answer.specs.Sums.{Printer};

use ring_core::NoMemory;
use std::alloc::Global;

/// Prints the coefficients of a sum.
pub(crate) trait Printer {
    type Elem;

    /// Which coefficients are zero, and the text of each.
    ghost printer: { Self → Printer Self.Elem };

    /// Whether `c` is zero.
    fn is_zero(&self, c: &Self::Elem) -> bool
        ensures { result ≡ (printer self.now).is_zero c.now };

    /// Appends the text of `c`.
    fn write(&self, alloc: Global, into: &mut Vec<u8>, c: &Self::Elem) -> Result<(), NoMemory>
        ensures { OnOk result (into.new.items ≡ into.old.items ++ (printer self.now).text c.now) };
}
