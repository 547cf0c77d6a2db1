ghost use Rattle.std.specs.Prelude.{◌≡◌};
ghost use Rattle.ring_core.specs.Ring.{IsElem};
ghost use Rattle.operand_value.specs.Values.{Letters};

use ring_core::Field;

/// A field in which sums are read: what the numbers and the letters `a` and `z` are in it.
pub trait Letters: Field {
    ghost letters: { Self → Letters Self.Elem };

    /// The number `n`.
    fn number(&self, n: u32) -> Self::Elem
        ensures value { result ≡ (letters self.now).number n }
        ensures elem { IsElem (Self.ops self.now) result };

    /// The letter `a`.
    fn a(&self) -> Self::Elem
        ensures value { result ≡ (letters self.now).a }
        ensures elem { IsElem (Self.ops self.now) result };

    /// The letter `z`.
    fn z(&self) -> Self::Elem
        ensures value { result ≡ (letters self.now).z }
        ensures elem { IsElem (Self.ops self.now) result };
}
