ghost use Rattle.std.specs.Prelude.{◌≡◌, ℕ, true};
ghost use Rattle.ring_core.specs.Coeffs.{coeff, are_elems};
ghost use Rattle.ring_core.specs.Twisted.{IsTwist};

use super::field::{E, Field};

/// A ring of polynomials in a letter `x` over a field, where `x c` is what the twist makes of the
/// coefficient `c`, times `x`.
pub trait TwistedRing {
    type Over: Field;

    ghost over: { Self → Self.Over };

    /// What `i` powers of the letter make of a coefficient.
    ghost twist: { Self → Self.Over.Elem → ℕ → Self.Over.Elem };

    /// The field of the coefficients.
    fn field(&self) -> &Self::Over
        ensures { result.now ≡ over self.now };

    /// Puts in the place of each coefficient what the letter makes of it. Takes no memory.
    fn raise(&self, row: &mut [E<Self::Over>])
        requires { are_elems (Self.Over.ops (over self.now)) row.old ≡ true }
        ensures elems { are_elems (Self.Over.ops (over self.now)) row.new ≡ true }
        ensures raised { let r = Self.Over.ops (over self.now) in
            (k : ℕ) → coeff r row.new k ≡ twist self.now (coeff r row.old k) 1 };

    ghost twist_laws: { (t : Self) → IsTwist (Self.Over.ops (over t)) (twist t) };
}
