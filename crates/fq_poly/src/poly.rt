ghost use Rattle.std.specs.Prelude.{◌≡◌, List, length, slice_get};
ghost use Rattle.ring_core.specs.Degrees.{degree_of};

use std::marker::Model;

/// A polynomial, which contracts see as the list of its coefficients, lowest first. It is an element of
/// a `PolyRing` where no zero stands at the top.
#[derive(Drop)]
pub struct Poly<C> {
    pub(super) coeffs: Vec<C>,
}

impl<C> Model for Poly<C> {
    ghost Value = { List C };

    ghost view = { λ u. u.coeffs.items };
}

impl<C: Copy> Poly<C> {
    /// The polynomial with these coefficients, lowest first, as they stand. Takes no memory.
    pub fn from_vec(coeffs: Vec<C>) -> Poly<C>
        ensures { result ≡ coeffs.items }
    {
        Poly { coeffs }
    }

    /// The coefficients, lowest first. Takes no memory.
    pub fn into_vec(self) -> Vec<C>
        ensures { result.items ≡ self }
    {
        let Poly { coeffs } = self;
        coeffs
    }

    /// The coefficients, lowest first.
    pub fn as_slice(&self) -> &[C]
        ensures { result.now ≡ self.now }
    {
        &self.coeffs
    }

    /// How many coefficients there are, from the constant one to the highest.
    pub fn len(&self) -> usize
        ensures { result ≡ length self.now }
    {
        self.coeffs.len()
    }

    /// The degree; None exactly at zero.
    pub fn degree(&self) -> Option<usize>
        ensures { result ≡ degree_of self.now }
    {
        self.coeffs.len().checked_sub(1)
    }

    /// The coefficient of the `i`-th power of the letter; None exactly past the end.
    pub fn at(&self, i: usize) -> Option<C>
        ensures { result ≡ slice_get self.now i }
    {
        self.coeffs.get(i).copied()
    }
}
