ghost use Rattle.std.specs.Prelude.{◌≡◌, List, length, slice_get};

use fq_poly::Poly;
use std::marker::Model;

/// A list of polynomials, as the entries of a row or the coefficients of a combination.
#[derive(Drop)]
pub struct PolyRow<C> {
    pub(super) polys: Vec<Poly<C>>,
}

impl<C> Model for PolyRow<C> {
    ghost Value = { List (List C) };

    ghost view = { λ s. s.polys.items };
}

impl<C: Copy> PolyRow<C> {
    /// The list with these polynomials. Takes no memory.
    pub fn from_vec(polys: Vec<Poly<C>>) -> PolyRow<C>
        ensures { result ≡ polys.items }
    {
        PolyRow { polys }
    }

    /// The polynomials, in order. Takes no memory.
    pub fn into_vec(self) -> Vec<Poly<C>>
        ensures { result.items ≡ self }
    {
        let PolyRow { polys } = self;
        polys
    }

    /// The polynomials, in order.
    pub fn as_slice(&self) -> &[Poly<C>]
        ensures { result.now ≡ self.now }
    {
        &self.polys
    }

    /// How many polynomials there are.
    pub fn len(&self) -> usize
        ensures { result ≡ length self.now }
    {
        self.polys.len()
    }
}
