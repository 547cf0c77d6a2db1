ghost use Rattle.std.specs.Prelude.{◌≡◌, ◌≢◌, ◌↔◌, [], IfOk, IsTrue, Some};
ghost use Rattle.ring_core.specs.Degrees.{degree_of};
ghost use Rattle.morphism.specs.Arrow.{Arrow, arrow};

use drinfeld_mod::Module;
use ore_poly::Ore;
use std::marker::Model;

/// A homomorphism of Drinfeld modules with its source and its target (the SageMath reference manual, chapter
/// Drinfeld modules).
#[derive(Drop)]
pub struct Morphism<C> {
    pub(super) u: Ore<C>,
    pub(super) from: Module<C>,
    pub(super) to: Module<C>,
}

impl<C> Model for Morphism<C> {
    ghost Value = { Arrow C };

    ghost view = { λ m. arrow m.u m.from m.to };
}

impl<C: Copy> Morphism<C> {
    /// The twisted polynomial.
    pub fn ore(&self) -> &Ore<C>
        ensures { result.now ≡ self.now.ore }
    {
        &self.u
    }

    /// The module from which it goes.
    pub fn source(&self) -> &Module<C>
        ensures { result.now ≡ self.now.source }
    {
        &self.from
    }

    /// The module to which it goes.
    pub fn target(&self) -> &Module<C>
        ensures { result.now ≡ self.now.target }
    {
        &self.to
    }

    /// Whether it is an isogeny: it isn't zero.
    pub fn is_isogeny(&self) -> bool
        ensures { IsTrue result ↔ (self.now.ore ≢ []) }
    {
        self.u.len() > 0
    }

    /// Whether it is an isomorphism over the field: it is a constant that isn't zero.
    pub fn is_isomorphism(&self) -> bool
        ensures { IsTrue result ↔ (degree_of self.now.ore ≡ Some 0) }
    {
        self.u.len() == 1
    }
}
