ghost use Rattle.std.specs.Prelude.{◌≡◌, ◌<◌, List, IfOk, length, slice_get};
ghost use Rattle.ring_core.specs.Ring.{RingOps};
ghost use Rattle.drinfeld_mod.specs.Module.{rank_of, constant_of};

use ring_core::NoMemory;
use ring_core::lists::copy_list;
use std::alloc::Global;
use std::marker::Model;

/// A Drinfeld module (Papikian, Drinfeld Modules, Springer 2023), which contracts see as the list
/// `z, g_1, .., g_r` of the coefficients of its image of T, lowest first.
#[derive(Drop)]
pub struct Module<C> {
    coeffs: Vec<C>,
}

impl<C> Model for Module<C> {
    ghost Value = { List C };

    ghost view = { λ m. m.coeffs.items };
}

impl<C: Copy> Module<C> {
    /// The module with these coefficients, lowest first, as they stand. Takes no memory.
    pub fn from_vec(coeffs: Vec<C>) -> Module<C>
        ensures { result ≡ coeffs.items }
    {
        Module { coeffs }
    }

    /// The coefficients, lowest first. Takes no memory.
    pub fn into_vec(self) -> Vec<C>
        ensures { result.items ≡ self }
    {
        let Module { coeffs } = self;
        coeffs
    }

    /// The coefficients, lowest first.
    pub fn as_slice(&self) -> &[C]
        ensures { result.now ≡ self.now }
    {
        &self.coeffs
    }

    /// The same module again.
    pub fn copied(&self, alloc: Global) -> Result<Module<C>, NoMemory>
        ensures { IfOk result (λ m. m ≡ self.now) }
    {
        let coeffs = copy_list(alloc, &self.coeffs)?;
        Ok(Module { coeffs })
    }

    /// The rank, the highest power of tau in the image of T.
    pub fn rank(&self) -> usize
        ensures { result ≡ rank_of self.now }
    {
        self.coeffs.len().saturating_sub(1)
    }

    /// The constant, which T becomes in the field.
    pub fn constant(&self) -> C
        requires { 0 < length self.now }
        ensures { (r : RingOps C) → result ≡ constant_of r self.now }
    {
        self.coeffs[0]
    }

    /// The coefficient at `tau^i`; None exactly past the end.
    pub fn at(&self, i: usize) -> Option<C>
        ensures { result ≡ slice_get self.now i }
    {
        self.coeffs.get(i).copied()
    }
}
