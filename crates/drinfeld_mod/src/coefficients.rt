ghost use Rattle.std.specs.Prelude.{◌≡◌, IfOk, true};
ghost use Rattle.ring_core.specs.Coeffs.{are_elems, is_canonical};
ghost use Rattle.drinfeld_mod.specs.Module.{IsModule};
ghost use Rattle.drinfeld_mod.specs.Make.{has_no_rank, IsMakeAnswer};

use super::fault::ModuleFault;
use super::module::Module;
use ore_poly::{Ore, OreRing};
use ring_core::lists::{coeff_at, copy_list};
use ring_core::{E, Field, FrobField, NoMemory};
use std::alloc::Global;

/// The most coefficients of a module: one more than the greatest rank.
const MOST_COEFFICIENTS: usize = 9;

/// Whether the list has fewer than two members, or its last is zero.
fn lacks_rank<K: Field>(field: &K, coeffs: &[E<K>]) -> bool
    requires { are_elems (K.ops field.now) coeffs.now ≡ true }
    ensures { result ≡ has_no_rank (K.ops field.now) coeffs.now }
{
    if coeffs.len() < 2 {
        return true;
    }
    let top = coeff_at(field, coeffs, coeffs.len() - 1);
    field.equal(top, field.zero())
}

/// The module with these coefficients, lowest first: the list `z, g_1, .., g_r` stands for the image
/// `z + g_1 tau + .. + g_r tau^r` of T. The fault is NoRank exactly where the list has fewer than two
/// members or its last is zero, else TooLarge exactly where it has more than nine; want of memory comes only
/// where it has neither.
pub fn make<K: FrobField>(
    alloc: Global,
    field: &K,
    coeffs: &[E<K>],
) -> Result<Module<E<K>>, ModuleFault>
    requires { are_elems (K.ops field.now) coeffs.now ≡ true }
    ensures { IsMakeAnswer (K.ops field.now) coeffs.now result }
{
    if lacks_rank(field, coeffs) {
        return Err(ModuleFault::NoRank);
    }
    if coeffs.len() > MOST_COEFFICIENTS {
        return Err(ModuleFault::TooLarge);
    }
    let coeffs = copy_list(alloc, coeffs)?;
    Ok(Module::from_vec(coeffs))
}

/// The image of T as a twisted polynomial, which has the same coefficients, lowest first. The only refusal is want
/// of memory.
pub fn as_ore<K: FrobField>(
    alloc: Global,
    field: &K,
    phi: &Module<E<K>>,
) -> Result<Ore<E<K>>, NoMemory>
    requires { IsModule (K.ops field.now) phi.now }
    ensures value { IfOk result (λ u. u ≡ phi.now) }
    ensures elem { IfOk result (λ u. is_canonical (K.ops field.now) u ≡ true) }
{
    OreRing::new(field).make(alloc, phi.as_slice())
}
