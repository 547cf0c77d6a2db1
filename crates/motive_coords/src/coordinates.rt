//! Motive coordinates, and the twisted polynomial that has given ones.
ghost use Rattle.std.specs.Prelude.{◌≡◌, ℕ, ◌-◌, ◌<◌, ◌≤◌, IfOk, length, true};
ghost use Rattle.ring_core.specs.Coeffs.{are_elems, is_canonical};
ghost use Rattle.linear_algebra.specs.Linear.{row_at};
ghost use Rattle.fq_poly.specs.Poly.{poly_ops};
ghost use Rattle.drinfeld_mod.specs.Module.{IsModule, rank_of};
ghost use Rattle.motive_coords.specs.Motive.{IsMotive};
ghost use Rattle.motive_coords.specs.steps.Expansion.{digit_at, digits_value};

use super::expansion::{columns, digits_of};
use drinfeld_mod::{Module, as_ore};
use fq_poly::Poly;
use ore_poly::{Ore, OreRing};
use ring_core::lists::{coeff_at, trimmed};
use ring_core::{E, FrobField, NoMemory, Ring};
use std::alloc::Global;

/// The motive coordinates of `u` (Papikian, Drinfeld Modules, Springer 2023, section on Anderson motives): as many
/// polynomials over the field as the rank, such that `u` is the sum of `c_ij tau^i phi_T^j`, where `c_ij` is
/// coefficient `j` of member `i`. Each `u` has exactly one such list.
pub fn motive<K: FrobField>(
    alloc: Global,
    field: &K,
    phi: &Module<E<K>>,
    u: &Ore<E<K>>,
) -> Result<Vec<Poly<E<K>>>, NoMemory>
    requires module { IsModule (K.ops field.now) phi.now }
    requires elem { is_canonical (K.ops field.now) u.now ≡ true }
    ensures { IfOk result
        (λ v. IsMotive (K.ops field.now) (K.frob_ops field.now).frob phi.now u.now v.items) }
{
    let letter = as_ore(alloc, field, phi)?;
    let digits = digits_of(alloc, field, &letter, u)?;
    let list = columns(alloc, field, &digits, phi.rank())?;
    Ok(list)
}

/// The twisted polynomial with the motive coordinates `list`, which are as many polynomials as the rank.
pub fn of_motive<K: FrobField>(
    alloc: Global,
    field: &K,
    phi: &Module<E<K>>,
    list: &[Poly<E<K>>],
) -> Result<Ore<E<K>>, NoMemory>
    requires module { IsModule (K.ops field.now) phi.now }
    requires count { length list.now ≡ rank_of phi.now }
    requires elems { are_elems (poly_ops (K.ops field.now)) list.now ≡ true }
    ensures motive { IfOk result
        (λ u. IsMotive (K.ops field.now) (K.frob_ops field.now).frob phi.now u list.now) }
    ensures elem { IfOk result (λ u. is_canonical (K.ops field.now) u ≡ true) }
{
    let letter = as_ore(alloc, field, phi)?;
    let sum = value_below(alloc, field, &letter, list, length_bound(list))?;
    Ok(sum)
}

/// A bound of the lengths of the members.
fn length_bound<C: Copy>(list: &[Poly<C>]) -> usize
    ensures { (i : ℕ) → length (row_at list.now i) ≤ result }
{
    let mut most = 0;
    for i in 0..list.len() {
        most = list[i].len().max(most);
    }
    most
}

/// The coefficients at `j` of the members, as a twisted polynomial.
fn digit<K: FrobField>(
    alloc: Global,
    field: &K,
    list: &[Poly<E<K>>],
    j: usize,
) -> Result<Ore<E<K>>, NoMemory>
    requires elems { are_elems (poly_ops (K.ops field.now)) list.now ≡ true }
    ensures value { IfOk result (λ v. v ≡ digit_at (K.ops field.now) list.now j) }
    ensures elem { IfOk result (λ v. is_canonical (K.ops field.now) v ≡ true) }
{
    let mut values = Vec::new(alloc);
    for i in 0..list.len() {
        let member = coeff_at(field, list[i].as_slice(), j);
        values.push(member)?;
    }
    Ok(Ore::from_vec(trimmed(field, values)))
}

/// The sum of the digits below `n` times the powers of `letter`, by Horner's rule.
fn value_below<K: FrobField>(
    alloc: Global,
    field: &K,
    letter: &Ore<E<K>>,
    list: &[Poly<E<K>>],
    n: usize,
) -> Result<Ore<E<K>>, NoMemory>
    requires letter { is_canonical (K.ops field.now) letter.now ≡ true }
    requires elems { are_elems (poly_ops (K.ops field.now)) list.now ≡ true }
    ensures value { IfOk result
        (λ v. v ≡ digits_value (K.ops field.now) (K.frob_ops field.now).frob letter.now list.now 0 n) }
    ensures elem { IfOk result (λ v. is_canonical (K.ops field.now) v ≡ true) }
{
    let ring = OreRing::new(field);
    let mut sum = ring.zero(alloc)?;
    for j in (0..n).rev() {
        let shifted = ring.mul(alloc, &sum, letter)?;
        let lowest = digit(alloc, field, list, j)?;
        sum = ring.add(alloc, &shifted, &lowest)?;
    }
    Ok(sum)
}
