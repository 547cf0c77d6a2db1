//! The bounded list from the full list. A product of a member with a power of `tau^n` is a homomorphism, and its
//! coordinates are those of the member moved up; no other products are needed for those of degree at most `d`, since the
//! leads of the members are distinct modulo `n^2`, and so no terms of a sum cancel at the highest place.
ghost use Rattle.std.specs.Prelude.{◌≡◌, ◌+◌, ◌*◌, ◌≤◌, ◌<◌, ◌++◌, ℕ, IfOk, OnOk, length, true};
ghost use Rattle.ring_core.specs.Coeffs.{are_elems, first_values};
ghost use Rattle.linear_algebra.specs.Linear.{row_at};
ghost use Rattle.drinfeld_mod.specs.Module.{IsModule, constant_of};
ghost use Rattle.hom_space.specs.Bounded.{IsBoundedList};
ghost use Rattle.hom_space.specs.Full.{IsFullList};
ghost use Rattle.hom_space.specs.steps.Shifts.{shifted_row, shift_count, AreShifts};

use super::reading::read_rows;
use central_coords::coordinates;
use drinfeld_mod::Module;
use fq_linear::{Rows, echelon};
use ore_poly::Ore;
use ring_core::rows::zero_list;
use ring_core::{B, E, Field, FrobField, NoMemory};
use std::alloc::Global;

/// The coordinates of `tau^(n e) u`, which has degree at most `d`: zeros, and then those of `u`.
fn shifted<K: FrobField>(
    alloc: Global,
    k: &K,
    u: &[E<K>],
    d: usize,
    e: usize,
) -> Result<Vec<B<K>>, NoMemory>
    requires elems { are_elems (K.ops k.now) u.now ≡ true }
    requires fits { e * (K.frob_ops k.now).degree ≤ d + 1 }
    requires bound { d ≤ 64 }
    ensures { IfOk result (λ v. v.items ≡ shifted_row (K.ops k.now) (K.Base.ops (K.base_of k.now)) (K.frob_ops k.now) d u.now e) }
{
    let moved = e * k.degree();
    let mut row = zero_list(alloc, k.base(), moved * k.degree())?;
    let rest = coordinates(alloc, k, u, d + 1 - moved)?;
    row.extend_from_slice(&rest)?;
    Ok(row)
}

/// Puts the rows of the products of `u` with powers of `tau^n` that have degree at most `d` after the others.
fn push_shifts<K: FrobField>(
    alloc: Global,
    k: &K,
    u: &[E<K>],
    d: usize,
    rows: &mut Rows<B<K>>,
) -> Result<(), NoMemory>
    requires elems { are_elems (K.ops k.now) u.now ≡ true }
    requires bound { d ≤ 64 }
    requires width { rows.old.width ≡ (d + 1) * (K.frob_ops k.now).degree }
    ensures width { rows.new.width ≡ rows.old.width }
    ensures rows { let f = K.frob_ops k.now in OnOk result (rows.new.rows ≡ rows.old.rows ++ first_values (shift_count f.degree d (length u.now)) (shifted_row (K.ops k.now) (K.Base.ops (K.base_of k.now)) f d u.now)) }
{
    let n = k.degree();
    let count = (d + 1 + n).saturating_sub(u.len()) / n;
    for e in 0..count {
        let row = shifted(alloc, k, u, d, e)?;
        rows.push(&row)?;
    }
    Ok(())
}

/// Those rows for all members of the list.
fn shifts<K: FrobField>(
    alloc: Global,
    k: &K,
    full: &[Ore<E<K>>],
    d: usize,
) -> Result<Rows<B<K>>, NoMemory>
    requires elems { (i : ℕ) → i < length full.now → are_elems (K.ops k.now) (row_at full.now i) ≡ true }
    requires bound { d ≤ 64 }
    ensures width { IfOk result (λ v. v.width ≡ (d + 1) * (K.frob_ops k.now).degree) }
    ensures rows { IfOk result (λ v. AreShifts (K.ops k.now) (K.Base.ops (K.base_of k.now)) (K.frob_ops k.now) d (length full.now) full.now v.rows) }
{
    let mut rows = Rows::new(alloc, (d + 1) * k.degree());
    for i in 0..full.len() {
        push_shifts(alloc, k, full[i].as_slice(), d, &mut rows)?;
    }
    Ok(rows)
}

/// The bounded list of the homomorphisms from `phi` to `psi`, two modules with the same constant, for `d`, as `bounded`
/// gives it, made from their full list in place of the linear system.
pub fn bounded_from<K: FrobField>(
    alloc: Global,
    k: &K,
    phi: &Module<E<K>>,
    psi: &Module<E<K>>,
    full: &[Ore<E<K>>],
    d: usize,
) -> Result<Vec<Ore<E<K>>>, NoMemory>
    requires source { IsModule (K.ops k.now) phi.now }
    requires target { IsModule (K.ops k.now) psi.now }
    requires constants { constant_of (K.ops k.now) phi.now ≡ constant_of (K.ops k.now) psi.now }
    requires full { IsFullList (K.ops k.now) (K.Base.ops (K.base_of k.now)) (K.frob_ops k.now) phi.now psi.now full.now }
    requires bound { d ≤ 64 }
    ensures { IfOk result (λ v. IsBoundedList (K.ops k.now) (K.Base.ops (K.base_of k.now)) (K.frob_ops k.now) phi.now psi.now d v.items) }
{
    let rows = shifts(alloc, k, full, d)?;
    let basis = echelon(alloc, k.base(), &rows)?;
    Ok(read_rows(alloc, k, &basis)?)
}
