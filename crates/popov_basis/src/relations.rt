//! The standard basis of the relations of flat rows.

ghost use Rattle.std.specs.Prelude.{◌≡◌, ◌≤◌, true, length, IfOk};
ghost use Rattle.flat_modules.specs.Flat.{are_flat, IsStandardBasis, IsRelationOf};

use super::settled::standard_rows;
use flat_reduce::kernel_rows;
use fq_poly::Poly;
use ring_core::{E, Field, NoMemory};
use std::alloc::Global;

/// The standard basis of all relations of the flat rows of width `w`.
pub(super) fn relation_rows<F: Field>(
    alloc: Global,
    f: &F,
    w: usize,
    m: &[Poly<E<F>>],
) -> Result<Vec<Poly<E<F>>>, NoMemory>
    requires width { 1 ≤ w }
    requires rows { are_flat (F.ops f.now) m.now ≡ true }
    ensures { IfOk result (λ v. IsStandardBasis (F.ops f.now) (length m.now) (IsRelationOf (F.ops f.now) w m.now) v.items) }
{
    if m.len() == 0 {
        return Ok(Vec::new(alloc));
    }
    let found = kernel_rows(alloc, f, w, m)?;
    Ok(standard_rows(alloc, f, m.len(), &found)?)
}
