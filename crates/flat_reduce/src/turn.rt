//! One turn of two rows with the same lead place.

ghost use Rattle.std.specs.Prelude.{◌≡◌, ◌≢◌, ◌+◌, ◌-◌, ◌%◌, ◌<◌, ◌≤◌, ℕ, true, [], length, IfOk};
ghost use Rattle.linear_algebra.specs.Linear.{row_at};
ghost use Rattle.flat_modules.specs.Flat.{are_flat, lead_at};
ghost use Rattle.flat_reduce.specs.steps.Turns.{IsTurn};

use super::rows::add_row;
use fq_poly::Poly;
use ring_core::lists::coeff_at;
use ring_core::{E, Field, NoMemory};
use std::alloc::Global;

/// Takes a multiple of row `q` from row `p`, whose lead has the same place and isn't lower, so that the lead of
/// row `p` falls. The rows of `left` change in the same way, and the columns of its inverse in the opposite one.
pub(super) fn turn<F: Field>(
    alloc: Global,
    f: &F,
    w: usize,
    p: usize,
    q: usize,
    image: &mut [Poly<E<F>>],
    left: &mut [Poly<E<F>>],
    columns: &mut [Poly<E<F>>],
) -> Result<(), NoMemory>
    requires width { 1 ≤ w }
    requires images { are_flat (F.ops f.now) image.old ≡ true }
    requires lefts { are_flat (F.ops f.now) left.old ≡ true }
    requires columns { are_flat (F.ops f.now) columns.old ≡ true }
    requires same_len { length left.old ≡ length image.old }
    requires same_columns { length columns.old ≡ length image.old }
    requires first { p < length image.old }
    requires second { q < length image.old }
    requires apart { p ≢ q }
    requires nonzero { row_at image.old q ≢ [] }
    requires lower { length (row_at image.old q) ≤ length (row_at image.old p) }
    requires place { lead_at image.old p % w ≡ lead_at image.old q % w }
    ensures images { IfOk result (λ _. are_flat (F.ops f.now) image.new ≡ true) }
    ensures lefts { IfOk result (λ _. are_flat (F.ops f.now) left.new ≡ true) }
    ensures columns { IfOk result (λ _. are_flat (F.ops f.now) columns.new ≡ true) }
    ensures turned { IfOk result (λ _. IsTurn (F.ops f.now) w (length left.old) p q image.old left.old columns.old image.new left.new columns.new) }
    ensures shorter { IfOk result (λ _. length (row_at image.new p) < length (row_at image.old p)) }
{
    let a = image[p].len();
    let b = image[q].len();
    let s = a - b;
    let top = coeff_at(f, image[p].as_slice(), a - 1);
    let low = coeff_at(f, image[q].as_slice(), b - 1);
    let Some(inverse) = f.inv(low) else {
        return Ok(());
    };
    let Some(t) = (s / w).checked_mul(left.len()) else {
        return Err(NoMemory);
    };
    let c = f.neg(f.mul(top, inverse));
    add_row(alloc, f, image, p, q, s, c)?;
    add_row(alloc, f, left, p, q, t, c)?;
    add_row(alloc, f, columns, q, p, t, f.neg(c))?;
    Ok(())
}
