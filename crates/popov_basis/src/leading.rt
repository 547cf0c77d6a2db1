//! Settled rows, over their tops and in rising order.

ghost use Rattle.std.specs.Prelude.{◌≡◌, ◌≢◌, ◌+◌, ◌-◌, ◌<◌, ◌≤◌, ℕ, true, [], length, IfOk, MatchOption};
ghost use Rattle.ring_core.specs.Coeffs.{coeff, is_canonical};
ghost use Rattle.linear_algebra.specs.Linear.{row_at};
ghost use Rattle.flat_modules.specs.Flat.{are_flat};
ghost use Rattle.popov_basis.specs.steps.Leading.{IsNext, IsMonicOf, IsLeading};

use fq_poly::Poly;
use ring_core::lists::{coeff_at, scaled_values, trimmed};
use ring_core::{E, Field, NoMemory};
use std::alloc::Global;

/// The shortest of the rows that are longer than `above`.
fn next_row<C: Copy>(image: &[Poly<C>], above: usize) -> Option<usize>
    ensures { MatchOption result ((k : ℕ) → length (row_at image.now k) ≤ above) (IsNext image.now above) }
{
    let mut found = None;
    for i in 0..image.len() {
        if image[i].len() > above {
            let better = match found {
                None => true,
                Some(b) => image[i].len() < image[b].len(),
            };
            if better {
                found = Some(i);
            }
        }
    }
    found
}

/// The row over its top coefficient.
fn monic_row<F: Field>(alloc: Global, f: &F, row: &[E<F>]) -> Result<Vec<E<F>>, NoMemory>
    requires row { is_canonical (F.ops f.now) row.now ≡ true }
    requires nonzero { 0 < length row.now }
    ensures flat { IfOk result (λ v. is_canonical (F.ops f.now) v.items ≡ true) }
    ensures monic { IfOk result (λ v. IsMonicOf (F.ops f.now) row.now v.items) }
{
    let top = coeff_at(f, row, row.len() - 1);
    let Some(inverse) = f.inv(top) else {
        return Ok(Vec::new(alloc));
    };
    let values = scaled_values(alloc, f, inverse, row)?;
    Ok(trimmed(f, values))
}

/// The rows that aren't zero, over their tops and in rising order.
pub(super) fn leading<F: Field>(
    alloc: Global,
    f: &F,
    image: &[Poly<E<F>>],
) -> Result<Vec<Poly<E<F>>>, NoMemory>
    requires images { are_flat (F.ops f.now) image.now ≡ true }
    requires apart { (i k : ℕ) → i ≢ k → 0 < length (row_at image.now i) → length (row_at image.now i) ≢ length (row_at image.now k) }
    ensures flat { IfOk result (λ v. are_flat (F.ops f.now) v.items ≡ true) }
    ensures leading { IfOk result (λ v. (above : ℕ) → ((k : ℕ) → length (row_at image.now k) ≤ above) → IsLeading (F.ops f.now) image.now above v.items) }
{
    let mut list = Vec::new(alloc);
    let mut above = 0;
    while let Some(i) = next_row(image, above) {
        let row = monic_row(alloc, f, image[i].as_slice())?;
        list.push(Poly::from_vec(row))?;
        above = image[i].len();
    }
    Ok(list)
}
