//! Sums and products of residues over a base field of the numbers modulo a prime, sixteen places at a time.

ghost use Rattle.std.specs.Prelude.{◌≡◌, ℕ, ◌-◌, ◌+◌, ◌<◌, ◌≤◌, length, true};
ghost use Rattle.ring_core.specs.Ring.{IsElem};
ghost use Rattle.ring_core.specs.Coeffs.{are_elems, first_values};
ghost use Rattle.residue_field.specs.declared.TheConstants.{WIDTH};
ghost use Rattle.residue_field.specs.Base.{ops_of};
ghost use Rattle.field_tower.specs.steps.Places.{IsModulus, IsStored, stored, stored_ops};
ghost use Rattle.field_tower.specs.steps.Lanes.{letter_row};
ghost use Rattle.field_tower.specs.steps.Images.{image_at, combined_images};

use super::base::BaseField;
use super::lanes::{combined, multiplied};
use residue_field::{Code, TopElem};
use std::simd::prelude::*;

/// What `products::combination` gives, where the images are zero from the place `n` on.
pub(crate) fn combination(
    base: &BaseField,
    n: usize,
    images: &[TopElem],
    start: usize,
    c: TopElem,
) -> TopElem
    requires prime { base.now.s ≡ 1 }
    requires positive { 0 < n }
    requires room { n ≤ WIDTH }
    requires coeffs { are_elems (ops_of base.now) c.0 ≡ true }
    requires images { (k : ℕ) → k < length images.now → IsStored (ops_of base.now) (n - 1) (image_at images.now k) }
    requires row { start + n ≤ length images.now }
    ensures { result ≡ stored (ops_of base.now) (n - 1) (combined_images (ops_of base.now) n images.now start c) }
{
    combined(u32x16::splat(0), base.p(), n, images, start, c)
}

/// The product of residues, where `over` holds the residues of the powers of the letter from the degree of
/// the modulus on.
pub(crate) fn mul(
    base: &BaseField,
    modulus: &[Code],
    over: &[TopElem],
    a: TopElem,
    b: TopElem,
) -> TopElem
    requires prime { base.now.s ≡ 1 }
    requires monic { IsModulus (ops_of base.now) modulus.now }
    requires over { over.now ≡ first_values (length modulus.now - 1) (letter_row (ops_of base.now) modulus.now) }
    requires left { IsElem (stored_ops (ops_of base.now) modulus.now) a }
    requires right { IsElem (stored_ops (ops_of base.now) modulus.now) b }
    ensures value { result ≡ (stored_ops (ops_of base.now) modulus.now).mul a b }
    ensures elem { IsElem (stored_ops (ops_of base.now) modulus.now) result }
{
    multiplied(base.p(), modulus.len() - 1, over, a, b)
}
