//! Residues over the two elements 0 and 1: products on packed numbers, whose bit `i` is the coefficient at `i`, and
//! sums of images in vectors.

ghost use Rattle.std.specs.Prelude.{◌≡◌, ℕ, ◌+◌, ◌-◌, ◌*◌, ◌<◌, ◌≤◌, length, slice_index, slice_index_or, bit_and, bit_xor, true};
ghost use Rattle.std.specs.Int.{bit_at};
ghost use Rattle.std.specs.Simd.Lanes.{zip2};
ghost use Rattle.ring_core.specs.Ring.{IsElem};
ghost use Rattle.ring_core.specs.Coeffs.{are_elems};
ghost use Rattle.residue_field.specs.declared.TheConstants.{WIDTH};
ghost use Rattle.residue_field.specs.Residue.{times_x};
ghost use Rattle.residue_field.specs.Prime.{prime_ops};
ghost use Rattle.residue_field.specs.Base.{ops_of};
ghost use Rattle.field_tower.specs.steps.Places.{IsModulus, stored, stored_ops};
ghost use Rattle.field_tower.specs.steps.Images.{image_at, combined_images};
ghost use Rattle.field_tower.specs.steps.Bits.{IsBinary};
ghost use Rattle.field_tower.specs.steps.Lanes.{sixteen};

use super::base::BaseField;
use residue_field::{Code, TopElem, WIDTH};
use std::simd::prelude::*;

/// Whether the base has the two elements 0 and 1.
pub(crate) fn is_binary(base: &BaseField) -> bool
    ensures { result ≡ true → IsBinary base.now }
{
    base.p() == 2 && base.s() == 1
}

/// The number whose bit `i` is member `i` of `list`, for `i` below `n`.
fn packed(n: usize, list: &[Code]) -> u32
    requires inside { n ≤ length list.now }
    requires room { n ≤ WIDTH }
    requires bits { (i : ℕ) → slice_index list.now i < 2 }
    ensures { (i : ℕ) → i < n → bit_at result i ≡ slice_index list.now i }
{
    let mut c = 0u32;
    for i in (0..n).rev() {
        c = c * 2 + list[i] as u32;
    }
    c
}

/// The residue whose first `n` coefficients are the lowest bits of `c`.
fn unpacked(n: usize, c: u32) -> TopElem
    requires room { n ≤ WIDTH }
    ensures values { (i : ℕ) → i < n → slice_index result.0 i ≡ bit_at c i }
    ensures past { (i : ℕ) → n ≤ i → slice_index result.0 i ≡ 0 }
{
    let mut places = [0; WIDTH];
    for i in 0..n {
        places[i] = (c >> i & 1) as Code;
    }
    TopElem(places)
}

/// `x` where `bit` is 1, and 0 where it is 0: by a mask, without a branch.
fn chosen(bit: u32, x: u32) -> u32
    requires { bit < 2 }
    ensures { result ≡ bit * x }
{
    0u32.wrapping_sub(bit) & x
}

/// The sum of `c b` and the letter times `r`, modulo the polynomial of degree `n` with the lower coefficients
/// `modulus`. The bits from `n` on mean nothing.
fn step(n: usize, modulus: u32, c: u32, b: u32, r: u32) -> u32
    requires positive { 0 < n }
    requires room { n ≤ WIDTH }
    requires factor { c < 2 }
    ensures { let k = prime_ops 2 in (i : ℕ) → i < n →
        bit_at result i ≡ k.add (k.mul c (bit_at b i)) (times_x k (n - 1) (bit_at modulus) (bit_at r) i) }
{
    let top = r >> (n - 1) & 1;
    r << 1 ^ chosen(top, modulus) ^ chosen(c, b)
}

/// The product of residues over two elements.
pub(crate) fn mul(base: &BaseField, modulus: &[Code], a: TopElem, b: TopElem) -> TopElem
    requires binary { IsBinary base.now }
    requires monic { IsModulus (ops_of base.now) modulus.now }
    requires left { IsElem (stored_ops (ops_of base.now) modulus.now) a }
    requires right { IsElem (stored_ops (ops_of base.now) modulus.now) b }
    ensures { result ≡ (stored_ops (ops_of base.now) modulus.now).mul a b }
{
    let n = modulus.len() - 1;
    let low = packed(n, modulus);
    let right = packed(n, &b.0);
    let mut out = 0;
    for i in (0..n).rev() {
        out = step(n, low, a.0[i] as u32, right, out);
    }
    unpacked(n, out)
}

/// `sum` with the lanes of `row` that the bits of `c` choose.
fn masked(sum: u16x16, c: u16, row: u16x16) -> u16x16
    ensures { result ≡ zip2 bit_xor sum (zip2 bit_and (sixteen c) row) }
{
    sum ^ (u16x16::splat(c) & row)
}

/// The same, told by lanes.
fn add_masked(sum: u16x16, c: u16, row: u16x16) -> u16x16
    ensures len { length result ≡ 16 }
    ensures lanes { (j : ℕ) → j < 16 → slice_index_or result j 0 ≡ bit_xor (slice_index_or sum j 0) (bit_and c (slice_index_or row j 0)) }
{
    masked(sum, c, row)
}

/// The sum of the `n` images from the place `start` on that `c` has a coefficient 1 for, over two elements.
pub(crate) fn combination(
    base: &BaseField,
    n: usize,
    images: &[TopElem],
    start: usize,
    c: TopElem,
) -> TopElem
    requires binary { IsBinary base.now }
    requires positive { 0 < n }
    requires room { n ≤ WIDTH }
    requires coeffs { are_elems (ops_of base.now) c.0 ≡ true }
    requires images { (k : ℕ) → k < length images.now → are_elems (ops_of base.now) (image_at images.now k).0 ≡ true }
    requires past { (k i : ℕ) → k < length images.now → n ≤ i → slice_index (image_at images.now k).0 i ≡ 0 }
    requires row { start + n ≤ length images.now }
    ensures { result ≡ stored (ops_of base.now) (n - 1) (combined_images (ops_of base.now) n images.now start c) }
{
    let mut sum = u16x16::splat(0);
    for j in 0..n {
        let image = images[start + j];
        sum = add_masked(sum, c.0[j], u16x16::from_array(image.0));
    }
    TopElem(sum.to_array())
}
