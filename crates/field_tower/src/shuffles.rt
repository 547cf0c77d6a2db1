//! Rows over at most 256 codes in characteristic two, sixteen codes at a time. A code is the exclusive or of its
//! lowest four bits and of the others, so its product with a factor is that of two look-ups among sixteen.

ghost use Rattle.std.specs.Prelude.{◌≡◌, ℕ, ◌+◌, ◌*◌, ◌/◌, ◌^◌, ◌<◌, ◌≤◌, bit_and, bit_xor, length, slice_index_or, true};
ghost use Rattle.std.specs.Simd.Lanes.{zip2};
ghost use Rattle.ring_core.specs.Ring.{IsElem};
ghost use Rattle.ring_core.specs.Coeffs.{are_elems};
ghost use Rattle.ring_core.specs.Written.{IsWritten};
ghost use Rattle.residue_field.specs.Base.{ops_of, size_of};
ghost use Rattle.field_tower.specs.steps.Lanes.{sixteen};
ghost use Rattle.field_tower.specs.steps.Shuffles.{AreMultiples, looked_up};

use super::base::BaseField;
use residue_field::Code;
use ring_core::Field;
use std::simd::prelude::*;

/// The product of `c` and `code`; zero where that is no code.
fn product_with(field: &BaseField, c: Code, code: usize) -> u8
    requires codes { size_of field.now ≤ 256 }
    requires factor { IsElem (ops_of field.now) c }
    ensures { code < size_of field.now → result ≡ (ops_of field.now).mul c code }
{
    if code < field.q() as usize {
        field.mul(c, code as Code) as u8
    } else {
        0
    }
}

/// The products of `c` with the multiples of `step` by numbers below 16; zero at those that are no codes.
fn multiples(field: &BaseField, c: Code, step: usize) -> u8x16
    requires codes { size_of field.now ≤ 256 }
    requires step { step ≤ 16 }
    requires factor { IsElem (ops_of field.now) c }
    ensures { AreMultiples field.now c step result }
{
    let mut list = [0; 16];
    for k in 0..16 {
        list[k] = product_with(field, c, k * step);
    }
    u8x16::from_array(list)
}

/// The lanes as bytes.
fn bytes(x: u16x16) -> u8x16
    requires len { length x ≡ 16 }
    requires small { (j : ℕ) → j < 16 → slice_index_or x j 0 < 256 }
    ensures { result ≡ x }
{
    x.cast::<u8>()
}

/// The lanes as codes.
fn codes(x: u8x16) -> u16x16
    ensures { result ≡ x }
{
    x.cast::<u16>()
}

/// The lowest four bits of each lane.
fn low_bits(x: u8x16) -> u8x16
    ensures { result ≡ zip2 bit_and x (sixteen 15) }
{
    x & u8x16::splat(15)
}

/// Each lane without its lowest four bits.
fn high_bits(x: u8x16) -> u8x16
    ensures { result ≡ zip2 (λ a b. a / 2 ^ b) x (sixteen 4) }
{
    x >> u8x16::splat(4)
}

/// The exclusive or of both lanes.
fn sums(x: u8x16, y: u8x16) -> u8x16
    ensures { result ≡ zip2 bit_xor x y }
{
    x ^ y
}

/// The lanes of `table` at the places that `x` has.
fn picked(table: u8x16, x: u8x16) -> u8x16
    requires table { length table ≡ 16 }
    requires len { length x ≡ 16 }
    requires small { (j : ℕ) → j < 16 → slice_index_or x j 0 < 16 }
    ensures len { length result ≡ 16 }
    ensures lanes { (j : ℕ) → j < 16 → slice_index_or result j 0 ≡ slice_index_or table (slice_index_or x j 0) 0 }
{
    table.swizzle_dyn(x)
}

/// What `low` has at the lowest four bits of each lane, and `high` at the others, by the exclusive or.
fn found(low: u8x16, high: u8x16, x: u16x16) -> u16x16
    requires low { length low ≡ 16 }
    requires high { length high ≡ 16 }
    requires len { length x ≡ 16 }
    requires small { (j : ℕ) → j < 16 → slice_index_or x j 0 < 256 }
    ensures len { length result ≡ 16 }
    ensures lanes { (j : ℕ) → j < 16 → slice_index_or result j 0 ≡ looked_up low high (slice_index_or x j 0) }
{
    let x = bytes(x);
    codes(sums(picked(low, low_bits(x)), picked(high, high_bits(x))))
}

/// The exclusive or of both lanes.
fn added(x: u16x16, y: u16x16) -> u16x16
    ensures { result ≡ zip2 bit_xor x y }
{
    x ^ y
}

/// Adds what `low` and `high` have at sixteen codes of `row`, from the place `j` on, to `out`, from `i + j` on.
fn add_block(low: u8x16, high: u8x16, out: &mut [Code], i: usize, row: &[Code], j: usize)
    requires low { length low ≡ 16 }
    requires high { length high ≡ 16 }
    requires room { i + j + 16 ≤ length out.old }
    requires within { j + 16 ≤ length row.now }
    requires small { (k : ℕ) → slice_index_or row.now k 0 < 256 }
    ensures { IsWritten 0 (i + j) 16 (λ k. bit_xor (slice_index_or out.old (i + j + k) 0) (looked_up low high (slice_index_or row.now (j + k) 0))) out.old out.new }
{
    let terms = found(low, high, u16x16::from_slice(&row[j..]));
    let sum = added(u16x16::from_slice(&out[i + j..]), terms);
    sum.copy_to_slice(&mut out[i + j..]);
}

/// Adds `c` times the codes of `row` that fill blocks of sixteen to `out`, from the place `i` on.
pub(super) fn add_blocks(field: &BaseField, out: &mut [Code], i: usize, c: Code, row: &[Code])
    requires prime { field.now.p ≡ 2 }
    requires codes { size_of field.now ≤ 256 }
    requires room { i + length row.now ≤ length out.old }
    requires factor { IsElem (ops_of field.now) c }
    requires row { are_elems (ops_of field.now) row.now ≡ true }
    ensures { IsWritten 0 i (length row.now / 16 * 16) (λ k. bit_xor (slice_index_or out.old (i + k) 0) ((ops_of field.now).mul c (slice_index_or row.now k 0))) out.old out.new }
{
    let low = multiples(field, c, 1);
    let high = multiples(field, c, 16);
    for block in 0..row.len() / 16 {
        add_block(low, high, out, i, row, block * 16);
    }
}
