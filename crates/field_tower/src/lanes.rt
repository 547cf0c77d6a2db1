//! Products and sums of residues over the numbers modulo a prime, sixteen places at a time.

ghost use Rattle.std.specs.Prelude.{◌≡◌, ℕ, ◌+◌, ◌-◌, ◌*◌, ◌/◌, ◌%◌, ◌^◌, ◌<◌, ◌≤◌, cond, nat_lt, length, slice_index_or};
ghost use Rattle.std.specs.Simd.Lanes.{zip2, chunk, put_chunk};
ghost use Rattle.residue_field.specs.declared.TheConstants.{WIDTH};
ghost use Rattle.field_tower.specs.steps.Lanes.{sixteen, plain_sum, place_of, plain_product};
ghost use Rattle.field_tower.specs.steps.Images.{image_at};

use residue_field::{Code, TopElem, WIDTH};
use std::simd::prelude::*;

/// Each lane times `m`.
fn scaled(x: u32x16, m: u32) -> u32x16
    ensures { result ≡ zip2 (λ a b. (a * b) % 2 ^ 32) x (sixteen m) }
{
    x * u32x16::splat(m)
}

/// Each lane without its lowest 19 bits.
fn shifted(x: u32x16) -> u32x16
    ensures { result ≡ zip2 (λ a b. a / 2 ^ b) x (sixteen 19) }
{
    x >> u32x16::splat(19)
}

/// Each lane less the lane of `y`.
fn less(x: u32x16, y: u32x16) -> u32x16
    ensures { result ≡ zip2 (λ a b. (a + (2 ^ 32 - b)) % 2 ^ 32) x y }
{
    x - y
}

/// The lesser of both lanes.
fn least(x: u32x16, y: u32x16) -> u32x16
    ensures { result ≡ zip2 (λ a b. cond (nat_lt a b) a b) x y }
{
    x.simd_min(y)
}

/// Each lane less `p` where it isn't below `p`: a lane below `p` wraps, so that the least is the one wanted.
fn less_once(x: u32x16, p: u32) -> u32x16
    requires len { length x ≡ 16 }
    requires small { (j : ℕ) → j < 16 → slice_index_or x j 0 < 2 ^ 31 }
    requires positive { 0 < p }
    requires low { p < 2 ^ 31 }
    ensures len { length result ≡ 16 }
    ensures low { (j : ℕ) → j < 16 → slice_index_or x j 0 < p → slice_index_or result j 0 ≡ slice_index_or x j 0 }
    ensures high { (j : ℕ) → j < 16 → p ≤ slice_index_or x j 0 → slice_index_or result j 0 ≡ slice_index_or x j 0 - p }
{
    least(x, less(x, u32x16::splat(p)))
}

/// What is left of each lane when its multiple of `p` by the quotient that the reciprocal `m` gives is taken
/// away: less than `3 p`.
fn rests(x: u32x16, p: u32, m: u32) -> u32x16
    requires len { length x ≡ 16 }
    requires large { 1 < p }
    requires small { p ≤ 257 }
    requires reciprocal { m ≡ 524288 / p }
    requires lanes { (j : ℕ) → j < 16 → slice_index_or x j 0 ≤ 16 * ((p - 1) * (p - 1)) }
    ensures len { length result ≡ 16 }
    ensures lanes { (j : ℕ) → j < 16 → slice_index_or result j 0 ≡ slice_index_or x j 0 - slice_index_or x j 0 * m / 524288 * p }
{
    let quotient = shifted(scaled(x, m));
    less(x, scaled(quotient, p))
}

/// Each lane modulo `p`, where none is more than 16 products of numbers below `p`.
fn reduced(x: u32x16, p: u32) -> u32x16
    requires len { length x ≡ 16 }
    requires large { 1 < p }
    requires small { p ≤ 257 }
    requires lanes { (j : ℕ) → j < 16 → slice_index_or x j 0 ≤ 16 * ((p - 1) * (p - 1)) }
    ensures len { length result ≡ 16 }
    ensures lanes { (j : ℕ) → j < 16 → slice_index_or result j 0 ≡ slice_index_or x j 0 % p }
{
    let rest = rests(x, p, 524288 / p);
    less_once(less_once(rest, p), p)
}

/// The places as lanes.
fn widened(x: TopElem) -> u32x16
    ensures { result ≡ x.0 }
{
    u16x16::from_array(x.0).cast::<u32>()
}

/// The same lanes, each of twice the width.
fn doubled(x: u16x16) -> u32x16
    ensures { result ≡ x }
{
    x.cast::<u32>()
}

/// The 16 members from the place `i` on.
fn loaded(list: &[Code], i: usize) -> u16x16
    requires { i + 16 ≤ length list.now }
    ensures { result ≡ chunk i 16 list.now }
{
    u16x16::from_slice(&list[i..])
}

/// Writes the places of `x` from the place `i` on.
fn write_at(list: &mut [Code], i: usize, x: TopElem)
    requires { i + 16 ≤ length list.old }
    ensures { list.new ≡ put_chunk i list.old x.0 }
{
    u16x16::from_array(x.0).copy_to_slice(&mut list[i..]);
}

/// The lanes as places.
fn narrowed(x: u32x16) -> TopElem
    requires len { length x ≡ 16 }
    requires small { (j : ℕ) → j < 16 → slice_index_or x j 0 < 65536 }
    ensures { result.0 ≡ x }
{
    TopElem(x.cast::<u16>().to_array())
}

/// The lanes of both, added.
fn both(x: u32x16, y: u32x16) -> u32x16
    ensures { result ≡ zip2 (λ a b. (a + b) % 2 ^ 32) x y }
{
    x + y
}

/// `c` times `row` added to `sum`.
fn added(sum: u32x16, c: u32, row: u32x16) -> u32x16
    requires sum { length sum ≡ 16 }
    requires row { length row ≡ 16 }
    requires fits { (j : ℕ) → j < 16 → slice_index_or sum j 0 + slice_index_or row j 0 * c < 2 ^ 32 }
    ensures len { length result ≡ 16 }
    ensures lanes { (j : ℕ) → j < 16 → slice_index_or result j 0 ≡ slice_index_or sum j 0 + slice_index_or row j 0 * c }
{
    both(sum, scaled(row, c))
}

/// `sum` and the `n` rows from the place `start` on, each times the coefficient of `c` at its place, modulo
/// `p`.
pub(crate) fn combined(
    sum: u32x16,
    p: u32,
    n: usize,
    rows: &[TopElem],
    start: usize,
    c: TopElem,
) -> TopElem
    requires large { 1 < p }
    requires small { p ≤ 257 }
    requires len { length sum ≡ 16 }
    requires room { n ≤ WIDTH }
    requires fits { (j : ℕ) → j < 16 → slice_index_or sum j 0 + n * ((p - 1) * (p - 1)) ≤ 16 * ((p - 1) * (p - 1)) }
    requires coeffs { (i : ℕ) → place_of c i < p }
    requires rows { (k i : ℕ) → k < length rows.now → place_of (image_at rows.now k) i < p }
    requires row { start + n ≤ length rows.now }
    ensures { (j : ℕ) → j < WIDTH →
        place_of result j ≡ (slice_index_or sum j 0 + plain_sum n (λ t. place_of (image_at rows.now (start + t)) j * place_of c t)) % p }
{
    let mut out = sum;
    for t in 0..n {
        out = added(out, c.0[t] as u32, widened(rows[start + t]));
    }
    narrowed(reduced(out, p))
}

/// The places of `x` between 16 zeros and 16 zeros.
pub(crate) fn between_zeros(x: TopElem) -> [Code; 48]
    ensures before { (k : ℕ) → k < 16 → slice_index_or result k 0 ≡ 0 }
    ensures places { (k : ℕ) → slice_index_or result (16 + k) 0 ≡ place_of x k }
{
    let mut wide = [0; 48];
    write_at(&mut wide, 16, x);
    wide
}

/// The 16 members from the place `i` on, as lanes.
pub(crate) fn window(list: &[Code], i: usize) -> u32x16
    requires room { i + 16 ≤ length list.now }
    ensures len { length result ≡ 16 }
    ensures lanes { (j : ℕ) → j < 16 → slice_index_or result j 0 ≡ slice_index_or list.now (i + j) 0 }
{
    doubled(loaded(list, i))
}

/// The sum of the windows of `list` that slide down from the place `from`, each times a coefficient of `a`,
/// modulo `p`.
pub(crate) fn slid(p: u32, n: usize, list: &[Code], from: usize, a: TopElem) -> TopElem
    requires large { 1 < p }
    requires small { p ≤ 257 }
    requires room { n ≤ WIDTH }
    requires start { n ≤ from }
    requires end { from + 16 ≤ length list.now }
    requires coeffs { (i : ℕ) → place_of a i < p }
    requires members { (i : ℕ) → slice_index_or list.now i 0 < p }
    ensures { (j : ℕ) → j < WIDTH → place_of result j ≡ plain_sum n (λ i. slice_index_or list.now (from - i + j) 0 * place_of a i) % p }
{
    let mut sum = u32x16::splat(0);
    for i in 0..n {
        sum = added(sum, a.0[i] as u32, window(list, from - i));
    }
    narrowed(reduced(sum, p))
}

/// Place by place the plain product of `a` and `b` modulo `p` below `n`, and each of its further coefficients
/// times a row of `over`.
pub(crate) fn multiplied(p: u32, n: usize, over: &[TopElem], a: TopElem, b: TopElem) -> TopElem
    requires large { 1 < p }
    requires small { p ≤ 257 }
    requires positive { 0 < n }
    requires room { n ≤ WIDTH }
    requires left { (i : ℕ) → place_of a i < p }
    requires left_past { (i : ℕ) → n ≤ i → place_of a i ≡ 0 }
    requires right { (i : ℕ) → place_of b i < p }
    requires over { (k i : ℕ) → k < length over.now → place_of (image_at over.now k) i < p }
    requires rows { n ≤ length over.now + 1 }
    ensures below { (j : ℕ) → j < n → place_of result j ≡ (plain_product a b j % p + plain_sum (n - 1) (λ t. place_of (image_at over.now t) j * (plain_product a b (n + t) % p))) % p }
    ensures past { (j : ℕ) → n ≤ j → j < WIDTH → place_of result j ≡ plain_sum (n - 1) (λ t. place_of (image_at over.now t) j * (plain_product a b (n + t) % p)) % p }
{
    let wide = between_zeros(b);
    let low = slid(p, n, &wide, n, a);
    let high = slid(p, n, &wide, 16 + n, a);
    combined(window(&between_zeros(low), 32 - n), p, n - 1, over, 0, high)
}
