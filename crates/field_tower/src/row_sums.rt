//! Rows of codes added to rows of codes: a base field's row operation.
ghost use Rattle.std.specs.Prelude.{◌≡◌, ◌+◌, ◌/◌, ◌<◌, ◌≤◌, bit_xor, length, slice_index_or, true};
ghost use Rattle.ring_core.specs.Ring.{IsElem};
ghost use Rattle.ring_core.specs.Coeffs.{coeff, are_elems};
ghost use Rattle.ring_core.specs.Written.{IsWritten};
ghost use Rattle.residue_field.specs.Prime.{prime_ops};
ghost use Rattle.residue_field.specs.Base.{ops_of, size_of};
ghost use Rattle.field_tower.specs.steps.Logs.{IsLogTable};
ghost use Rattle.field_tower.specs.steps.Tables.{IsTable};

use super::base::BaseField;
use super::logs::ProductKind;
use super::remainders::{added_product, fraction_of};
use super::shuffles::add_blocks;
use super::tables::SumKind;
use residue_field::Code;
use ring_core::Field;

/// From this length on a row is worth the two tables of sixteen products that its factor needs.
const LONG: usize = 64;

/// Adds `row` to `out`, from the place `i` on, by the exclusive or.
fn add_binary(out: &mut [Code], i: usize, row: &[Code])
    requires { i + length row.now ≤ length out.old }
    ensures { IsWritten 0 i (length row.now) (λ k. bit_xor (slice_index_or out.old (i + k) 0) (slice_index_or row.now k 0)) out.old out.new }
{
    for j in 0..row.len() {
        out[i + j] ^= row[j];
    }
}

/// Adds `c` times `row` to `out`, from the place `i` on, modulo `p`.
fn add_modulo(p: u16, reciprocal: u64, out: &mut [Code], i: usize, c: Code, row: &[Code])
    requires large { 1 < p }
    requires small { p ≤ 257 }
    requires reciprocal { reciprocal ≡ 4294967296 / p }
    requires room { i + length row.now ≤ length out.old }
    requires out { are_elems (prime_ops p) out.old ≡ true }
    requires factor { IsElem (prime_ops p) c }
    requires row { are_elems (prime_ops p) row.now ≡ true }
    ensures { let r = prime_ops p in
        IsWritten 0 i (length row.now) (λ k. r.add (coeff r out.old (i + k)) (r.mul c (coeff r row.now k))) out.old out.new }
{
    let fraction = fraction_of(p, reciprocal, c);
    for j in 0..row.len() {
        out[i + j] = added_product(p, fraction, out[i + j], c, row[j]);
    }
}

/// Adds `c` times `row` to `out`, from the place `i` on, by the exclusive or of products by logarithms.
fn add_logged(
    field: &BaseField,
    powers: &[Code],
    logs: &[u32],
    out: &mut [Code],
    i: usize,
    c: Code,
    row: &[Code],
)
    requires tables { IsLogTable (size_of field.now) (ops_of field.now).mul powers.now logs.now }
    requires room { i + length row.now ≤ length out.old }
    requires factor { IsElem (ops_of field.now) c }
    requires row { are_elems (ops_of field.now) row.now ≡ true }
    ensures { IsWritten 0 i (length row.now) (λ k. bit_xor (slice_index_or out.old (i + k) 0) ((ops_of field.now).mul c (slice_index_or row.now k 0))) out.old out.new }
{
    let log = logs[c as usize] as usize;
    for j in 0..row.len() {
        out[i + j] ^= powers[log + logs[row[j] as usize] as usize];
    }
}

/// The same over at most 256 codes: sixteen at a time, and those that are left by logarithms.
fn add_shuffled(
    field: &BaseField,
    powers: &[Code],
    logs: &[u32],
    out: &mut [Code],
    i: usize,
    c: Code,
    row: &[Code],
)
    requires prime { field.now.p ≡ 2 }
    requires codes { size_of field.now ≤ 256 }
    requires tables { IsLogTable (size_of field.now) (ops_of field.now).mul powers.now logs.now }
    requires room { i + length row.now ≤ length out.old }
    requires factor { IsElem (ops_of field.now) c }
    requires row { are_elems (ops_of field.now) row.now ≡ true }
    ensures { IsWritten 0 i (length row.now) (λ k. bit_xor (slice_index_or out.old (i + k) 0) ((ops_of field.now).mul c (slice_index_or row.now k 0))) out.old out.new }
{
    let whole = row.len() / 16 * 16;
    add_blocks(field, out, i, c, row);
    add_logged(field, powers, logs, out, i + whole, c, &row[whole..]);
}

/// The same over any number of codes, in the way that is fast for the length of the row.
fn add_products(
    field: &BaseField,
    powers: &[Code],
    logs: &[u32],
    out: &mut [Code],
    i: usize,
    c: Code,
    row: &[Code],
)
    requires prime { field.now.p ≡ 2 }
    requires tables { IsLogTable (size_of field.now) (ops_of field.now).mul powers.now logs.now }
    requires room { i + length row.now ≤ length out.old }
    requires factor { IsElem (ops_of field.now) c }
    requires row { are_elems (ops_of field.now) row.now ≡ true }
    ensures { IsWritten 0 i (length row.now) (λ k. bit_xor (slice_index_or out.old (i + k) 0) ((ops_of field.now).mul c (slice_index_or row.now k 0))) out.old out.new }
{
    if field.q() <= 256 && row.len() >= LONG {
        add_shuffled(field, powers, logs, out, i, c, row);
    } else {
        add_logged(field, powers, logs, out, i, c, row);
    }
}

/// Adds `c` times `row` to `out`, from the place `i` on, in characteristic two.
fn add_scaled_binary(field: &BaseField, out: &mut [Code], i: usize, c: Code, row: &[Code])
    requires prime { field.now.p ≡ 2 }
    requires room { i + length row.now ≤ length out.old }
    requires out { are_elems (ops_of field.now) out.old ≡ true }
    requires factor { IsElem (ops_of field.now) c }
    requires row { are_elems (ops_of field.now) row.now ≡ true }
    ensures { let r = ops_of field.now in
        IsWritten r.zero i (length row.now) (λ k. r.add (coeff r out.old (i + k)) (r.mul c (coeff r row.now k))) out.old out.new }
{
    let products = field.products();
    if c == 1 {
        add_binary(out, i, row);
    } else if let ProductKind::Logged = products.kind {
        add_products(field, &products.powers, &products.logs, out, i, c, row);
    } else {
        add_each(field, out, i, c, row);
    }
}

/// Adds `c` times `row` to `out`, from the place `i` on, by a table of sums and products by logarithms.
fn add_tabled(
    field: &BaseField,
    table: &[Code],
    powers: &[Code],
    logs: &[u32],
    out: &mut [Code],
    i: usize,
    c: Code,
    row: &[Code],
)
    requires sums { IsTable (size_of field.now) (ops_of field.now).add table.now }
    requires products { IsLogTable (size_of field.now) (ops_of field.now).mul powers.now logs.now }
    requires room { i + length row.now ≤ length out.old }
    requires out { are_elems (ops_of field.now) out.old ≡ true }
    requires factor { IsElem (ops_of field.now) c }
    requires row { are_elems (ops_of field.now) row.now ≡ true }
    ensures { let r = ops_of field.now in
        IsWritten r.zero i (length row.now) (λ k. r.add (coeff r out.old (i + k)) (r.mul c (coeff r row.now k))) out.old out.new }
{
    let q = field.q() as usize;
    let log = logs[c as usize] as usize;
    for j in 0..row.len() {
        let term = powers[log + logs[row[j] as usize] as usize];
        out[i + j] = table[out[i + j] as usize * q + term as usize];
    }
}

/// Adds `c` times `row` to `out`, from the place `i` on, by the field's own sums and products.
fn add_each(field: &BaseField, out: &mut [Code], i: usize, c: Code, row: &[Code])
    requires room { i + length row.now ≤ length out.old }
    requires out { are_elems (ops_of field.now) out.old ≡ true }
    requires factor { IsElem (ops_of field.now) c }
    requires row { are_elems (ops_of field.now) row.now ≡ true }
    ensures { let r = ops_of field.now in
        IsWritten r.zero i (length row.now) (λ k. r.add (coeff r out.old (i + k)) (r.mul c (coeff r row.now k))) out.old out.new }
{
    for j in 0..row.len() {
        let term = field.mul(c, row[j]);
        out[i + j] = field.add(out[i + j], term);
    }
}

/// Adds `c` times `row` to `out`, from the place `i` on, by the tables where the field has both.
fn add_by_tables(field: &BaseField, out: &mut [Code], i: usize, c: Code, row: &[Code])
    requires room { i + length row.now ≤ length out.old }
    requires out { are_elems (ops_of field.now) out.old ≡ true }
    requires factor { IsElem (ops_of field.now) c }
    requires row { are_elems (ops_of field.now) row.now ≡ true }
    ensures { let r = ops_of field.now in
        IsWritten r.zero i (length row.now) (λ k. r.add (coeff r out.old (i + k)) (r.mul c (coeff r row.now k))) out.old out.new }
{
    let sums = field.sums();
    let products = field.products();
    if let SumKind::Tabled = sums.kind {
        if let ProductKind::Logged = products.kind {
            add_tabled(
                field,
                &sums.table,
                &products.powers,
                &products.logs,
                out,
                i,
                c,
                row,
            );
            return;
        }
    }
    add_each(field, out, i, c, row);
}

/// Adds `c` times `row` to `out`, from the place `i` on: by the exclusive or in characteristic two, modulo the prime where the
/// degree is one, or else by tables or the field's own sums and products.
pub(super) fn add_multiple(field: &BaseField, out: &mut [Code], i: usize, c: Code, row: &[Code])
    requires room { i + length row.now ≤ length out.old }
    requires out { are_elems (ops_of field.now) out.old ≡ true }
    requires factor { IsElem (ops_of field.now) c }
    requires row { are_elems (ops_of field.now) row.now ≡ true }
    ensures { let r = ops_of field.now in
        IsWritten r.zero i (length row.now) (λ k. r.add (coeff r out.old (i + k)) (r.mul c (coeff r row.now k))) out.old out.new }
{
    let p = field.p();
    if p == 2 {
        add_scaled_binary(field, out, i, c, row);
    } else if field.s() == 1 {
        add_modulo(p as u16, field.reciprocal(), out, i, c, row);
    } else {
        add_by_tables(field, out, i, c, row);
    }
}
