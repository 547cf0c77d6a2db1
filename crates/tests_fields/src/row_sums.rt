//! The row operation of base fields against sums and products by the plain computation.

use super::data::codes_of;
use super::plain::{Modulo, Number, Numbers, Residues};
use super::tables::{LARGE, SMALL, WIDE};
use field_tower::{BaseField, Code};
use ring_core::Field;
use ring_core::lists::all_elems;
use std::alloc::Global;
use std::process::Abort;
use std::test::Fail;
use tests_support::fields::{base_data, make_base};

/// How many members the rows have that are added: none, one, about as many as the 16 lanes of a vector, or twice as
/// many, and about as many as are worth tables of their factor.
const LENGTHS: [usize; 12] = [0, 1, 15, 16, 17, 32, 33, 63, 64, 79, 80, MOST];

/// How many members the longest of them has.
const MOST: usize = 82;

/// The place of the other row from which on they are added.
const PLACE: usize = 3;

/// As many drawn elements, as numbers.
fn drawn<N: Numbers>(
    alloc: Global,
    plain: &Residues<'_, N>,
    state: u32,
    count: usize,
) -> Result<Vec<Number>, Fail> {
    let mut list = Vec::new(alloc);
    let mut next = state;
    for _ in 0..count {
        list.push(plain.sampled(&mut next))?;
    }
    Ok(list)
}

/// The list `before` with `c` times `added` added to it from the place `PLACE` on.
fn sums<N: Numbers>(
    alloc: Global,
    plain: &N,
    c: Number,
    before: &[Number],
    added: &[Number],
) -> Result<Vec<Number>, Fail> {
    let mut list = Vec::new(alloc);
    for (k, old) in before.iter().enumerate() {
        let member = k.checked_sub(PLACE).and_then(|j| added.get(j).copied());
        list.push(plain.add(*old, plain.mul(c, member.unwrap_or(0))))?;
    }
    Ok(list)
}

/// Adds `c` times `added` to `before`: up to its end the members are those of `sums`, and past it those of `before`.
fn check_row(
    rt: &impl Abort,
    alloc: Global,
    field: &BaseField,
    c: Number,
    (before, added): (&[Number], &[Number]),
    sums: &[Number],
) -> Result<(), Fail> {
    let mut out = codes_of(alloc, before)?;
    let row = codes_of(alloc, added)?;
    let factor = Code::try_from(c)?;
    if row.len() > MOST || out.len() != PLACE + MOST {
        return Err(Fail::new("rows of these lengths"));
    }
    if !field.is_elem(factor) || !all_elems(field, &out) || !all_elems(field, &row) {
        return Err(Fail::new("elements"));
    }
    field.add_row(&mut out, PLACE, factor, &row);
    let end = PLACE + row.len();
    for k in 0..out.len() {
        let list = if k < end { sums } else { before };
        let want = list.get(k).copied().unwrap_or(0);
        assert_eq!(rt; out[k] as Number, want, "{c} at {k} up to {end}");
    }
    Ok(())
}

/// Adds `c` times the first members of a drawn row, of each of the lengths, to a drawn row.
fn check_factor<N: Numbers>(
    rt: &impl Abort,
    alloc: Global,
    field: &BaseField,
    plain: &Residues<'_, N>,
    c: Number,
) -> Result<(), Fail> {
    let before = drawn(alloc, plain, 1, PLACE + MOST)?;
    let added = drawn(alloc, plain, 2, MOST)?;
    let sums = sums(alloc, plain, c, &before, &added)?;
    for length in LENGTHS {
        let row = added.get(..length).ok_or("a row of this length")?;
        check_row(rt, alloc, field, c, (&before, row), &sums)?;
    }
    Ok(())
}

/// Zero, one, the greatest code and a drawn one as factors, over the field of a row.
fn check_field(rt: &impl Abort, alloc: Global, row: &str) -> Result<(), Fail> {
    let data = base_data(alloc, row)?;
    let field = make_base(alloc, &data)?;
    let constants = Modulo(data.p as Number);
    let plain = Residues::new(&constants, &data.modulus);
    for c in [0, 1, plain.size().saturating_sub(1), plain.sampled(&mut 3)] {
        check_factor(rt, alloc, &field, &plain, c)?;
    }
    Ok(())
}

#[test]
fn rows_of_codes(rt: HostRuntime) -> Result<(), Fail> {
    for rows in [SMALL, LARGE, WIDE] {
        for row in rows.split('\n') {
            check_field(&rt, rt.alloc(), row)?;
        }
    }
    Ok(())
}
