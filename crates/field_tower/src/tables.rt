//! How a base field computes, with the tables that it needs.

ghost use Rattle.std.specs.Prelude.{◌≡◌, ◌-◌, ◌+◌, ◌*◌, ◌<◌, IfOk, IfSome, OnOk, length};
ghost use Rattle.field_tower.specs.steps.Codes.{code_ops, first_sums};
ghost use Rattle.field_tower.specs.steps.Tables.{IsRest, IsRow, IsTable};
ghost use Rattle.field_tower.specs.steps.Kinds.{AreProducts, AreSums};

use super::codes::Codes;
use super::logs::{Products, made_products};
use residue_field::Code;
use ring_core::NoMemory;
use std::alloc::Global;

/// The largest base field whose sums are kept in a table of all pairs, if it needs one.
const TABLED: usize = 256;

/// How a base field adds.
#[derive(Clone, Copy)]
pub(crate) enum SumKind {
    /// Modulo the prime, where the degree is one.
    Modular,
    /// By exclusive or, in characteristic two.
    Binary,
    /// By tables.
    Tabled,
    /// By the digits of the codes.
    Digital,
}

/// How a base field adds, with the tables that it needs; those that it doesn't need are empty.
#[derive(Drop)]
pub(crate) struct Sums {
    pub(crate) kind: SumKind,
    // the sum of `a` and `b` at `a q + b`
    pub(crate) table: Vec<Code>,
    pub(crate) negatives: Vec<Code>,
}

/// How a base field computes, with its tables.
#[derive(Drop)]
pub(crate) struct Tables {
    pub(crate) sums: Sums,
    pub(crate) products: Products,
}

/// The sum of the codes `a` and `b`, where `table` holds those of the codes below `a`: that of `rest` and of the sum of `place` and `b`, where `a` is
/// the sum of `rest` and `place`.
fn sum_entry(
    codes: &Codes,
    table: &[Code],
    a: usize,
    b: usize,
    place: usize,
    rest: Option<usize>,
) -> Code
    requires left { a < codes.now.q }
    requires right { b < codes.now.q }
    requires before { table.now ≡ first_sums codes.now (a * codes.now.q + b) }
    requires rest { IfSome rest (IsRest (code_ops codes.now) a place) }
    ensures { result ≡ (code_ops codes.now).add a b }
{
    let Some(rest) = rest else {
        return codes.sum(a, b);
    };
    let sum = table[place * codes.q + b];
    table[rest * codes.q + sum as usize]
}

/// Adds the sums of the code `a` and all codes to `table`, which holds those of the codes below `a`.
fn push_sums(codes: &Codes, table: &mut Vec<Code>, a: usize, place: usize) -> Result<(), NoMemory>
    requires code { a < codes.now.q }
    requires before { table.old.items ≡ first_sums codes.now (a * codes.now.q) }
    ensures { OnOk result (table.new.items ≡ first_sums codes.now (a * codes.now.q + codes.now.q)) }
{
    let rest = codes.without_place(a, place);
    for b in 0..codes.q {
        let sum = sum_entry(codes, table, a, b, place, rest);
        table.push(sum)?;
    }
    Ok(())
}

/// The sums of all pairs of codes.
fn sum_table(alloc: Global, codes: &Codes) -> Result<Vec<Code>, NoMemory>
    ensures { IfOk result (λ t. IsTable codes.now.q (code_ops codes.now).add t.items) }
{
    let mut table = Vec::with_capacity(alloc, codes.q * codes.q)?;
    let mut place = 1;
    for a in 0..codes.q {
        place = codes.top_place(place, a);
        push_sums(codes, &mut table, a, place)?;
    }
    Ok(table)
}

/// The negatives of all codes.
fn negative_row(alloc: Global, codes: &Codes) -> Result<Vec<Code>, NoMemory>
    ensures { IfOk result (λ t. IsRow codes.now.q (code_ops codes.now).neg t.items) }
{
    let mut row = Vec::new(alloc);
    for a in 0..codes.q {
        row.push(codes.negative(a))?;
    }
    Ok(row)
}

/// A kind of sums that needs no tables.
fn without_tables(alloc: Global, kind: SumKind) -> Sums
    ensures { result.kind ≡ kind }
{
    Sums {
        kind,
        table: Vec::new(alloc),
        negatives: Vec::new(alloc),
    }
}

/// How the base field of these codes adds.
fn made_sums(alloc: Global, codes: &Codes) -> Result<Sums, NoMemory>
    ensures { let k = codes.now in IfOk result (AreSums k.prime.p (length k.modulus.now - 2) k.q k.modulus.now) }
{
    if codes.modulus.len() == 2 {
        return Ok(without_tables(alloc, SumKind::Modular));
    }
    if codes.prime.p == 2 {
        return Ok(without_tables(alloc, SumKind::Binary));
    }
    if codes.q > TABLED {
        return Ok(without_tables(alloc, SumKind::Digital));
    }
    let table = sum_table(alloc, codes)?;
    let negatives = negative_row(alloc, codes)?;
    Ok(Sums {
        kind: SumKind::Tabled,
        table,
        negatives,
    })
}

/// How the base field of these codes computes.
pub(crate) fn made_tables(alloc: Global, codes: &Codes) -> Result<Tables, NoMemory>
    ensures sums { let k = codes.now in IfOk result (λ t. AreSums k.prime.p (length k.modulus.now - 2) k.q k.modulus.now t.sums) }
    ensures products { let k = codes.now in IfOk result (λ t. AreProducts k.prime.p (length k.modulus.now - 2) k.q k.modulus.now t.products) }
{
    let sums = made_sums(alloc, codes)?;
    let products = made_products(alloc, codes)?;
    Ok(Tables { sums, products })
}
