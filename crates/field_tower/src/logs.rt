//! Products in base fields by logarithms. Candidates for a generator are tried one after the other, and the
//! tables of each are tested, so nothing rests on a generator's being found.

ghost use Rattle.std.specs.Prelude.{◌≡◌, ◌-◌, ◌*◌, ◌<◌, ◌≤◌, cond, nat_lt, IfOk, IfSome, length, true};
ghost use Rattle.ring_core.specs.Coeffs.{first_values};
ghost use Rattle.field_tower.specs.declared.size.TheConstants.{CODES};
ghost use Rattle.field_tower.specs.steps.Codes.{code_ops};
ghost use Rattle.field_tower.specs.steps.Tables.{IsRow};
ghost use Rattle.field_tower.specs.steps.Logs.{steps_below, AreSteps, AreLogs, IsLogTable};
ghost use Rattle.field_tower.specs.steps.Kinds.{AreProducts};

use super::codes::Codes;
use residue_field::Code;
use ring_core::NoMemory;
use std::alloc::Global;

/// How a base field multiplies.
#[derive(Clone, Copy)]
pub(crate) enum ProductKind {
    /// Modulo the prime, where the degree is one.
    Modular,
    /// By logarithms.
    Logged,
    /// By the digits of the codes.
    Digital,
}

/// How a base field multiplies, with the tables that it needs; those that it doesn't need are empty.
#[derive(Drop)]
pub(crate) struct Products {
    pub(crate) kind: ProductKind,
    // the powers of a generator, those below 2 q - 2, and zeros up to the place 4 q
    pub(crate) powers: Vec<Code>,
    // for each nonzero code the exponent below q - 1, and 2 q - 2 for zero, so that its sums meet zeros
    pub(crate) logs: Vec<u32>,
}

/// The product of the codes `a` and `g`, where `row` holds those of the codes below `a`: the sum of two
/// of them where `a` is the sum of `place` and another code below.
fn multiple(codes: &Codes, g: usize, row: &[Code], a: usize, place: usize) -> Code
    requires factor { g < codes.now.q }
    requires code { a < codes.now.q }
    requires before { row.now ≡ first_values a (λ b. (code_ops codes.now).mul b g) }
    ensures { result ≡ (code_ops codes.now).mul a g }
{
    if let Some(rest) = codes.without_place(a, place) {
        return codes.sum(row[rest] as usize, row[place] as usize);
    }
    codes.product(a, g)
}

/// The products of all codes with the code `g`.
fn multiples(alloc: Global, codes: &Codes, g: usize) -> Result<Vec<Code>, NoMemory>
    requires { g < codes.now.q }
    ensures { IfOk result (λ t. IsRow codes.now.q (λ a. (code_ops codes.now).mul a g) t.items) }
{
    let mut row = Vec::with_capacity(alloc, codes.q)?;
    let mut place = 1;
    for a in 0..codes.q {
        place = codes.top_place(place, a);
        let product = multiple(codes, g, &row, a, place);
        row.push(product)?;
    }
    Ok(row)
}

/// Whether steps from 1, each from `a` to `row[a]`, come back to 1 before all other codes but zero could
/// be met.
fn returns_early(row: &[Code]) -> bool
    requires steps { AreSteps row.now }
{
    let mut code = row[1];
    for _i in 2..row.len() {
        if code == 1 {
            return true;
        }
        code = row[code as usize];
    }
    false
}

/// `code` at a place below `n`, and zero from there on.
fn below(n: usize, i: usize, code: Code) -> Code
    ensures { result ≡ cond (nat_lt i n) code 0 }
{
    if i < n { code } else { 0 }
}

/// The codes that steps from 1 meet, each from `a` to `row[a]`, with zeros from the place `n` on: `count`
/// members in all.
fn walk(alloc: Global, row: &[Code], n: usize, count: usize) -> Result<Vec<Code>, NoMemory>
    requires steps { AreSteps row.now }
    ensures { IfOk result (λ t. t.items ≡ first_values count (steps_below n row.now)) }
{
    let mut list = Vec::with_capacity(alloc, count)?;
    let mut code = 1;
    for i in 0..count {
        list.push(below(n, i, code))?;
        code = row[code as usize];
    }
    Ok(list)
}

/// The place of each code among the first `q - 1` powers, `2 q - 2` for a code that isn't there.
fn places_of(alloc: Global, powers: &[Code], q: usize) -> Result<Vec<u32>, NoMemory>
    requires large { 1 < q }
    requires small { q ≤ CODES }
    requires long { q ≤ length powers.now }
    ensures { IfOk result (λ t. length t.items ≡ q) }
{
    let mut logs = vec![in alloc; (2 * q - 2) as u32; q]?;
    for i in 0..q - 1 {
        if let Some(log) = logs.get_mut(powers[i] as usize) {
            *log = i as u32;
        }
    }
    Ok(logs)
}

/// Whether each logarithm leads back to its code.
fn are_logs(powers: &[Code], logs: &[u32], q: usize) -> bool
    requires large { 1 < q }
    requires small { q ≤ CODES }
    requires count { length logs.now ≡ q }
    requires long { q ≤ length powers.now }
    ensures { result ≡ true → AreLogs q powers.now logs.now }
{
    if logs[0] as usize != 2 * q - 2 {
        return false;
    }
    for a in 1..q {
        let log = logs[a] as usize;
        if log >= q - 1 || powers[log] as usize != a {
            return false;
        }
    }
    true
}

/// Products by the powers of the code `g`; None where not every nonzero code is one.
fn products_by(alloc: Global, codes: &Codes, g: usize) -> Result<Option<Products>, NoMemory>
    requires { g < codes.now.q }
    ensures { let k = codes.now in IfOk result (λ o. IfSome o (AreProducts k.prime.p (length k.modulus.now - 2) k.q k.modulus.now)) }
{
    let q = codes.q;
    let row = multiples(alloc, codes, g)?;
    if returns_early(&row) {
        return Ok(None);
    }
    let powers = walk(alloc, &row, 2 * q - 2, 4 * q)?;
    let logs = places_of(alloc, &powers, q)?;
    if !are_logs(&powers, &logs, q) {
        return Ok(None);
    }
    Ok(Some(Products {
        kind: ProductKind::Logged,
        powers,
        logs,
    }))
}

/// Products by the logarithms to the first generator; by digits where none is found.
fn logged_products(alloc: Global, codes: &Codes) -> Result<Products, NoMemory>
    ensures { let k = codes.now in IfOk result (AreProducts k.prime.p (length k.modulus.now - 2) k.q k.modulus.now) }
{
    for g in codes.prime.p as usize..codes.q {
        if let Some(products) = products_by(alloc, codes, g)? {
            return Ok(products);
        }
    }
    Ok(Products {
        kind: ProductKind::Digital,
        powers: Vec::new(alloc),
        logs: Vec::new(alloc),
    })
}

/// How the base field of these codes multiplies.
pub(crate) fn made_products(alloc: Global, codes: &Codes) -> Result<Products, NoMemory>
    ensures { let k = codes.now in IfOk result (AreProducts k.prime.p (length k.modulus.now - 2) k.q k.modulus.now) }
{
    if codes.modulus.len() != 2 {
        return logged_products(alloc, codes);
    }
    Ok(Products {
        kind: ProductKind::Modular,
        powers: Vec::new(alloc),
        logs: Vec::new(alloc),
    })
}
