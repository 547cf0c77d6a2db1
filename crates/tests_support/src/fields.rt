//! Fields from rows of text. A base field is `p s; modulus`, and a top field the same of its base, ` | `
//! and `n; modulus`; coefficients stand lowest first.
use field_tower::{BaseField, Code, TopElem, Tower, WIDTH};
use ring_core::FrobField;
use ring_core::lists::all_elems;
use std::alloc::Global;
use std::test::Fail;

/// The field of four elements, modulo `z^2 + z + 1` over two elements.
pub const FOUR: &str = "2 1; 0 1 | 2; 1 1 1";

/// The field of eight elements, modulo `z^3 + z + 1` over two elements.
pub const EIGHT: &str = "2 1; 0 1 | 3; 1 1 0 1";

/// The field of nine elements, modulo `z^2 + 1` over three elements.
pub const NINE: &str = "3 1; 0 1 | 2; 1 0 1";

/// The field of 4,096 elements, modulo `z^12 + z^3 + 1` over two elements.
pub const TWELVE: &str = "2 1; 0 1 | 12; 1 0 0 1 0 0 0 0 0 0 0 0 1";

/// What `BaseField::make` is given.
#[derive(Drop)]
pub struct BaseData {
    pub p: u32,
    pub s: u32,
    pub modulus: Vec<u32>,
}

/// What `Tower::make` is given beside its base.
#[derive(Drop)]
pub struct TopData {
    pub base: BaseData,
    pub n: u32,
    pub modulus: Vec<u32>,
}

/// The numbers of a text, with a blank between them.
pub fn numbers(alloc: Global, text: &str) -> Result<Vec<u32>, Fail> {
    let mut list = Vec::new(alloc);
    for word in text.split(' ') {
        list.push(word.parse::<u32>()?)?;
    }
    Ok(list)
}

/// The data of a base field from a row.
pub fn base_data(alloc: Global, text: &str) -> Result<BaseData, Fail> {
    let (sizes, modulus) = text.split_once("; ").ok_or("a base")?;
    let (p, s) = sizes.split_once(' ').ok_or("the size of a base")?;
    Ok(BaseData {
        p: p.parse::<u32>()?,
        s: s.parse::<u32>()?,
        modulus: numbers(alloc, modulus)?,
    })
}

/// The data of a top field from a row.
pub fn top_data(alloc: Global, text: &str) -> Result<TopData, Fail> {
    let (base, top) = text.split_once(" | ").ok_or("a base and a top")?;
    let (n, modulus) = top.split_once("; ").ok_or("a top")?;
    Ok(TopData {
        base: base_data(alloc, base)?,
        n: n.parse::<u32>()?,
        modulus: numbers(alloc, modulus)?,
    })
}

/// The base field of the data.
pub fn make_base(alloc: Global, data: &BaseData) -> Result<BaseField, Fail> {
    match BaseField::make(alloc, data.p, data.s, &data.modulus) {
        Ok(field) => Ok(field),
        Err(_) => Err(Fail::new("a base field")),
    }
}

/// The numbers as codes.
pub fn codes(alloc: Global, list: &[u32]) -> Result<Vec<Code>, Fail> {
    let mut codes = Vec::new(alloc);
    for c in list {
        codes.push(Code::try_from(*c)?)?;
    }
    Ok(codes)
}

/// The top field of the data.
pub fn make_top(alloc: Global, data: &TopData) -> Result<Tower, Fail> {
    let base = make_base(alloc, &data.base)?;
    let modulus = codes(alloc, &data.modulus)?;
    if !all_elems(&base, &modulus) {
        return Err(Fail::new("elements of the base"));
    }
    match Tower::make(alloc, base, data.n, &modulus) {
        Ok(tower) => Ok(tower),
        Err(_) => Err(Fail::new("a top field")),
    }
}

/// The field of `p` elements, for a prime `p`.
pub fn prime_field(alloc: Global, p: u32) -> Result<BaseField, Fail> {
    match BaseField::make(alloc, p, 1, &[0, 1]) {
        Ok(field) => Ok(field),
        Err(_) => Err(Fail::new("a field of prime size")),
    }
}

/// The top field of a row.
pub fn tower(alloc: Global, text: &str) -> Result<Tower, Fail> {
    make_top(alloc, &top_data(alloc, text)?)
}

/// The element of a top field over `q` elements with this number: its coordinates are the digits of the number in
/// base `q`, lowest first.
fn element(q: u32, number: u32) -> TopElem {
    let mut places = [0; WIDTH];
    let mut rest = number;
    for i in 0..WIDTH {
        let digit = rest.checked_rem(q).unwrap_or(0);
        places[i] = Code::try_from(digit).unwrap_or(0);
        rest = rest.checked_div(q).unwrap_or(0);
    }
    TopElem(places)
}

/// The elements of the field with the numbers below `count`.
pub fn elements(alloc: Global, tower: &Tower, count: u32) -> Result<Vec<TopElem>, Fail> {
    let q = tower.base().q();
    let mut list = Vec::new(alloc);
    for number in 0..count {
        list.push(element(q, number))?;
    }
    Ok(list)
}
