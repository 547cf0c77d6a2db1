//! Elements of fields as the numbers with their digits.
use super::plain::{Digits, Number, ROOM, digits, number};
use field_tower::{Code, TopElem, WIDTH};
use std::alloc::Global;
use std::process::Abort;
use std::test::Fail;

/// `F_4[z] / (z^2 + z + a)`.
pub const SIXTEEN: &str = "2 2; 1 1 1 | 2; 2 1 1";

/// The places of `c` as digits.
pub fn places(c: TopElem) -> Digits {
    let mut list = [0; ROOM];
    for i in 0..WIDTH {
        list[i] = c.0[i] as Number;
    }
    list
}

/// The element whose places are these digits, of which each must be a code.
pub fn of_places(list: &Digits) -> TopElem {
    let mut places = [0; WIDTH];
    for i in 0..WIDTH {
        places[i] = Code::try_from(list[i]).unwrap_or(0);
    }
    TopElem(places)
}

/// The number whose digits in base `q` are the places of `c`, of which each must be a digit.
pub fn top_number(rt: &impl Abort, q: Number, c: TopElem) -> Number {
    let a = number(q, &places(c));
    assert_eq!(rt; of_places(&digits(q, WIDTH, a)).0, c.0);
    a
}

/// The codes that are these numbers.
pub fn codes_of(alloc: Global, list: &[Number]) -> Result<Vec<Code>, Fail> {
    let mut codes = Vec::new(alloc);
    for c in list {
        codes.push(Code::try_from(*c)?)?;
    }
    Ok(codes)
}
