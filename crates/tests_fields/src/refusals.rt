//! What making fields answers, row by row.

use super::plain::{Modulo, Number, Numbers, Residues, is_pair};
use field_tower::{BaseFault, BaseField, TopElem, Tower, TowerFault, TowerRefused, WIDTH};
use ring_core::lists::all_elems;
use std::alloc::Global;
use std::process::Abort;
use std::test::Fail;
use tests_support::fields::{BaseData, TopData, base_data, codes, make_base, numbers, top_data};

/// Data of base fields. `a^2 + 1` is `(a + 1)^2` over two elements. Over three, where the rows have
/// numbers above 2, `a^2 + 1` is irreducible and `a^2 - 1` is `(a - 1) (a + 1)`.
const BASES: &str = "2 1; 0 1 => field
251 1; 0 1 => field
2 8; 1 1 0 1 1 0 0 0 1 => field
3 2; 1 0 4 => field
257 1; 0 1 => field
251 2; 1 0 1 => field
4 1; 0 1 => too large
263 1; 0 1 => too large
0 1; 0 1 => too large
2 0; 1 => too large
2 17; 1 => too large
257 2; 1 1 1 => too large
2 2; 1 1 => bad modulus
2 2; 1 1 1 1 => bad modulus
3 2; 1 0 5 => bad modulus
2 2; 1 0 1 => zero divisors
3 2; 5 3 4 => zero divisors";

/// Data of top fields, and the coordinates of the letter, which is minus the constant of a modulus of
/// degree 1.
const TOPS: &str = "3 1; 0 1 | 1; 1 1 => 2
3 1; 0 1 | 2; 1 0 1 => 0 1
2 2; 1 1 1 | 2; 2 1 1 => 0 1
2 1; 0 1 | 12; 1 0 0 1 0 0 0 0 0 0 0 0 1 => 0 1";

/// A degree that no top field has, and lists that are no monic polynomial of the degree.
const REFUSED: &str = "2 1; 0 1 | 0; 1 => too large
3 1; 0 1 | 2; 1 0 2 => bad modulus
3 1; 0 1 | 2; 1 1 => bad modulus
2 2; 1 1 1 | 2; 2 1 2 => bad modulus";

/// Moduli with divisors, and the coordinates of the pair that comes of the argument:
/// - `z^2 + 1 = (z + 2) (z + 3)` over 5 elements;
/// - modulo `z^2 - 1` over 251 elements `z (z - 1) .. (z - 249)` is `126 (z - 1)`, by Wilson's theorem
///   and `z^250 = 1`;
/// - `z^4 + z^2 + 1 = (z^2 + z + 1)^2` over two elements, without a root;
/// - `z^6 z^6 = z^12`.
const PAIRS: &str = "5 1; 0 1 | 2; 1 0 1 => 3 1; 2 1
251 1; 0 1 | 2; 250 0 1 => 125 126; 1 1
2 1; 0 1 | 4; 1 0 1 0 1 => 1 1 1; 1 1 1
2 1; 0 1 | 12; 0 0 0 0 0 0 0 0 0 0 0 0 1 => 0 0 0 0 0 0 1; 0 0 0 0 0 0 1";

/// The name of what `BaseField::make` answers. A field must have the size that the data say, and a
/// pair must be one by the plain product.
fn base_answer(rt: &impl Abort, alloc: Global, data: &BaseData) -> &'static str {
    let constants = Modulo(data.p as Number);
    let plain = Residues::new(&constants, &data.modulus);
    match BaseField::make(alloc, data.p, data.s, &data.modulus) {
        Ok(field) => {
            assert_eq!(rt;
                (field.p(), field.s(), field.q() as Number),
                (data.p, data.s, plain.size())
            );
            "field"
        }
        Err(BaseFault::TooLarge) => "too large",
        Err(BaseFault::BadModulus) => "bad modulus",
        Err(BaseFault::ZeroDivisors { a, b }) => {
            assert!(rt; is_pair(&plain, a as Number, b as Number), "{a} {b}");
            "zero divisors"
        }
        Err(BaseFault::NoMemory) => "no memory",
    }
}

#[test]
fn base_fields(rt: HostRuntime) -> Result<(), Fail> {
    for row in BASES.split('\n') {
        let (data, want) = row.split_once(" => ").ok_or("a row")?;
        let data = base_data(rt.alloc(), data)?;
        assert_eq!(rt; base_answer(&rt, rt.alloc(), &data), want, "{row}");
    }
    Ok(())
}

/// What `Tower::make` answers for the data.
fn tower_answer(alloc: Global, data: &TopData) -> Result<Result<Tower, TowerRefused>, Fail> {
    let base = make_base(alloc, &data.base)?;
    let modulus = codes(alloc, &data.modulus)?;
    if !all_elems(&base, &modulus) {
        return Err(Fail::new("elements of the base"));
    }
    Ok(Tower::make(alloc, base, data.n, &modulus))
}

/// The cause of a refusal, which must hand the base back.
fn refusal(rt: &impl Abort, alloc: Global, data: &TopData) -> Result<TowerFault, Fail> {
    let Err(refused) = tower_answer(alloc, data)? else {
        return Err(Fail::new("a refusal"));
    };
    let base = make_base(alloc, &data.base)?;
    let back = &refused.base;
    assert_eq!(rt;
        (back.p(), back.s(), back.q()),
        (base.p(), base.s(), base.q())
    );
    Ok(refused.why)
}

/// That the places of `c` are the numbers of the text, and zero past them.
fn check_places(rt: &impl Abort, alloc: Global, c: TopElem, text: &str) -> Result<(), Fail> {
    let list = numbers(alloc, text)?;
    for i in 0..WIDTH {
        let want = list.get(i).copied().unwrap_or(0);
        assert_eq!(rt; c.0[i] as u32, want, "{text} at {i}");
    }
    Ok(())
}

#[test]
fn top_fields(rt: HostRuntime) -> Result<(), Fail> {
    for row in TOPS.split('\n') {
        let (data, want) = row.split_once(" => ").ok_or("a row")?;
        let data = top_data(rt.alloc(), data)?;
        let Ok(tower) = tower_answer(rt.alloc(), &data)? else {
            return Err(Fail::new("a top field"));
        };
        check_places(&rt, rt.alloc(), tower.letter(), want)?;
    }
    Ok(())
}

/// The name of the cause.
fn cause(why: TowerFault) -> &'static str {
    match why {
        TowerFault::TooLarge => "too large",
        TowerFault::BadModulus => "bad modulus",
        TowerFault::ZeroDivisors { a: _, b: _ } => "zero divisors",
        TowerFault::NoMemory => "no memory",
    }
}

#[test]
fn top_refusals(rt: HostRuntime) -> Result<(), Fail> {
    for row in REFUSED.split('\n') {
        let (data, want) = row.split_once(" => ").ok_or("a row")?;
        let data = top_data(rt.alloc(), data)?;
        let why = refusal(&rt, rt.alloc(), &data)?;
        assert_eq!(rt; cause(why), want, "{row}");
    }
    Ok(())
}

/// A monic modulus of one degree more than there are places.
#[test]
fn degree_past_the_places(rt: HostRuntime) -> Result<(), Fail> {
    let mut modulus = Vec::new(rt.alloc());
    for _ in 0..WIDTH + 1 {
        modulus.push(0)?;
    }
    modulus.push(1)?;
    let data = TopData {
        base: base_data(rt.alloc(), "2 1; 0 1")?,
        n: WIDTH as u32 + 1,
        modulus,
    };
    let why = refusal(&rt, rt.alloc(), &data)?;
    assert_eq!(rt; cause(why), "too large");
    Ok(())
}

#[test]
fn pairs_of_top_refusals(rt: HostRuntime) -> Result<(), Fail> {
    for row in PAIRS.split('\n') {
        let (data, want) = row.split_once(" => ").ok_or("a row")?;
        let data = top_data(rt.alloc(), data)?;
        let TowerFault::ZeroDivisors { a, b } = refusal(&rt, rt.alloc(), &data)? else {
            return Err(Fail::new("a pair"));
        };
        let (left, right) = want.split_once("; ").ok_or("two residues")?;
        check_places(&rt, rt.alloc(), a, left)?;
        check_places(&rt, rt.alloc(), b, right)?;
    }
    Ok(())
}
