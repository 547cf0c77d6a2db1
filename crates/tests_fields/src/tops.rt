//! Towers against the plain computation: sums, products, negatives, inverses and the Frobenius.

use super::data::{SIXTEEN, of_places, places, top_number};
use super::plain::{Bits, Digits, Modulo, Number, Numbers, Residues};
use field_tower::{TopElem, Tower};
use ring_core::{Field, FrobField};
use std::alloc::Global;
use std::process::Abort;
use std::test::Fail;
use tests_support::fields::{make_top, top_data};

/// `F_2[z] / (z^12 + z^3 + 1)`; `F_256[z] / (z^3 + a + 1)` and `F_9[z] / (z^2 - a - 1)`, in both of
/// which `a + 1` generates the units, and so is no cube and no square; `F_5[z] / (z^3 + z + 1)`.
const SAMPLED: &str = "2 1; 0 1 | 12; 1 0 0 1 0 0 0 0 0 0 0 0 1
2 8; 1 1 0 1 1 0 0 0 1 | 3; 3 0 0 1
3 2; 1 0 1 | 2; 8 0 1
5 1; 0 1 | 3; 1 1 0 1";

/// Fields of degree 13 to 16, and of degree 7 over more than 256 elements. A polynomial that is irreducible over the prime
/// field stays so over a field whose degree has no divisor with its own.
const WIDE: &str = "2 1; 0 1 | 13; 1 1 0 1 1 0 0 0 0 0 0 0 0 1
2 1; 0 1 | 14; 1 0 0 0 0 1 0 0 0 0 0 0 0 0 1
2 1; 0 1 | 15; 1 1 0 0 0 0 0 0 0 0 0 0 0 0 0 1
2 1; 0 1 | 16; 1 1 0 1 0 1 0 0 0 0 0 0 0 0 0 0 1
3 1; 0 1 | 16; 2 0 0 0 1 0 0 0 0 0 0 0 0 0 0 0 1
5 1; 0 1 | 13; 1 0 0 0 0 0 1 0 0 0 0 0 0 1
251 1; 0 1 | 16; 14 0 1 0 0 0 0 0 0 0 0 0 0 0 0 0 1
257 1; 0 1 | 15; 4 1 0 0 0 0 0 0 0 0 0 0 0 0 0 1
2 8; 1 1 0 1 1 0 0 0 1 | 13; 1 1 0 1 1 0 0 0 0 0 0 0 0 1
3 2; 1 0 1 | 13; 2 0 0 0 1 0 0 0 0 0 0 0 0 1
2 16; 1 1 0 1 0 1 0 0 0 0 0 0 0 0 0 0 1 | 7; 1 1 0 0 0 0 0 1";

/// The largest fields: degree 16 over 65,536 elements, over 257, 63,001 and 59,049. The moduli were drawn, until the test
/// that says what is irreducible held by a program apart from this one, in Python: `z^(q^16)` is `z` modulo the drawn one,
/// which has no common divisor with `z^(q^8) - z`, by tables of logarithms for the base.
const LARGEST: &str =
    "2 16; 1 1 0 1 0 1 0 0 0 0 0 0 0 0 0 0 1 | 16; 65402 31663 61891 27413 57932 17502 64266 10424 14067 41060 7617 60603 10551 65075 6875 43887 1
257 1; 0 1 | 16; 52 110 58 212 55 145 59 233 222 72 204 121 64 67 206 221 1
251 2; 1 0 1 | 16; 11675 38149 730 15657 34432 16019 60226 7608 6817 42002 9649 17537 25449 26672 2528 26541 1
3 10; 1 0 2 0 0 0 0 0 0 0 1 | 16; 46340 12989 28022 43723 16735 32954 25180 6769 53225 14150 7450 27259 41454 7093 18596 7594 1";

/// The element with these places.
fn member(tower: &Tower, list: &Digits) -> Result<TopElem, Fail> {
    let a = of_places(list);
    if tower.is_elem(a) {
        Ok(a)
    } else {
        Err(Fail::new("the places of an element"))
    }
}

/// The sum and the product of the elements with these places.
fn check_pair<N: Numbers>(
    rt: &impl Abort,
    tower: &Tower,
    plain: &Residues<'_, N>,
    a: &Digits,
    b: &Digits,
) -> Result<(), Fail> {
    let left = member(tower, a)?;
    let right = member(tower, b)?;
    assert!(rt; tower.is_elem(left) && tower.is_elem(right));
    let sum = places(tower.add(left, right));
    assert_eq!(rt; sum, plain.sum(a, b), "{a:?} + {b:?}");
    let product = places(tower.mul(left, right));
    assert_eq!(rt; product, plain.product(a, b), "{a:?} {b:?}");
    Ok(())
}

/// The negative and the inverse of the element with these places: the inverse is the one whose plain
/// product with it is one.
fn check_one<N: Numbers>(
    rt: &impl Abort,
    tower: &Tower,
    plain: &Residues<'_, N>,
    a: &Digits,
) -> Result<(), Fail> {
    let member = member(tower, a)?;
    assert!(rt; tower.is_elem(member));
    assert_eq!(rt; places(tower.neg(member)), plain.negative(a), "-{a:?}");
    match tower.inv(member) {
        None => assert_eq!(rt; *a, plain.digits(0)),
        Some(inverse) => {
            assert!(rt; tower.is_elem(inverse), "{a:?}");
            let product = plain.product(a, &places(inverse));
            assert_eq!(rt; product, plain.digits(1), "{a:?}");
        }
    }
    Ok(())
}

/// The powers by `q^i` of the element with these places, for `i` from 0 to 5.
fn check_frobenius<N: Numbers>(
    rt: &impl Abort,
    tower: &Tower,
    plain: &Residues<'_, N>,
    a: &Digits,
) -> Result<(), Fail> {
    let member = member(tower, a)?;
    let mut want = *a;
    for i in 0..6 {
        assert!(rt; tower.is_elem(member));
        assert_eq!(rt; places(tower.frob(member, i)), want, "{a:?} {i}");
        want = plain.next_power((tower.base().p(), tower.base().s()), &want);
    }
    Ok(())
}

fn check_all_with<N: Numbers>(
    rt: &impl Abort,
    tower: &Tower,
    plain: &Residues<'_, N>,
    a: &Digits,
) -> Result<(), Fail> {
    for b in 0..plain.size() {
        check_pair(rt, tower, plain, a, &plain.digits(b))?;
    }
    Ok(())
}

fn check_all<N: Numbers>(
    rt: &impl Abort,
    tower: &Tower,
    plain: &Residues<'_, N>,
) -> Result<(), Fail> {
    for number in 0..plain.size() {
        let a = plain.digits(number);
        check_one(rt, tower, plain, &a)?;
        check_frobenius(rt, tower, plain, &a)?;
        check_all_with(rt, tower, plain, &a)?;
    }
    Ok(())
}

fn check_sample<N: Numbers>(
    rt: &impl Abort,
    tower: &Tower,
    plain: &Residues<'_, N>,
    count: u32,
) -> Result<(), Fail> {
    let mut state = 1;
    for _ in 0..count {
        let a = plain.sample(&mut state);
        check_one(rt, tower, plain, &a)?;
        check_pair(rt, tower, plain, &a, &plain.sample(&mut state))?;
    }
    Ok(())
}

fn check_few_powers<N: Numbers>(
    rt: &impl Abort,
    tower: &Tower,
    plain: &Residues<'_, N>,
    count: u32,
) -> Result<(), Fail> {
    let mut state = 1;
    for _ in 0..count {
        check_frobenius(rt, tower, plain, &plain.sample(&mut state))?;
    }
    Ok(())
}

/// What of a tower is compared.
#[derive(Clone, Copy)]
enum Extent {
    /// Every element, and every pair.
    Whole,
    /// As many pairs, and the Frobenius of as many elements.
    Sample { pairs: u32, powers: u32 },
}

/// Compares a tower with the plain residues over its constants.
fn check_with<N: Numbers>(
    rt: &impl Abort,
    tower: &Tower,
    constants: &N,
    modulus: &[u32],
    extent: Extent,
) -> Result<(), Fail> {
    let plain = Residues::new(constants, modulus);
    assert_eq!(rt; tower.base().q() as Number, constants.size());
    assert_eq!(rt; places(tower.zero()), plain.digits(0));
    assert_eq!(rt; places(tower.one()), plain.digits(1));
    match extent {
        Extent::Whole => check_all(rt, tower, &plain),
        Extent::Sample { pairs, powers } => {
            check_one(rt, tower, &plain, &plain.digits(0))?;
            check_sample(rt, tower, &plain, pairs)?;
            check_few_powers(rt, tower, &plain, powers)
        }
    }
}

/// Compares the tower of a row, by bits where its constants are residues over two elements.
fn check_tower(rt: &impl Abort, alloc: Global, row: &str, extent: Extent) -> Result<(), Fail> {
    let data = top_data(alloc, row)?;
    let tower = make_top(alloc, &data)?;
    if data.base.p == 2 {
        let constants = Bits::new(&data.base.modulus);
        check_with(rt, &tower, &constants, &data.modulus, extent)
    } else {
        let prime = Modulo(data.base.p as Number);
        let constants = Residues::new(&prime, &data.base.modulus);
        check_with(rt, &tower, &constants, &data.modulus, extent)
    }
}

/// Compares the towers of the rows.
fn check_rows(rt: &impl Abort, alloc: Global, rows: &str, extent: Extent) -> Result<(), Fail> {
    for row in rows.split('\n') {
        check_tower(rt, alloc, row, extent)?;
    }
    Ok(())
}

#[test]
fn all_of_sixteen(rt: HostRuntime) -> Result<(), Fail> {
    check_rows(&rt, rt.alloc(), SIXTEEN, Extent::Whole)
}

#[test]
fn samples_of_towers(rt: HostRuntime) -> Result<(), Fail> {
    let extent = Extent::Sample {
        pairs: 500,
        powers: 10,
    };
    check_rows(&rt, rt.alloc(), SAMPLED, extent)
}

#[test]
fn wide_towers(rt: HostRuntime) -> Result<(), Fail> {
    let extent = Extent::Sample {
        pairs: 60,
        powers: 2,
    };
    check_rows(&rt, rt.alloc(), WIDE, extent)
}

#[test]
fn largest_towers(rt: HostRuntime) -> Result<(), Fail> {
    let extent = Extent::Sample {
        pairs: 10,
        powers: 1,
    };
    check_rows(&rt, rt.alloc(), LARGEST, extent)
}

/// In `F_4[z] / (z^2 + z + a)` the fourth power takes `z` to `z + 1` and back: `z^4 = z^2 + a^2`, which
/// is `z + a + a^2`.
#[test]
fn many_steps_by_hand(rt: HostRuntime) -> Result<(), Fail> {
    let data = top_data(rt.alloc(), SIXTEEN)?;
    let tower = make_top(rt.alloc(), &data)?;
    let z = tower.letter();
    for (steps, want) in [(0, 4), (1, 5), (2, 4), (3, 5), (1_000_001, 5)] {
        assert!(rt; tower.is_elem(z));
        assert_eq!(rt; top_number(&rt, 4, tower.frob(z, steps)), want, "{steps}");
    }
    Ok(())
}
