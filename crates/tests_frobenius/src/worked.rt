//! Least relations of Frobenius that are known, and how the answers are compared with rows.
use fq_poly::Poly;
use frobenius_rel::{NoPower, least_relation, rank_power};
use ring_core::{B, E, FrobField};
use std::alloc::Global;
use std::process::Abort;
use std::test::Fail;
use tests_plain_modules::modules::{embedded, module, rows};
use tests_support::fields::{FOUR, NINE, elements, tower};
use tests_support::plain::are_same;
use tests_support::twisted::row;

/// The polynomials over the base, as lists of elements of the field.
fn lists<K: FrobField>(
    alloc: Global,
    field: &K,
    polys: &[Poly<B<K>>],
) -> Result<Vec<Vec<E<K>>>, Fail> {
    let mut lists = Vec::new(alloc);
    for poly in polys {
        let Ok(()) = lists.push(embedded(alloc, field, poly.as_slice())?) else {
            return Err(Fail::new("memory for a list"));
        };
    }
    Ok(lists)
}

/// The least relation of the module with these coefficients.
pub fn least<K: FrobField>(alloc: Global, field: &K, phi: &[E<K>]) -> Result<Vec<Vec<E<K>>>, Fail> {
    let phi = module(alloc, field, phi)?;
    let relation = least_relation(alloc, field, &phi)?;
    lists(alloc, field, &relation)
}

/// The power of the least relation that has the degree of the rank.
pub fn whole<K: FrobField>(alloc: Global, field: &K, phi: &[E<K>]) -> Result<Vec<Vec<E<K>>>, Fail> {
    let phi = module(alloc, field, phi)?;
    match rank_power(alloc, field, &phi) {
        Ok(power) => lists(alloc, field, &power),
        Err(NoPower::Degrees { .. }) => Err(Fail::new("a degree that divides the rank")),
        Err(NoPower::NoMemory) => Err(Fail::new("memory for a power")),
    }
}

/// That the polynomials are as wanted.
pub fn check_lists<K: FrobField>(
    rt: &impl Abort,
    field: &K,
    got: &[Vec<E<K>>],
    want: &[Vec<E<K>>],
    label: &str,
) -> Result<(), Fail> {
    assert_eq!(rt; got.len(), want.len(), "{label}");
    for (list, expected) in got.iter().zip(want) {
        assert!(rt; are_same(field, list, expected)?, "{label}");
    }
    Ok(())
}

/// The relation of the module of the row, and its power.
fn check_relation<K: FrobField>(
    rt: &impl Abort,
    alloc: Global,
    field: &K,
    names: &[E<K>],
    (phi, relation, power): (&str, &str, &str),
) -> Result<(), Fail> {
    let module = row(alloc, names, phi)?;
    let want = rows(alloc, names, relation)?;
    check_lists(rt, field, &least(alloc, field, &module)?, &want, relation)?;
    let want = rows(alloc, names, power)?;
    check_lists(rt, field, &whole(alloc, field, &module)?, &want, power)
}

fn check_over(
    rt: &impl Abort,
    alloc: Global,
    text: &str,
    size: u32,
    relation: (&str, &str, &str),
) -> Result<(), Fail> {
    let field = tower(alloc, text)?;
    let names = elements(alloc, &field, size)?;
    check_relation(rt, alloc, &field, &names, relation)
}

const TWO: &str = "2 1; 0 1 | 1; 0 1";

const THREE: &str = "3 1; 0 1 | 1; 0 1";

/// The field of eight elements, modulo `z^3 + z + 1` over two elements.
const EIGHT: &str = "2 1; 0 1 | 3; 1 1 0 1";

/// The field of 16 elements, modulo `z^2 + z + a` over the four residues modulo `a^2 + a + 1`.
const SIXTEEN: &str = "2 2; 1 1 1 | 2; 2 1 1";

/// The field of 256 elements, modulo `z^8 + z^4 + z^3 + z + 1` over two elements.
const EIGHT_BITS: &str = "2 1; 0 1 | 8; 1 1 0 1 1 0 0 0 1";

/// A field and how many elements it has, a module, the least relation of Frobenius, and the power of it that has the
/// degree of the rank. In the last row `tau^2 = tau + y` with `y = T + 1`, so `X = tau^8` is `tau + y + y^2 + y^4`, and
/// `X (X + 1)` is `y^8`.
const RELATIONS: [(&str, u32, &str, &str, &str); 10] = [
    (FOUR, 4, "2 1", "1 1 1; 1", "1 1 1; 1"),
    (TWO, 2, "0 1", "0 1; 1", "0 1; 1"),
    (THREE, 3, "1 1", "1 2; 1", "1 2; 1"),
    (NINE, 9, "3 1", "2 0 2; 1", "2 0 2; 1"),
    (EIGHT, 8, "2 1", "1 1 0 1; 1", "1 1 0 1; 1"),
    (SIXTEEN, 16, "4 1", "2 1 1; 1", "2 1 1; 1"),
    (TWO, 2, "1 0 1", "1 1; 0; 1", "1 1; 0; 1"),
    (FOUR, 4, "1 0 1", "1 1; 1", "1 0 1; 0; 1"),
    (EIGHT, 8, "1 0 0 1", "1 1; 1", "1 1 1 1; 1 0 1; 1 1; 1"),
    (
        EIGHT_BITS,
        256,
        "1 1 1",
        "1 0 0 0 0 0 0 0 1; 1; 1",
        "1 0 0 0 0 0 0 0 1; 1; 1",
    ),
];

#[test]
fn worked_relations(rt: HostRuntime) -> Result<(), Fail> {
    for (field, size, phi, relation, power) in RELATIONS {
        check_over(&rt, rt.alloc(), field, size, (phi, relation, power))?;
    }
    Ok(())
}
