//! How many products of the field make the system of a bounded list.
use super::modules::bounded_between;
use ring_core::{E, FrobField};
use std::alloc::Global;
use std::process::Abort;
use std::test::Fail;
use tests_support::counting::CountingField;
use tests_support::fields::{elements, tower};
use tests_support::twisted::row;

/// The field of 64 elements, modulo `z^3 + a` over the four residues modulo `a^2 + a + 1`.
const SIXTY_FOUR: &str = "2 2; 1 1 1 | 3; 2 0 0 1";

/// At most `(d + 2) n (r + 1)` products of the field.
fn check_cost<K: FrobField>(
    rt: &impl Abort,
    alloc: Global,
    field: &K,
    names: &[E<K>],
    text: &str,
    d: usize,
) -> Result<(), Fail> {
    let phi = row(alloc, names, text)?;
    let counting = CountingField::new(field);
    bounded_between(alloc, &counting, &phi, &phi, d)?;
    let n = field.degree() as u64;
    let products = counting.products();
    let most = (d as u64)
        .saturating_add(2)
        .saturating_mul(n)
        .saturating_mul(phi.len() as u64);
    assert!(rt; products <= most, "{text} up to {d}");
    Ok(())
}

#[test]
fn products_of_lists(rt: HostRuntime) -> Result<(), Fail> {
    let alloc = rt.alloc();
    let field = tower(alloc, SIXTY_FOUR)?;
    let names = elements(alloc, &field, 64)?;
    for text in ["4 1", "5 9 17", "2 0 0 40 1 1 3 3 5"] {
        for d in [20, 64] {
            check_cost(&rt, alloc, &field, &names, text, d)?;
        }
    }
    Ok(())
}
