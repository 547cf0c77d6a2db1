//! Coordinates over the field of four elements: `z t^3` has a single one, of the index 3 * 2 + 1, and so has the last of
//! its four polynomials, which is the letter.
use central_coords::{coords, lead, of_coords};
use ring_core::{E, Field, FrobField};
use std::alloc::Global;
use std::process::Abort;
use std::test::Fail;
use tests_support::fields::{FOUR, elements, tower};
use tests_support::plain::are_same;
use tests_support::twisted::{made, ore, row};

fn check<K: FrobField>(
    rt: &impl Abort,
    alloc: Global,
    field: &K,
    names: &[E<K>],
) -> Result<(), Fail> {
    let u = ore(alloc, field, names, "0 0 0 2")?;
    if u.len() != 4 || field.degree() != 2 {
        return Err(Fail::new("a polynomial of degree 3 over a field of degree 2"));
    }
    assert_eq!(rt; lead(field, &u), Some(7));
    let list = coords(alloc, field, &u)?;
    assert_eq!(rt; list.len(), 4);
    let base = field.base();
    let mut letter = Vec::new(alloc);
    letter.push(base.zero())?;
    letter.push(base.one())?;
    for (place, member) in list.iter().enumerate() {
        assert_eq!(rt;
            member.len(),
            if place == 3 { 2 } else { 0 },
            "polynomial {place}"
        );
        if place == 3 {
            assert!(rt; are_same(base, member.as_slice(), &letter)?);
        }
    }
    let back = of_coords(alloc, field, &list)?;
    assert!(rt; are_same(field, back.as_slice(), &row(alloc, names, "0 0 0 2")?)?);
    let zero = made(alloc, field, &[])?;
    if zero.len() == 0 {
        assert_eq!(rt; lead(field, &zero), None);
    }
    Ok(())
}

#[test]
fn worked_coordinates(rt: HostRuntime) -> Result<(), Fail> {
    let alloc = rt.alloc();
    let field = tower(alloc, FOUR)?;
    let names = elements(alloc, &field, 4)?;
    check(&rt, alloc, &field, &names)
}
