//! Small flat rows over two elements whose reductions, relations and standard bases are known. Member `e w + j` of a
//! flat row of the width `w` is the coefficient of `x^e` in entry `j`.
ghost use Rattle.std.specs.Prelude.{◌≡◌, ◌≤◌, IfOk, true};
ghost use Rattle.flat_modules.specs.Flat.{are_flat};

use super::matrices::{are_same, are_same_rows, checked_flat, checked_rows, holds, polys, rows};
use super::samples::times;
use field_tower::{BaseField, Code};
use fq_poly::Poly;
use poly_reduce::{FlatReduced, FlatRows, flatten, kernel_flat, reduce_flat, unflatten};
use popov_basis::{normal_flat, relations_flat, standard_flat};
use ring_core::Field;
use ring_core::lists::{all_elems, are_canonical};
use std::alloc::Global;
use std::test::Fail;
use tests_support::fields::prime_field;

/// The flat rows of a text, each an entry of it.
fn flat_rows<F: Field<Elem = Code>>(
    alloc: Global,
    f: &F,
    width: usize,
    text: &str,
) -> Result<FlatRows<Code>, Fail>
    requires { 1 ≤ width }
    ensures { IfOk result (λ v. are_flat (F.ops f.now) v.rows ≡ true) }
{
    let mut m = FlatRows::new(alloc, width);
    if !text.is_empty() {
        for row in polys(alloc, text)? {
            holds(all_elems(f, row.as_slice()), "elements")?;
            m.push(f, row.as_slice())?;
        }
    }
    checked_flat(f, m)
}

/// Whether the rows have this width, and are those of the text.
fn are(alloc: Global, m: &FlatRows<Code>, width: usize, text: &str) -> Result<bool, Fail> {
    if text.is_empty() {
        return Ok(m.width() == width && m.len() == 0);
    }
    Ok(m.width() == width && are_same_rows(m.as_slice(), &polys(alloc, text)?))
}

/// The row `[x, 1]` is the flat row `[0, 1, 1]`, with the lead 2 at the place 0.
#[test]
fn one_row(rt: HostRuntime) -> Result<(), Fail> {
    let alloc = rt.alloc();
    let f = prime_field(alloc, 2)?;
    let m = rows(alloc, &f, 2, "0 1, 1")?;
    let flat = flatten(alloc, &f, &m)?;
    assert!(rt; are(alloc, &flat, 2, "0 1 1")?);
    assert!(rt; flat.len() == 1);
    assert_eq!(rt; flat.size(0), 3);
    assert_eq!(rt;
        (flat.at(0, 0), flat.at(0, 2), flat.at(0, 3)),
        (Some(0), Some(1), None)
    );
    assert!(rt; are_same(&unflatten(alloc, &f, &flat)?, &m));
    Ok(())
}

/// A row loses the zeros at its end.
#[test]
fn pushed_rows(rt: HostRuntime) -> Result<(), Fail> {
    let alloc = rt.alloc();
    let f = prime_field(alloc, 2)?;
    let m = flat_rows(alloc, &f, 3, "1 0 0, 0 0, 0 1 0 1")?;
    assert!(rt; are(alloc, &m, 3, "1, -, 0 1 0 1")?);
    Ok(())
}

#[test]
fn relations_of_flat_rows(rt: HostRuntime) -> Result<(), Fail> {
    let alloc = rt.alloc();
    let f = prime_field(alloc, 2)?;
    for (width, text, count, want) in [
        (1, "0 1, 1", 2, "1 0 0 1"),
        (1, "", 1, ""),
        (2, "0 0 1, 0 1", 2, ""),
        (2, "-", 1, "1"),
    ] {
        let m = flat_rows(alloc, &f, width, text)?;
        assert!(rt;
            are(alloc, &kernel_flat(alloc, &f, &m)?, count, want)?,
            "{text}"
        );
        assert!(rt;
            are(alloc, &relations_flat(alloc, &f, &m)?, count, want)?,
            "{text}"
        );
    }
    Ok(())
}

#[test]
fn standard_basis_of_flat_rows(rt: HostRuntime) -> Result<(), Fail> {
    let alloc = rt.alloc();
    let f = prime_field(alloc, 2)?;
    for (width, text, want) in [
        (1, "1 1, 0 1", "1"),
        (2, "0 0 1, 0 0 0 0 1 1", "0 0 1, 0 0 0 0 0 1"),
        (2, "", ""),
    ] {
        let m = flat_rows(alloc, &f, width, text)?;
        assert!(rt;
            are(alloc, &standard_flat(alloc, &f, &m)?, width, want)?,
            "{text}"
        );
    }
    Ok(())
}

#[test]
fn rest_of_a_flat_row(rt: HostRuntime) -> Result<(), Fail> {
    let alloc = rt.alloc();
    let f = prime_field(alloc, 2)?;
    let m = flat_rows(alloc, &f, 1, "0 1")?;
    let basis = standard_flat(alloc, &f, &m)?;
    let v = [1, 0, 1];
    assert!(rt; are_canonical(&f, &v));
    let got = normal_flat(alloc, &f, &basis, &v)?;
    assert!(rt; are_same_rows(got.quotients.as_slice(), &polys(alloc, "0 1")?));
    assert!(rt; got.rest.as_slice() == [1].as_slice());
    Ok(())
}

/// The transform of `[x]`, `[1]` times these rows is the image.
#[test]
fn reduction_of_flat_rows(rt: HostRuntime) -> Result<(), Fail> {
    let alloc = rt.alloc();
    let f = prime_field(alloc, 2)?;
    let m = flat_rows(alloc, &f, 1, "0 1, 1")?;
    let FlatReduced { left, back, image } = reduce_flat(alloc, &f, &m)?;
    assert!(rt; are(alloc, &image, 1, "-, 1")? || are(alloc, &image, 1, "1, -")?);
    let left = checked_rows(&f, unflatten(alloc, &f, &left)?)?;
    let back = checked_rows(&f, unflatten(alloc, &f, &back)?)?;
    let m = checked_rows(&f, unflatten(alloc, &f, &m)?)?;
    let image = unflatten(alloc, &f, &image)?;
    assert!(rt; are_same(&times(alloc, &f, &left, &m)?, &image));
    let unit = times(alloc, &f, &left, &back)?;
    assert!(rt; are_same(&unit, &rows(alloc, &f, 2, "1, -; -, 1")?));
    Ok(())
}

/// No rows are reduced to lists without rows, of the width 1.
#[test]
fn reduction_of_no_flat_rows(rt: HostRuntime) -> Result<(), Fail> {
    let alloc = rt.alloc();
    let f = prime_field(alloc, 2)?;
    let m = flat_rows(alloc, &f, 2, "")?;
    let FlatReduced { left, back, image } = reduce_flat(alloc, &f, &m)?;
    assert!(rt;
        are(alloc, &left, 1, "")? && are(alloc, &back, 1, "")? && are(alloc, &image, 2, "")?
    );
    Ok(())
}
