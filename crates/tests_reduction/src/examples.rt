//! Small matrices whose reductions, relations and standard bases are known.
ghost use Rattle.std.specs.Prelude.{◌≡◌, ◌≤◌, true};
ghost use Rattle.linear_algebra.specs.Linear.{are_rows};
ghost use Rattle.fq_poly.specs.Poly.{poly_ops};

use super::matrices::{are_same, are_same_rows, checked_rows, holds, polys, rows};
use super::samples::times;
use field_tower::Code;
use poly_reduce::{PolyRows, Reduced, identity, kernel, product, reduce};
use popov_basis::{NormalForm, normal, standard};
use ring_core::Field;
use std::alloc::Global;
use std::test::Fail;
use tests_support::fields::prime_field;

/// The relations of the rows over two elements.
fn relations_are(
    alloc: Global,
    width: usize,
    text: &str,
    count: usize,
    want: &str,
) -> Result<(), Fail> {
    let f = prime_field(alloc, 2)?;
    let m = rows(alloc, &f, width, text)?;
    let want = rows(alloc, &f, count.max(1), want)?;
    let got = kernel(alloc, &f, &m)?;
    holds(
        got.width() == m.len() && got.width() == count,
        "a width of the number of rows",
    )?;
    holds(
        got.len() == 0 && want.len() == 0 || are_same(&got, &want),
        text,
    )
}

#[test]
fn relations(rt: HostRuntime) -> Result<(), Fail> {
    let alloc = rt.alloc();
    for (width, text, count, want) in [
        (1, "0 1; 1", 2, "1, 0 1"),
        (2, "0 1, -; -, 1", 2, ""),
        (1, "-", 1, "1"),
        (3, "", 0, ""),
        (1, "1; 1; 1", 3, "1, 1, -; 1, -, 1"),
    ] {
        relations_are(alloc, width, text, count, want)?;
    }
    Ok(())
}

/// The reduction of `[x]`, `[1]` over two elements: the transform times the rows is the image, which has one row
/// `[1]` and one of zeros.
#[test]
fn reduction(rt: HostRuntime) -> Result<(), Fail> {
    let alloc = rt.alloc();
    let f = prime_field(alloc, 2)?;
    let m = rows(alloc, &f, 1, "0 1; 1")?;
    let Reduced { left, back, image } = reduce(alloc, &f, &m)?;
    let up = rows(alloc, &f, 1, "1; -")?;
    let down = rows(alloc, &f, 1, "-; 1")?;
    holds(
        are_same(&image, &up) || are_same(&image, &down),
        "one row [1], one of zeros",
    )?;
    let unit = identity(alloc, &f, 2)?;
    let left = checked_rows(&f, left)?;
    let back = checked_rows(&f, back)?;
    holds(
        are_same(&times(alloc, &f, &left, &m)?, &image),
        "left m = image",
    )?;
    holds(
        are_same(&times(alloc, &f, &left, &back)?, &unit),
        "left back = 1",
    )?;
    holds(
        are_same(&times(alloc, &f, &back, &left)?, &unit),
        "back left = 1",
    )
}

/// No rows are reduced to three lists without rows.
#[test]
fn reduction_of_no_rows(rt: HostRuntime) -> Result<(), Fail> {
    let alloc = rt.alloc();
    let f = prime_field(alloc, 2)?;
    let m = rows(alloc, &f, 1, "")?;
    let Reduced { left, back, image } = reduce(alloc, &f, &m)?;
    assert_eq!(rt; (left.len(), left.width()), (0, 0));
    assert_eq!(rt; (back.len(), back.width()), (0, 0));
    assert_eq!(rt; (image.len(), image.width()), (0, 1));
    Ok(())
}

/// The identity is neutral, and `[x, 1]`, `[0, 1]` times `[x]`, `[x + 1]` is `[x^2 + x + 1]`, `[x + 1]` over two
/// elements.
#[test]
fn products(rt: HostRuntime) -> Result<(), Fail> {
    let alloc = rt.alloc();
    let f = prime_field(alloc, 2)?;
    for (width, a, text, want) in [
        (1, "1, -; -, 1", "0 1; 1", "0 1; 1"),
        (1, "0 1, 1; -, 1", "0 1; 1 1", "1 1 1; 1 1"),
        (2, "1, 1", "0 1, 1; 1, 1", "1 1, -"),
        (2, "", "1, 1; 1, 1", ""),
    ] {
        let a = rows(alloc, &f, 2, a)?;
        let b = rows(alloc, &f, width, text)?;
        holds(a.width() == b.len(), "as many rows as entries")?;
        let want = rows(alloc, &f, width, want)?;
        holds(are_same(&product(alloc, &f, &a, &b)?, &want), text)?;
    }
    let unit = identity(alloc, &f, 2)?;
    holds(
        are_same(&unit, &rows(alloc, &f, 2, "1, -; -, 1")?),
        "the identity",
    )?;
    let none = identity(alloc, &f, 0)?;
    assert_eq!(rt; (none.len(), none.width()), (0, 0));
    Ok(())
}

/// The standard basis of the rows over `p` elements.
fn basis_is(alloc: Global, p: u32, width: usize, text: &str, want: &str) -> Result<(), Fail> {
    let f = prime_field(alloc, p)?;
    let m = rows(alloc, &f, width, text)?;
    let want = rows(alloc, &f, width, want)?;
    holds(are_same(&standard(alloc, &f, &m)?, &want), text)
}

#[test]
fn standard_bases(rt: HostRuntime) -> Result<(), Fail> {
    let alloc = rt.alloc();
    for (p, width, text, want) in [
        (2, 1, "1 1; 0 1", "1"),
        (3, 1, "0 2", "0 1"),
        (3, 1, "1 0 2; 2 2", "1 1"),
        (2, 2, "1 1, -; 0 1, 1", "1, 1; 1 1, -"),
        (2, 2, "0 1, -; 0 0 1, 0 0 1", "0 1, -; -, 0 0 1"),
        (
            2,
            2,
            "0 0 1, 0 0 1; 0 1, -; 0 1, -; -, -",
            "0 1, -; -, 0 0 1",
        ),
        (2, 3, "", ""),
        (2, 2, "-, -", ""),
    ] {
        basis_is(alloc, p, width, text, want)?;
    }
    Ok(())
}

/// What `v`, a matrix of one row, leaves over the standard basis of `m`.
fn rest_of<F: Field<Elem = Code>>(
    alloc: Global,
    f: &F,
    m: &PolyRows<Code>,
    v: &PolyRows<Code>,
) -> Result<NormalForm<Code>, Fail>
    requires width { 1 ≤ m.now.width }
    requires rows { are_rows (poly_ops (F.ops f.now)) m.now.width m.now.rows ≡ true }
    requires row { are_rows (poly_ops (F.ops f.now)) v.now.width v.now.rows ≡ true }
{
    let basis = standard(alloc, f, m)?;
    holds(
        v.len() == 1 && v.width() == basis.width(),
        "one row of the width",
    )?;
    Ok(normal(alloc, f, &basis, v.as_slice()[0].as_slice())?)
}

/// The same over two elements, from texts.
fn rest_is(alloc: Global, width: usize, text: &str, texts: [&str; 3]) -> Result<(), Fail> {
    let f = prime_field(alloc, 2)?;
    let m = rows(alloc, &f, width, text)?;
    let [v, quotients, rest] = texts;
    let v = rows(alloc, &f, width, v)?;
    let got = rest_of(alloc, &f, &m, &v)?;
    let wanted = polys(alloc, quotients)?;
    holds(
        are_same_rows(got.quotients.as_slice(), &wanted),
        "the quotients",
    )?;
    let wanted = polys(alloc, rest)?;
    holds(are_same_rows(got.rest.as_slice(), &wanted), "the rest")
}

#[test]
fn rests(rt: HostRuntime) -> Result<(), Fail> {
    let alloc = rt.alloc();
    for (width, text, texts) in [
        (1, "0 1", ["1 0 1", "0 1", "1"]),
        (1, "0 1", ["-", "-", "-"]),
        (2, "1, 1; 1 1, -", ["0 1, 0 1", "0 1, -", "-, -"]),
        (2, "1, 1; 1 1, -", ["1, -", "-, -", "1, -"]),
        (2, "1, 1; 1 1, -", ["0 0 1, 1 1", "1 1, 0 1", "1, -"]),
    ] {
        rest_is(alloc, width, text, texts)?;
    }
    Ok(())
}
