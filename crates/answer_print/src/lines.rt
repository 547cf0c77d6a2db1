//! Lines of an answer: a label, a text and a line feed.
ghost use Rattle.std.specs.Prelude.{◌≡◌, ◌++◌, [], codes, decimal, OnOk};
ghost use Rattle.answer.specs.Elements.{element_text, polynomial_text, twisted_text, module_text};
ghost use Rattle.answer.specs.Texts.{line, truth_text, with_cofactors};

use super::elements::{write_element, write_module, write_polynomial, write_twisted};
use super::terms::write_labelled;
use drinfeld_mod::Module;
use field_tower::{BaseField, Code, TopElem, Tower};
use fq_poly::Poly;
use ore_poly::Ore;
use ring_core::NoMemory;
use std::alloc::Global;

/// Appends a label, a number in decimal and a line feed.
pub(crate) fn write_number_line(into: &mut Vec<u8>, label: &[u8], n: usize) -> Result<(), NoMemory>
    ensures { OnOk result (into.new.items ≡ into.old.items ++ line label.now (decimal n)) }
{
    write_labelled(into, label, n)?;
    into.extend_from_slice(b"\n")?;
    Ok(())
}

/// Appends a label, a number, a second label, a second number and a line feed.
pub(crate) fn write_numbers_line(
    into: &mut Vec<u8>,
    label: &[u8],
    first: usize,
    between: &[u8],
    second: usize,
) -> Result<(), NoMemory>
    ensures { OnOk result (into.new.items
        ≡ into.old.items ++ line label.now (decimal first ++ between.now ++ decimal second)) }
{
    write_labelled(into, label, first)?;
    write_labelled(into, between, second)?;
    into.extend_from_slice(b"\n")?;
    Ok(())
}

/// Appends the line of a yes or a no.
pub(crate) fn write_truth(into: &mut Vec<u8>, yes: bool) -> Result<(), NoMemory>
    ensures { OnOk result (into.new.items ≡ into.old.items ++ line [] (truth_text yes)) }
{
    let text = if yes {
        b"yes\n".as_slice()
    } else {
        b"no\n".as_slice()
    };
    into.extend_from_slice(text)?;
    Ok(())
}

/// Appends a polynomial over a base and a line feed.
pub(crate) fn write_polynomial_line(
    alloc: Global,
    into: &mut Vec<u8>,
    base: &BaseField,
    list: &Poly<Code>,
) -> Result<(), NoMemory>
    ensures { OnOk result (into.new.items ≡ into.old.items ++ line [] (polynomial_text base.now list.now)) }
{
    write_polynomial(alloc, into, base, list.as_slice())?;
    into.extend_from_slice(b"\n")?;
    Ok(())
}

/// Appends a label, an element and a line feed.
pub(crate) fn write_element_line(
    alloc: Global,
    into: &mut Vec<u8>,
    top: &Tower,
    label: &[u8],
    c: TopElem,
) -> Result<(), NoMemory>
    ensures { OnOk result (into.new.items ≡ into.old.items ++ line label.now (element_text top.now c)) }
{
    into.extend_from_slice(label)?;
    write_element(alloc, into, top, c)?;
    into.extend_from_slice(b"\n")?;
    Ok(())
}

/// Appends a label, a twisted polynomial and a line feed.
pub(crate) fn write_twisted_line(
    alloc: Global,
    into: &mut Vec<u8>,
    top: &Tower,
    label: &[u8],
    u: &Ore<TopElem>,
) -> Result<(), NoMemory>
    ensures { OnOk result (into.new.items ≡ into.old.items ++ line label.now (twisted_text top.now u.now)) }
{
    into.extend_from_slice(label)?;
    write_twisted(alloc, into, top, u.as_slice())?;
    into.extend_from_slice(b"\n")?;
    Ok(())
}

/// Appends a label, a Drinfeld module and a line feed.
pub(crate) fn write_module_line(
    alloc: Global,
    into: &mut Vec<u8>,
    top: &Tower,
    label: &[u8],
    phi: &Module<TopElem>,
) -> Result<(), NoMemory>
    ensures { OnOk result (into.new.items ≡ into.old.items ++ line label.now (module_text top.now phi.now)) }
{
    into.extend_from_slice(label)?;
    write_module(alloc, into, top, phi.as_slice())?;
    into.extend_from_slice(b"\n")?;
    Ok(())
}

/// Appends the lines of a division.
pub(crate) fn write_division(
    alloc: Global,
    into: &mut Vec<u8>,
    top: &Tower,
    quotient: &Ore<TopElem>,
    remainder: &Ore<TopElem>,
) -> Result<(), NoMemory>
    ensures { OnOk result (into.new.items ≡ into.old.items
        ++ (line (codes "quotient ") (twisted_text top.now quotient.now) ++ line (codes "remainder ") (twisted_text top.now remainder.now))) }
{
    write_twisted_line(alloc, into, top, b"quotient ", quotient)?;
    write_twisted_line(alloc, into, top, b"remainder ", remainder)
}

/// Appends the lines of a common divisor or multiple `u` with its cofactors: of the left operand, and of
/// the right one.
pub(crate) fn write_cofactors(
    alloc: Global,
    into: &mut Vec<u8>,
    top: &Tower,
    label: &[u8],
    u: &Ore<TopElem>,
    left: &Ore<TopElem>,
    right: &Ore<TopElem>,
) -> Result<(), NoMemory>
    ensures { OnOk result (into.new.items ≡ into.old.items ++ with_cofactors top.now label.now u.now left.now right.now) }
{
    write_twisted_line(alloc, into, top, label, u)?;
    write_twisted_line(alloc, into, top, b"left ", left)?;
    write_twisted_line(alloc, into, top, b"right ", right)
}
