//! Relations of Frobenius and motive coordinates: lists of polynomials.
ghost use Rattle.std.specs.Prelude.{◌≡◌, ◌==◌, ◌++◌, [], length, OnOk};
ghost use Rattle.answer.specs.Elements.{polynomials_of, relation_text, coordinate_text, coordinates_text};
ghost use Rattle.answer.specs.Texts.{line};

use super::elements::{Elements, write_polynomial};
use super::printer::Printer;
use super::sums::{write_bracketed, write_sum};
use field_tower::{BaseField, Code, TopElem, Tower};
use fq_poly::Poly;
use ring_core::NoMemory;
use std::alloc::Global;

/// The polynomials over a base.
#[derive(Clone, Copy)]
struct Polynomials<'f> {
    base: &'f BaseField,
}

impl<'f> Printer for Polynomials<'f> {
    type Elem = Poly<Code>;

    ghost printer = { λ s. polynomials_of s.base.now };

    fn is_zero(&self, a: &Poly<Code>) -> bool {
        a.len() == 0
    }

    fn write(&self, alloc: Global, into: &mut Vec<u8>, a: &Poly<Code>) -> Result<(), NoMemory> {
        write_polynomial(alloc, into, self.base, a.as_slice())
    }
}

/// Appends the line of a relation of Frobenius, lowest coefficient first.
#[tactic(auto, unfolding(answer::specs::Elements::relation_text))]
pub(crate) fn write_relation(
    alloc: Global,
    into: &mut Vec<u8>,
    base: &BaseField,
    list: &[Poly<Code>],
) -> Result<(), NoMemory>
    ensures { OnOk result (into.new.items ≡ into.old.items ++ line [] (relation_text base.now list.now)) }
{
    write_sum(alloc, into, &Polynomials { base }, b"X", b" + ", true, list)?;
    into.extend_from_slice(b"\n")?;
    Ok(())
}

/// Appends the text of a polynomial over the top field, lowest coefficient first.
#[tactic(auto, unfolding(answer::specs::Elements::coordinate_text))]
fn write_coordinate(
    alloc: Global,
    into: &mut Vec<u8>,
    top: &Tower,
    list: &[TopElem],
) -> Result<(), NoMemory>
    ensures { OnOk result (into.new.items ≡ into.old.items ++ coordinate_text top.now list.now) }
{
    write_sum(alloc, into, &Elements { top }, b"T", b"+", true, list)
}

/// The polynomials over a top field.
#[derive(Clone, Copy)]
struct Coordinates<'f> {
    top: &'f Tower,
}

impl<'f> Printer for Coordinates<'f> {
    type Elem = Poly<TopElem>;

    ghost printer = { λ s. record { is_zero = λ a. length a == 0; text = coordinate_text s.top.now } };

    fn is_zero(&self, a: &Poly<TopElem>) -> bool {
        a.len() == 0
    }

    fn write(&self, alloc: Global, into: &mut Vec<u8>, a: &Poly<TopElem>) -> Result<(), NoMemory> {
        write_coordinate(alloc, into, self.top, a.as_slice())
    }
}

/// Appends the line of motive coordinates, those of the lowest power of `t` first.
#[tactic(auto, unfolding(answer::specs::Elements::coordinates_text))]
pub(crate) fn write_coordinates(
    alloc: Global,
    into: &mut Vec<u8>,
    top: &Tower,
    list: &[Poly<TopElem>],
) -> Result<(), NoMemory>
    ensures { OnOk result (into.new.items ≡ into.old.items ++ line [] (coordinates_text top.now list.now)) }
{
    write_bracketed(alloc, into, &Coordinates { top }, list)?;
    into.extend_from_slice(b"\n")?;
    Ok(())
}
