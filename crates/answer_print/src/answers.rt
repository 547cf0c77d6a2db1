//! Whole answers.
ghost use Rattle.std.specs.Prelude.{◌≡◌, ◌++◌, [], None, Some, codes, IfOk, OnOk, OnErr};
ghost use Rattle.answer.specs.Texts.{text_of, text_over, field_of, line, value_text};

use super::elements::{write_module, write_twisted};
use super::lines::{
    write_cofactors, write_division, write_element_line, write_module_line, write_number_line,
    write_numbers_line, write_polynomial_line, write_truth, write_twisted_line,
};
use super::members::{write_count, write_members};
use super::relations::{write_coordinates, write_relation};
use answer::{Answer, Printing, Value};
use field_tower::Tower;
use ring_core::{FrobField, NoMemory};
use script_lang::Name;
use std::alloc::Global;

/// Appends what a name stands for.
fn write_value(
    alloc: Global,
    into: &mut Vec<u8>,
    top: &Tower,
    value: &Value,
) -> Result<(), NoMemory>
    ensures { OnOk result (into.new.items ≡ into.old.items ++ value_text top.now value.now) }
{
    match value {
        Value::Module(phi) => write_module(alloc, into, top, phi.as_slice()),
        Value::Ore(u) => write_twisted(alloc, into, top, u.as_slice()),
    }
}

/// Appends the line of a new name and what it stands for.
fn write_named(
    alloc: Global,
    into: &mut Vec<u8>,
    top: &Tower,
    name: &Name,
    value: &Value,
) -> Result<(), NoMemory>
    ensures { OnOk result (into.new.items ≡ into.old.items
        ++ line (name.now.bytes ++ codes " = ") (value_text top.now value.now)) }
{
    into.extend_from_slice(name.bytes.as_slice())?;
    into.extend_from_slice(b" = ")?;
    write_value(alloc, into, top, value)?;
    into.extend_from_slice(b"\n")?;
    Ok(())
}

/// Appends the line of what a name stands for.
fn write_shown(
    alloc: Global,
    into: &mut Vec<u8>,
    top: &Tower,
    value: &Value,
) -> Result<(), NoMemory>
    ensures { OnOk result (into.new.items ≡ into.old.items ++ line [] (value_text top.now value.now)) }
{
    write_value(alloc, into, top, value)?;
    into.extend_from_slice(b"\n")?;
    Ok(())
}

/// The lines of an answer without elements; nothing for another.
#[tactic(auto, unfolding(answer::specs::Texts::text_over))]
fn write_plain(into: &mut Vec<u8>, answer: &Answer) -> Result<(), NoMemory>
    ensures { OnOk result (into.new.items ≡ into.old.items ++ text_over None answer.now) }
{
    match answer {
        Answer::Q(q) => write_number_line(into, b"q = ", *q as usize),
        Answer::N(n) => write_number_line(into, b"n = ", *n as usize),
        Answer::Number(n) => write_number_line(into, b"", *n as usize),
        Answer::Truth(yes) => write_truth(into, *yes),
        Answer::NoneZero => Ok(into.extend_from_slice(b"no quotient: zero\n")?),
        Answer::Iso(None) => Ok(into.extend_from_slice(b"not isomorphic\n")?),
        Answer::Isogenous(None) => Ok(into.extend_from_slice(b"not isogenous\n")?),
        Answer::Count { members, degree } => write_count(into, *members, *degree),
        Answer::NoPower { m, r } => {
            write_numbers_line(
                into,
                b"no power: degree ",
                *m,
                b" does not divide rank ",
                *r,
            )
        }
        _ => Ok(()),
    }
}

/// The lines of an answer whose elements are those of the top field.
#[tactic(auto, unfolding(answer::specs::Texts::text_over))]
fn write_over(
    alloc: Global,
    into: &mut Vec<u8>,
    top: &Tower,
    answer: &Answer,
) -> Result<(), NoMemory>
    ensures { OnOk result (into.new.items ≡ into.old.items ++ text_over (Some top.now) answer.now) }
{
    match answer {
        Answer::Named(name, value) => write_named(alloc, into, top, name, value),
        Answer::Shown(value) => write_shown(alloc, into, top, value),
        Answer::BasePoly(list) => write_polynomial_line(alloc, into, top.base(), list),
        Answer::Element(c) => write_element_line(alloc, into, top, b"", *c),
        Answer::Twisted(u) => write_twisted_line(alloc, into, top, b"", u),
        Answer::Division {
            quotient,
            remainder,
        } => write_division(alloc, into, top, quotient, remainder),
        Answer::Common(c) => write_cofactors(alloc, into, top, b"divisor ", &c.d, &c.s, &c.w),
        Answer::Multiple(m) => write_cofactors(alloc, into, top, b"multiple ", &m.m, &m.s, &m.w),
        Answer::Quotient(phi) => write_module_line(alloc, into, top, b"quotient ", phi),
        Answer::NoneRemainder(rest) => {
            write_twisted_line(alloc, into, top, b"no quotient: remainder ", rest)
        }
        Answer::NoneConstant(c) => {
            write_element_line(alloc, into, top, b"no quotient: constant ", *c)
        }
        Answer::Iso(Some(c)) => write_element_line(alloc, into, top, b"isomorphic by ", *c),
        Answer::Isogenous(Some(u)) => write_twisted_line(alloc, into, top, b"isogenous by ", u),
        Answer::Members(list) => write_members(alloc, into, top, list.as_slice()),
        Answer::Motive(list) => write_coordinates(alloc, into, top, list.as_slice()),
        Answer::Relation(list) => write_relation(alloc, into, top.base(), list.as_slice()),
        _ => write_plain(into, answer),
    }
}

/// The text of an answer in a field.
fn answer_text(alloc: Global, f: Printing<'_>, answer: &Answer) -> Result<Vec<u8>, NoMemory>
    ensures { IfOk result (λ text. text.items ≡ text_of (field_of f.entry) answer.now) }
{
    let mut text = Vec::new(alloc);
    match f {
        Printing::Top(top) => write_over(alloc, &mut text, top, answer)?,
        Printing::Base(_) => write_plain(&mut text, answer)?,
        Printing::Nothing => write_plain(&mut text, answer)?,
    }
    Ok(text)
}

/// Appends the text of an answer: its lines, each ended by a line feed. The elements of the answer are
/// those of the field of `f`; an answer that holds elements has no text where `f` is no top field.
/// Where memory is refused the buffer is unchanged.
pub fn write_answer(
    alloc: Global,
    f: Printing<'_>,
    answer: &Answer,
    into: &mut Vec<u8>,
) -> Result<(), NoMemory>
    ensures ok { OnOk result (into.new.items ≡ into.old.items ++ text_of (field_of f.entry) answer.now) }
    ensures err { OnErr result (into.new.items ≡ into.old.items) }
{
    let text = answer_text(alloc, f, answer)?;
    into.extend_from_slice(&text)?;
    Ok(())
}
