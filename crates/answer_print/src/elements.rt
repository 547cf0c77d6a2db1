//! The elements of the fields, and polynomials, twisted polynomials and modules over them.
ghost use Rattle.std.specs.Prelude.{◌≡◌, ◌<◌, ◌++◌, IfOk, OnOk};
ghost use Rattle.ring_core.specs.Coeffs.{first_values};
ghost use Rattle.residue_field.specs.Digits.{digit};
ghost use Rattle.answer.specs.Sums.{tight};
ghost use Rattle.answer.specs.Elements.{numbers, codes_of, code_text, elements_of, element_text, polynomial_text, twisted_text, module_text};

use super::printer::Printer;
use super::sums::{write_bracketed, write_sum};
use super::terms::write_number;
use field_tower::{BaseField, Code, TopElem, Tower};
use ring_core::{FrobField, NoMemory};
use std::alloc::Global;

/// Numbers in decimal.
struct Numbers;

impl Printer for Numbers {
    type Elem = Code;

    ghost printer = { λ s. numbers };

    fn is_zero(&self, c: &Code) -> bool {
        *c == 0
    }

    fn write(&self, alloc: Global, into: &mut Vec<u8>, c: &Code) -> Result<(), NoMemory> {
        write_number(into, *c as usize)
    }
}

/// The `n` lowest digits of `c` in base `p`, lowest first.
fn digits(alloc: Global, p: u32, n: u32, c: Code) -> Result<Vec<Code>, NoMemory>
    requires { 0 < p }
    ensures { IfOk result (λ v. v.items ≡ first_values n (digit p c)) }
{
    let mut digits = Vec::new(alloc);
    let mut rest = c as u32;
    for _ in 0..n {
        digits.push((rest % p) as Code)?;
        rest /= p;
    }
    Ok(digits)
}

/// The sum in a letter whose coefficients are the `n` lowest digits of `c` in base `p`, from the highest power down and
/// without spaces.
pub fn digit_sum(alloc: Global, letter: &[u8], p: u32, n: u32, c: Code) -> Result<Vec<u8>, NoMemory>
    requires { 0 < p }
    ensures { IfOk result (λ v. v.items ≡ tight numbers letter.now (first_values n (digit p c))) }
{
    let digits = digits(alloc, p, n, c)?;
    let mut text = Vec::new(alloc);
    write_sum(alloc, &mut text, &Numbers, letter, b"+", true, &digits)?;
    Ok(text)
}

/// Appends the text of an element of a base.
#[tactic(auto, unfolding(answer::specs::Elements::code_text))]
fn write_code(alloc: Global, into: &mut Vec<u8>, base: &BaseField, c: Code) -> Result<(), NoMemory>
    ensures { OnOk result (into.new.items ≡ into.old.items ++ code_text base.now c) }
{
    if base.s() == 1 {
        return write_number(into, c as usize);
    }
    into.extend_from_slice(&digit_sum(alloc, b"a", base.p(), base.s(), c)?)?;
    Ok(())
}

/// The elements of a base.
#[derive(Clone, Copy)]
struct Codes<'f> {
    base: &'f BaseField,
}

impl<'f> Printer for Codes<'f> {
    type Elem = Code;

    ghost printer = { λ s. codes_of s.base.now };

    fn is_zero(&self, c: &Code) -> bool {
        *c == 0
    }

    fn write(&self, alloc: Global, into: &mut Vec<u8>, c: &Code) -> Result<(), NoMemory> {
        write_code(alloc, into, self.base, *c)
    }
}

/// Appends the text of an element of a top field.
#[tactic(auto, unfolding(answer::specs::Elements::element_text))]
pub(crate) fn write_element(
    alloc: Global,
    into: &mut Vec<u8>,
    top: &Tower,
    c: TopElem,
) -> Result<(), NoMemory>
    ensures { OnOk result (into.new.items ≡ into.old.items ++ element_text top.now c) }
{
    let codes = Codes { base: top.base() };
    write_sum(alloc, into, &codes, b"z", b"+", true, &c.0[..top.degree()])
}

/// The elements of a top field.
#[derive(Clone, Copy)]
pub(crate) struct Elements<'f> {
    pub(crate) top: &'f Tower,
}

impl<'f> Printer for Elements<'f> {
    type Elem = TopElem;

    ghost printer = { λ s. elements_of s.top.now };

    fn is_zero(&self, c: &TopElem) -> bool {
        c.0.iter().all(|x| *x == 0)
    }

    fn write(&self, alloc: Global, into: &mut Vec<u8>, c: &TopElem) -> Result<(), NoMemory> {
        write_element(alloc, into, self.top, *c)
    }
}

/// Appends the text of a polynomial over a base, lowest coefficient first.
#[tactic(auto, unfolding(answer::specs::Elements::polynomial_text))]
pub(crate) fn write_polynomial(
    alloc: Global,
    into: &mut Vec<u8>,
    base: &BaseField,
    list: &[Code],
) -> Result<(), NoMemory>
    ensures { OnOk result (into.new.items ≡ into.old.items ++ polynomial_text base.now list.now) }
{
    write_sum(alloc, into, &Codes { base }, b"T", b"+", true, list)
}

/// Appends the text of a twisted polynomial, lowest coefficient first.
#[tactic(auto, unfolding(answer::specs::Elements::twisted_text))]
pub(crate) fn write_twisted(
    alloc: Global,
    into: &mut Vec<u8>,
    top: &Tower,
    list: &[TopElem],
) -> Result<(), NoMemory>
    ensures { OnOk result (into.new.items ≡ into.old.items ++ twisted_text top.now list.now) }
{
    write_sum(alloc, into, &Elements { top }, b"t", b" + ", false, list)
}

/// Appends the text of a Drinfeld module with these coefficients, lowest first.
#[tactic(auto, unfolding(answer::specs::Elements::module_text))]
pub(crate) fn write_module(
    alloc: Global,
    into: &mut Vec<u8>,
    top: &Tower,
    list: &[TopElem],
) -> Result<(), NoMemory>
    ensures { OnOk result (into.new.items ≡ into.old.items ++ module_text top.now list.now) }
{
    write_bracketed(alloc, into, &Elements { top }, list)
}
