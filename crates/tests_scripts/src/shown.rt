//! Forms as text, with nothing left out: the name of the form, and each field after its name.
//!
//! A term is its sign, its factors with `*` between them, and `@` with its power; a sum is its terms. The
//! letters `a` and `z` have their exponents, a sum as a factor stands in parentheses, and the items of a
//! list stand in brackets with `; ` between them. So `check [-z, 1] m t+2` is
//! `Check phi=[-z^1@0; +1@0] psi=m u=+@1+2@0`.

use ring_core::NoMemory;
use script_lang::{Factor, ModArg, Name, OreArg, Sum, Term};
use script_statement::Form;
use sqlite_items::Items;
use std::alloc::Global;

/// The form as text.
pub fn shown_form(alloc: Global, form: &Form) -> Result<Vec<u8>, NoMemory> {
    let mut text = Vec::new(alloc);
    show_form(alloc, form, &mut text)?;
    Ok(text)
}

fn show_form(alloc: Global, form: &Form, into: &mut Vec<u8>) -> Result<(), NoMemory> {
    match form {
        Form::Base { p, s, modulus } => show_base(alloc, *p, *s, modulus, into),
        Form::Over { n, modulus } => show_over(alloc, *n, modulus, into),
        Form::Module { name, list } => show_new_module(alloc, name, list, into),
        Form::Ore { name, value } => show_new_ore(alloc, name, value, into),
        Form::Show { name } => show_name("Show name=", name, into),
        Form::Rank { phi } => show_module(alloc, "Rank phi=", phi, into),
        Form::Char { phi } => show_module(alloc, "Char phi=", phi, into),
        Form::Height { phi } => show_module(alloc, "Height phi=", phi, into),
        Form::Ordinary { phi } => show_module(alloc, "Ordinary phi=", phi, into),
        Form::Supersingular { phi } => show_module(alloc, "Supersingular phi=", phi, into),
        Form::J { phi, k } => show_j(alloc, phi, *k, into),
        Form::Image { phi, a, name } => show_image(alloc, phi, a, name, into),
        Form::Add { u, v, name } => show_result(alloc, "Add", u, v, name, into),
        Form::Sub { u, v, name } => show_result(alloc, "Sub", u, v, name, into),
        Form::Mul { u, v, name } => show_result(alloc, "Mul", u, v, name, into),
        Form::Rdiv { u, v } => show_twisted_pair(alloc, "Rdiv", u, v, into),
        Form::Ldiv { u, v } => show_twisted_pair(alloc, "Ldiv", u, v, into),
        Form::Common { u, v } => show_twisted_pair(alloc, "Common", u, v, into),
        Form::Multiple { u, v } => show_twisted_pair(alloc, "Multiple", u, v, into),
        Form::Check { phi, psi, u } => show_check(alloc, phi, psi, u, into),
        Form::Quotient { phi, u, name } => show_quotient(alloc, phi, u, name, into),
        Form::Iso { phi, psi } => show_module_pair(alloc, "Iso", phi, psi, into),
        Form::Isogenous { phi, psi } => show_module_pair(alloc, "Isogenous", phi, psi, into),
        Form::Bounded { phi, psi, d } => show_bounded(alloc, phi, psi, *d, into),
        Form::Full { phi, psi } => show_module_pair(alloc, "Full", phi, psi, into),
        Form::Fullsize { phi, psi } => show_module_pair(alloc, "Fullsize", phi, psi, into),
        Form::Motive { phi, u } => show_motive(alloc, phi, u, into),
        Form::Frob { phi } => show_module(alloc, "Frob phi=", phi, into),
        Form::Frobpower { phi } => show_module(alloc, "Frobpower phi=", phi, into),
    }
}

fn show_base(
    alloc: Global,
    p: u32,
    s: u32,
    modulus: &Option<Sum>,
    into: &mut Vec<u8>,
) -> Result<(), NoMemory> {
    show_number(alloc, "Base p=", p, into)?;
    show_number(alloc, " s=", s, into)?;
    let Some(sum) = modulus else {
        return show_text(" modulus=None", into);
    };
    show_text(" modulus=Some(", into)?;
    show_sum(alloc, sum, into)?;
    show_text(")", into)
}

fn show_over(alloc: Global, n: u32, modulus: &Sum, into: &mut Vec<u8>) -> Result<(), NoMemory> {
    show_number(alloc, "Over n=", n, into)?;
    show_text(" modulus=", into)?;
    show_sum(alloc, modulus, into)
}

fn show_new_module(
    alloc: Global,
    name: &Name,
    list: &Items<Sum>,
    into: &mut Vec<u8>,
) -> Result<(), NoMemory> {
    show_name("Module name=", name, into)?;
    show_list(alloc, " list=", list, into)
}

fn show_new_ore(
    alloc: Global,
    name: &Name,
    value: &OreArg,
    into: &mut Vec<u8>,
) -> Result<(), NoMemory> {
    show_name("Ore name=", name, into)?;
    show_twisted(alloc, " value=", value, into)
}

fn show_j(alloc: Global, phi: &ModArg, k: u32, into: &mut Vec<u8>) -> Result<(), NoMemory> {
    show_module(alloc, "J phi=", phi, into)?;
    show_number(alloc, " k=", k, into)
}

fn show_image(
    alloc: Global,
    phi: &ModArg,
    a: &Sum,
    name: &Option<Name>,
    into: &mut Vec<u8>,
) -> Result<(), NoMemory> {
    show_module(alloc, "Image phi=", phi, into)?;
    show_text(" a=", into)?;
    show_sum(alloc, a, into)?;
    show_result_name(name, into)
}

fn show_result(
    alloc: Global,
    form: &str,
    u: &OreArg,
    v: &OreArg,
    name: &Option<Name>,
    into: &mut Vec<u8>,
) -> Result<(), NoMemory> {
    show_twisted_pair(alloc, form, u, v, into)?;
    show_result_name(name, into)
}

fn show_twisted_pair(
    alloc: Global,
    form: &str,
    u: &OreArg,
    v: &OreArg,
    into: &mut Vec<u8>,
) -> Result<(), NoMemory> {
    show_text(form, into)?;
    show_twisted(alloc, " u=", u, into)?;
    show_twisted(alloc, " v=", v, into)
}

fn show_module_pair(
    alloc: Global,
    form: &str,
    phi: &ModArg,
    psi: &ModArg,
    into: &mut Vec<u8>,
) -> Result<(), NoMemory> {
    show_text(form, into)?;
    show_module(alloc, " phi=", phi, into)?;
    show_module(alloc, " psi=", psi, into)
}

fn show_check(
    alloc: Global,
    phi: &ModArg,
    psi: &ModArg,
    u: &OreArg,
    into: &mut Vec<u8>,
) -> Result<(), NoMemory> {
    show_module_pair(alloc, "Check", phi, psi, into)?;
    show_twisted(alloc, " u=", u, into)
}

fn show_bounded(
    alloc: Global,
    phi: &ModArg,
    psi: &ModArg,
    d: u32,
    into: &mut Vec<u8>,
) -> Result<(), NoMemory> {
    show_module_pair(alloc, "Bounded", phi, psi, into)?;
    show_number(alloc, " d=", d, into)
}

fn show_quotient(
    alloc: Global,
    phi: &ModArg,
    u: &OreArg,
    name: &Option<Name>,
    into: &mut Vec<u8>,
) -> Result<(), NoMemory> {
    show_module(alloc, "Quotient phi=", phi, into)?;
    show_twisted(alloc, " u=", u, into)?;
    show_result_name(name, into)
}

fn show_motive(
    alloc: Global,
    phi: &ModArg,
    u: &OreArg,
    into: &mut Vec<u8>,
) -> Result<(), NoMemory> {
    show_module(alloc, "Motive phi=", phi, into)?;
    show_twisted(alloc, " u=", u, into)
}

fn show_result_name(name: &Option<Name>, into: &mut Vec<u8>) -> Result<(), NoMemory> {
    let Some(given) = name else {
        return show_text(" name=None", into);
    };
    show_name(" name=Some(", given, into)?;
    show_text(")", into)
}

fn show_module(
    alloc: Global,
    label: &str,
    operand: &ModArg,
    into: &mut Vec<u8>,
) -> Result<(), NoMemory> {
    match operand {
        ModArg::Name(name) => show_name(label, name, into),
        ModArg::List(list) => show_list(alloc, label, list, into),
    }
}

fn show_twisted(
    alloc: Global,
    label: &str,
    operand: &OreArg,
    into: &mut Vec<u8>,
) -> Result<(), NoMemory> {
    match operand {
        OreArg::Name(name) => show_name(label, name, into),
        OreArg::List(list) => show_list(alloc, label, list, into),
        OreArg::Terms(sum) => {
            show_text(label, into)?;
            show_sum(alloc, sum, into)
        }
    }
}

fn show_list(
    alloc: Global,
    label: &str,
    list: &Items<Sum>,
    into: &mut Vec<u8>,
) -> Result<(), NoMemory> {
    show_text(label, into)?;
    show_text("[", into)?;
    let mut follows = false;
    for item in list.as_slice() {
        show_text(if follows { "; " } else { "" }, into)?;
        show_sum(alloc, item, into)?;
        follows = true;
    }
    show_text("]", into)
}

#[cycle(show)]
fn show_sum(alloc: Global, sum: &Sum, into: &mut Vec<u8>) -> Result<(), NoMemory> {
    for term in sum.terms.as_slice() {
        show_text(if term.minus { "-" } else { "+" }, into)?;
        show_factors(alloc, term, into)?;
        show_number(alloc, "@", term.power, into)?;
    }
    Ok(())
}

#[cycle(show)]
fn show_factors(alloc: Global, term: &Term, into: &mut Vec<u8>) -> Result<(), NoMemory> {
    let mut follows = false;
    for factor in term.factors.as_slice() {
        show_text(if follows { "*" } else { "" }, into)?;
        show_factor(alloc, factor, into)?;
        follows = true;
    }
    Ok(())
}

#[cycle(show)]
fn show_factor(alloc: Global, factor: &Factor, into: &mut Vec<u8>) -> Result<(), NoMemory> {
    match factor {
        Factor::Number(n) => show_number(alloc, "", *n, into),
        Factor::A(k) => show_number(alloc, "a^", *k, into),
        Factor::Z(k) => show_number(alloc, "z^", *k, into),
        Factor::Group(sum) => {
            show_text("(", into)?;
            show_sum(alloc, sum, into)?;
            show_text(")", into)
        }
    }
}

fn show_name(label: &str, name: &Name, into: &mut Vec<u8>) -> Result<(), NoMemory> {
    show_text(label, into)?;
    into.extend_from_slice(name.bytes.as_slice())?;
    Ok(())
}

fn show_number(alloc: Global, label: &str, n: u32, into: &mut Vec<u8>) -> Result<(), NoMemory> {
    let text = format!(in alloc; "{label}{n}")?;
    show_text(&text, into)
}

fn show_text(text: &str, into: &mut Vec<u8>) -> Result<(), NoMemory> {
    into.extend_from_slice(text.as_bytes())?;
    Ok(())
}
