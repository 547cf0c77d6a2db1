#![tactic(auto, using(crate::proofs::Operands::operand_forms, crate::proofs::Operands::operand_ends))]

ghost use Rattle.std.specs.Prelude.{◌≡◌, ℕ, ◌<◌, List, length, IfOk, IfSome, IfNone};
ghost use Rattle.script_lang.specs.declared.lexer.Token.{Token};
ghost use Rattle.script_lang.specs.declared.sum.ModArg.{ModArg};
ghost use Rattle.script_lang.specs.declared.sum.Name.{Name};
ghost use Rattle.script_lang.specs.declared.sum.OreArg.{OreArg};
ghost use Rattle.script_lang.specs.declared.sum.Sum.{Sum};
ghost use Rattle.script_lang.specs.declared.sum.Kind.TheVariants.{TopElement};
ghost use Rattle.script_lang.specs.Grammar.{IsLeadedSum, IsItems, IsList, IsName, IsModOperand, IsOreOperand, Reads, Refuses, binds, twisted_of};

use super::front::{after_minus, after_sign, binds, word};
use super::lexer::{Sign, Token};
use super::reader::read_sum;
use super::sum::{Kind, ModArg, Name, OreArg, Sum};
use ring_core::NoMemory;
use sqlite_items::Items;
use std::alloc::Global;

/// Parentheses nest at most this deep.
pub const DEEPEST: usize = 16;

/// The sum of this kind that the tokens begin with, which may have a minus before it, and what
/// follows it; None where there is none. It is as long as it can be.
pub fn read_leaded_sum<'a>(
    alloc: Global,
    kind: Kind,
    tokens: &'a [Token],
) -> Result<Option<(Sum, &'a [Token])>, NoMemory>
    ensures found { IfOk result (λ o. IfSome o (λ p. Reads (IsLeadedSum kind tokens.now) 1 p.1.now p.0)) }
    ensures refused { IfOk result (λ o. IfNone o (Refuses (IsLeadedSum kind tokens.now) 1)) }
    ensures shorter { IfOk result (λ o. IfSome o (λ p. length p.1.now < length tokens.now)) }
{
    let (lead, rest) = after_minus(tokens);
    let read = read_sum(alloc, kind, DEEPEST, lead, rest)?;
    let Some((sum, after)) = read else {
        return Ok(None);
    };
    Ok(Some((sum, after)))
}

/// The list that the tokens begin with, and what follows it; None where there is none.
pub fn read_list<'a>(
    alloc: Global,
    tokens: &'a [Token],
) -> Result<Option<(Items<Sum>, &'a [Token])>, NoMemory>
    ensures found { IfOk result (λ o. IfSome o (λ p. IsList tokens.now p.1.now p.0)) }
    ensures refused { IfOk result (λ o. IfNone o ((rest : List Token) (list : List Sum) → ¬ IsList tokens.now rest list)) }
{
    let Some(opened) = after_sign(tokens, Sign::OpenList) else {
        return Ok(None);
    };
    if let Some(rest) = after_sign(opened, Sign::CloseList) {
        return Ok(Some((Items::new(alloc), rest)));
    }
    let read = read_items(alloc, opened)?;
    let Some((list, rest)) = read else {
        return Ok(None);
    };
    Ok(Some((list, rest)))
}

/// The items of a list after its opening sign, with its closing sign, and what follows it.
fn read_items<'a>(
    alloc: Global,
    tokens: &'a [Token],
) -> Result<Option<(Items<Sum>, &'a [Token])>, NoMemory>
    ensures found { IfOk result (λ o. IfSome o (λ p. IsItems tokens.now p.1.now p.0)) }
    ensures refused { IfOk result (λ o. IfNone o ((rest : List Token) (list : List Sum) → ¬ IsItems tokens.now rest list)) }
{
    let mut list = Items::new(alloc);
    let mut rest = tokens;
    loop {
        let read = read_leaded_sum(alloc, Kind::TopElement, rest)?;
        let Some((item, after)) = read else {
            return Ok(None);
        };
        list.push(item)?;
        if let Some(end) = after_sign(after, Sign::CloseList) {
            return Ok(Some((list, end)));
        }
        let Some(more) = after_sign(after, Sign::Comma) else {
            return Ok(None);
        };
        rest = more;
    }
}

/// The name that the tokens begin with, and what follows it; None where there is none.
pub fn read_name<'a>(
    alloc: Global,
    tokens: &'a [Token],
) -> Result<Option<(Name, &'a [Token])>, NoMemory>
    ensures found { IfOk result (λ o. IfSome o (λ p. IsName tokens.now p.1.now p.0)) }
    ensures refused { IfOk result (λ o. IfNone o ((rest : List Token) (name : Name) → ¬ IsName tokens.now rest name)) }
{
    let Some((text, rest)) = word(tokens) else {
        return Ok(None);
    };
    let bytes = Items::from_slice(alloc, text)?;
    Ok(Some((Name { bytes }, rest)))
}

/// The Drinfeld module that the tokens begin with as an operand, and what follows it; None where
/// there is none.
pub fn read_module<'a>(
    alloc: Global,
    tokens: &'a [Token],
) -> Result<Option<(ModArg, &'a [Token])>, NoMemory>
    ensures found { IfOk result (λ o. IfSome o (λ p. IsModOperand tokens.now p.1.now p.0)) }
    ensures refused { IfOk result (λ o. IfNone o ((rest : List Token) (m : ModArg) → ¬ IsModOperand tokens.now rest m)) }
{
    let named = read_name(alloc, tokens)?;
    if let Some((name, rest)) = named {
        return Ok(Some((ModArg::Name(name), rest)));
    }
    let listed = read_list(alloc, tokens)?;
    let Some((list, rest)) = listed else {
        return Ok(None);
    };
    Ok(Some((ModArg::List(list), rest)))
}

/// The twisted polynomial that the tokens begin with as an operand, as long as it can be, and what
/// follows it; None where there is none.
pub fn read_twisted<'a>(
    alloc: Global,
    tokens: &'a [Token],
) -> Result<Option<(OreArg, &'a [Token])>, NoMemory>
    ensures found { IfOk result (λ o. IfSome o (λ p. Reads (IsOreOperand tokens.now) 1 p.1.now p.0)) }
    ensures refused { IfOk result (λ o. IfNone o (Refuses (IsOreOperand tokens.now) 1)) }
{
    let operand = read_module(alloc, tokens)?;
    if let Some((operand, rest)) = operand {
        if binds(rest) >= 1 {
            return Ok(None);
        }
        return Ok(Some((twisted_of(operand), rest)));
    }
    let read = read_sum(alloc, Kind::Twisted, DEEPEST, false, tokens)?;
    let Some((sum, rest)) = read else {
        return Ok(None);
    };
    Ok(Some((OreArg::Terms(sum), rest)))
}

/// A name or a list, as a twisted polynomial.
fn twisted_of(operand: ModArg) -> OreArg
    ensures { result ≡ twisted_of operand }
{
    match operand {
        ModArg::Name(name) => OreArg::Name(name),
        ModArg::List(list) => OreArg::List(list),
    }
}
