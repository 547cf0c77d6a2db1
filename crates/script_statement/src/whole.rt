#![tactic(auto, using(crate::proofs::Forms::forms))]

ghost use Rattle.std.specs.Prelude.{◌≡◌, ◌≢◌, ℕ, Bool, List, [], ◌∷◌, Option, IfOk, IfSome, IfNone, MatchOption, IsTrue, ◌↔◌};
ghost use Rattle.script_lang.specs.declared.Token.{Token};
ghost use Rattle.script_lang.specs.declared.ModArg.{ModArg};
ghost use Rattle.script_lang.specs.declared.Name.{Name};
ghost use Rattle.script_lang.specs.declared.OreArg.{OreArg};
ghost use Rattle.script_lang.specs.declared.Sum.{Sum};
ghost use Rattle.script_lang.specs.Grammar.{deepest, IsSum, IsList, IsName, IsModOperand, IsOreOperand};
ghost use Rattle.script_statement.specs.Statements.{IsResult};

use ring_core::NoMemory;
use script_lang::{
    DEEPEST, Kind, ModArg, Name, OreArg, Sum, Token, first, number, read_list, read_module,
    read_name, read_sum, read_twisted,
};
use sqlite_items::Items;
use std::alloc::Global;

/// Whether no tokens are left.
pub(crate) fn ended(tokens: &[Token]) -> bool
    ensures { IsTrue result ↔ (tokens.now ≡ []) }
{
    tokens.is_empty()
}

/// The number that the tokens are.
pub(crate) fn whole_number(tokens: &[Token]) -> Option<u32>
    ensures { MatchOption result ((n : ℕ) → tokens.now ≢ Token.Number n ∷ []) (λ n. tokens.now ≡ Token.Number n ∷ []) }
{
    let Some((value, rest)) = number(tokens) else {
        return None;
    };
    if !ended(rest) {
        return None;
    }
    Some(value)
}

/// The name that the tokens are.
pub(crate) fn whole_name(alloc: Global, tokens: &[Token]) -> Result<Option<Name>, NoMemory>
    ensures found { IfOk result (λ o. IfSome o (λ x. IsName tokens.now [] x)) }
    ensures refused { IfOk result (λ o. IfNone o ((x : Name) → ¬ IsName tokens.now [] x)) }
{
    let read = read_name(alloc, tokens)?;
    let Some((name, rest)) = read else {
        return Ok(None);
    };
    if !ended(rest) {
        return Ok(None);
    }
    Ok(Some(name))
}

/// The list that the tokens are.
pub(crate) fn whole_list(alloc: Global, tokens: &[Token]) -> Result<Option<Items<Sum>>, NoMemory>
    ensures found { IfOk result (λ o. IfSome o (λ x. IsList tokens.now [] x)) }
    ensures refused { IfOk result (λ o. IfNone o ((x : List Sum) → ¬ IsList tokens.now [] x)) }
{
    let read = read_list(alloc, tokens)?;
    let Some((list, rest)) = read else {
        return Ok(None);
    };
    if !ended(rest) {
        return Ok(None);
    }
    Ok(Some(list))
}

/// The sum of this kind that the tokens are; `lead` says that a minus stands before it.
pub(crate) fn whole_sum(
    alloc: Global,
    kind: Kind,
    lead: bool,
    tokens: &[Token],
) -> Result<Option<Sum>, NoMemory>
    ensures found { IfOk result (λ o. IfSome o (λ x. IsSum kind deepest lead tokens.now [] x)) }
    ensures refused { IfOk result (λ o. IfNone o ((x : Sum) → ¬ IsSum kind deepest lead tokens.now [] x)) }
{
    let read = read_sum(alloc, kind, DEEPEST, lead, tokens)?;
    let Some((sum, rest)) = read else {
        return Ok(None);
    };
    if !ended(rest) {
        return Ok(None);
    }
    Ok(Some(sum))
}

/// The twisted polynomial that the tokens are as an operand.
pub(crate) fn whole_twisted(alloc: Global, tokens: &[Token]) -> Result<Option<OreArg>, NoMemory>
    ensures found { IfOk result (λ o. IfSome o (λ x. IsOreOperand tokens.now [] x)) }
    ensures refused { IfOk result (λ o. IfNone o ((x : OreArg) → ¬ IsOreOperand tokens.now [] x)) }
{
    let read = read_twisted(alloc, tokens)?;
    let Some((operand, rest)) = read else {
        return Ok(None);
    };
    if !ended(rest) {
        return Ok(None);
    }
    Ok(Some(operand))
}

/// The name after `as` that the tokens are, or no name where there are no tokens.
pub(crate) fn read_result(alloc: Global, tokens: &[Token]) -> Result<Option<Option<Name>>, NoMemory>
    ensures found { IfOk result (λ o. IfSome o (λ x. IsResult tokens.now x)) }
    ensures refused { IfOk result (λ o. IfNone o ((x : Option Name) → ¬ IsResult tokens.now x)) }
{
    let Some((token, rest)) = first(tokens) else {
        return Ok(Some(None));
    };
    let Token::As = token else {
        return Ok(None);
    };
    let read = whole_name(alloc, rest)?;
    let Some(name) = read else {
        return Ok(None);
    };
    Ok(Some(Some(name)))
}
