#![tactic(auto, using(crate::proofs::Forms::forms))]

ghost use Rattle.std.specs.Prelude.{◌≡◌, List, [], IfOk, IfSome, IfNone};
ghost use Rattle.script_lang.specs.declared.Token.{Token};
ghost use Rattle.script_statement.specs.declared.form.Form.{Form};
ghost use Rattle.script_statement.specs.Statements.{AfterPair, AfterModule, AfterTwisted, IsVerb, IsOperands};
ghost use Rattle.script_statement.specs.declared.verb.Verb.{Verb};

use super::form::Form;
use super::verb::{
    ModuleVerb, PairVerb, TwistedVerb, Verb, asked, computed, divided, related, verb_of,
};
use super::whole::{
    ended, read_result, whole_list, whole_name, whole_number, whole_sum, whole_twisted,
};
use ring_core::NoMemory;
use script_lang::{
    DEEPEST, Kind, ModArg, OreArg, Sign, Token, after_sign, number, read_module, read_name,
    read_sum, read_twisted, word,
};
use std::alloc::Global;

/// The verb that the first word of a line is, and the tokens of its operands; None where the tokens
/// begin with no such word.
pub fn read_verb(tokens: &[Token]) -> Option<(Verb, &[Token])>
    ensures found { IfSome result (λ p. IsVerb tokens.now p.0 p.1.now) }
    ensures refused { IfNone result ((v : Verb) (rest : List Token) → ¬ IsVerb tokens.now v rest) }
{
    let Some((text, rest)) = word(tokens) else {
        return None;
    };
    let Some(verb) = verb_of(text) else {
        return None;
    };
    Some((verb, rest))
}

/// The form of a verb and its operands; None where the tokens are no operands of it. `NoMemory` where
/// memory is refused.
pub fn read_operands(alloc: Global, verb: Verb, tokens: &[Token]) -> Result<Option<Form>, NoMemory>
    ensures found { IfOk result (λ o. IfSome o (λ f. IsOperands verb tokens.now f)) }
    ensures refused { IfOk result (λ o. IfNone o ((f : Form) → ¬ IsOperands verb tokens.now f)) }
{
    match verb {
        Verb::Base => read_base(alloc, tokens),
        Verb::Over => read_over(alloc, tokens),
        Verb::Module => read_new_module(alloc, tokens),
        Verb::Ore => read_new_ore(alloc, tokens),
        Verb::Show => read_show(alloc, tokens),
        Verb::OfModule(verb) => read_of_module(alloc, verb, tokens),
        Verb::OfTwisted(verb) => read_of_twisted(alloc, verb, tokens),
    }
}

/// `base`: a prime, or a prime, an exponent that isn't 0 and a polynomial in `a`.
fn read_base(alloc: Global, tokens: &[Token]) -> Result<Option<Form>, NoMemory>
    ensures found { IfOk result (λ o. IfSome o (λ f. IsOperands Verb.Base tokens.now f)) }
    ensures refused { IfOk result (λ o. IfNone o ((f : Form) → ¬ IsOperands Verb.Base tokens.now f)) }
{
    let Some((p, rest)) = number(tokens) else {
        return Ok(None);
    };
    if ended(rest) {
        return Ok(Some(Form::Base {
            p,
            s: 1,
            modulus: None,
        }));
    }
    let Some((s, more)) = number(rest) else {
        return Ok(None);
    };
    if s == 0 {
        return Ok(None);
    }
    let read = whole_sum(alloc, Kind::BaseModulus, false, more)?;
    let Some(sum) = read else {
        return Ok(None);
    };
    Ok(Some(Form::Base {
        p,
        s,
        modulus: Some(sum),
    }))
}

/// `over`: a degree that isn't 0, and a polynomial in `z`.
fn read_over(alloc: Global, tokens: &[Token]) -> Result<Option<Form>, NoMemory>
    ensures found { IfOk result (λ o. IfSome o (λ f. IsOperands Verb.Over tokens.now f)) }
    ensures refused { IfOk result (λ o. IfNone o ((f : Form) → ¬ IsOperands Verb.Over tokens.now f)) }
{
    let Some((n, rest)) = number(tokens) else {
        return Ok(None);
    };
    if n == 0 {
        return Ok(None);
    }
    let read = whole_sum(alloc, Kind::TopModulus, false, rest)?;
    let Some(modulus) = read else {
        return Ok(None);
    };
    Ok(Some(Form::Over { n, modulus }))
}

/// `module`: a name, `=` and a list.
fn read_new_module(alloc: Global, tokens: &[Token]) -> Result<Option<Form>, NoMemory>
    ensures found { IfOk result (λ o. IfSome o (λ f. IsOperands Verb.Module tokens.now f)) }
    ensures refused { IfOk result (λ o. IfNone o ((f : Form) → ¬ IsOperands Verb.Module tokens.now f)) }
{
    let named = read_name(alloc, tokens)?;
    let Some((name, rest)) = named else {
        return Ok(None);
    };
    let Some(value) = after_sign(rest, Sign::Equals) else {
        return Ok(None);
    };
    let read = whole_list(alloc, value)?;
    let Some(list) = read else {
        return Ok(None);
    };
    Ok(Some(Form::Module { name, list }))
}

/// `ore`: a name, `=` and a twisted polynomial, where a sum may have a minus before it.
fn read_new_ore(alloc: Global, tokens: &[Token]) -> Result<Option<Form>, NoMemory>
    ensures found { IfOk result (λ o. IfSome o (λ f. IsOperands Verb.Ore tokens.now f)) }
    ensures refused { IfOk result (λ o. IfNone o ((f : Form) → ¬ IsOperands Verb.Ore tokens.now f)) }
{
    let named = read_name(alloc, tokens)?;
    let Some((name, rest)) = named else {
        return Ok(None);
    };
    let Some(value) = after_sign(rest, Sign::Equals) else {
        return Ok(None);
    };
    if let Some(after) = after_sign(value, Sign::Minus) {
        let read = whole_sum(alloc, Kind::Twisted, true, after)?;
        let Some(sum) = read else {
            return Ok(None);
        };
        return Ok(Some(Form::Ore {
            name,
            value: OreArg::Terms(sum),
        }));
    }
    let operand = whole_twisted(alloc, value)?;
    let Some(value) = operand else {
        return Ok(None);
    };
    Ok(Some(Form::Ore { name, value }))
}

/// `show`: a name.
fn read_show(alloc: Global, tokens: &[Token]) -> Result<Option<Form>, NoMemory>
    ensures found { IfOk result (λ o. IfSome o (λ f. IsOperands Verb.Show tokens.now f)) }
    ensures refused { IfOk result (λ o. IfNone o ((f : Form) → ¬ IsOperands Verb.Show tokens.now f)) }
{
    let read = whole_name(alloc, tokens)?;
    let Some(name) = read else {
        return Ok(None);
    };
    Ok(Some(Form::Show { name }))
}

/// A Drinfeld module, and what follows it.
fn read_of_module(
    alloc: Global,
    verb: ModuleVerb,
    tokens: &[Token],
) -> Result<Option<Form>, NoMemory>
    ensures found { IfOk result (λ o. IfSome o (λ f. IsOperands (Verb.OfModule verb) tokens.now f)) }
    ensures refused { IfOk result (λ o. IfNone o ((f : Form) → ¬ IsOperands (Verb.OfModule verb) tokens.now f)) }
{
    let first = read_module(alloc, tokens)?;
    let Some((phi, rest)) = first else {
        return Ok(None);
    };
    let read = after_module(alloc, verb, phi, rest)?;
    let Some(form) = read else {
        return Ok(None);
    };
    Ok(Some(form))
}

/// What follows one Drinfeld module.
fn after_module(
    alloc: Global,
    verb: ModuleVerb,
    phi: ModArg,
    tokens: &[Token],
) -> Result<Option<Form>, NoMemory>
    ensures found { IfOk result (λ o. IfSome o (λ f. AfterModule verb phi tokens.now f)) }
    ensures refused { IfOk result (λ o. IfNone o ((f : Form) → ¬ AfterModule verb phi tokens.now f)) }
{
    match verb {
        ModuleVerb::Ask(question) => {
            if !ended(tokens) {
                return Ok(None);
            }
            Ok(Some(asked(question, phi)))
        }
        ModuleVerb::J => {
            let Some(k) = whole_number(tokens) else {
                return Ok(None);
            };
            Ok(Some(Form::J { phi, k }))
        }
        ModuleVerb::Image => after_image(alloc, phi, tokens),
        ModuleVerb::Quotient => after_quotient(alloc, phi, tokens),
        ModuleVerb::Motive => after_motive(alloc, phi, tokens),
        ModuleVerb::Pair(pair) => read_pair(alloc, pair, phi, tokens),
    }
}

/// A polynomial in `T`, and a name where the result gets one.
fn after_image(alloc: Global, phi: ModArg, tokens: &[Token]) -> Result<Option<Form>, NoMemory>
    ensures found { IfOk result (λ o. IfSome o (λ f. AfterModule ModuleVerb.Image phi tokens.now f)) }
    ensures refused { IfOk result (λ o. IfNone o ((f : Form) → ¬ AfterModule ModuleVerb.Image phi tokens.now f)) }
{
    let read = read_sum(alloc, Kind::Polynomial, DEEPEST, false, tokens)?;
    let Some((a, rest)) = read else {
        return Ok(None);
    };
    let result = read_result(alloc, rest)?;
    let Some(name) = result else {
        return Ok(None);
    };
    Ok(Some(Form::Image { phi, a, name }))
}

/// A twisted polynomial, and a name where the result gets one.
fn after_quotient(alloc: Global, phi: ModArg, tokens: &[Token]) -> Result<Option<Form>, NoMemory>
    ensures found { IfOk result (λ o. IfSome o (λ f. AfterModule ModuleVerb.Quotient phi tokens.now f)) }
    ensures refused { IfOk result (λ o. IfNone o ((f : Form) → ¬ AfterModule ModuleVerb.Quotient phi tokens.now f)) }
{
    let read = read_twisted(alloc, tokens)?;
    let Some((u, rest)) = read else {
        return Ok(None);
    };
    let result = read_result(alloc, rest)?;
    let Some(name) = result else {
        return Ok(None);
    };
    Ok(Some(Form::Quotient { phi, u, name }))
}

/// A twisted polynomial.
fn after_motive(alloc: Global, phi: ModArg, tokens: &[Token]) -> Result<Option<Form>, NoMemory>
    ensures found { IfOk result (λ o. IfSome o (λ f. AfterModule ModuleVerb.Motive phi tokens.now f)) }
    ensures refused { IfOk result (λ o. IfNone o ((f : Form) → ¬ AfterModule ModuleVerb.Motive phi tokens.now f)) }
{
    let read = whole_twisted(alloc, tokens)?;
    let Some(u) = read else {
        return Ok(None);
    };
    Ok(Some(Form::Motive { phi, u }))
}

/// A second Drinfeld module, and what follows it.
fn read_pair(
    alloc: Global,
    verb: PairVerb,
    phi: ModArg,
    tokens: &[Token],
) -> Result<Option<Form>, NoMemory>
    ensures found { IfOk result (λ o. IfSome o (λ f. AfterModule (ModuleVerb.Pair verb) phi tokens.now f)) }
    ensures refused { IfOk result (λ o. IfNone o ((f : Form) → ¬ AfterModule (ModuleVerb.Pair verb) phi tokens.now f)) }
{
    let second = read_module(alloc, tokens)?;
    let Some((psi, rest)) = second else {
        return Ok(None);
    };
    let read = after_pair(alloc, verb, phi, psi, rest)?;
    let Some(form) = read else {
        return Ok(None);
    };
    Ok(Some(form))
}

/// What follows two Drinfeld modules.
fn after_pair(
    alloc: Global,
    verb: PairVerb,
    phi: ModArg,
    psi: ModArg,
    tokens: &[Token],
) -> Result<Option<Form>, NoMemory>
    ensures found { IfOk result (λ o. IfSome o (λ f. AfterPair verb phi psi tokens.now f)) }
    ensures refused { IfOk result (λ o. IfNone o ((f : Form) → ¬ AfterPair verb phi psi tokens.now f)) }
{
    match verb {
        PairVerb::Relate(relation) => {
            if !ended(tokens) {
                return Ok(None);
            }
            Ok(Some(related(relation, phi, psi)))
        }
        PairVerb::Bounded => {
            let Some(d) = whole_number(tokens) else {
                return Ok(None);
            };
            Ok(Some(Form::Bounded { phi, psi, d }))
        }
        PairVerb::Check => {
            let read = whole_twisted(alloc, tokens)?;
            let Some(u) = read else {
                return Ok(None);
            };
            Ok(Some(Form::Check { phi, psi, u }))
        }
    }
}

/// Two twisted polynomials, and what follows them.
fn read_of_twisted(
    alloc: Global,
    verb: TwistedVerb,
    tokens: &[Token],
) -> Result<Option<Form>, NoMemory>
    ensures found { IfOk result (λ o. IfSome o (λ f. IsOperands (Verb.OfTwisted verb) tokens.now f)) }
    ensures refused { IfOk result (λ o. IfNone o ((f : Form) → ¬ IsOperands (Verb.OfTwisted verb) tokens.now f)) }
{
    let first = read_twisted(alloc, tokens)?;
    let Some((u, rest)) = first else {
        return Ok(None);
    };
    let second = read_twisted(alloc, rest)?;
    let Some((v, more)) = second else {
        return Ok(None);
    };
    let read = after_twisted(alloc, verb, u, v, more)?;
    let Some(form) = read else {
        return Ok(None);
    };
    Ok(Some(form))
}

/// What follows two twisted polynomials.
fn after_twisted(
    alloc: Global,
    verb: TwistedVerb,
    u: OreArg,
    v: OreArg,
    tokens: &[Token],
) -> Result<Option<Form>, NoMemory>
    ensures found { IfOk result (λ o. IfSome o (λ f. AfterTwisted verb u v tokens.now f)) }
    ensures refused { IfOk result (λ o. IfNone o ((f : Form) → ¬ AfterTwisted verb u v tokens.now f)) }
{
    match verb {
        TwistedVerb::Compute(operation) => {
            let read = read_result(alloc, tokens)?;
            let Some(name) = read else {
                return Ok(None);
            };
            Ok(Some(computed(operation, u, v, name)))
        }
        TwistedVerb::Divide(division) => {
            if !ended(tokens) {
                return Ok(None);
            }
            Ok(Some(divided(division, u, v)))
        }
    }
}
