#![tactic(auto, using(crate::proofs::Reading::readings, crate::proofs::Reading::reading_ends))]

ghost use Rattle.std.specs.Prelude.{◌≡◌, ℕ, ◌<◌, List, length, IfOk, IfSome, IfNone};
ghost use Rattle.script_lang.specs.declared.lexer.Token.{Token};
ghost use Rattle.script_lang.specs.declared.sum.Factor.{Factor};
ghost use Rattle.script_lang.specs.Grammar.{IsFactor, IsProduct, IsSum, Reads, Refuses, binds};

use super::front::{after_minus, after_sign, after_term_sign, binds, ending, plain_factor};
use super::lexer::{Sign, Token};
use super::sum::{Factor, Kind, Sum, Term};
use ring_core::NoMemory;
use sqlite_items::Items;
use std::alloc::Global;

/// The sum of this kind that the tokens begin with, as long as it can be, and what follows it; None
/// where there is none. Parentheses nest `depth` deep at most, and `lead` says that a minus stands
/// before the first term. `NoMemory` where memory is refused.
#[cycle(reader)]
pub fn read_sum<'a>(
    alloc: Global,
    kind: Kind,
    depth: usize,
    lead: bool,
    tokens: &'a [Token],
) -> Result<Option<(Sum, &'a [Token])>, NoMemory>
    ensures found { IfOk result (λ o. IfSome o (λ p. Reads (IsSum kind depth lead tokens.now) 1 p.1.now p.0)) }
    ensures refused { IfOk result (λ o. IfNone o (Refuses (IsSum kind depth lead tokens.now) 1)) }
    ensures shorter { IfOk result (λ o. IfSome o (λ p. length p.1.now < length tokens.now)) }
{
    let mut terms = Items::new(alloc);
    let mut rest = tokens;
    let mut minus = lead;
    loop {
        let read = read_product(alloc, kind, depth, rest)?;
        let Some((factors, power, after)) = read else {
            return Ok(None);
        };
        terms.push(Term {
            minus,
            factors,
            power,
        })?;
        let Some((next, more)) = after_term_sign(after) else {
            return Ok(Some((Sum { terms }, after)));
        };
        minus = next;
        rest = more;
    }
}

/// The factors of a term, and the exponent of the letter that ends it, 0 where none does.
#[cycle(reader)]
fn read_product<'a>(
    alloc: Global,
    kind: Kind,
    depth: usize,
    tokens: &'a [Token],
) -> Result<Option<(Items<Factor>, u32, &'a [Token])>, NoMemory>
    ensures found { IfOk result (λ o. IfSome o (λ p. IsProduct kind depth tokens.now p.2.now p.0 p.1 × (binds p.2.now < 2))) }
    ensures refused { IfOk result (λ o. IfNone o ((rest : List Token) (fs : List Factor) (n : ℕ) → IsProduct kind depth tokens.now rest fs n → binds rest < 2 → ⊥)) }
    ensures shorter { IfOk result (λ o. IfSome o (λ p. length p.2.now < length tokens.now)) }
{
    let mut factors = Items::new(alloc);
    let mut rest = tokens;
    loop {
        if let Some((power, after)) = ending(kind, rest) {
            return Ok(Some((factors, power, after)));
        }
        let read = read_factor(alloc, kind, depth, rest)?;
        let Some((front, after)) = read else {
            return Ok(None);
        };
        factors.push(front)?;
        let Some(more) = after_sign(after, Sign::Star) else {
            return Ok(Some((factors, 0, after)));
        };
        rest = more;
    }
}

/// A factor, and what follows it.
#[cycle(reader)]
fn read_factor<'a>(
    alloc: Global,
    kind: Kind,
    depth: usize,
    tokens: &'a [Token],
) -> Result<Option<(Factor, &'a [Token])>, NoMemory>
    ensures found { IfOk result (λ o. IfSome o (λ p. Reads (IsFactor kind depth tokens.now) 3 p.1.now p.0)) }
    ensures refused { IfOk result (λ o. IfNone o (Refuses (IsFactor kind depth tokens.now) 3)) }
    ensures shorter { IfOk result (λ o. IfSome o (λ p. length p.1.now < length tokens.now)) }
{
    if let Some((factor, rest)) = plain_factor(kind, tokens) {
        return Ok(Some((factor, rest)));
    }
    let Some(inside) = kind.inner() else {
        return Ok(None);
    };
    if depth == 0 {
        return Ok(None);
    }
    let Some(opened) = after_sign(tokens, Sign::Open) else {
        return Ok(None);
    };
    let (lead, more) = after_minus(opened);
    let read = read_sum(alloc, inside, depth - 1, lead, more)?;
    let Some((group, after)) = read else {
        return Ok(None);
    };
    let Some(rest) = after_sign(after, Sign::Close) else {
        return Ok(None);
    };
    if binds(rest) >= 3 {
        return Ok(None);
    }
    Ok(Some((Factor::Group(group), rest)))
}
