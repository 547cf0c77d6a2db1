#![tactic(auto, using(crate::proofs::Fronts::fronts, crate::proofs::Fronts::front_ends))]

ghost use Rattle.std.specs.Prelude.{◌≡◌, ◌≢◌, ℕ, ◌<◌, ◌≤◌, List, [], ◌∷◌, length, Some, IsTrue, ◌↔◌, MatchOption, IfSome, IfNone};
ghost use Rattle.script_lang.specs.declared.lexer.Letter.{Letter};
ghost use Rattle.script_lang.specs.declared.lexer.Token.{Token};
ghost use Rattle.script_lang.specs.declared.sum.Factor.{Factor};
ghost use Rattle.script_lang.specs.Kinds.{ending, letter_factor};
ghost use Rattle.script_lang.specs.Grammar.{IsExponent, IsPlain, IsEnding, Reads, Refuses, binds, sign_binds, term_sign, lead_of, after_lead};

use super::lexer::{Letter, Sign, Token};
use super::sum::{Factor, Kind};

/// The first token and what follows it; None where there are no tokens.
pub fn first(tokens: &[Token]) -> Option<(&Token, &[Token])>
    ensures { MatchOption result (tokens.now ≡ []) (λ p. tokens.now ≡ p.0.now ∷ p.1.now) }
{
    match tokens {
        [] => None,
        [token, rest @ ..] => Some((token, rest)),
    }
}

/// What follows the sign, where the tokens begin with it.
pub fn after_sign(tokens: &[Token], sign: Sign) -> Option<&[Token]>
    ensures { MatchOption result ((rest : List Token) → tokens.now ≢ Token.Sign sign ∷ rest) (λ r. tokens.now ≡ Token.Sign sign ∷ r.now) }
{
    let Some((token, rest)) = first(tokens) else {
        return None;
    };
    let Token::Sign(begin) = token else {
        return None;
    };
    if *begin == sign { Some(rest) } else { None }
}

/// The number that the tokens begin with, and what follows it; None where no number stands first.
pub fn number(tokens: &[Token]) -> Option<(u32, &[Token])>
    ensures { MatchOption result ((n : ℕ) (rest : List Token) → tokens.now ≢ Token.Number n ∷ rest) (λ p. tokens.now ≡ Token.Number p.0 ∷ p.1.now) }
{
    let Some((token, rest)) = first(tokens) else {
        return None;
    };
    let Token::Number(value) = token else {
        return None;
    };
    Some((*value, rest))
}

/// The letter that the tokens begin with, and what follows it; None where no letter stands first.
pub fn letter(tokens: &[Token]) -> Option<(Letter, &[Token])>
    ensures { MatchOption result ((l : Letter) (rest : List Token) → tokens.now ≢ Token.Letter l ∷ rest) (λ p. tokens.now ≡ Token.Letter p.0 ∷ p.1.now) }
{
    let Some((token, rest)) = first(tokens) else {
        return None;
    };
    let Token::Letter(letter) = token else {
        return None;
    };
    Some((*letter, rest))
}

/// The word that the tokens begin with, and what follows it; None where no word stands first.
pub fn word(tokens: &[Token]) -> Option<(&[u8], &[Token])>
    ensures { MatchOption result ((w : List ℕ) (rest : List Token) → tokens.now ≢ Token.Word w ∷ rest) (λ p. tokens.now ≡ Token.Word p.0.now ∷ p.1.now) }
{
    let Some((token, rest)) = first(tokens) else {
        return None;
    };
    let Token::Word(bytes) = token else {
        return None;
    };
    Some((bytes.as_slice(), rest))
}

/// Whether a minus stands first, and what follows it, or all where there is none.
pub fn after_minus(tokens: &[Token]) -> (bool, &[Token])
    ensures lead { result.0 ≡ lead_of tokens.now }
    ensures rest { result.1.now ≡ after_lead tokens.now }
    ensures within { length result.1.now ≤ length tokens.now }
{
    let Some((token, rest)) = first(tokens) else {
        return (false, tokens);
    };
    let Token::Sign(Sign::Minus) = token else {
        return (false, tokens);
    };
    (true, rest)
}

/// The sign of the next term, whether it is a minus, and what follows it.
pub fn after_term_sign(tokens: &[Token]) -> Option<(bool, &[Token])>
    ensures none { IfNone result (binds tokens.now ≢ 1) }
    ensures found { IfSome result (λ p. tokens.now ≡ Token.Sign (term_sign p.0) ∷ p.1.now) }
{
    let Some((token, rest)) = first(tokens) else {
        return None;
    };
    match token {
        Token::Sign(Sign::Plus) => Some((false, rest)),
        Token::Sign(Sign::Minus) => Some((true, rest)),
        _ => None,
    }
}

/// How tightly the first token binds on what stands before it.
pub fn binds(tokens: &[Token]) -> u32
    ensures { result ≡ binds tokens.now }
{
    let Some((token, _)) = first(tokens) else {
        return 0;
    };
    let Token::Sign(sign) = token else {
        return 0;
    };
    sign_binds(*sign)
}

fn sign_binds(sign: Sign) -> u32
    ensures { result ≡ sign_binds sign }
{
    match sign {
        Sign::Caret => 3,
        Sign::Star => 2,
        Sign::Plus => 1,
        Sign::Minus => 1,
        Sign::Open => 0,
        Sign::Close => 0,
        Sign::OpenList => 0,
        Sign::CloseList => 0,
        Sign::Comma => 0,
        Sign::Equals => 0,
    }
}

/// The exponent of a letter, 1 where none stands, and what follows it; None where `^` stands without a
/// number after it, or where another `^` follows.
pub fn exponent(tokens: &[Token]) -> Option<(u32, &[Token])>
    ensures found { IfSome result (λ p. Reads (IsExponent tokens.now) 3 p.1.now p.0) }
    ensures refused { IfNone result (Refuses (IsExponent tokens.now) 3) }
    ensures within { IfSome result (λ p. length p.1.now ≤ length tokens.now) }
{
    let Some(more) = after_sign(tokens, Sign::Caret) else {
        return Some((1, tokens));
    };
    let Some((power, rest)) = number(more) else {
        return None;
    };
    if binds(rest) >= 3 {
        return None;
    }
    Some((power, rest))
}

/// A factor that is a number or a power of a letter, and what follows it.
pub fn plain_factor(kind: Kind, tokens: &[Token]) -> Option<(Factor, &[Token])>
    ensures found { IfSome result (λ p. Reads (IsPlain kind tokens.now) 3 p.1.now p.0) }
    ensures refused { IfNone result (Refuses (IsPlain kind tokens.now) 3) }
    ensures shorter { IfSome result (λ p. length p.1.now < length tokens.now) }
{
    if let Some((value, rest)) = number(tokens) {
        if binds(rest) >= 3 {
            return None;
        }
        return Some((Factor::Number(value), rest));
    }
    let Some((letter, more)) = letter(tokens) else {
        return None;
    };
    let Some((power, rest)) = exponent(more) else {
        return None;
    };
    let Some(factor) = letter_factor(kind, letter, power) else {
        return None;
    };
    Some((factor, rest))
}

fn letter_factor(kind: Kind, letter: Letter, power: u32) -> Option<Factor>
    ensures { result ≡ letter_factor kind letter power }
{
    match letter {
        Letter::A if kind.takes_a() => Some(Factor::A(power)),
        Letter::Z if kind.takes_z() => Some(Factor::Z(power)),
        _ => None,
    }
}

/// The exponent of the letter that ends a term, and what follows it.
pub fn ending(kind: Kind, tokens: &[Token]) -> Option<(u32, &[Token])>
    ensures found { IfSome result (λ p. Reads (IsEnding kind tokens.now) 2 p.1.now p.0) }
    ensures refused { IfNone result (Refuses (IsEnding kind tokens.now) 2) }
    ensures shorter { IfSome result (λ p. length p.1.now < length tokens.now) }
{
    let Some((letter, more)) = letter(tokens) else {
        return None;
    };
    if !ends(kind, letter) {
        return None;
    }
    let Some((power, rest)) = exponent(more) else {
        return None;
    };
    if binds(rest) >= 2 {
        return None;
    }
    Some((power, rest))
}

/// Whether the letter ends a term.
fn ends(kind: Kind, letter: Letter) -> bool
    ensures { IsTrue result ↔ (ending kind ≡ Some letter) }
{
    kind.ending() == Some(letter)
}
