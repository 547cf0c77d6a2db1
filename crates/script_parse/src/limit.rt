ghost use Rattle.std.specs.Prelude.{◌≡◌, ◌==◌, ℕ, ◌∷◌, ◌+◌, ◌-◌, ◌^◌, if◌then◌else◌, cond, min, List, [], Some, None};
ghost use Rattle.std.specs.List.{list_any};
ghost use Rattle.script_lang.specs.declared.Token.{Token};
ghost use Rattle.script_statement.specs.declared.Verb.{Verb};
ghost use Rattle.script_parse.specs.Version.{limits_of};
ghost use Rattle.script_parse.specs.Limits.{is_listed, over_limit, exponent_limit, place_limit, is_bounded, number_limit, modules, ends_operand, is_comma, is_opening, comma_limit, sign_limit, passes, first_limit, is_as, is_naming, gives_name};
ghost use Rattle.script_parse.specs.steps.Scan.{most, spot_of, IsSeen};

use super::size::SizeKind;
use super::version::Limits;
use script_lang::{Letter, Sign, Token, first};
use script_statement::{ModuleVerb, PairVerb, Verb};

/// Where the tokens after the verb end.
#[derive(Clone, Copy)]
enum Spot {
    /// There are none.
    Start,
    /// The first of them, a number.
    First(u32),
    /// A letter.
    Letter(Letter),
    /// A letter and a caret.
    Exponent(Letter),
    /// Anything else.
    Other,
}

/// What limits need to know of the tokens before: where they end, how many modules are left to come, and
/// how many commas stand since the last opening bracket, up to `usize::MAX`.
#[derive(Clone, Copy)]
struct Seen {
    spot: Spot,
    left: u8,
    commas: usize,
}

/// The limit that the leftmost of the operands' tokens passes of those that pass one.
pub(crate) fn first_limit(limits: &Limits, verb: Verb, tokens: &[Token]) -> Option<SizeKind>
    ensures { result ≡ first_limit (limits_of limits.now) verb [] tokens.now }
{
    let mut seen = Seen {
        spot: Spot::Start,
        left: modules(verb),
        commas: 0,
    };
    let mut rest = tokens;
    while let Some((token, behind)) = first(rest) {
        if let Some(kind) = passes(limits, verb, seen, token, behind) {
            return Some(kind);
        }
        seen = after(seen, token);
        rest = behind;
    }
    None
}

/// How many operands that are Drinfeld modules come first, with the name of a new one.
fn modules(verb: Verb) -> u8
    ensures { result ≡ modules verb }
{
    match verb {
        Verb::Module => 2,
        Verb::OfModule(ModuleVerb::Pair(_)) => 2,
        Verb::OfModule(_) => 1,
        _ => 0,
    }
}

/// The limit that a token passes.
fn passes(
    limits: &Limits,
    verb: Verb,
    seen: Seen,
    token: &Token,
    behind: &[Token],
) -> Option<SizeKind>
    ensures { (before : List Token) → IsSeen verb before seen → result ≡ passes (limits_of limits.now) verb before token.now behind.now }
{
    match token {
        Token::Number(n) => number_limit(limits, verb, seen.spot, *n, behind),
        Token::Word(bytes) => over_limit(limits.name, bytes.len(), SizeKind::Name),
        Token::Sign(sign) => sign_limit(limits, verb, seen, *sign),
        _ => None,
    }
}

/// The kind where the number is more than the limit.
fn over_limit(limit: usize, n: usize, kind: SizeKind) -> Option<SizeKind>
    ensures { result ≡ over_limit limit n kind }
{
    if limit < n { Some(kind) } else { None }
}

/// The limit that a sign passes.
fn sign_limit(limits: &Limits, verb: Verb, seen: Seen, sign: Sign) -> Option<SizeKind>
    ensures { (before : List Token) → IsSeen verb before seen → result ≡ sign_limit (limits_of limits.now) verb before sign }
{
    match sign {
        Sign::Comma => comma_limit(limits, verb, seen),
        _ => None,
    }
}

/// The limit of the coefficients in a list, at a comma.
fn comma_limit(limits: &Limits, verb: Verb, seen: Seen) -> Option<SizeKind>
    ensures { (before : List Token) → IsSeen verb before seen → result ≡ comma_limit (limits_of limits.now) verb before }
{
    if 0 < seen.left {
        return items_limit(limits.rank, seen.commas, SizeKind::Rank);
    }
    items_limit(limits.degree, seen.commas, SizeKind::Degree)
}

/// The kind where the comma after so many others is one more than the limit.
fn items_limit(limit: usize, commas: usize, kind: SizeKind) -> Option<SizeKind>
    ensures { (n : ℕ) → commas ≡ min n most → result ≡ over_limit limit (n + 1) kind }
{
    if limit <= commas { Some(kind) } else { None }
}

/// The limit that a number passes.
fn number_limit(
    limits: &Limits,
    verb: Verb,
    spot: Spot,
    n: u32,
    behind: &[Token],
) -> Option<SizeKind>
    ensures { (before : List Token) → spot ≡ spot_of before → result ≡ number_limit (limits_of limits.now) verb before n behind.now }
{
    if limits.number < n {
        return Some(SizeKind::Number);
    }
    if is_bounded(verb) && behind.is_empty() {
        return over_limit(limits.bound, n as usize, SizeKind::Bound);
    }
    place_limit(limits, verb, spot, n)
}

/// Whether the last number is a bound.
fn is_bounded(verb: Verb) -> bool
    ensures { result ≡ is_bounded verb }
{
    match verb {
        Verb::OfModule(ModuleVerb::Pair(PairVerb::Bounded)) => true,
        _ => false,
    }
}

/// The limit that a number passes by its place.
fn place_limit(limits: &Limits, verb: Verb, spot: Spot, n: u32) -> Option<SizeKind>
    ensures { (before : List Token) → spot ≡ spot_of before → result ≡ place_limit (limits_of limits.now) verb before n }
{
    match (verb, spot) {
        (_, Spot::Exponent(letter)) => exponent_limit(limits, letter, n as usize),
        (Verb::Base, Spot::Start) => prime_limit(limits, n),
        (Verb::Base, Spot::First(p)) => base_limit(limits, p, n),
        (Verb::Over, Spot::Start) => over_limit(limits.top, n as usize, SizeKind::Top),
        _ => None,
    }
}

/// The limit that the prime of a base passes.
fn prime_limit(limits: &Limits, p: u32) -> Option<SizeKind>
    ensures { result ≡ (if is_listed (limits_of limits.now) p then None else Some SizeKind.Prime) }
{
    if is_listed(limits.primes, p) {
        None
    } else {
        Some(SizeKind::Prime)
    }
}

/// Whether the number is one of the primes.
fn is_listed(primes: &[u32], p: u32) -> bool
    ensures { result ≡ list_any (λ q. p == q) primes.now }
{
    primes.iter().any(|prime| p == *prime)
}

/// The limit that the elements of a base pass, `p` to the power `s`.
fn base_limit(limits: &Limits, p: u32, s: u32) -> Option<SizeKind>
    ensures { result ≡ over_limit (limits_of limits.now).base (p ^ s) SizeKind.Base }
{
    let limit = limits.base;
    match p.checked_pow(s) {
        Some(size) => over_limit(limit as usize, size as usize, SizeKind::Base),
        None => Some(SizeKind::Base),
    }
}

/// The limit that an exponent passes.
fn exponent_limit(limits: &Limits, letter: Letter, n: usize) -> Option<SizeKind>
    ensures { result ≡ exponent_limit (limits_of limits.now) letter n }
{
    match letter {
        Letter::A => over_limit(limits.exponent, n, SizeKind::Exponent),
        Letter::Z => over_limit(limits.exponent, n, SizeKind::Exponent),
        Letter::SmallT => over_limit(limits.degree, n, SizeKind::Degree),
        Letter::CapitalT => over_limit(limits.image, n, SizeKind::Image),
        Letter::X => None,
    }
}

/// What is seen after a token.
fn after(seen: Seen, token: &Token) -> Seen
    ensures { (v : Verb) (before : List Token) → IsSeen v before seen → IsSeen v (token.now ∷ before) result }
{
    Seen {
        spot: spot_after(seen.spot, token),
        left: left_after(seen.left, token),
        commas: commas_after(seen.commas, token),
    }
}

fn spot_after(spot: Spot, token: &Token) -> Spot
    ensures { (before : List Token) → spot ≡ spot_of before → result ≡ spot_of (token.now ∷ before) }
{
    match (token, spot) {
        (Token::Number(n), Spot::Start) => Spot::First(*n),
        (Token::Letter(letter), _) => Spot::Letter(*letter),
        (Token::Sign(Sign::Caret), Spot::Letter(letter)) => Spot::Exponent(letter),
        _ => Spot::Other,
    }
}

fn left_after(left: u8, token: &Token) -> u8
    ensures { result ≡ left - cond (ends_operand token.now) 1 0 }
{
    if ends_operand(token) {
        return left.saturating_sub(1);
    }
    left
}

/// Whether an operand ends with the token: a name, or the closing bracket of a list.
fn ends_operand(token: &Token) -> bool
    ensures { result ≡ ends_operand token.now }
{
    match token {
        Token::Word(_) => true,
        Token::Sign(Sign::CloseList) => true,
        _ => false,
    }
}

fn commas_after(commas: usize, token: &Token) -> usize
    ensures { result ≡ cond (is_opening token.now) 0 (min (cond (is_comma token.now) 1 0 + commas) most) }
{
    match token {
        Token::Sign(Sign::OpenList) => 0,
        Token::Sign(Sign::Comma) => commas.saturating_add(1),
        _ => commas,
    }
}

/// Whether the statement of this verb and these operands gives a name.
pub(crate) fn gives_name(verb: Verb, tokens: &[Token]) -> bool
    ensures { result ≡ gives_name verb tokens.now }
{
    is_naming(verb) || has_as(tokens)
}

fn is_naming(verb: Verb) -> bool
    ensures { result ≡ is_naming verb }
{
    match verb {
        Verb::Module => true,
        Verb::Ore => true,
        _ => false,
    }
}

fn has_as(tokens: &[Token]) -> bool
    ensures { result ≡ list_any is_as tokens.now }
{
    tokens.iter().any(|token| is_as(token))
}

fn is_as(token: &Token) -> bool
    ensures { result ≡ is_as token.now }
{
    match token {
        Token::As => true,
        _ => false,
    }
}
