ghost use Rattle.std.specs.Prelude.{◌≡◌, ℕ, ◌↔◌, ◌<◌, ◌≤◌, List, [], ◌∷◌, length, take, drop, MatchOption, IfOk, IfSome, IfNone, IsTrue, true};
ghost use Rattle.std.specs.Char.{is_ascii_digit, is_ascii_alphabetic};
ghost use Rattle.std.specs.List.{prefix_len, list_all};
ghost use Rattle.std.specs.Str.Parse.{digits_value};
ghost use Rattle.script_lang.specs.declared.lexer.Token.{Token};
ghost use Rattle.script_lang.specs.Tokens.{sign_of, is_word_byte, word_token, capped, BeginsWith, IsTokens};

use super::line::is_space;
use ring_core::NoMemory;
use sqlite_items::Items;
use std::alloc::Global;

/// A number token holds this where its value is at least this much: it is above each limit.
pub const NUMBER_TOP: u32 = 1_000_000_000;

/// A token of a line. `Number` holds the least of the value and `NUMBER_TOP`. The words `a`, `z`,
/// `t`, `T` and `X` are letters, and the word `as` has a token of its own; `Word` holds the bytes of
/// any other word, which may be a name.
#[derive(Drop)]
pub enum Token {
    Number(u32),
    Word(Items<u8>),
    Letter(Letter),
    As,
    Sign(Sign),
}

/// A word that is a letter of sums, and no name: `a`, `z`, `t`, `T` and `X`.
#[derive(Clone, Copy, Debug, PartialEq, Eq)]
pub enum Letter {
    A,
    Z,
    SmallT,
    CapitalT,
    X,
}

/// The signs `+ - * ^ ( ) [ ] , =`.
#[derive(Clone, Copy, Debug, PartialEq, Eq)]
pub enum Sign {
    Plus,
    Minus,
    Star,
    Caret,
    Open,
    Close,
    OpenList,
    CloseList,
    Comma,
    Equals,
}

/// The tokens of a line's content; None where some byte is in no token and is no space or tab.
/// `NoMemory` where memory is refused.
pub fn tokens(alloc: Global, content: &[u8]) -> Result<Option<Vec<Token>>, NoMemory>
    ensures found { IfOk result (λ o. IfSome o (λ v. IsTokens content.now v.items)) }
    ensures refused { IfOk result (λ o. IfNone o ((ts : List Token) → ¬ IsTokens content.now ts)) }
{
    let mut list = Vec::new(alloc);
    let mut rest = content;
    while let Some((byte, more)) = first_byte(rest) {
        if is_space(byte) {
            rest = more;
            continue;
        }
        let front = front_token(alloc, rest)?;
        let Some((token, after)) = front else {
            return Ok(None);
        };
        list.push(token)?;
        rest = after;
    }
    Ok(Some(list))
}

/// Whether the token is this word.
pub fn is_word(token: &Token, word: &[u8]) -> bool
    ensures { IsTrue result ↔ (token.now ≡ Token.Word word.now) }
{
    match token {
        Token::Word(bytes) => bytes.as_slice() == word,
        _ => false,
    }
}

/// The token that the bytes begin with, as long as it can be, and what is left; None where they
/// begin with no token.
fn front_token(alloc: Global, bytes: &[u8]) -> Result<Option<(Token, &[u8])>, NoMemory>
    ensures found { IfOk result (λ o. IfSome o (λ p. BeginsWith bytes.now p.0 p.1.now)) }
    ensures refused { IfOk result (λ o. IfNone o ((t : Token) (rest : List ℕ) → ¬ BeginsWith bytes.now t rest)) }
    ensures shorter { IfOk result (λ o. IfSome o (λ p. length p.1.now < length bytes.now)) }
{
    let Some((byte, more)) = first_byte(bytes) else {
        return Ok(None);
    };
    if let Some(sign) = sign_of(byte) {
        return Ok(Some((Token::Sign(sign), more)));
    }
    if byte.is_ascii_digit() {
        let end = digits_len(bytes);
        return Ok(Some((Token::Number(number_value(&bytes[..end])), &bytes[end..])));
    }
    if byte.is_ascii_alphabetic() {
        let end = word_len(bytes);
        let token = word_token(alloc, &bytes[..end])?;
        return Ok(Some((token, &bytes[end..])));
    }
    Ok(None)
}

fn first_byte(bytes: &[u8]) -> Option<(u8, &[u8])>
    ensures { MatchOption result (bytes.now ≡ []) (λ p. bytes.now ≡ p.0 ∷ p.1.now) }
{
    match bytes {
        [] => None,
        [byte, more @ ..] => Some((*byte, more)),
    }
}

fn sign_of(byte: u8) -> Option<Sign>
    ensures { result ≡ sign_of byte }
{
    match byte {
        b'+' => Some(Sign::Plus),
        b'-' => Some(Sign::Minus),
        b'*' => Some(Sign::Star),
        b'^' => Some(Sign::Caret),
        b'(' => Some(Sign::Open),
        b')' => Some(Sign::Close),
        b'[' => Some(Sign::OpenList),
        b']' => Some(Sign::CloseList),
        b',' => Some(Sign::Comma),
        b'=' => Some(Sign::Equals),
        _ => None,
    }
}

/// How many digits the bytes begin with.
fn digits_len(bytes: &[u8]) -> usize
    ensures value { result ≡ prefix_len is_ascii_digit bytes.now }
    ensures within { result ≤ length bytes.now }
{
    bytes.iter().take_while(|b| b.is_ascii_digit()).count()
}

/// How many letters, digits and `_` the bytes begin with.
fn word_len(bytes: &[u8]) -> usize
    ensures value { result ≡ prefix_len is_word_byte bytes.now }
    ensures within { result ≤ length bytes.now }
{
    bytes.iter().take_while(|b| is_word_byte(**b)).count()
}

fn is_word_byte(byte: u8) -> bool
    ensures { result ≡ is_word_byte byte }
{
    byte.is_ascii_alphanumeric() || byte == b'_'
}

/// The value of a number's digits, or `NUMBER_TOP` where it is more.
fn number_value(digits: &[u8]) -> u32
    requires { IsTrue (list_all is_ascii_digit digits.now) }
    ensures { result ≡ capped (digits_value 10 digits.now) }
{
    let mut value: u32 = 0;
    for byte in digits {
        let longer = u64::from(value) * 10 + u64::from(*byte - b'0');
        value = longer.min(u64::from(NUMBER_TOP)) as u32;
    }
    value
}

/// The token of a word.
fn word_token(alloc: Global, word: &[u8]) -> Result<Token, NoMemory>
    ensures { IfOk result (λ t. t ≡ word_token word.now) }
{
    if word == b"a".as_slice() {
        return Ok(Token::Letter(Letter::A));
    }
    if word == b"z".as_slice() {
        return Ok(Token::Letter(Letter::Z));
    }
    if word == b"t".as_slice() {
        return Ok(Token::Letter(Letter::SmallT));
    }
    if word == b"T".as_slice() {
        return Ok(Token::Letter(Letter::CapitalT));
    }
    if word == b"X".as_slice() {
        return Ok(Token::Letter(Letter::X));
    }
    if word == b"as".as_slice() {
        return Ok(Token::As);
    }
    let bytes = Items::from_slice(alloc, word)?;
    Ok(Token::Word(bytes))
}
