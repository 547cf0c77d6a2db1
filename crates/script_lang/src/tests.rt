use super::*;
use ring_core::NoMemory;
use std::alloc::Global;
use std::process::Abort;
use std::test::Fail;

/// Appends a number in decimal.
fn show_number(alloc: Global, n: u32, into: &mut Vec<u8>) -> Result<(), NoMemory> {
    let text = format!(in alloc; "{n}")?;
    into.extend_from_slice(text.as_bytes())?;
    Ok(())
}

/// The tokens of a line, each after a space: a word after `'`, all else as it is written.
fn shown_tokens(alloc: Global, line: &str) -> Result<Vec<u8>, NoMemory> {
    let mut text = Vec::new(alloc);
    let Some(list) = tokens(alloc, content_of(line.as_bytes()))? else {
        text.extend_from_slice(b" none")?;
        return Ok(text);
    };
    for token in &list {
        text.push(b' ')?;
        match token {
            Token::Number(n) => show_number(alloc, *n, &mut text)?,
            Token::Word(bytes) => {
                text.push(b'\'')?;
                text.extend_from_slice(bytes.as_slice())?;
            }
            Token::Letter(letter) => text.push(letter_byte(*letter))?,
            Token::As => text.extend_from_slice(b"as")?,
            Token::Sign(sign) => text.push(sign_byte(*sign))?,
        }
    }
    Ok(text)
}

fn letter_byte(letter: Letter) -> u8 {
    match letter {
        Letter::A => b'a',
        Letter::Z => b'z',
        Letter::SmallT => b't',
        Letter::CapitalT => b'T',
        Letter::X => b'X',
    }
}

fn sign_byte(sign: Sign) -> u8 {
    match sign {
        Sign::Plus => b'+',
        Sign::Minus => b'-',
        Sign::Star => b'*',
        Sign::Caret => b'^',
        Sign::Open => b'(',
        Sign::Close => b')',
        Sign::OpenList => b'[',
        Sign::CloseList => b']',
        Sign::Comma => b',',
        Sign::Equals => b'=',
    }
}

/// The contents of a script's lines, each before `|`.
fn shown_lines(alloc: Global, script: &str) -> Result<Vec<u8>, NoMemory> {
    let mut text = Vec::new(alloc);
    let mut rest = script.as_bytes();
    while let Some((line, more)) = next_line(rest) {
        text.extend_from_slice(content_of(line))?;
        text.push(b'|')?;
        rest = more;
    }
    Ok(text)
}

/// Appends a sum: of each term its sign, each factor before `*`, and the power of the letter.
#[cycle(show)]
fn show_sum(alloc: Global, sum: &Sum, into: &mut Vec<u8>) -> Result<(), NoMemory> {
    for term in sum.terms.as_slice() {
        into.push(if term.minus { b'-' } else { b'+' })?;
        for factor in term.factors.as_slice() {
            show_factor(alloc, factor, into)?;
            into.push(b'*')?;
        }
        show_number(alloc, term.power, into)?;
    }
    Ok(())
}

#[cycle(show)]
fn show_factor(alloc: Global, factor: &Factor, into: &mut Vec<u8>) -> Result<(), NoMemory> {
    match factor {
        Factor::Number(n) => show_number(alloc, *n, into),
        Factor::A(k) => {
            into.push(b'a')?;
            show_number(alloc, *k, into)
        }
        Factor::Z(k) => {
            into.push(b'z')?;
            show_number(alloc, *k, into)
        }
        Factor::Group(sum) => {
            into.push(b'(')?;
            show_sum(alloc, sum, into)?;
            into.push(b')')?;
            Ok(())
        }
    }
}

/// The sum of this kind that a line begins with, `|`, and how many tokens are left.
fn shown_sum(alloc: Global, kind: Kind, line: &str) -> Result<Vec<u8>, NoMemory> {
    let mut text = Vec::new(alloc);
    let Some(list) = tokens(alloc, line.as_bytes())? else {
        text.extend_from_slice(b" none")?;
        return Ok(text);
    };
    let Some((sum, rest)) = read_sum(alloc, kind, DEEPEST, false, &list)? else {
        text.extend_from_slice(b" none")?;
        return Ok(text);
    };
    text.push(b' ')?;
    show_sum(alloc, &sum, &mut text)?;
    text.push(b'|')?;
    text.extend_from_slice(format!(in alloc; "{}", rest.len())?.as_bytes())?;
    Ok(text)
}

/// The same for a twisted polynomial as an operand: a name after `'`, and a list in brackets with
/// `,` after each item.
fn shown_operand(alloc: Global, line: &str) -> Result<Vec<u8>, NoMemory> {
    let mut text = Vec::new(alloc);
    let Some(list) = tokens(alloc, line.as_bytes())? else {
        text.extend_from_slice(b" none")?;
        return Ok(text);
    };
    let Some((operand, rest)) = read_twisted(alloc, &list)? else {
        text.extend_from_slice(b" none")?;
        return Ok(text);
    };
    text.push(b' ')?;
    match &operand {
        OreArg::Name(name) => {
            text.push(b'\'')?;
            text.extend_from_slice(name.bytes.as_slice())?;
        }
        OreArg::List(items) => show_list(alloc, items.as_slice(), &mut text)?,
        OreArg::Terms(sum) => show_sum(alloc, sum, &mut text)?,
    }
    text.push(b'|')?;
    text.extend_from_slice(format!(in alloc; "{}", rest.len())?.as_bytes())?;
    Ok(text)
}

fn show_list(alloc: Global, items: &[Sum], into: &mut Vec<u8>) -> Result<(), NoMemory> {
    into.push(b'[')?;
    for item in items {
        show_sum(alloc, item, into)?;
        into.push(b',')?;
    }
    into.push(b']')?;
    Ok(())
}

/// Each row is a line, ` =>`, and its tokens or `none`.
const TOKENS: &str = " =>
    =>
\t \t =>
# all of it =>
base 2 => 'base 2
base 2#no => 'base 2
base 2 # a # b => 'base 2
\tbase\t2 => 'base 2
base 2\r => 'base 2
base 2 \r => 'base 2
base 2\r\r => none
base\r2 => none
base 2 #\r => 'base 2
base 2\r# => none
\r =>
over 2z^2+z+1 => 'over 2 z ^ 2 + z + 1
over 2 z ^ 2 + z + 1 => 'over 2 z ^ 2 + z + 1
a z t T X as => a z t T X as
A Z x As aS => 'A 'Z 'x 'As 'aS
aa => 'aa
a1 => 'a1
a_ => 'a_
a_1b_C => 'a_1b_C
X_1 => 'X_1
tt => 'tt
T2 => 'T2
z2 => 'z2
2z => 2 z
1a => 1 a
12as3 => 12 'as3
_a => none
0 => 0
000 => 0
007 => 7
1 2 => 1 2
999999999 => 999999999
1000000000 => 1000000000
1000000001 => 1000000000
4294967296 => 1000000000
18446744073709551617 => 1000000000
99999999999999999999999999999999999999999 => 1000000000
00000000000000000000000000000000000000003 => 3
1.5 => none
-1 => - 1
+-*^()[],= => + - * ^ ( ) [ ] , =
a+b => a + 'b
{t} => none
t; => none
\"a\" => none
a/b => none
a%2 => none
a! => none
a@b => none
a`b => none
a:b => none
a\u{b}b => none
a\0 => none
\u{e9} => none
base 2 # \u{e9} => 'base 2
check [z, 1] [z,1] t => 'check [ z , 1 ] [ z , 1 ] t
module phi=[z,1] => 'module 'phi = [ z , 1 ]
ore u = -t => 'ore 'u = - t
mul u v as w => 'mul 'u 'v as 'w
mul u v asw => 'mul 'u 'v 'asw
t^128 => t ^ 128
t ^2 => t ^ 2
((())) => ( ( ( ) ) )
base base base => 'base 'base 'base";

/// Each row is a line, ` =>`, and the sum that it begins with or `none`.
const BASE_MODULI: &str = "a^2+a+1 => +2+1+1*0|0
2*3*a^4-a => +2*3*4-1|0
a*a => none
2a => +2*0|1
a^0 => +0|0
(1)*a => none
z => none";

const TOP_MODULI: &str = "z^2+z+1 => +2+1+1*0|0
2z^2+z+1 => +2*0|7
2*z => +2*1|0
z*z => none
a*z^2-a^3 => +a1*2-a3*0|0
(a+1)*z => +(+a1*0+1*0)*1|0
(-a)*z => +(-a1*0)*1|0
(z)*z => none
-z => none
z+ => none
z+-1 => none
z^ => none
z^2^3 => none
2^3 => none
z a => +1|1
t => none";

const POLYNOMIALS: &str = "T^2+a*T => +2+a1*1|0
T*T => none
z*T => none";

const TWISTED_SUMS: &str = "t+1 z+t => +1+1*0|3
t ^2 => +2|0
t*z => none
z*z*t^3 => +z1*z1*3|0
z^0*t => +z0*1|0
(z+a)*(1)*t-1 => +(+z1*0+a1*0)*(+1*0)*1-1*0|0
(-1)*t => +(-1*0)*1|0
(--1)*t => none
(t) => none
() => none
(1 => none
1) => +1*0|1
(1)^2 => none
t as u => +1|2";

const BASE_ELEMENTS: &str = "a*a => +a1*a1*0|0
z => none";

const TOP_ELEMENTS: &str = "z*z => +z1*z1*0|0
t => none
((((((((((((((((1)))))))))))))))) => +(+(+(+(+(+(+(+(+(+(+(+(+(+(+(+(+1*0)*0)*0)*0)*0)*0)*0)*0)*0)*0)*0)*0)*0)*0)*0)*0)*0|0
(((((((((((((((((1))))))))))))))))) => none";

/// Each row is a line, ` =>`, and the operand that it begins with or `none`.
const OPERANDS: &str = "[z, 1] => [+z1*0,+1*0,]|0
[] => []|0
[-z, -1] => [-z1*0,-1*0,]|0
[z*z] t => [+z1*z1*0,]|1
[z,] => none
[,z] => none
[z => none
[z 1] => none
[[z]] => none
[t] => none
[ => none
u => 'u|0
base => 'base|0
u as v => 'u|2
u*t => none
[z]+t => none
a => +a1*0|0
z t => +z1*0|1
-t => none
as => none
X => none
T => none
 => none";

#[test]
fn lines_of_scripts(rt: HostRuntime) -> Result<(), Fail> {
    for (script, want) in [
        ("", ""),
        ("a", "a|"),
        ("a\n", "a|"),
        ("\n", "|"),
        ("\n\n", "||"),
        ("a\nb", "a|b|"),
        ("a\n\nb\n", "a||b|"),
        ("a\r\nb\r", "a|b|"),
        ("a\r\r\n", "a\r|"),
        ("a#b\nc", "a|c|"),
        ("#\n#\n", "||"),
        ("a#\r\n#b\r", "a||"),
    ] {
        let text = shown_lines(rt.alloc(), script)?;
        assert_eq!(rt; text.as_slice(), want.as_bytes(), "{script}");
    }
    Ok(())
}

#[test]
fn tokens_of_lines(rt: HostRuntime) -> Result<(), Fail> {
    for row in TOKENS.split('\n') {
        let (line, want) = row.split_once(" =>").ok_or("a row")?;
        let text = shown_tokens(rt.alloc(), line)?;
        assert_eq!(rt; text.as_slice(), want.as_bytes(), "{line}");
    }
    Ok(())
}

fn check_sums(rt: &impl Abort, alloc: Global, kind: Kind, table: &str) -> Result<(), Fail> {
    for row in table.split('\n') {
        let (line, want) = row.split_once(" =>").ok_or("a row")?;
        let text = shown_sum(alloc, kind, line)?;
        assert_eq!(rt; text.as_slice(), want.as_bytes(), "{line}");
    }
    Ok(())
}

#[test]
fn sums_of_each_kind(rt: HostRuntime) -> Result<(), Fail> {
    check_sums(&rt, rt.alloc(), Kind::BaseModulus, BASE_MODULI)?;
    check_sums(&rt, rt.alloc(), Kind::TopModulus, TOP_MODULI)?;
    check_sums(&rt, rt.alloc(), Kind::Polynomial, POLYNOMIALS)?;
    check_sums(&rt, rt.alloc(), Kind::Twisted, TWISTED_SUMS)?;
    check_sums(&rt, rt.alloc(), Kind::BaseElement, BASE_ELEMENTS)?;
    check_sums(&rt, rt.alloc(), Kind::TopElement, TOP_ELEMENTS)?;
    Ok(())
}

#[test]
fn operands(rt: HostRuntime) -> Result<(), Fail> {
    for row in OPERANDS.split('\n') {
        let (line, want) = row.split_once(" =>").ok_or("a row")?;
        let text = shown_operand(rt.alloc(), line)?;
        assert_eq!(rt; text.as_slice(), want.as_bytes(), "{line}");
    }
    Ok(())
}
