ghost use Rattle.std.specs.Prelude.{◌≡◌, ◌≢◌, ◌≤◌, ◌+◌, length, IfOk, IfErr};
ghost use Rattle.std.specs.Str.Lines.{strip_carriage_return};
ghost use Rattle.std.specs.List.{All};
ghost use Rattle.script_parse.specs.Version.{version_1};
ghost use Rattle.script_parse.specs.Within.{IsWithin};
ghost use Rattle.script_parse.specs.Scripts.{IsScriptOf, IsFaultOf, count};

use super::line::{Line, read_line};
use super::size::SizeKind;
use super::version::Limits;
use script_lang::next_line;
use script_statement::Form;
use sqlite_items::Items;
use std::alloc::Global;

/// The statements of a script, in their order.
#[derive(Drop)]
pub struct Script {
    pub list: Items<Statement>,
}

/// A statement with the number of its line, from 1, and the places in the script of the line's first
/// byte and of the byte after its last, without its carriage return and line feed.
#[derive(Drop)]
pub struct Statement {
    pub line: u32,
    pub start: usize,
    pub stop: usize,
    pub form: Form,
}

/// Why bytes are no script: the first line at fault, which isn't blank and is no statement, or is a
/// statement and passes the limit of this kind; or memory is refused.
#[derive(Clone, Copy, Debug, PartialEq, Eq)]
pub enum Refused {
    Syntax(u32),
    Size(SizeKind, u32),
    NoMemory,
}

/// The script that the bytes are, at most as many as [`Limits::script`] says: its statements in order, each with
/// the number of its line and the places of the line's first byte and of the byte after its last, without its
/// carriage return and line feed; each form is within the limits. Else the first line at fault, or `NoMemory`
/// where memory is refused.
pub fn parse(alloc: Global, bytes: &[u8]) -> Result<Script, Refused>
    requires { length bytes.now ≤ version_1.script }
    ensures found { IfOk result (λ x. IsScriptOf bytes.now x.list) }
    ensures within { IfOk result (λ x. All (λ s. IsWithin version_1 s.form) x.list) }
    ensures fault { IfErr result (λ r. r ≢ Refused.NoMemory → IsFaultOf bytes.now r) }
{
    let limits = Limits::version_1();
    let mut list = Items::new(alloc);
    let mut rest = bytes;
    let mut number: u32 = 1;
    let mut at: usize = 0;
    let mut statements: u32 = 0;
    let mut names: u32 = 0;
    while let Some((line, more)) = next_line(rest) {
        let Ok(says) = read_line(alloc, &limits, statements, names, line) else {
            return Err(Refused::NoMemory);
        };
        let here = number;
        let start = at;
        rest = more;
        number += 1;
        at += line.len() + 1;
        match says {
            Line::Blank => {}
            Line::Syntax => return Err(Refused::Syntax(here)),
            Line::Size(kind) => return Err(Refused::Size(kind, here)),
            Line::Says(form, named) => {
                let Ok(_) = list.push(Statement {
                    line: here,
                    start,
                    stop: start + end_of(line),
                    form,
                }) else {
                    return Err(Refused::NoMemory);
                };
                statements += 1;
                names += count(named);
            }
        }
    }
    Ok(Script { list })
}

/// Where a line ends, without its carriage return.
fn end_of(line: &[u8]) -> usize
    ensures value { result ≡ length (strip_carriage_return line.now) }
    ensures within { result ≤ length line.now }
{
    if line.last() == Some(&b'\r') {
        return line.len() - 1;
    }
    line.len()
}

/// 1 for a statement that gives a name, else 0.
fn count(named: bool) -> u32
    ensures value { result ≡ count named }
    ensures within { result ≤ 1 }
{
    if named { 1 } else { 0 }
}
