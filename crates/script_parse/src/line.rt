ghost use Rattle.std.specs.Prelude.{◌≡◌, IfOk};
ghost use Rattle.script_parse.specs.Limits.{gives_name, line_limit};
ghost use Rattle.script_parse.specs.Says.{LineSays};
ghost use Rattle.script_parse.specs.Version.{limits_of};
ghost use Rattle.script_parse.specs.steps.Fit.{AreFit};

use super::limit::{first_limit, gives_name};
use super::size::SizeKind;
use super::version::Limits;
use ring_core::NoMemory;
use script_lang::{Token, content_of, is_blank, tokens};
use script_statement::{Form, Verb, read_operands, read_verb};
use std::alloc::Global;

/// What a line says: nothing, no statement, a statement that passes a limit, or a form, and whether its
/// statement gives a name.
#[derive(Drop)]
pub enum Line {
    Blank,
    Syntax,
    Size(SizeKind),
    Says(Form, bool),
}

/// What a line says within these limits, after so many statements and so many that give names. `NoMemory` where
/// memory is refused.
pub(crate) fn read_line(
    alloc: Global,
    limits: &Limits,
    statements: u32,
    names: u32,
    line: &[u8],
) -> Result<Line, NoMemory>
    requires { AreFit (limits_of limits.now) }
    ensures says { IfOk result (λ r. LineSays (limits_of limits.now) statements names line.now r) }
{
    if is_blank(line) {
        return Ok(Line::Blank);
    }
    let lexed = tokens(alloc, content_of(line))?;
    let Some(list) = lexed else {
        return Ok(Line::Syntax);
    };
    let Some((verb, operands)) = read_verb(&list) else {
        return Ok(Line::Syntax);
    };
    let read = read_operands(alloc, verb, operands)?;
    let Some(form) = read else {
        return Ok(Line::Syntax);
    };
    let named = gives_name(verb, operands);
    if let Some(kind) = line_limit(limits, statements, names, named, verb, operands) {
        return Ok(Line::Size(kind));
    }
    Ok(Line::Says(form, named))
}

/// The limit that decides a line which is a statement; `named` says whether it gives a name.
fn line_limit(
    limits: &Limits,
    statements: u32,
    names: u32,
    named: bool,
    verb: Verb,
    operands: &[Token],
) -> Option<SizeKind>
    requires { named ≡ gives_name verb operands.now }
    ensures { result ≡ line_limit (limits_of limits.now) statements names verb operands.now }
{
    if limits.statements <= statements {
        return Some(SizeKind::Statements);
    }
    if named && limits.names <= names {
        return Some(SizeKind::Names);
    }
    first_limit(limits, verb, operands)
}
