//! What sessions answer to lines.
ghost use Rattle.script_parse.specs.Version.{version_1};
ghost use Rattle.script_parse.specs.Within.{IsWithin};

use answer_print::write_answer;
use ring_core::NoMemory;
use script_parse::{Statement, parse};
use session::{Session, Stop};
use std::alloc::Global;
use std::test::Fail;

/// The lines of a row, which stand in it between semicolons.
fn lines_of(alloc: Global, row: &str) -> Result<Vec<u8>, NoMemory> {
    let mut text = Vec::new(alloc);
    for byte in row.as_bytes() {
        text.push(if *byte == b';' { b'\n' } else { *byte })?;
    }
    text.push(b'\n')?;
    Ok(text)
}

/// The text of the answer.
fn answered(alloc: Global, session: &mut Session, statement: &Statement) -> Result<Vec<u8>, Fail>
    requires { IsWithin version_1 statement.now.form }
{
    let answer = match session.step(statement) {
        Ok(answer) => answer,
        Err(_) => return Err(Fail::new("a statement stops")),
    };
    let mut text = Vec::new(alloc);
    let Ok(()) = write_answer(alloc, session.printing(), &answer, &mut text) else {
        return Err(Fail::new("memory for a text"));
    };
    Ok(text)
}

/// The stop of the statement, None where it is answered.
fn stopped(session: &mut Session, statement: &Statement) -> Option<Stop>
    requires { IsWithin version_1 statement.now.form }
{
    match session.step(statement) {
        Ok(_) => None,
        Err(stop) => Some(stop),
    }
}

/// Lets the session answer the lines of a row, and gives the text of the last answer.
pub fn said(alloc: Global, session: &mut Session, row: &str) -> Result<Vec<u8>, Fail> {
    let lines = lines_of(alloc, row)?;
    if lines.len() > 65536 {
        return Err(Fail::new("a short row"));
    }
    let Ok(script) = parse(alloc, &lines) else {
        return Err(Fail::new("a script"));
    };
    let mut text = Vec::new(alloc);
    for statement in script.list.as_slice() {
        text = answered(alloc, session, statement)?;
    }
    Ok(text)
}

/// The first stop of the lines of a row, None where all are answered.
pub fn stop_of(alloc: Global, session: &mut Session, row: &str) -> Result<Option<Stop>, Fail> {
    let lines = lines_of(alloc, row)?;
    if lines.len() > 65536 {
        return Err(Fail::new("a short row"));
    }
    let Ok(script) = parse(alloc, &lines) else {
        return Err(Fail::new("a script"));
    };
    for statement in script.list.as_slice() {
        if let Some(stop) = stopped(session, statement) {
            return Ok(Some(stop));
        }
    }
    Ok(None)
}

/// Whether a text is that of the lines of a row.
pub fn is_text(alloc: Global, text: &[u8], row: &str) -> Result<bool, Fail> {
    let want = lines_of(alloc, row)?;
    Ok(text == want.as_slice())
}
