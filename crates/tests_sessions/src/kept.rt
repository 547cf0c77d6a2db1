//! The full lists that a session keeps: how many, and that what is told from them is what is told without them. In the
//! tables a semicolon ends a line, and each script begins with no field.

use super::sessions::{is_text, said, stop_of};
use session::{MeaningKind, Session, Stop};
use std::alloc::Global;
use std::process::Abort;
use std::test::Fail;

/// The field of four elements over that of two.
const FOUR: &str = "base 2;over 2 z^2+z+1";

/// Nine different pairs of modules of rank 1 with one constant, over the field of four elements.
const NINE_PAIRS: &str = "fullsize [z, 1] [z, 1]
fullsize [z, 1] [z, z]
fullsize [z, 1] [z, z+1]
fullsize [z, z] [z, 1]
fullsize [z, z] [z, z]
fullsize [z, z] [z, z+1]
fullsize [z, z+1] [z, 1]
fullsize [z, z+1] [z, z]
fullsize [z, z+1] [z, z+1]";

/// A statement that has the list of a pair kept, a question about the pair, and the answer to the question.
const QUESTIONS: &str = "full [z, 1] [z, 1] => bounded [z, 1] [z, 1] 2 => members 3;1;z + t;t^2
isogenous [z, 1] [z, z] => iso [z, 1] [z, z] => isomorphic by z+1
fullsize [z, 1] [z, z] => isogenous [z, 1] [z, z] => isogenous by z+1
fullsize [z, 1] [z, 1] => full [z, 1] [z, 1] => members 2;1;z + t
full [z, 1] [z, 1] => module phi = [z, 1];fullsize phi phi => members 2, degree 1";

/// Statements that make no full list, one that does, and one that stops since the constants differ.
const UNKEPT: &str = "bounded [z, 1] [z, 1] 2;iso [z, 1] [z, z]";

const KEPT: &str = "fullsize [z, 1] [z, 1]";

const STOPPED: &str = "fullsize [z, 1] [z+1, 1]";

/// One session answers the question after the first statement, another without it.
fn check_question(
    rt: &impl Abort,
    alloc: Global,
    first: &str,
    question: &str,
    want: &str,
) -> Result<(), Fail> {
    let mut keeping = Session::new(alloc);
    said(alloc, &mut keeping, FOUR)?;
    said(alloc, &mut keeping, first)?;
    assert_eq!(rt; keeping.kept(), 1);
    let told = said(alloc, &mut keeping, question)?;
    assert!(rt; is_text(alloc, &told, want)?);
    assert_eq!(rt; keeping.kept(), 1);
    Ok(())
}

fn check_without(rt: &impl Abort, alloc: Global, question: &str, want: &str) -> Result<(), Fail> {
    let mut session = Session::new(alloc);
    said(alloc, &mut session, FOUR)?;
    let found = said(alloc, &mut session, question)?;
    assert!(rt; is_text(alloc, &found, want)?);
    Ok(())
}

fn check_questions(rt: &impl Abort, alloc: Global, table: &str) -> Result<(), Fail> {
    for row in table.split('\n') {
        let (first, rest) = row.split_once(" => ").ok_or("a statement")?;
        let (question, want) = rest.split_once(" => ").ok_or("a question")?;
        check_question(rt, alloc, first, question, want)?;
        check_without(rt, alloc, question, want)?;
    }
    Ok(())
}

/// How many lists are kept after each line: one more, and no more than eight.
fn check_counts(rt: &impl Abort, alloc: Global, lines: &str) -> Result<(), Fail> {
    let mut session = Session::new(alloc);
    said(alloc, &mut session, FOUR)?;
    let mut count: usize = 0;
    for line in lines.split('\n') {
        said(alloc, &mut session, line)?;
        count = count.saturating_add(1);
        assert_eq!(rt; session.kept(), count.min(8));
    }
    assert_eq!(rt; count, 9);
    Ok(())
}

#[test]
fn keeps_eight(rt: HostRuntime) -> Result<(), Fail> {
    check_counts(&rt, rt.alloc(), NINE_PAIRS)
}

#[test]
fn told_from_kept_lists(rt: HostRuntime) -> Result<(), Fail> {
    check_questions(&rt, rt.alloc(), QUESTIONS)
}

/// A stop leaves those that are kept.
#[test]
fn keeps_no_more(rt: HostRuntime) -> Result<(), Fail> {
    let alloc = rt.alloc();
    let mut session = Session::new(alloc);
    said(alloc, &mut session, FOUR)?;
    said(alloc, &mut session, UNKEPT)?;
    assert_eq!(&rt; session.kept(), 0);
    said(alloc, &mut session, KEPT)?;
    assert_eq!(&rt; session.kept(), 1);
    let stop = stop_of(alloc, &mut session, STOPPED)?;
    assert!(&rt; matches!(stop, Some(Stop::Meaning(MeaningKind::OtherConstant))));
    assert_eq!(&rt; session.kept(), 1);
    Ok(())
}
