use super::*;
use ring_core::NoMemory;
use std::alloc::Global;
use std::test::Fail;

/// Each statement once, with `as` where it may have one, and scripts at a limit or past it.
const LINES: [(&str, Option<Refused>); 82] = [
    ("", None),
    ("# nothing\n \t\n\r\n", None),
    ("base 2", None),
    ("base 002", None),
    ("base 2 8 a^8+a^4+a^3+a+1", None),
    ("over 12 z^12+z+1", None),
    ("module m = [z, 1]", None),
    ("ore u = m", None),
    ("ore u = [z, -1]", None),
    ("ore u = t+z*t^2", None),
    ("ore u = -t+1", None),
    ("show base", None),
    ("rank m", None),
    ("char [z, 1]", None),
    ("height m", None),
    ("ordinary m", None),
    ("supersingular m", None),
    ("j m 1", None),
    ("image m T^2+a as u", None),
    ("add t+1 z+t as w", None),
    ("sub u v as w", None),
    ("mul u [1] as w", None),
    ("rdiv u v", None),
    ("ldiv u v", None),
    ("common u v", None),
    ("multiple u v", None),
    ("check m n u", None),
    ("quotient m t as n", None),
    ("iso m n", None),
    ("isogenous m n", None),
    ("bounded m n 64", None),
    ("full m n", None),
    ("fullsize m n", None),
    ("motive m t", None),
    ("frob m", None),
    ("frobpower m # as it is", None),
    ("base", Some(Refused::Syntax(1))),
    ("\n# a\nbase 2 0 a", Some(Refused::Syntax(3))),
    ("base 4 0 a", Some(Refused::Syntax(1))),
    ("base 2 3", Some(Refused::Syntax(1))),
    ("over 0 z", Some(Refused::Syntax(1))),
    ("module m = t", Some(Refused::Syntax(1))),
    ("module as = [1]", Some(Refused::Syntax(1))),
    ("ore u = -[1]", Some(Refused::Syntax(1))),
    ("show m n", Some(Refused::Syntax(1))),
    ("rank t", Some(Refused::Syntax(1))),
    ("j m a", Some(Refused::Syntax(1))),
    ("rdiv u v as w", Some(Refused::Syntax(1))),
    ("add u v as t", Some(Refused::Syntax(1))),
    ("add u", Some(Refused::Syntax(1))),
    ("rename m", Some(Refused::Syntax(1))),
    ("rank m\nrank m;", Some(Refused::Syntax(2))),
    ("base 3", None),
    ("base 5", None),
    ("base 7", None),
    ("base 11", None),
    ("base 13", None),
    ("base 251", None),
    ("base 252", Some(Refused::Size(SizeKind::Prime, 1))),
    ("base 0", Some(Refused::Size(SizeKind::Prime, 1))),
    ("base 2 9 a", Some(Refused::Size(SizeKind::Base, 1))),
    ("base 3 6 a", Some(Refused::Size(SizeKind::Base, 1))),
    ("base 13 2 a", None),
    ("base 251 2 a", Some(Refused::Size(SizeKind::Base, 1))),
    (
        "base 4 1000000000 a",
        Some(Refused::Size(SizeKind::Prime, 1)),
    ),
    ("base 1000000000", Some(Refused::Size(SizeKind::Number, 1))),
    ("over 13 z", Some(Refused::Size(SizeKind::Top, 1))),
    ("j m 999999999", None),
    ("j m 4294967297", Some(Refused::Size(SizeKind::Number, 1))),
    ("bounded m n 65", Some(Refused::Size(SizeKind::Bound, 1))),
    ("over 2 a^128*z", None),
    ("over 2 a^129*z", Some(Refused::Size(SizeKind::Exponent, 1))),
    (
        "ore u = z^129*t^129",
        Some(Refused::Size(SizeKind::Exponent, 1)),
    ),
    ("ore u = z^128*t^128", None),
    ("ore u = t^129", Some(Refused::Size(SizeKind::Degree, 1))),
    ("image m T^16", None),
    ("image m T^17", Some(Refused::Size(SizeKind::Image, 1))),
    ("show a2345678901234567890123456789012", None),
    (
        "show a23456789012345678901234567890123",
        Some(Refused::Size(SizeKind::Name, 1)),
    ),
    ("motive [1,2,3,4,5,6,7,8,9] [1,2,3,4,5,6,7,8,9,10]", None),
    (
        "check m [1,2,3,4,5,6,7,8,9,0] t",
        Some(Refused::Size(SizeKind::Rank, 1)),
    ),
    (
        "module m = [1,2,3,4,5,6,7,8,9,0]",
        Some(Refused::Size(SizeKind::Rank, 1)),
    ),
];

/// The fault of a script, which is short enough.
fn fault_of(alloc: Global, script: &[u8]) -> Option<Refused> {
    if script.len() > Limits::version_1().script {
        return Some(Refused::NoMemory);
    }
    parse(alloc, script).err()
}

#[test]
fn faults_of_lines(rt: HostRuntime) -> Result<(), Fail> {
    for (script, want) in LINES {
        let fault = fault_of(rt.alloc(), script.as_bytes());
        assert_eq!(rt; fault, want, "{script}");
    }
    Ok(())
}

/// So many lines, and one more line.
fn repeated(alloc: Global, line: &[u8], times: usize, last: &[u8]) -> Result<Vec<u8>, NoMemory> {
    let mut text = Vec::new(alloc);
    for _ in 0..times {
        text.extend_from_slice(line)?;
    }
    text.extend_from_slice(last)?;
    Ok(text)
}

#[test]
fn faults_of_many(rt: HostRuntime) -> Result<(), Fail> {
    for (line, times, last, want) in [
        ("frob m\n", 1000, "\n", None),
        (
            "frob m\n",
            1000,
            "frob n",
            Some(Refused::Size(SizeKind::Statements, 1001)),
        ),
        ("frob m\n", 1000, "frob", Some(Refused::Syntax(1001))),
        ("ore u = 1\n", 256, "show u", None),
        (
            "ore u = 1\n",
            256,
            "add u u as v",
            Some(Refused::Size(SizeKind::Names, 257)),
        ),
        ("\nore u = 1\n", 255, "module m = [1]", None),
    ] {
        let text = repeated(rt.alloc(), line.as_bytes(), times, last.as_bytes())?;
        let fault = fault_of(rt.alloc(), &text);
        assert_eq!(rt; fault, want, "{line}{last}");
    }
    Ok(())
}

#[test]
fn faults_of_lists(rt: HostRuntime) -> Result<(), Fail> {
    let rank = Some(Refused::Size(SizeKind::Rank, 1));
    let degree = Some(Refused::Size(SizeKind::Degree, 1));
    for (front, commas, back, want) in [
        ("check m [1", 8, "] t", None),
        ("check m [1", 9, "] t", rank),
        ("check m n [1", 128, "]", None),
        ("check m n [1", 129, "]", degree),
        ("quotient [1", 8, "] t", None),
        ("quotient [1", 9, "] t", rank),
        ("quotient m [1", 128, "] as n", None),
        ("quotient m [1", 129, "] as n", degree),
        ("quotient [1,1,1,1,1,1,1,1,1] [1", 128, "]", None),
        ("quotient [1,1,1,1,1,1,1,1,1] [1", 129, "]", degree),
        ("ore u = [1", 128, "]", None),
        ("ore u = [1", 129, "]", degree),
    ] {
        let list = repeated(rt.alloc(), b",1", commas, back.as_bytes())?;
        let mut text = repeated(rt.alloc(), front.as_bytes(), 1, b"")?;
        text.extend_from_slice(&list)?;
        let fault = fault_of(rt.alloc(), &text);
        assert_eq!(rt; fault, want, "{front} {commas}");
    }
    Ok(())
}

#[test]
fn places_of_statements(rt: HostRuntime) -> Result<(), Fail> {
    let Ok(script) = parse(rt.alloc(), b"\nbase 2\r\n#\n over 1 z # top") else {
        return Err("a script".into());
    };
    for (at, line, start, stop) in [(0, 2, 1, 7), (1, 4, 11, 26)] {
        let statement = script.list.as_slice().get(at).ok_or("a statement")?;
        assert_eq!(rt; statement.line, line);
        assert_eq!(rt; statement.start, start);
        assert_eq!(rt; statement.stop, stop);
    }
    Ok(())
}

#[test]
fn a_line_of_sixty_thousand_bytes(rt: HostRuntime) -> Result<(), Fail> {
    let terms = repeated(rt.alloc(), b"+1", 29996, b"\n")?;
    let mut text = repeated(rt.alloc(), b"ore u = 1", 1, b"")?;
    text.extend_from_slice(&terms)?;
    assert_eq!(rt; fault_of(rt.alloc(), &text), None);
    Ok(())
}
