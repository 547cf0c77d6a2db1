//! Words: those that are refused, echoed lines, and the sample.

use super::runs::{check_rows, check_run, check_words, sink_of, source_of, words_of};
use drinfeld_cli::{run, sample};
use std::test::Fail;
use text_io::Source;

/// Words that the command refuses, in front of a script that it doesn't read.
const REFUSED: &str = "x : base 2 =>  => 2 words refused
--echo --echo : base 2 =>  => 2 words refused
--echo x : base 2 =>  => 2 words refused
--echo=true : base 2 =>  => 2 words refused
--ech : base 2 =>  => 2 words refused
-e : base 2 =>  => 2 words refused
-- --echo : base 2 =>  => 2 words refused
--help : base 2 =>  => 2 words refused
-h : base 2 =>  => 2 words refused
help : base 2 =>  => 2 words refused
--version : base 2 =>  => 2 words refused
-V : base 2 =>  => 2 words refused
--sample : base 2 =>  => 2 words refused
--sample= : base 2 =>  => 2 words refused
--sample --echo : base 2 =>  => 2 words refused
--sample z : base 2 =>  => 2 words refused
--sample -1 : base 2 =>  => 2 words refused
--sample=-1 : base 2 =>  => 2 words refused
--sample 4294967296 : base 2 =>  => 2 words refused
--sample 99999999999999999999 : base 2 =>  => 2 words refused
--sample 0 --sample 0 : base 2 =>  => 2 words refused
--sample 0 0 : base 2 =>  => 2 words refused";

/// Echoed lines: with their blanks and comments, one for each answer, and none for a statement that stops.
const ECHOED: &str = "--echo : base 2 => > base 2;q = 2
--echo : # one;base 2 # two;; over  1 z => > base 2 # two;q = 2;>  over  1 z;n = 1
--echo : base 2;over 1 z;common 0 0 # the zero => > base 2;q = 2;> over 1 z;n = 1;> common 0 0 # the zero;divisor 0;left 0;right 0
--echo : base 2;rank phi => > base 2;q = 2 => 5 line 2: no field yet
--echo : base 2;base 4 =>  => 4 line 2: too large: prime
-- : base 2 => q = 2
--echo -- : base 2 => > base 2;q = 2";

#[test]
fn refuses_words_of_others(rt: HostRuntime) -> Result<(), Fail> {
    check_rows(&rt, rt.alloc(), REFUSED)
}

#[test]
fn echoes_lines(rt: HostRuntime) -> Result<(), Fail> {
    check_rows(&rt, rt.alloc(), ECHOED)?;
    let script = b"\tbase 2 \r\n\r\nover 1 z#\xff\r\r";
    let output = b"> \tbase 2 \nq = 2\n> over 1 z#\xff\r\nn = 1\n";
    check_words(&rt, rt.alloc(), "--echo", script, (0, output, b""))
}

/// The sample script of 0.
const SAMPLE: &str = "base 2
over 8 z^8+z^4+z^3+z+1
module m1 = [z, z^5+z^4+z^3+z^2, z^6+z^2+z+1]
module m2 = [z, z^7+z^6+z^4+1, z^7+z^5+z^3+z]
module m3 = [z, z^6+z^5+z, z^7+z^4+z^3+z^2+z+1]
module m4 = [z, z^6+z^4+z^2+z+1, z^7+z^5+z+1]
module m5 = [z, z^7+1, z^7+z^4+z^2]
module m6 = [z, z^7+z^6+z^3+z+1, z^7+z^5+z^4+z^3+z^2]
module m7 = [z, z^7+z^4+z^3+z^2+1, z^7+z^6+z^5+z]
module m8 = [z, 1, z^7+z+1]
module m9 = [z, z^7+z^5+z^4+z^2+1, z^6+z^3+z^2+z+1]
module m10 = [z, z^6+z^5+z, z^7+z^5+z^2+1]
module m11 = [z, z^7+z^2+z, z^7+z^3+z]
module m12 = [z, z^6+z^5+z^2+z, z^5+z^4+z^3+z^2+z+1]
fullsize m1 m1
fullsize m2 m2
fullsize m3 m3
fullsize m4 m4
fullsize m5 m5
fullsize m6 m6
fullsize m7 m7
fullsize m8 m8
fullsize m9 m9
fullsize m10 m10
fullsize m11 m11
fullsize m12 m12
";

/// What it writes. The counts were found by a plain search: in coordinates over `F_2`, the endomorphisms up to degree
/// 100 are the kernel of a matrix, and a member of the full list is the one of least degree for each lead modulo 64.
const SAMPLE_OUTPUT: &str = "q = 2
n = 8
m1 = [z, z^5+z^4+z^3+z^2, z^6+z^2+z+1]
m2 = [z, z^7+z^6+z^4+1, z^7+z^5+z^3+z]
m3 = [z, z^6+z^5+z, z^7+z^4+z^3+z^2+z+1]
m4 = [z, z^6+z^4+z^2+z+1, z^7+z^5+z+1]
m5 = [z, z^7+1, z^7+z^4+z^2]
m6 = [z, z^7+z^6+z^3+z+1, z^7+z^5+z^4+z^3+z^2]
m7 = [z, z^7+z^4+z^3+z^2+1, z^7+z^6+z^5+z]
m8 = [z, 1, z^7+z+1]
m9 = [z, z^7+z^5+z^4+z^2+1, z^6+z^3+z^2+z+1]
m10 = [z, z^6+z^5+z, z^7+z^5+z^2+1]
m11 = [z, z^7+z^2+z, z^7+z^3+z]
m12 = [z, z^6+z^5+z^2+z, z^5+z^4+z^3+z^2+z+1]
members 8, degree 14
members 8, degree 14
members 8, degree 12
members 8, degree 13
members 8, degree 14
members 8, degree 14
members 8, degree 12
members 8, degree 14
members 8, degree 14
members 8, degree 14
members 8, degree 12
members 8, degree 12
";

#[test]
fn makes_the_sample(rt: HostRuntime) -> Result<(), Fail> {
    let script = sample(rt.alloc(), 0)?;
    assert_eq!(rt; script.as_slice(), SAMPLE.as_bytes());
    Ok(())
}

/// Twice the same. The source's first call, which would fail, is still to come.
#[test]
fn answers_the_sample(rt: HostRuntime) -> Result<(), Fail> {
    let alloc = rt.alloc();
    for words in ["--sample 0", "--sample=0"] {
        let words = words_of(alloc, words)?;
        let mut input = source_of(alloc, b"base 9", 1, &[1])?;
        let sinks = (sink_of(alloc, &[])?, sink_of(alloc, &[])?);
        let want = (0, SAMPLE_OUTPUT.as_bytes(), b"".as_slice());
        check_run(&rt, alloc, &words, &mut input, sinks, want)?;
        assert!(rt; input.read(&mut [0; 1]).is_err());
    }
    Ok(())
}

const ECHOED_FRONT: &[u8] = b"> base 2
q = 2
> over 8 z^8+z^4+z^3+z+1
n = 8
> module m1 = [z, z^5+z^4+z^3+z^2, z^6+z^2+z+1]
m1 = [z, z^5+z^4+z^3+z^2, z^6+z^2+z+1]
";

#[test]
fn echoes_the_sample(rt: HostRuntime) -> Result<(), Fail> {
    let alloc = rt.alloc();
    let words = words_of(alloc, "--sample 0 --echo")?;
    let mut input = source_of(alloc, b"", 1, &[])?;
    let (mut output, mut errors) = (sink_of(alloc, &[])?, sink_of(alloc, &[])?);
    let status = run(alloc, &words, &mut input, &mut output, &mut errors);
    assert_eq!(rt; status.code(), 0);
    assert!(rt; output.bytes().starts_with(ECHOED_FRONT));
    assert_eq!(rt; output.bytes().split(|byte| *byte == b'\n').count(), 53);
    Ok(())
}
