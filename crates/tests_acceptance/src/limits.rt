//! Limits of a script, met and passed. In the table a semicolon ends a line.

use super::runs::{check_rows, check_script};
use std::alloc::Global;
use std::test::Fail;

const PASSED: &str = "base 0 =>  => 4 line 1: too large: prime
base 1 =>  => 4 line 1: too large: prime
base 4 =>  => 4 line 1: too large: prime
base 9 =>  => 4 line 1: too large: prime
base 17 =>  => 4 line 1: too large: prime
base 252 =>  => 4 line 1: too large: prime
base 257 =>  => 4 line 1: too large: prime
base 1000000000 =>  => 4 line 1: too large: number
base 2 9 a^9+a+1 =>  => 4 line 1: too large: base
base 2;over 13 z^13 =>  => 4 line 2: too large: top
base 2;over 1 z;check [z^129, 1] [0, 1] [1] =>  => 4 line 3: too large: exponent
base 2;over 1 z;check [1000000000, 1] [0, 1] [1] =>  => 4 line 3: too large: number
base 2;over 1 z;ore u = t^129 =>  => 4 line 3: too large: degree
base 2;over 1 z;rank [0, 0, 0, 0, 0, 0, 0, 0, 0, 1] =>  => 4 line 3: too large: rank
base 2;over 1 z;ore bbbbbbbbbbbbbbbbbbbbbbbbbbbbbbbbb = 1 =>  => 4 line 3: too large: name
base 2;over 1 z;ore bbbbbbbbbbbbbbbbbbbbbbbbbbbbbbbb = 1 => q = 2;n = 1;bbbbbbbbbbbbbbbbbbbbbbbbbbbbbbbb = 1
base 2;over 1 z;ore u = ((((((((((((((((1)))))))))))))))) => q = 2;n = 1;u = 1
base 2;over 1 z;ore u = (((((((((((((((((1))))))))))))))))) =>  => 3 line 3: not a statement
base 2;over 1 z;bounded [0, 1] [0, 1] 65 =>  => 4 line 3: too large: bound
base 2;over 1 z;bounded [0, 1] [0, 1] 65 65 =>  => 3 line 3: not a statement
base 2;over 1 z;image [0, 1] T^17 =>  => 4 line 3: too large: image
base 2;over 1 z;image [0, 1] T^16 => q = 2;n = 1;t^16
base 2;over 1 z;ore u = z^128 => q = 2;n = 1;u = 0
base 2;over 1 z;ore u = z^129 =>  => 4 line 3: too large: exponent
base 2;over 1 z;ore u = t^128 => q = 2;n = 1;u = t^128
base 2;over 1 z;rank [0, 0, 0, 0, 0, 0, 0, 0, 1] => q = 2;n = 1;8
base 2;over 1 z;mul 0 t^128;check [0, 1] [0, 1] 0;common 0 0;motive [0, 1] 0 => q = 2;n = 1;0;yes;divisor 0;left 0;right 0;[0]
base 251 => q = 251
base 251;over 2 z^2+250 => q = 251 => 5 line 2: the modulus of the top is reducible";

/// A byte that is no text, in a comment and outside.
#[test]
fn refuses_bytes_outside_comments(rt: HostRuntime) -> Result<(), Fail> {
    let script = b"base 2\nover 1 z # \xff\nrank \xff # \xff\n";
    check_script(
        &rt,
        rt.alloc(),
        script,
        (3, b"", b"line 3: not a statement\n"),
    )
}

#[test]
fn tells_a_limit_that_is_passed(rt: HostRuntime) -> Result<(), Fail> {
    check_rows(&rt, rt.alloc(), PASSED)
}

/// A check whose third list has this many items, of which the last is 1: `tau^(items - 1)`, which is a
/// homomorphism from `[1, 1]` to itself over `F_2`.
fn long_check(alloc: Global, items: usize) -> Result<Vec<u8>, Fail> {
    let mut script = b"base 2\nover 1 z\ncheck [1, 1] [1, 1] [".to_vec(alloc)?;
    for _ in 1..items {
        script.extend_from_slice(b"0,")?;
    }
    script.extend_from_slice(b"1]\n")?;
    Ok(script)
}

#[test]
fn takes_129_items_and_no_more(rt: HostRuntime) -> Result<(), Fail> {
    let longest = long_check(rt.alloc(), 129)?;
    check_script(&rt, rt.alloc(), &longest, (0, b"q = 2\nn = 1\nyes\n", b""))?;
    let too_long = long_check(rt.alloc(), 130)?;
    let line = b"line 3: too large: degree\n";
    check_script(&rt, rt.alloc(), &too_long, (4, b"", line))
}

/// The line, this many times, behind two lines for the field.
fn repeated(alloc: Global, line: &[u8], times: usize) -> Result<Vec<u8>, Fail> {
    let mut script = b"base 2\nover 1 z\n".to_vec(alloc)?;
    for _ in 0..times {
        script.extend_from_slice(line)?;
    }
    Ok(script)
}

#[test]
fn takes_1000_statements_and_no_more(rt: HostRuntime) -> Result<(), Fail> {
    let most = repeated(rt.alloc(), b"rank [0, 1]\n", 998)?;
    let mut output = b"q = 2\nn = 1\n".to_vec(rt.alloc())?;
    for _ in 0..998 {
        output.extend_from_slice(b"1\n")?;
    }
    check_script(&rt, rt.alloc(), &most, (0, &output, b""))?;
    let more = repeated(rt.alloc(), b"rank [0, 1]\n", 999)?;
    let line = b"line 1001: too large: statements\n";
    check_script(&rt, rt.alloc(), &more, (4, b"", line))
}

/// This many new names, and what is written for them.
fn new_names(alloc: Global, count: u32) -> Result<(Vec<u8>, Vec<u8>), Fail> {
    let mut script = b"base 2\nover 1 z\n".to_vec(alloc)?;
    let mut output = b"q = 2\nn = 1\n".to_vec(alloc)?;
    for k in 0..count {
        script.extend_from_slice(format!(in alloc; "ore n{k} = 1\n")?.as_bytes())?;
        output.extend_from_slice(format!(in alloc; "n{k} = 1\n")?.as_bytes())?;
    }
    Ok((script, output))
}

#[test]
fn takes_256_names_and_no_more(rt: HostRuntime) -> Result<(), Fail> {
    let (most, output) = new_names(rt.alloc(), 256)?;
    check_script(&rt, rt.alloc(), &most, (0, &output, b""))?;
    let (more, _) = new_names(rt.alloc(), 257)?;
    let line = b"line 259: too large: names\n";
    check_script(&rt, rt.alloc(), &more, (4, b"", line))
}

#[test]
fn takes_a_bound_of_64(rt: HostRuntime) -> Result<(), Fail> {
    let script = b"base 2\nover 1 z\nbounded [0, 1] [0, 1] 64\n";
    let mut output = b"q = 2\nn = 1\nmembers 65\n1\nt\n".to_vec(rt.alloc())?;
    for k in 2..65u32 {
        output.extend_from_slice(format!(in rt.alloc(); "t^{k}\n")?.as_bytes())?;
    }
    check_script(&rt, rt.alloc(), script, (0, &output, b""))
}
