//! Scripts that stop, with what was written before, the status and the line that is told. In the tables a
//! semicolon ends a line.

use super::runs::check_rows;
use std::test::Fail;

/// Lines that are no statement: nothing is answered, not even the lines before.
const NO_STATEMENTS: &str = "base 2;over 2 z^2+ =>  => 3 line 2: not a statement
base 2;over 0 1 =>  => 3 line 2: not a statement
base 2 2 =>  => 3 line 1: not a statement
base 2;over 1 z;rank [1, 1,] =>  => 3 line 3: not a statement
base 2;over 1 z;check [1, 1] [1, 1] [1] [1] =>  => 3 line 3: not a statement
base 2;over 1 z;ore u = z^3*(t^0)*t =>  => 3 line 3: not a statement
base 2;over 1 z;ore u = t*z =>  => 3 line 3: not a statement
base 2;over 1 z;ore u = T =>  => 3 line 3: not a statement
base 2;over 1 z;ore T = 1 =>  => 3 line 3: not a statement
base 2;over 1 z;ore u = [1] as v =>  => 3 line 3: not a statement
base 2;over 1 z;add -t t =>  => 3 line 3: not a statement
base 2;over 1 z;Rank [1, 1] =>  => 3 line 3: not a statement
base 2;over 1 z;rank [v, 1] =>  => 3 line 3: not a statement
base 2;base 4;nonsense =>  => 4 line 2: too large: prime
base 2;nonsense;base 4 =>  => 3 line 2: not a statement";

/// Moduli that are refused: every reducible one of degree 2 over `F_2` and `F_3`; some without a root; some
/// that aren't monic of the degree.
const MODULI: &str = "base 2;over 2 z^2 => q = 2 => 5 line 2: the modulus of the top is reducible
base 2;over 2 z^2+1 => q = 2 => 5 line 2: the modulus of the top is reducible
base 2;over 2 z^2+z => q = 2 => 5 line 2: the modulus of the top is reducible
base 3;over 2 z^2 => q = 3 => 5 line 2: the modulus of the top is reducible
base 3;over 2 z^2+z => q = 3 => 5 line 2: the modulus of the top is reducible
base 3;over 2 z^2+2*z => q = 3 => 5 line 2: the modulus of the top is reducible
base 3;over 2 z^2+2 => q = 3 => 5 line 2: the modulus of the top is reducible
base 3;over 2 z^2+z+1 => q = 3 => 5 line 2: the modulus of the top is reducible
base 3;over 2 z^2+2*z+1 => q = 3 => 5 line 2: the modulus of the top is reducible
base 2;over 4 z^4+z^2+1 => q = 2 => 5 line 2: the modulus of the top is reducible
base 2;over 12 z^12 => q = 2 => 5 line 2: the modulus of the top is reducible
base 2 2 a^2+a+1;over 2 z^2+z+1 => q = 4 => 5 line 2: the modulus of the top is reducible
base 3 2 a^2+2 =>  => 5 line 1: the modulus of the base is reducible
base 2 4 a^4+a^2+1 =>  => 5 line 1: the modulus of the base is reducible
base 2;over 2 z^3+z+1 => q = 2 => 5 line 2: the modulus is not monic of the stated degree
base 2;over 2 z+1 => q = 2 => 5 line 2: the modulus is not monic of the stated degree
base 2;over 2 2*z^2 => q = 2 => 5 line 2: the modulus is not monic of the stated degree
base 3;over 2 2*z^2+1 => q = 3 => 5 line 2: the modulus is not monic of the stated degree
base 3 2 2*a^2+1 =>  => 5 line 1: the modulus is not monic of the stated degree
base 3 1 a-a =>  => 5 line 1: the modulus is not monic of the stated degree";

/// Lists that are no modules, and constants that differ.
const OPERANDS: &str =
    "base 2;over 1 z;check [1] [1, 1] [1] => q = 2;n = 1 => 5 line 3: not a module
base 2;over 1 z;check [1, 0] [1, 1] [1] => q = 2;n = 1 => 5 line 3: not a module
base 2;over 1 z;check [1, 1] [1, 2] [1] => q = 2;n = 1 => 5 line 3: not a module
base 2;over 2 z^2+z+1;rank [z, 1, 0] => q = 2;n = 2 => 5 line 3: not a module
base 2;over 2 z^2+z+1;module phi = [] => q = 2;n = 2 => 5 line 3: not a module
base 2;over 2 z^2+z+1;module phi = [z, z+z] => q = 2;n = 2 => 5 line 3: not a module
base 2;over 1 z;check [1, 1] [0, 1] [1] => q = 2;n = 1 => 5 line 3: the constants differ
base 2;over 2 z^2+z+1;check [z, 1] [z+1, 1] 1 => q = 2;n = 2 => 5 line 3: the constants differ";

#[test]
fn refuses_what_is_no_statement(rt: HostRuntime) -> Result<(), Fail> {
    check_rows(&rt, rt.alloc(), NO_STATEMENTS)
}

#[test]
fn refuses_moduli(rt: HostRuntime) -> Result<(), Fail> {
    check_rows(&rt, rt.alloc(), MODULI)
}

#[test]
fn refuses_operands(rt: HostRuntime) -> Result<(), Fail> {
    check_rows(&rt, rt.alloc(), OPERANDS)
}
