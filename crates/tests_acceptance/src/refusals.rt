//! Which of two refusals is told where both apply: for each refusal and the one that comes after it. In the
//! tables a semicolon ends a line.

use super::runs::check_rows;
use std::test::Fail;

/// Fields and names: the field, then unknown names, then names of the other kind, then names that are taken.
const NAMES: &str = "frob nope =>  => 5 line 1: no field yet
bounded nope nope 0 =>  => 5 line 1: no field yet
rank nope =>  => 5 line 1: no field yet
over 2 z =>  => 5 line 1: no field yet
base 2;rank nope => q = 2 => 5 line 2: no field yet
base 2;base 2 2 a => q = 2 => 5 line 2: the field is already set
base 2;over 2 z^2+z+1;base 3 => q = 2;n = 2 => 5 line 3: the field is already set
base 2;over 2 z^2+z+1;over 2 z^2 => q = 2;n = 2 => 5 line 3: the field is already set
base 2;over 2 z^2+z+1;over 2 z^2+z+1 => q = 2;n = 2 => 5 line 3: the field is already set
base 2;over 1 z;module m = [1, 1];ore u = t;add nope m as u => q = 2;n = 1;m = [1, 1];u = t => 5 line 5: unknown name
base 2;over 1 z;module m = [1, 1];ore u = t;add m nope as u => q = 2;n = 1;m = [1, 1];u = t => 5 line 5: unknown name
base 2;over 1 z;module m = [1, 1];ore u = t;check u m nope => q = 2;n = 1;m = [1, 1];u = t => 5 line 5: unknown name
base 2;over 1 z;module m = [1, 1];ore u = t;check nope u m => q = 2;n = 1;m = [1, 1];u = t => 5 line 5: unknown name
base 2;over 1 z;show nope => q = 2;n = 1 => 5 line 3: unknown name
base 2;over 1 z;ore u = v => q = 2;n = 1 => 5 line 3: unknown name
base 2;over 1 z;module m = [1, 1];ore u = t;add m u as u => q = 2;n = 1;m = [1, 1];u = t => 5 line 5: wrong kind of name
base 2;over 1 z;module m = [1, 1];ore u = t;mul u m => q = 2;n = 1;m = [1, 1];u = t => 5 line 5: wrong kind of name
base 2;over 1 z;ore u = t;rank u => q = 2;n = 1;u = t => 5 line 4: wrong kind of name
base 2;over 1 z;module m = [1, 1];ore u = m => q = 2;n = 1;m = [1, 1] => 5 line 4: wrong kind of name
base 2;over 1 z;module m = [1, 1];ore m = m => q = 2;n = 1;m = [1, 1] => 5 line 4: wrong kind of name";

/// Taken names before sizes, and before lists that are no modules; those after names, and before constants that
/// differ and invariants that a module hasn't; moduli that aren't monic before reducible ones.
const WORK: &str =
    "base 2;over 1 z;ore u = t^128;mul u t as u => q = 2;n = 1;u = t^128 => 5 line 4: the name is taken
base 2;over 1 z;module m = [1, 1];module m = [1, 0] => q = 2;n = 1;m = [1, 1] => 5 line 4: the name is taken
base 2;over 2 z^2+z+1;module m = [z, 1];module m = [z, z] => q = 2;n = 2;m = [z, 1] => 5 line 4: the name is taken
base 2;over 1 z;ore u = t;add u u as u => q = 2;n = 1;u = t => 5 line 4: the name is taken
base 2;over 1 z;ore u = t^128;mul u t => q = 2;n = 1;u = t^128 => 4 line 4: too large: degree
base 2;over 1 z;ore u = t^64;mul u t^65+1 as v => q = 2;n = 1;u = t^64 => 4 line 4: too large: degree
base 2;over 1 z;check [1] nope 1 => q = 2;n = 1 => 5 line 3: unknown name
base 2;over 1 z;ore u = t;check [1] u 1 => q = 2;n = 1;u = t => 5 line 4: wrong kind of name
base 2;over 2 z^2+z+1;check [z] [z+1, 1] 1 => q = 2;n = 2 => 5 line 3: not a module
base 2;over 2 z^2+z+1;check [z, 1] [z+1, 0] 1 => q = 2;n = 2 => 5 line 3: not a module
base 2;over 2 z^2+z+1;j [z] 1 => q = 2;n = 2 => 5 line 3: not a module
base 2;over 2 z^2+z+1;j [z, 1, 0] 0 => q = 2;n = 2 => 5 line 3: not a module
base 2;over 2 z^2+z+1;j nope 0 => q = 2;n = 2 => 5 line 3: unknown name
base 2;over 2 z^2+z+1;quotient [z] 0 => q = 2;n = 2 => 5 line 3: not a module
base 2;over 2 z^2+z+1;image [z, 0] T as v => q = 2;n = 2 => 5 line 3: not a module
base 2;over 1 z;ore u = t;quotient [1] 0 as u => q = 2;n = 1;u = t => 5 line 4: the name is taken
base 2;over 1 z;ore u = t;image [1, 1] T as u => q = 2;n = 1;u = t => 5 line 4: the name is taken
base 2;over 1 z;ore u = t;image u T as u => q = 2;n = 1;u = t => 5 line 4: wrong kind of name
base 2;over 1 z;rdiv nope 0 => q = 2;n = 1 => 5 line 3: unknown name
base 2;over 1 z;module m = [1, 1];ldiv m 0 => q = 2;n = 1;m = [1, 1] => 5 line 4: wrong kind of name
base 3;over 2 2*z^2 => q = 3 => 5 line 2: the modulus is not monic of the stated degree
base 3 2 2*a^2 =>  => 5 line 1: the modulus is not monic of the stated degree";

/// Statements on homomorphisms, motive coordinates and Frobenius: lists that are no modules before constants that
/// differ.
const LISTS: &str = "base 2;over 2 z^2+z+1;iso [z] [z+1, 1] => q = 2;n = 2 => 5 line 3: not a module
base 2;over 2 z^2+z+1;isogenous [z, 1] [z+1, 0] => q = 2;n = 2 => 5 line 3: not a module
base 2;over 2 z^2+z+1;bounded [z, 0] nope 0 => q = 2;n = 2 => 5 line 3: unknown name
base 2;over 2 z^2+z+1;motive [z] t => q = 2;n = 2 => 5 line 3: not a module
base 2;over 2 z^2+z+1;frobpower [z, 0] => q = 2;n = 2 => 5 line 3: not a module
base 2;over 2 z^2+z+1;ore u = t;frob u => q = 2;n = 2;u = t => 5 line 4: wrong kind of name
base 2;over 2 z^2+z+1;module m = [z, 1];motive m m => q = 2;n = 2;m = [z, 1] => 5 line 4: wrong kind of name
base 2;over 2 z^2+z+1;iso [z, 1] [z+1, 1] => q = 2;n = 2 => 5 line 3: the constants differ
base 2;over 2 z^2+z+1;isogenous [z, 1] [z+1, 1] => q = 2;n = 2 => 5 line 3: the constants differ
base 2;over 2 z^2+z+1;bounded [z, 1] [z+1, 1] 0 => q = 2;n = 2 => 5 line 3: the constants differ
base 2;over 2 z^2+z+1;full [z, 1] [z+1, 1] => q = 2;n = 2 => 5 line 3: the constants differ
base 2;over 2 z^2+z+1;fullsize [z, 1] [z+1, 1] => q = 2;n = 2 => 5 line 3: the constants differ";

#[test]
fn tells_names_in_order(rt: HostRuntime) -> Result<(), Fail> {
    check_rows(&rt, rt.alloc(), NAMES)
}

#[test]
fn tells_work_in_order(rt: HostRuntime) -> Result<(), Fail> {
    check_rows(&rt, rt.alloc(), WORK)
}

#[test]
fn tells_lists_in_order(rt: HostRuntime) -> Result<(), Fail> {
    check_rows(&rt, rt.alloc(), LISTS)
}
