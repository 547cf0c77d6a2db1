//! Scripts that are answered whole, with the outputs that the definitions give, worked out by hand. In the
//! tables a semicolon ends a line.

use super::runs::{check_rows, check_script};
use std::test::Fail;

/// Fields: each listed prime; bases that are no prime fields; the letter of a field of degree 1; numbers
/// above `p`; moduli whose terms cancel modulo `p`.
const FIELDS: &str = "base 2 => q = 2
base 3;over 6 z^6+z+2 => q = 3;n = 6
base 2;over 12 z^12+z^3+1 => q = 2;n = 12
base 5;over 1 z => q = 5;n = 1
base 7;over 1 z => q = 7;n = 1
base 11;over 1 z => q = 11;n = 1
base 13;over 1 z => q = 13;n = 1
base 251;over 1 z => q = 251;n = 1
base 2 2 a^2+a+1;over 2 z^2+z+a => q = 4;n = 2
base 2 8 a^8+a^4+a^3+a+1 => q = 256
base 3 2 2+a^2-3*a+2 => q = 9
base 3;over 1 z+3*z^5;ore u = z => q = 3;n = 1;u = 0
base 2;over 2 z+1+3*z^2;ore u = z^2 => q = 2;n = 2;u = z+1
base 3;over 1 z+2;ore u = z+3*t => q = 3;n = 1;u = 1
base 5;over 1 z;ore u = a+z+7 => q = 5;n = 1;u = 2
base 3 1 a+1;over 1 z-a;ore u = a;ore v = z => q = 3;n = 1;u = 2;v = 2
base 2 2 a^2+a+1;over 1 z+a;ore u = a^2*t+z => q = 4;n = 1;u = a + (a+1)*t
base 2;over 1 z-1;ore u = z => q = 2;n = 1;u = 1";

/// Arithmetic over `F_4`, whose letter has `z^2 = z+1` and `z^3 = 1`, with `t z = z^2 t`.
const ARITHMETIC: &str =
    "base 2;over 2 z^2+z+1;mul t z;mul z t;add t+1 z+t;sub t t => q = 2;n = 2;(z+1)*t;z*t;z+1;0
base 2;over 2 z^2+z+1;ore u = t^128;mul u 1;mul 0 u;mul u 0 => q = 2;n = 2;u = t^128;t^128;0;0
base 2;over 2 z^2+z+1;mul [0, 1] [0, z];mul [] t;mul [z, 0] 1 => q = 2;n = 2;(z+1)*t^2;0;z
base 2;over 2 z^2+z+1;ore u = z^128;ore v = z^0*t^0;ore w = z^3*(z-1)*t => q = 2;n = 2;u = z+1;v = 1;w = (z+1)*t
base 3;over 2 z^2+1;mul t z;sub t z;sub 0 1-t;add 2 2*t => q = 3;n = 2;2*z*t;2*z + t;2 + t;2 + 2*t
base 2 2 a^2+a+1;over 2 z^2+z+a;mul t (a+1)*z;mul t t => q = 4;n = 2;((a+1)*z+a+1)*t;t^2
base 2;over 2 z^2+z+1;ore u = [z, 1];mul u u as v;sub v u;show v;show u => q = 2;n = 2;u = z + t;z+1 + t + t^2;1 + t^2;z+1 + t + t^2;z + t
base 5;over 1 z;ore u = -2*t+3;ore v = -(1-2)*t^2-1;sub u v => q = 5;n = 1;u = 3 + 3*t;v = 4 + t^2;4 + 3*t + 4*t^2";

/// Modules, names and homomorphisms. The second of each pair of `check` differs from the first in one
/// place. A name may be the first word of a statement, and begins with a letter that means something.
const MODULES: &str =
    "base 2;over 2 z^2+z+1;module phi = [z, 1];ore u = -t;check phi phi u;show phi => q = 2;n = 2;phi = [z, 1];u = t;no;[z, 1]
base 2;over 2 z^2+z+1;check [z, 1] [z, z] [z+1];check [z, 1] [z, z] [1] => q = 2;n = 2;yes;no
base 2;over 2 z^2+z+1;check [z, 1] [z, z] z+1;check [z, z] [z, 1] z+1;check [z, z] [z, 1] z => q = 2;n = 2;yes;no;yes
base 2;over 2 z^2+z+1;check [z, 1] [z, 1] [];check [z, 1] [z, 1] 0 => q = 2;n = 2;yes;yes
base 2;over 2 z^2+z+1;check [z, 1, z] [z, 1, z] [z, 1, z];check [z, 1] [z, 1] t^2;check [z, 1] [z, 1] t => q = 2;n = 2;yes;yes;no
base 2;over 2 z^2+z+1;check [z, 1] [z, 0, 1] t^2;check [z, 1] [z, 0, 1] 0 => q = 2;n = 2;no;yes
base 3;over 1 z;check [1, 1] [1, 2] [1];check [4, 1] [1, 7] [999999999, 1] => q = 3;n = 1;no;yes
base 2;over 1 z;rank [0, 1];rank [1, 0, 0, 0, 0, 0, 0, 0, 1];rank [0, 0, 3] => q = 2;n = 1;1;8;2
base 2;over 2 z^2+z+1;module rank = [z, 1];rank rank;ore as_ = t;ore T2 = z;mul T2 as_ as show;show show => q = 2;n = 2;rank = [z, 1];1;as_ = t;T2 = z;z*t;z*t
base 2;over 2 z^2+z+1;module base = [z^2, z, 1];show base;module a1 = [0, z*(z+1)] => q = 2;n = 2;base = [z+1, z, 1];[z+1, z, 1];a1 = [0, 1]";

#[test]
fn answers_fields(rt: HostRuntime) -> Result<(), Fail> {
    check_rows(&rt, rt.alloc(), FIELDS)
}

#[test]
fn answers_arithmetic(rt: HostRuntime) -> Result<(), Fail> {
    check_rows(&rt, rt.alloc(), ARITHMETIC)
}

#[test]
fn answers_modules(rt: HostRuntime) -> Result<(), Fail> {
    check_rows(&rt, rt.alloc(), MODULES)
}

/// Blanks, tabs, comments that hold any byte, carriage returns, leading zeros, and no line feed at the
/// end.
const LOOSE: &[u8] =
    b"\n \t\n# a comment \xff\nbase\t2 # two\r\n\nover 02  z ^ 2 + z + 1\r\n check[z,1][z,z][z+1]\r";

#[test]
fn reads_lines_loosely(rt: HostRuntime) -> Result<(), Fail> {
    check_script(&rt, rt.alloc(), LOOSE, (0, b"q = 2\nn = 2\nyes\n", b""))?;
    check_script(&rt, rt.alloc(), b"", (0, b"", b""))?;
    check_script(&rt, rt.alloc(), b"# only a comment", (0, b"", b""))?;
    check_script(
        &rt,
        rt.alloc(),
        b"base 2\nover 1 z\rrank [1, 1]\n",
        (3, b"", b"line 2: not a statement\n"),
    )
}
