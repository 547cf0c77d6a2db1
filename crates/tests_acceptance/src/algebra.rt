//! Scripts that divide, that ask for the data of Drinfeld modules, and that take quotients, with the outputs that
//! the definitions give, worked out by hand. In the tables a semicolon ends a line.

use super::runs::check_rows;
use std::test::Fail;

/// Divisions over `F_4`, whose letter has `z^2 = z+1` and `z^3 = 1`, with `t z = z^2 t`: the two sides differ.
/// The zero twisted polynomial in each place.
const DIVISION: &str =
    "base 2;over 2 z^2+z+1;rdiv t^2+z*t+z t+1 => q = 2;n = 2;quotient z+1 + t;remainder 1
base 2;over 2 z^2+z+1;ldiv t^2+z*t+z t+1 => q = 2;n = 2;quotient z + t;remainder 0
base 2;over 2 z^2+z+1;rdiv t z;ldiv t z => q = 2;n = 2;quotient z*t;remainder 0;quotient (z+1)*t;remainder 0
base 2;over 2 z^2+z+1;rdiv 0 t;ldiv 0 t;rdiv z t;ldiv z t => q = 2;n = 2;quotient 0;remainder 0;quotient 0;remainder 0;quotient 0;remainder z;quotient 0;remainder z
base 2;over 2 z^2+z+1;rdiv t 0 => q = 2;n = 2 => 5 line 3: division by zero
base 2;over 2 z^2+z+1;ldiv t [0, 0] => q = 2;n = 2 => 5 line 3: division by zero
base 2;over 2 z^2+z+1;rdiv 0 0 => q = 2;n = 2 => 5 line 3: division by zero
base 2;over 2 z^2+z+1;ore u = 0;ldiv u u => q = 2;n = 2;u = 0 => 5 line 4: division by zero
base 2;over 2 z^2+z+1;common t+1 z+t => q = 2;n = 2;divisor 1;left z;right z
base 2;over 2 z^2+z+1;multiple t+1 z+t => q = 2;n = 2;multiple 1 + t^2;left 1 + t;right z+1 + t
base 2;over 2 z^2+z+1;common 0 0;common z 0;common 0 z => q = 2;n = 2;divisor 0;left 0;right 0;divisor 1;left z+1;right 0;divisor 1;left 0;right z+1
base 2;over 2 z^2+z+1;multiple 0 t;multiple t 0;multiple 0 0 => q = 2;n = 2;multiple 0;left 0;right 0;multiple 0;left 0;right 0;multiple 0;left 0;right 0
base 2;over 2 z^2+z+1;common t t;multiple t t => q = 2;n = 2;divisor t;left 0;right 1;multiple t;left 1;right 1";

/// Characteristics, heights and invariants: over `F_4`, over a prime field where the height isn't 1, over `F_9`,
/// over a base that is no prime field; and images.
const INVARIANTS: &str =
    "base 2;over 2 z^2+z+1;char [z, 1];height [z, 1];ordinary [z, 1];supersingular [z, 1] => q = 2;n = 2;T^2+T+1;1;yes;yes
base 2;over 1 z;height [1, 0, 1];ordinary [1, 0, 1];supersingular [1, 0, 1];char [0, 1] => q = 2;n = 1;2;no;yes;T
base 2;over 1 z;height [0, 1, 1];ordinary [0, 1, 1];supersingular [0, 1, 1] => q = 2;n = 1;1;yes;no
base 3;over 2 z^2+1;char [z, 1];char [2, 1] => q = 3;n = 2;T^2+1;T+1
base 2 2 a^2+a+1;over 2 z^2+z+a;char [z, 1];char [a, 1] => q = 4;n = 2;T^2+T+a;T+a
base 2;over 2 z^2+z+1;j [z, 1, z] 1;j [z, 0, z] 1;j [z, 1, 1, 1] 1 => q = 2;n = 2;z+1;0;1
base 2;over 2 z^2+z+1;j [z, 1, z] 1;j [z, 1] 1 => q = 2;n = 2;z+1 => 5 line 4: no such invariant
base 2;over 2 z^2+z+1;j [z, 1, z] 0 => q = 2;n = 2 => 5 line 3: no such invariant
base 2;over 2 z^2+z+1;j [z, 1, z] 2 => q = 2;n = 2 => 5 line 3: no such invariant
base 2;over 2 z^2+z+1;j [z, 1, z] 999999999 => q = 2;n = 2 => 5 line 3: no such invariant
base 2;over 2 z^2+z+1;image [z, 1] T^2+T as v;mul v t;show v;ore u = [1, z] => q = 2;n = 2;1 + t^2;t + t^3;1 + t^2;u = 1 + z*t
base 2;over 2 z^2+z+1;image [z, 1] 0;image [z, 1] 1;image [z, 1] T;image [z, 1] T^2+T+1 => q = 2;n = 2;0;1;z + t;t^2";

/// Quotients: one that exists, and each cause for which there is none. A name is given with a quotient alone.
const QUOTIENTS: &str = "base 2;over 2 z^2+z+1;quotient [z, 1] z => q = 2;n = 2;quotient [z, z+1]
base 2;over 2 z^2+z+1;quotient [z, 1] t => q = 2;n = 2;no quotient: constant z+1
base 2;over 2 z^2+z+1;quotient [z, 1] t+1 => q = 2;n = 2;no quotient: remainder 1
base 2;over 2 z^2+z+1;quotient [z, 1] 0;rdiv t 0 => q = 2;n = 2;no quotient: zero => 5 line 4: division by zero
base 2;over 2 z^2+z+1;quotient [z, 1] z as psi;show psi;rank psi => q = 2;n = 2;quotient [z, z+1];[z, z+1];1
base 2;over 2 z^2+z+1;quotient [z, 1] t as psi;rank psi => q = 2;n = 2;no quotient: constant z+1 => 5 line 4: unknown name
base 2;over 2 z^2+z+1;quotient [z, 1] t+1 as psi;ore psi = t => q = 2;n = 2;no quotient: remainder 1;psi = t
base 2;over 2 z^2+z+1;quotient [z, 1] 0 as psi;ore psi = t => q = 2;n = 2;no quotient: zero;psi = t
base 2;over 8 z^8+z^4+z^3+z+1;module phi = [1, 1, 1];char phi;height phi;j phi 1;quotient phi z+z*t as psi;j psi 1 => q = 2;n = 8;phi = [1, 1, 1];T+1;1;1;quotient [1, z^7+z^3+z^2+1, z^7+z^6+z^5+z^3];1";

#[test]
fn divides(rt: HostRuntime) -> Result<(), Fail> {
    check_rows(&rt, rt.alloc(), DIVISION)
}

#[test]
fn answers_invariants(rt: HostRuntime) -> Result<(), Fail> {
    check_rows(&rt, rt.alloc(), INVARIANTS)
}

#[test]
fn takes_quotients(rt: HostRuntime) -> Result<(), Fail> {
    check_rows(&rt, rt.alloc(), QUOTIENTS)
}
