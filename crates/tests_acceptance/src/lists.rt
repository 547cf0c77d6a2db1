//! Scripts on lists of homomorphisms, on isogenies, motive coordinates and Frobenius, with the outputs that the
//! definitions give, worked out by hand. In the tables a semicolon ends a line.

use super::runs::check_rows;
use std::test::Fail;

/// Bounded and full lists, isomorphisms and isogenies over `F_4`.
const LISTS: &str =
    "base 2;over 2 z^2+z+1;full [z, 1] [z, 1];fullsize [z, 1] [z, 1] => q = 2;n = 2;members 2;1;z + t;members 2, degree 1
base 2;over 2 z^2+z+1;bounded [z, 1] [z, 1] 2 => q = 2;n = 2;members 3;1;z + t;t^2
base 2;over 2 z^2+z+1;bounded [z, 1] [z, z] 0 => q = 2;n = 2;members 1;z+1
base 2;over 2 z^2+z+1;bounded [z, 1] [z, 0, 1] 5 => q = 2;n = 2;members 0
base 2;over 2 z^2+z+1;full [1, 0, 1] [1, 0, 1] => q = 2;n = 2;members 4;1;z;t;z*t
base 2;over 2 z^2+z+1;full [z, 1] [z, 0, 1];fullsize [z, 1] [z, 0, 1] => q = 2;n = 2;members 0;members 0
base 2;over 2 z^2+z+1;iso [z, 1] [z, z];check [z, 1] [z, z] [z+1];check [z, 1] [z, z] 1 => q = 2;n = 2;isomorphic by z+1;yes;no
base 2;over 2 z^2+z+1;iso [z, 1] [z, 0, 1];isogenous [z, 1] [z, 0, 1] => q = 2;n = 2;not isomorphic;not isogenous
base 2;over 2 z^2+z+1;isogenous [z, 1] [z, z] => q = 2;n = 2;isogenous by z+1
base 2;over 2 z^2+z+1;module phi = [z, 1];quotient phi z as psi;full phi psi;isogenous psi phi;check psi phi z => q = 2;n = 2;phi = [z, 1];quotient [z, z+1];members 2;z;1 + z*t;isogenous by z+1;no";

/// A list of 65 members.
const LONG: &str =
    "base 2;over 2 z^2+z+1;bounded [z, 1] [z, 1] 64 => q = 2;n = 2;members 65;1;z + t;t^2;z*t^2 + t^3;t^4;z*t^4 + t^5;t^6;z*t^6 + t^7;t^8;z*t^8 + t^9;t^10;z*t^10 + t^11;t^12;z*t^12 + t^13;t^14;z*t^14 + t^15;t^16;z*t^16 + t^17;t^18;z*t^18 + t^19;t^20;z*t^20 + t^21;t^22;z*t^22 + t^23;t^24;z*t^24 + t^25;t^26;z*t^26 + t^27;t^28;z*t^28 + t^29;t^30;z*t^30 + t^31;t^32;z*t^32 + t^33;t^34;z*t^34 + t^35;t^36;z*t^36 + t^37;t^38;z*t^38 + t^39;t^40;z*t^40 + t^41;t^42;z*t^42 + t^43;t^44;z*t^44 + t^45;t^46;z*t^46 + t^47;t^48;z*t^48 + t^49;t^50;z*t^50 + t^51;t^52;z*t^52 + t^53;t^54;z*t^54 + t^55;t^56;z*t^56 + t^57;t^58;z*t^58 + t^59;t^60;z*t^60 + t^61;t^62;z*t^62 + t^63;t^64";

/// Motive coordinates and relations of Frobenius: over `F_4`, where the degree of the relation is and isn't the rank;
/// over prime fields; over a base that is no prime field.
const FROBENIUS: &str =
    "base 2;over 2 z^2+z+1;frob [z, 1];frobpower [z, 1] => q = 2;n = 2;X + T^2+T+1;X + T^2+T+1
base 2;over 2 z^2+z+1;rank [1, 0, 1];frob [1, 0, 1];frobpower [1, 0, 1] => q = 2;n = 2;2;X + T+1;X^2 + T^2+1
base 2;over 2 z^2+z+1;motive [z, 1] t^2;motive [1, 0, 1] z*t^3 => q = 2;n = 2;[T^2+T+1];[0, z*T+z]
base 2;over 2 z^2+z+1;motive [1, 0, 1] 0;motive [z, 1] z => q = 2;n = 2;[0, 0];[z]
base 2;over 1 z;height [1, 0, 1];ordinary [1, 0, 1];supersingular [1, 0, 1];frob [1, 0, 1];char [0, 1];frob [0, 1];frobpower [1, 0, 1] => q = 2;n = 1;2;no;yes;X^2 + T+1;T;X + T;X^2 + T+1
base 3;over 1 z;isogenous [1, 1] [1, 2];full [1, 1] [1, 2];fullsize [1, 1] [1, 2];iso [1, 1] [1, 2];frob [1, 1] => q = 3;n = 1;not isogenous;members 0;members 0;not isomorphic;X + 2*T+1
base 3;over 2 z^2+1;char [z, 1];frob [z, 1];mul t z;sub t z => q = 3;n = 2;T^2+1;X + 2*T^2+2;2*z*t;2*z + t
base 2 2 a^2+a+1;over 2 z^2+z+a;char [z, 1];frob [z, 1];full [z, 1] [z, 1];mul t (a+1)*z => q = 4;n = 2;T^2+T+a;X + T^2+T+a;members 2;1;z + t;((a+1)*z+a+1)*t
base 2;over 3 z^3+z+1;frob [z, 1] => q = 2;n = 3;X + T^3+T+1";

/// A module, a quotient by an isogeny, and all homomorphisms both ways.
const REALISTIC: &str =
    "base 2;over 8 z^8+z^4+z^3+z+1;# a module, a quotient by an isogeny, and all homomorphisms both ways;module phi = [1, 1, 1];char phi;height phi;j phi 1;quotient phi z+z*t as psi;j psi 1;frob phi;frob psi;iso phi psi;isogenous phi psi;full phi psi;full psi phi => q = 2;n = 8;phi = [1, 1, 1];T+1;1;1;quotient [1, z^7+z^3+z^2+1, z^7+z^6+z^5+z^3];1;X^2 + X + T^8+1;X^2 + X + T^8+1;isomorphic by z;isogenous by z;members 8;z;z*t;z*t^2;z*t^3;z*t^4;z*t^5;z*t^6;z*t^7;members 8;z^7+z^3+z^2+1;(z^7+z^6+z^3+z+1)*t;(z^6+z^5+z^4+z^2)*t^2;(z^7+z^6+z^3+z^2)*t^3;(z^6+z^5+1)*t^4;(z^7+z^6+z^2+z)*t^5;(z^5+z^2+1)*t^6;(z^6+z^5+z^4+z^3+z^2+1)*t^7";

#[test]
fn answers_lists(rt: HostRuntime) -> Result<(), Fail> {
    check_rows(&rt, rt.alloc(), LISTS)?;
    check_rows(&rt, rt.alloc(), LONG)
}

#[test]
fn answers_frobenius(rt: HostRuntime) -> Result<(), Fail> {
    check_rows(&rt, rt.alloc(), FROBENIUS)
}

#[test]
fn answers_a_realistic_script(rt: HostRuntime) -> Result<(), Fail> {
    check_rows(&rt, rt.alloc(), REALISTIC)
}
