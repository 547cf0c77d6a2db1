//! All twisted polynomials of degree at most 1 over `F_4`, compared with a plain count.
//!
//! The element `c_0 + c_1 z` has the number `c_0 + 2 c_1`, so 2 is `z` and 3 is `z+1`. The sum is the
//! exclusive or. The nonzero elements are the powers of `z`: `z^0 = 1`, `z^1 = 2`, `z^2 = 3`.

use super::runs::check_script;
use ring_core::NoMemory;
use std::alloc::Global;
use std::process::Abort;
use std::test::Fail;

/// The products of the elements, by number.
const PRODUCTS: [[u8; 4]; 4] = [[0, 0, 0, 0], [0, 1, 2, 3], [0, 2, 3, 1], [0, 3, 1, 2]];

fn product(a: u8, b: u8) -> u8 {
    PRODUCTS[usize::from(a % 4)][usize::from(b % 4)]
}

/// An element as a sum of a script.
fn name_of(a: u8) -> &'static [u8] {
    match a {
        0 => b"0",
        1 => b"1",
        2 => b"z",
        _ => b"z+1",
    }
}

/// Whether `u_0 + u_1 tau` is a homomorphism from `[z, g]` to `[z, h]`: the coefficients of
/// `(u_0 + u_1 tau) (z + g tau)` and of `(z + h tau) (u_0 + u_1 tau)`, written out.
fn is_homomorphism(g: u8, h: u8, low: u8, high: u8) -> bool {
    let z = 2;
    let square_of_z = product(z, z);
    let left = product(low, g) ^ product(high, square_of_z);
    let right = product(z, high) ^ product(h, product(low, low));
    left == right && product(high, product(g, g)) == product(h, product(high, high))
}

/// The script that tests `u_0 + u_1 tau` for the modules `[z, 1]` and `[z, h]`.
fn script_of(alloc: Global, h: u8, low: u8, high: u8) -> Result<Vec<u8>, NoMemory> {
    let mut script = b"base 2\nover 2 z^2+z+1\ncheck [z, 1] [z, ".to_vec(alloc)?;
    script.extend_from_slice(name_of(h))?;
    script.extend_from_slice(b"] [")?;
    script.extend_from_slice(name_of(low))?;
    script.extend_from_slice(b", ")?;
    script.extend_from_slice(name_of(high))?;
    script.extend_from_slice(b"]\n")?;
    Ok(script)
}

/// Compares the answer for one twisted polynomial.
fn check_one(rt: &impl Abort, alloc: Global, h: u8, low: u8, high: u8) -> Result<(), Fail> {
    let script = script_of(alloc, h, low, high)?;
    let text: &[u8] = if is_homomorphism(1, h, low, high) {
        b"q = 2\nn = 2\nyes\n"
    } else {
        b"q = 2\nn = 2\nno\n"
    };
    check_script(rt, alloc, &script, (0, text, b""))
}

#[test]
fn agrees_with_a_plain_count(rt: HostRuntime) -> Result<(), Fail> {
    for h in 1..3 {
        for low in 0..4 {
            for high in 0..4 {
                check_one(&rt, rt.alloc(), h, low, high)?;
            }
        }
    }
    Ok(())
}
