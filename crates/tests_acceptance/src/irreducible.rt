//! The modulus `z^6+z+2` of a script is irreducible over `F_3`: by plain division, no monic polynomial
//! of degree 1 to 3 divides it.
ghost use Rattle.std.specs.Prelude.{◌≤◌};

/// What division of `z^6+z+2` by `z^degree + ..` leaves, coefficients modulo 3, lowest first.
fn rest_of_division(divisor: [u8; 4], degree: usize) -> [u8; 7]
    requires { degree ≤ 3 }
{
    let mut rest = [2u8, 1, 0, 0, 0, 0, 1];
    for i in (degree..7).rev() {
        let factor = rest[i];
        for j in 0..degree + 1 {
            // minus one is 2 modulo 3
            let taken = factor.wrapping_mul(divisor[j]).wrapping_mul(2);
            let place = i - degree + j;
            rest[place] = rest[place].wrapping_add(taken) % 3;
        }
    }
    rest
}

/// The polynomial of this degree with leading coefficient 1 whose lower coefficients are the digits of
/// the number in base 3.
fn divisor_of(number: u8, degree: usize) -> [u8; 4]
    requires { degree ≤ 3 }
{
    let mut divisor = [number % 3, number / 3 % 3, number / 9 % 3, 1];
    divisor[degree] = 1;
    divisor
}

#[test]
fn no_divisor_of_degree_at_most_three(rt: HostRuntime) {
    for degree in 1..4 {
        for number in 0..27 {
            let rest = rest_of_division(divisor_of(number, degree), degree);
            assert!(rt;
                rest[0] != 0 || rest[1] != 0 || rest[2] != 0,
                "{degree} {number}"
            );
        }
    }
}
