//! Rings by their plain definition: the numbers below a prime, bits, and residues of polynomials over such
//! a ring. An element is a number below the size of its ring. The coefficients of a residue are the
//! digits of its number, lowest first, in the base that is the size of the ring of constants.
ghost use Rattle.std.specs.Prelude.{◌+◌, ◌≤◌};
ghost use Rattle.tests_fields.specs.declared.plain.TheConstants.{MOST, ROOM};

use tests_support::draws::next_sample;

/// The greatest degree of a modulus.
const MOST: usize = 16;

/// How many places a list of digits has: those of a product of two residues.
pub const ROOM: usize = 32;

/// An element of a ring of fewer than `2^64` elements, and a digit of a residue of any ring.
pub type Number = u64;

/// A list of digits, lowest first, 0 past its end.
pub type Digits = [Number; ROOM];

/// `a` modulo `p`.
pub fn remainder(a: Number, p: Number) -> Number {
    a.checked_rem(p).unwrap_or(a)
}

/// The `n` lowest digits of `a`.
pub fn digits(base: Number, n: usize, a: Number) -> Digits
    requires { n ≤ ROOM }
{
    let mut list = [0; ROOM];
    let mut rest = a;
    for i in 0..n {
        list[i] = remainder(rest, base);
        rest = rest.checked_div(base).unwrap_or(0);
    }
    list
}

/// The number with these digits.
pub fn number(base: Number, list: &Digits) -> Number {
    let mut a: Number = 0;
    for i in (0..ROOM).rev() {
        a = a.wrapping_mul(base).wrapping_add(list[i]);
    }
    a
}

/// A ring whose elements are the numbers below its size, with 0 as its zero and 1 as its one.
pub trait Numbers {
    /// How many elements there are.
    fn size(&self) -> Number;

    /// The sum.
    fn add(&self, a: Number, b: Number) -> Number;

    /// The negative.
    fn neg(&self, a: Number) -> Number;

    /// The product.
    fn mul(&self, a: Number, b: Number) -> Number;
}

/// The numbers modulo a prime.
#[derive(Drop)]
pub struct Modulo(pub Number);

impl Numbers for Modulo {
    fn size(&self) -> Number {
        self.0
    }

    fn add(&self, a: Number, b: Number) -> Number {
        remainder(a.wrapping_add(b), self.0)
    }

    fn neg(&self, a: Number) -> Number {
        remainder(self.0.wrapping_sub(a), self.0)
    }

    fn mul(&self, a: Number, b: Number) -> Number {
        remainder(a.wrapping_mul(b), self.0)
    }
}

/// The residues of polynomials over two elements, modulo a monic polynomial of degree at most 16: the coefficients are the
/// bits of a number.
#[derive(Drop)]
pub struct Bits {
    size: Number,
    modulus: Number,
}

impl Bits {
    /// The residues modulo the polynomial with these coefficients, lowest first, the last of them one.
    pub fn new(modulus: &[u32]) -> Bits {
        let mut size: Number = 1;
        let mut bits: Number = 0;
        for i in 0..modulus.len() {
            if modulus[i] == 1 {
                bits |= size;
            }
            if i + 1 < modulus.len() {
                size = size.wrapping_mul(2);
            }
        }
        Bits {
            size,
            modulus: bits,
        }
    }
}

impl Numbers for Bits {
    fn size(&self) -> Number {
        self.size
    }

    fn add(&self, a: Number, b: Number) -> Number {
        a ^ b
    }

    fn neg(&self, a: Number) -> Number {
        a
    }

    /// The sum of the products of `a` with the powers of the letter that `b` has.
    fn mul(&self, a: Number, b: Number) -> Number {
        let mut product = 0;
        let mut multiple = a;
        let mut rest = b;
        for _ in 0..MOST {
            if rest & 1 == 1 {
                product ^= multiple;
            }
            rest >>= 1;
            multiple <<= 1;
            if multiple >= self.size {
                multiple ^= self.modulus;
            }
        }
        product
    }
}

/// The residues of polynomials over the ring of constants, modulo a monic polynomial.
#[derive(Drop)]
pub struct Residues<'k, N: Numbers> {
    constants: &'k N,
    degree: usize,
    modulus: Digits,
    ghost small: { degree ≤ MOST },
}

impl<'k, N: Numbers> Residues<'k, N> {
    /// The residues modulo the polynomial with these coefficients, lowest first, the last of them one.
    pub fn new(constants: &'k N, modulus: &[u32]) -> Residues<'k, N> {
        let degree = modulus.len().saturating_sub(1).min(MOST);
        let mut list = [0; ROOM];
        for i in 0..degree + 1 {
            list[i] = modulus.get(i).copied().unwrap_or(0) as Number;
        }
        Residues {
            constants,
            degree,
            modulus: list,
        }
    }

    /// The digits of the residue with this number.
    pub fn digits(&self, a: Number) -> Digits {
        digits(self.constants.size(), self.degree, a)
    }

    /// The number of the residue with these digits, where the ring has fewer than `2^64` elements.
    pub fn number(&self, list: &Digits) -> Number {
        number(self.constants.size(), list)
    }

    /// Adds `c` times the first `n` members of `row` to `sum`, from `place` on.
    fn add_scaled(&self, sum: &mut Digits, place: usize, c: Number, row: &Digits, n: usize)
        requires { place + n ≤ ROOM }
    {
        for j in 0..n {
            let term = self.constants.mul(c, row[j]);
            sum[place + j] = self.constants.add(sum[place + j], term);
        }
    }

    /// What long division by the modulus leaves.
    fn rest(&self, list: Digits) -> Digits {
        let mut rest = list;
        let n = self.degree;
        for i in (0..n).rev() {
            let factor = self.constants.neg(rest[i + n]);
            self.add_scaled(&mut rest, i, factor, &self.modulus, n + 1);
        }
        rest
    }

    /// The sum of residues.
    pub fn sum(&self, a: &Digits, b: &Digits) -> Digits {
        let mut sum = *a;
        self.add_scaled(&mut sum, 0, 1, b, self.degree);
        sum
    }

    /// The negative of a residue.
    pub fn negative(&self, a: &Digits) -> Digits {
        let mut list = *a;
        for i in 0..self.degree {
            list[i] = self.constants.neg(list[i]);
        }
        list
    }

    /// The product of residues: the schoolbook product of polynomials, and what long division of it leaves.
    pub fn product(&self, a: &Digits, b: &Digits) -> Digits {
        let mut sum = [0; ROOM];
        for i in 0..self.degree {
            self.add_scaled(&mut sum, i, a[i], b, self.degree);
        }
        self.rest(sum)
    }

    /// The power of `a` by `k`: the product of the squares of squares of `a` that the bits of `k` name.
    fn power(&self, a: &Digits, k: u32) -> Digits {
        let mut power = self.digits(1);
        let mut square = *a;
        let mut rest = k;
        for _ in 0..u32::BITS {
            if rest & 1 == 1 {
                power = self.product(&power, &square);
            }
            rest >>= 1;
            if rest == 0 {
                break;
            }
            square = self.product(&square, &square);
        }
        power
    }

    /// The power of `a` by `p^s`: the power by `p`, `s` times over.
    pub fn next_power(&self, (p, s): (u32, u32), a: &Digits) -> Digits {
        let mut next = *a;
        for _ in 0..s {
            next = self.power(&next, p);
        }
        next
    }

    /// The residue whose digits the next numbers of the sequence stand for: their lowest bits, which repeat soon, are
    /// left out.
    pub fn sample(&self, state: &mut u32) -> Digits {
        let mut list = [0; ROOM];
        for i in 0..self.degree {
            *state = next_sample(*state);
            list[i] = remainder((*state >> 16) as Number, self.constants.size());
        }
        list
    }

    /// The number of such a residue.
    pub fn sampled(&self, state: &mut u32) -> Number {
        self.number(&self.sample(state))
    }
}

impl<'k, N: Numbers> Numbers for Residues<'k, N> {
    fn size(&self) -> Number {
        let mut size: Number = 1;
        for _ in 0..self.degree {
            size = size.wrapping_mul(self.constants.size());
        }
        size
    }

    fn add(&self, a: Number, b: Number) -> Number {
        self.number(&self.sum(&self.digits(a), &self.digits(b)))
    }

    fn neg(&self, a: Number) -> Number {
        self.number(&self.negative(&self.digits(a)))
    }

    fn mul(&self, a: Number, b: Number) -> Number {
        self.number(&self.product(&self.digits(a), &self.digits(b)))
    }
}

/// Whether neither of `a` and `b` is zero, and their product is.
pub fn is_pair<N: Numbers>(ring: &N, a: Number, b: Number) -> bool {
    let are_nonzero = a != 0 && b != 0 && a < ring.size() && b < ring.size();
    are_nonzero && ring.mul(a, b) == 0
}

/// Whether `a` has a partner with which it is a pair.
fn has_partner<N: Numbers>(ring: &N, a: Number) -> bool {
    for b in 1..ring.size() {
        if is_pair(ring, a, b) {
            return true;
        }
    }
    false
}

/// Whether there are nonzero elements that multiply to zero: all pairs are tried.
pub fn has_pair<N: Numbers>(ring: &N) -> bool {
    for a in 1..ring.size() {
        if has_partner(ring, a) {
            return true;
        }
    }
    false
}
