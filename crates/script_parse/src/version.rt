/// The limits of a version of the language; each but the first is of a line. What passes one of them is named
/// by [`SizeKind`](crate::SizeKind).
#[derive(Clone, Copy)]
pub struct Limits {
    /// The most bytes of a script.
    pub script: usize,
    /// The most statements of a script.
    pub statements: u32,
    /// The most statements of a script that give a name.
    pub names: u32,
    /// The most bytes of a name.
    pub name: usize,
    /// The greatest typed number.
    pub number: u32,
    /// The greatest typed exponent of `a` or `z`.
    pub exponent: usize,
    /// The primes that a base may have.
    pub primes: &'static [u32],
    /// The most elements of a base.
    pub base: u32,
    /// The greatest degree of a top.
    pub top: usize,
    /// The greatest rank of a typed Drinfeld module, whose list has one item more.
    pub rank: usize,
    /// The greatest degree of a typed twisted polynomial, or of a product.
    pub degree: usize,
    /// The greatest typed exponent of `T`.
    pub image: usize,
    /// The greatest bound of a list of homomorphisms.
    pub bound: usize,
}

impl Limits {
    ghost use Rattle.std.specs.Prelude.{◌≡◌};
    ghost use Rattle.script_parse.specs.Version.{limits_of, version_1};

    /// The limits of version 1.
    pub fn version_1() -> Limits
        ensures { limits_of result ≡ version_1 }
    {
        Limits {
            script: 65_536,
            statements: 1000,
            names: 256,
            name: 32,
            number: 999_999_999,
            exponent: 128,
            primes: &[2, 3, 5, 7, 11, 13, 251],
            base: 256,
            top: 12,
            rank: 8,
            degree: 128,
            image: 16,
            bound: 64,
        }
    }
}
