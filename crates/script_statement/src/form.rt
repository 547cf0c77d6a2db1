use script_lang::{ModArg, Name, OreArg, Sum};
use sqlite_items::Items;

/// What a statement asks. `phi` and `psi` are Drinfeld modules, `u` and `v` twisted polynomials, and
/// `name` is the name that the result gets.
#[derive(Drop)]
pub enum Form {
    /// The base field with `p^s` elements; `s` is 1 and `modulus` None where only a prime is typed.
    Base {
        p: u32,
        s: u32,
        modulus: Option<Sum>,
    },
    /// The top field of degree `n` over the base, modulo a polynomial in `z`.
    Over {
        n: u32,
        modulus: Sum,
    },
    /// A new name for the Drinfeld module with these coefficients, lowest first.
    Module {
        name: Name,
        list: Items<Sum>,
    },
    /// A new name for a twisted polynomial.
    Ore {
        name: Name,
        value: OreArg,
    },
    /// What the name stands for.
    Show {
        name: Name,
    },
    /// The rank of `phi`.
    Rank {
        phi: ModArg,
    },
    /// The characteristic of `phi`, a polynomial over the base.
    Char {
        phi: ModArg,
    },
    /// The height of `phi`.
    Height {
        phi: ModArg,
    },
    /// Whether the height of `phi` is 1.
    Ordinary {
        phi: ModArg,
    },
    /// Whether the height of `phi` is its rank.
    Supersingular {
        phi: ModArg,
    },
    /// The invariant of `phi` with the number `k`.
    J {
        phi: ModArg,
        k: u32,
    },
    /// The image under `phi` of `a`, a polynomial in `T`.
    Image {
        phi: ModArg,
        a: Sum,
        name: Option<Name>,
    },
    /// The sum `u + v`.
    Add {
        u: OreArg,
        v: OreArg,
        name: Option<Name>,
    },
    /// The difference `u - v`.
    Sub {
        u: OreArg,
        v: OreArg,
        name: Option<Name>,
    },
    /// The product `u v`.
    Mul {
        u: OreArg,
        v: OreArg,
        name: Option<Name>,
    },
    /// The right division of `u` by `v`: `u = c v + r`.
    Rdiv {
        u: OreArg,
        v: OreArg,
    },
    /// The left division of `u` by `v`: `u = v c + r`.
    Ldiv {
        u: OreArg,
        v: OreArg,
    },
    /// The greatest common right divisor of `u` and `v`, with its cofactors.
    Common {
        u: OreArg,
        v: OreArg,
    },
    /// The least common left multiple of `u` and `v`, with its cofactors.
    Multiple {
        u: OreArg,
        v: OreArg,
    },
    /// Whether `u` is a homomorphism from `phi` to `psi`.
    Check {
        phi: ModArg,
        psi: ModArg,
        u: OreArg,
    },
    /// The quotient of `phi` by `u`: the module to which `u` is an isogeny from `phi`.
    Quotient {
        phi: ModArg,
        u: OreArg,
        name: Option<Name>,
    },
    /// An isomorphism from `phi` to `psi`.
    Iso {
        phi: ModArg,
        psi: ModArg,
    },
    /// An isogeny from `phi` to `psi`.
    Isogenous {
        phi: ModArg,
        psi: ModArg,
    },
    /// The list of homomorphisms from `phi` to `psi` of degree at most `d`.
    Bounded {
        phi: ModArg,
        psi: ModArg,
        d: u32,
    },
    /// The full list of homomorphisms from `phi` to `psi`.
    Full {
        phi: ModArg,
        psi: ModArg,
    },
    /// How many members the full list has, and the greatest of their degrees.
    Fullsize {
        phi: ModArg,
        psi: ModArg,
    },
    /// The motive coordinates of `u` over `phi`.
    Motive {
        phi: ModArg,
        u: OreArg,
    },
    /// The least relation of Frobenius on `phi`.
    Frob {
        phi: ModArg,
    },
    /// The power of Frobenius' least relation whose degree is the rank of `phi`.
    Frobpower {
        phi: ModArg,
    },
}
