use super::lexer::Letter;
use sqlite_items::Items;

/// A sum of terms, in the order of the line; there is at least one.
#[cycle(sum)]
#[derive(Drop)]
pub struct Sum {
    pub terms: Items<Term>,
}

/// A product of factors, in the order of the line, and of a power of the letter of its sum.
///
/// `minus` says that a minus stands before it. `power` is the exponent of the letter that ends the
/// term, 1 where none is written; it is 0 where the term doesn't end in the letter of its sum.
#[cycle(sum)]
#[derive(Drop)]
pub struct Term {
    pub minus: bool,
    pub factors: Items<Factor>,
    pub power: u32,
}

/// A number, a power of `a` or of `z`, or a sum in parentheses.
#[cycle(sum)]
#[derive(Drop)]
pub enum Factor {
    Number(u32),
    A(u32),
    Z(u32),
    Group(Sum),
}

/// A name: a letter and what follows of letters, digits and `_`, but none of `a`, `z`, `t`, `T`, `X`
/// and `as`.
#[derive(Drop)]
pub struct Name {
    pub bytes: Items<u8>,
}

/// A Drinfeld module as an operand: the name of one, or the list of its coefficients.
#[derive(Drop)]
pub enum ModArg {
    Name(Name),
    List(Items<Sum>),
}

/// A twisted polynomial as an operand: the name of one, the list of its coefficients from the lowest
/// up, or a sum whose terms end in powers of `t`.
#[derive(Drop)]
pub enum OreArg {
    Name(Name),
    List(Items<Sum>),
    Terms(Sum),
}

/// The kinds of sums. A term may end in the kind's letter, and it ends there; its factors are
/// numbers, powers of the letters that the kind takes, and sums of the inner kind in parentheses.
#[derive(Clone, Copy, Debug, PartialEq, Eq)]
pub enum Kind {
    /// A polynomial in `a` with numbers as coefficients.
    BaseModulus,
    /// A polynomial in `z` whose coefficients are sums in `a`.
    TopModulus,
    /// A polynomial in `T` whose coefficients are sums in `a`.
    Polynomial,
    /// A twisted polynomial in `t` whose coefficients are sums in `a` and `z`.
    Twisted,
    /// A sum in `a`, where no letter ends a term.
    BaseElement,
    /// A sum in `a` and `z`, where no letter ends a term.
    TopElement,
}

impl Kind {
    ghost use Rattle.std.specs.Prelude.{◌≡◌};
    ghost use Rattle.script_lang.specs.Kinds.{ending, inner, takes_a, takes_z};

    /// The letter that ends a term.
    pub fn ending(self) -> Option<Letter>
        ensures { result ≡ ending self }
    {
        match self {
            Kind::BaseModulus => Some(Letter::A),
            Kind::TopModulus => Some(Letter::Z),
            Kind::Polynomial => Some(Letter::CapitalT),
            Kind::Twisted => Some(Letter::SmallT),
            Kind::BaseElement => None,
            Kind::TopElement => None,
        }
    }

    /// Whether powers of `a` are factors.
    pub fn takes_a(self) -> bool
        ensures { result ≡ takes_a self }
    {
        match self {
            Kind::BaseModulus => false,
            _ => true,
        }
    }

    /// Whether powers of `z` are factors.
    pub fn takes_z(self) -> bool
        ensures { result ≡ takes_z self }
    {
        match self {
            Kind::Twisted => true,
            Kind::TopElement => true,
            _ => false,
        }
    }

    /// The kind of the sums in parentheses.
    pub fn inner(self) -> Option<Kind>
        ensures { result ≡ inner self }
    {
        match self {
            Kind::BaseModulus => None,
            Kind::TopModulus => Some(Kind::BaseElement),
            Kind::Polynomial => Some(Kind::BaseElement),
            Kind::Twisted => Some(Kind::TopElement),
            Kind::BaseElement => Some(Kind::BaseElement),
            Kind::TopElement => Some(Kind::TopElement),
        }
    }
}
