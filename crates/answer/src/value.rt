use drinfeld_mod::Module;
use field_tower::{Code, TopElem};
use fq_poly::Poly;
use ore_divide::{Common, Multiple};
use ore_poly::Ore;
use script_lang::Name;
use sqlite_items::Items;

/// What a name stands for: a Drinfeld module, or a twisted polynomial.
#[derive(Drop)]
pub enum Value {
    Module(Module<TopElem>),
    Ore(Ore<TopElem>),
}

/// The answer of a statement.
#[derive(Drop)]
pub enum Answer {
    /// The number of elements of a new base.
    Q(u32),
    /// The degree of a new top field.
    N(u32),
    /// The new name, and what it stands for.
    Named(Name, Value),
    /// What a name stands for.
    Shown(Value),
    /// A number.
    Number(u32),
    /// Yes or no.
    Truth(bool),
    /// A polynomial in `T` over the base, lowest coefficient first.
    BasePoly(Poly<Code>),
    /// An element of the top field.
    Element(TopElem),
    /// A twisted polynomial.
    Twisted(Ore<TopElem>),
    /// Quotient and remainder of a division of twisted polynomials.
    Division {
        quotient: Ore<TopElem>,
        remainder: Ore<TopElem>,
    },
    /// The greatest common right divisor of two twisted polynomials, with its cofactors.
    Common(Common<TopElem>),
    /// The least common left multiple of two twisted polynomials, with its factors.
    Multiple(Multiple<TopElem>),
    /// The quotient of a Drinfeld module by a twisted polynomial.
    Quotient(Module<TopElem>),
    /// There is no quotient by zero.
    NoneZero,
    /// There is no quotient, for division leaves this remainder.
    NoneRemainder(Ore<TopElem>),
    /// There is no quotient, for the other factor has this constant.
    NoneConstant(TopElem),
    /// A constant that is an isomorphism of two modules, None where there is none.
    Iso(Option<TopElem>),
    /// An isogeny of two modules, None where there is none.
    Isogenous(Option<Ore<TopElem>>),
    /// The members of a list of homomorphisms, in the order of their leads.
    Members(Items<Ore<TopElem>>),
    /// How many members a full list has, and the greatest of their degrees, None where it has none.
    Count {
        members: u32,
        degree: Option<usize>,
    },
    /// Motive coordinates: polynomials in `T` over the top field, one for each power of `t` below the rank.
    Motive(Items<Poly<TopElem>>),
    /// A relation of Frobenius: polynomials in `T` over the base, the coefficients in `X`, lowest first.
    Relation(Items<Poly<Code>>),
    /// The degree `m` of the least relation of Frobenius doesn't divide the rank `r`.
    NoPower {
        m: usize,
        r: usize,
    },
}
