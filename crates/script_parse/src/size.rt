/// What passes its limit, in the order of [`Limits`](crate::Limits).
#[derive(Clone, Copy, Debug, PartialEq, Eq)]
pub enum SizeKind {
    /// The bytes of a script.
    Script,
    /// The statements of a script.
    Statements,
    /// The statements of a script that give a name.
    Names,
    /// The bytes of a name.
    Name,
    /// A typed number.
    Number,
    /// A typed exponent of `a` or `z`.
    Exponent,
    /// The prime of a base, which is none of those listed.
    Prime,
    /// The elements of a base.
    Base,
    /// The degree of a top.
    Top,
    /// The items of a list as a Drinfeld module: one more than its rank.
    Rank,
    /// An exponent of `t`, or the degree of a product, or of another list: its items less one.
    Degree,
    /// A typed exponent of `T`.
    Image,
    /// The bound of a list of homomorphisms.
    Bound,
}
