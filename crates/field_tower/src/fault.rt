use residue_field::{Code, TopElem};

/// Why data are no base field.
#[derive(Clone, Copy)]
pub enum BaseFault {
    /// `p` is no listed prime, `s` is 0, or `p^s` is more than the number of codes.
    TooLarge,
    /// The list hasn't `s + 1` members, or the last isn't 1 modulo `p`.
    BadModulus,
    /// `a` and `b` aren't zero, and their product is.
    ZeroDivisors { a: Code, b: Code },
    /// Memory was refused.
    NoMemory,
}

/// Why data are no top field.
#[derive(Clone, Copy)]
pub enum TowerFault {
    /// The degree is 0 or more than the number of places.
    TooLarge,
    /// The list hasn't as many members as the degree and one more, or the last isn't 1.
    BadModulus,
    /// `a` and `b` aren't zero, and their product is.
    ZeroDivisors { a: TopElem, b: TopElem },
    /// Memory was refused.
    NoMemory,
}
