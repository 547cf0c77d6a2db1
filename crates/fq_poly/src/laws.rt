//! Laws of polynomials over a field. Each function's contract is the law, and calls no operation.
ghost use Rattle.fq_poly.specs.Laws.{DegreesAdd, DivisionIsUnique, MonicIsUnique};

use ring_core::Field;

/// The degrees of two polynomials that aren't zero add in their product.
pub fn degrees_add<F: Field>()
    ensures { (k : F) → DegreesAdd (F.ops k) }
{}

/// Quotient and remainder are the only pair with `a = c b + rest` and `rest` zero or of lower degree
/// than `b`.
pub fn division_is_unique<F: Field>()
    ensures { (k : F) → DivisionIsUnique (F.ops k) }
{}

/// A polynomial has at most one multiple by a constant whose top coefficient is one.
pub fn monic_is_unique<F: Field>()
    ensures { (k : F) → MonicIsUnique (F.ops k) }
{}
