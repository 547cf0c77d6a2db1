//! Laws of divisions, divisors and multiples, as contracts over the definitions alone.
ghost use Rattle.std.specs.Prelude.{◌≡◌, List, true};
ghost use Rattle.ring_core.specs.Coeffs.{is_canonical};
ghost use Rattle.ore_divide.specs.Division.{IsRightDivision, IsLeftDivision};
ghost use Rattle.ore_divide.specs.Divisor.{DividesRight, IsCommonRight};
ghost use Rattle.ore_divide.specs.Multiple.{IsLeastMultiple};

use ring_core::{Field, FrobField};

/// At most one pair of quotient and remainder serves in a division on the right.
pub fn right_division_is_unique<K: FrobField>()
    ensures { (k : K) (a b c d rest other : List K.Elem) → let r = K.ops k in let frob = (K.frob_ops k).frob in is_canonical r b ≡ true
        → IsRightDivision r frob a b c rest → IsRightDivision r frob a b d other → (c ≡ d) × (rest ≡ other) }
{}

/// At most one pair of quotient and remainder serves in a division on the left.
pub fn left_division_is_unique<K: FrobField>()
    ensures { (k : K) (a b c d rest other : List K.Elem) → let r = K.ops k in let frob = (K.frob_ops k).frob in is_canonical r b ≡ true
        → IsLeftDivision r frob a b c rest → IsLeftDivision r frob a b d other → (c ≡ d) × (rest ≡ other) }
{}

/// At most one common right divisor serves, with one pair of cofactors.
pub fn common_divisor_is_unique<K: FrobField>()
    ensures { (k : K) (a b d s w e t v : List K.Elem) → let r = K.ops k in let frob = (K.frob_ops k).frob in is_canonical r a ≡ true → is_canonical r b ≡ true
        → IsCommonRight r frob a b d s w → IsCommonRight r frob a b e t v → (d ≡ e) × (s ≡ t) × (w ≡ v) }
{}

/// At most one least common left multiple serves, with one pair of factors.
pub fn least_multiple_is_unique<K: FrobField>()
    ensures { (k : K) (a b m s w n t v : List K.Elem) → let r = K.ops k in let frob = (K.frob_ops k).frob in is_canonical r a ≡ true → is_canonical r b ≡ true
        → IsLeastMultiple r frob a b m s w → IsLeastMultiple r frob a b n t v → (m ≡ n) × (s ≡ t) × (w ≡ v) }
{}

/// Every common right divisor divides the greatest on the right.
pub fn common_divisors_divide<K: FrobField>()
    ensures { (k : K) (a b d s w e : List K.Elem) → let r = K.ops k in let frob = (K.frob_ops k).frob in
        is_canonical r a ≡ true → is_canonical r b ≡ true → is_canonical r e ≡ true
        → IsCommonRight r frob a b d s w → DividesRight r frob e a → DividesRight r frob e b → DividesRight r frob e d }
{}

/// Every common left multiple is a left multiple of the least.
pub fn common_multiples_divide<K: FrobField>()
    ensures { (k : K) (a b m s w n : List K.Elem) → let r = K.ops k in let frob = (K.frob_ops k).frob in
        is_canonical r a ≡ true → is_canonical r b ≡ true → is_canonical r n ≡ true
        → IsLeastMultiple r frob a b m s w → DividesRight r frob a n → DividesRight r frob b n → DividesRight r frob m n }
{}
