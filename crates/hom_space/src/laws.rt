//! Laws of the lists. Each function's contract is the law, and calls no operation.
ghost use Rattle.std.specs.Prelude.{◌≡◌, ℕ, List};
ghost use Rattle.drinfeld_mod.specs.Module.{IsModule};
ghost use Rattle.hom_space.specs.Bounded.{IsBoundedList};
ghost use Rattle.hom_space.specs.Full.{IsFullList};

use ring_core::FrobField;

/// Two modules have one bounded list for each degree.
pub fn one_bounded_list<K: FrobField>()
    ensures { (k : K) (phi psi : List K.Elem) (d : ℕ) (a b : List (List K.Elem)) → let r = K.ops k in let base = K.Base.ops (K.base_of k) in let f = K.frob_ops k in
        IsModule r phi → IsModule r psi → IsBoundedList r base f phi psi d a → IsBoundedList r base f phi psi d b → a ≡ b }
{}

/// Two modules have a bounded list for each degree.
pub fn some_bounded_list<K: FrobField>()
    ensures { (k : K) (phi psi : List K.Elem) (d : ℕ) → let r = K.ops k in IsModule r phi → IsModule r psi
        → (list : List (List K.Elem)) × IsBoundedList r (K.Base.ops (K.base_of k)) (K.frob_ops k) phi psi d list }
{}

/// Two modules have one full list.
pub fn one_full_list<K: FrobField>()
    ensures { (k : K) (phi psi : List K.Elem) (a b : List (List K.Elem)) → let r = K.ops k in let base = K.Base.ops (K.base_of k) in let f = K.frob_ops k in
        IsModule r phi → IsModule r psi → IsFullList r base f phi psi a → IsFullList r base f phi psi b → a ≡ b }
{}

/// Two modules have a full list.
pub fn some_full_list<K: FrobField>()
    ensures { (k : K) (phi psi : List K.Elem) → let r = K.ops k in IsModule r phi → IsModule r psi
        → (list : List (List K.Elem)) × IsFullList r (K.Base.ops (K.base_of k)) (K.frob_ops k) phi psi list }
{}
