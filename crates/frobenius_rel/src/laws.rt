//! Laws of the least relation. Each function's contract is the law, and calls no operation.
ghost use Rattle.std.specs.Prelude.{◌≡◌, ℕ, List};
ghost use Rattle.drinfeld_mod.specs.Module.{IsModule};
ghost use Rattle.frobenius_rel.specs.Relation.{IsLeastRelation};
ghost use Rattle.frobenius_rel.specs.RankPower.{IsRankPower, AreDegrees};

use ring_core::FrobField;

/// A module has at most one least relation.
pub fn one_least_relation<K: FrobField>()
    ensures { (k : K) (phi : List K.Elem) (a b : List (List K.Base.Elem)) → let r = K.ops k in let base = K.Base.ops (K.base_of k) in let f = K.frob_ops k in
        IsModule r phi → IsLeastRelation r base f phi a → IsLeastRelation r base f phi b → a ≡ b }
{}

/// A module has a least relation.
pub fn some_least_relation<K: FrobField>()
    ensures { (k : K) (phi : List K.Elem) → let r = K.ops k in let base = K.Base.ops (K.base_of k) in let f = K.frob_ops k in
        IsModule r phi → (a : List (List K.Base.Elem)) × IsLeastRelation r base f phi a }
{}

/// There is at most one power of the least relation with the degree of the rank, and none where the degree of the
/// least relation doesn't divide the rank.
pub fn one_rank_power<K: FrobField>()
    ensures only { (k : K) (phi : List K.Elem) (a b : List (List K.Base.Elem)) → let r = K.ops k in let base = K.Base.ops (K.base_of k) in let f = K.frob_ops k in
        IsModule r phi → IsRankPower r base f phi a → IsRankPower r base f phi b → a ≡ b }
    ensures none { (k : K) (phi : List K.Elem) (a : List (List K.Base.Elem)) (m d : ℕ) → let r = K.ops k in let base = K.Base.ops (K.base_of k) in let f = K.frob_ops k in
        IsModule r phi → IsRankPower r base f phi a → AreDegrees r base f phi m d → ⊥ }
{}
