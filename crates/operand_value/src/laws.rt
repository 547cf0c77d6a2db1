//! What holds of the values of sums; each law is the contract of a function.

ghost use Rattle.std.specs.Prelude.{◌≡◌, List, true};
ghost use Rattle.ring_core.specs.Coeffs.{are_elems, is_canonical};
ghost use Rattle.residue_field.specs.Top.{Top, ops_of_top};
ghost use Rattle.script_lang.specs.declared.Sum.{Sum};
ghost use Rattle.operand_value.specs.Operands.{list_values, twisted_sum};

/// What the sums of a statement stand for is of the top field in which they are read.
pub fn values_are_elements()
    ensures list { (t : Top) (list : List Sum) → are_elems (ops_of_top t) (list_values t list) ≡ true }
    ensures twisted { (t : Top) (s : Sum) → is_canonical (ops_of_top t) (twisted_sum t s) ≡ true }
{}
