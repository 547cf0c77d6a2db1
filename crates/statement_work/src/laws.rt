//! What holds of the work of statements; each law is the contract of a function.

ghost use Rattle.std.specs.Prelude.{◌≡◌, ℕ, List, None, true, false};
ghost use Rattle.residue_field.specs.Top.{Top};
ghost use Rattle.script_statement.specs.declared.Form.{Form};
ghost use Rattle.answer.specs.declared.Answer.{Answer};
ghost use Rattle.answer.specs.declared.Value.{Value};
ghost use Rattle.statement_operands.specs.Asked.{unknown_name};
ghost use Rattle.statement_operands.specs.Demands.{demands};
ghost use Rattle.statement_operands.specs.Resolved.{AreOperands};
ghost use Rattle.statement_work.specs.Refusals.{own_refusal};
ghost use Rattle.statement_work.specs.Works.{Works};

use statement_operands::Need;

/// The values of the operands of a form leave it at most one answer.
pub fn one_answer()
    ensures { (t : Top) (ns : List (List ℕ × Value)) (f : Form) (a b : Answer) → AreOperands t ns (demands f) → Works t ns f a → Works t ns f b → a ≡ b }
{}

/// A form over a top field, whose operands have values and which nothing refuses, has an answer.
pub fn some_answer()
    ensures { (t : Top) (ns : List (List ℕ × Value)) (f : Form) → AreOperands t ns (demands f) → (demands f).field ≡ Need.ATop
        → unknown_name ns (demands f) ≡ false → own_refusal t ns f ≡ None → (a : Answer) × Works t ns f a }
{}
