//! What holds of the definitions of lines and scripts; each law is the contract of a function.

ghost use Rattle.std.specs.Prelude.{◌≡◌, ℕ, List};
ghost use Rattle.std.specs.List.{All};
ghost use Rattle.script_parse.specs.Version.{Limits, version_1};
ghost use Rattle.script_parse.specs.Within.{IsWithin};
ghost use Rattle.script_statement.specs.declared.Form.{Form};
ghost use Rattle.script_parse.specs.declared.script.Statement.{Statement};
ghost use Rattle.script_parse.specs.declared.script.Refused.{Refused};
ghost use Rattle.script_parse.specs.Exact.{StandsFor};
ghost use Rattle.script_parse.specs.Scripts.{IsScript, IsScriptOf, FirstFault, IsPlaceOf};

/// A line stands for at most one form.
pub fn one_form_of_line()
    ensures { (line : List ℕ) (f g : Form) → StandsFor line f → StandsFor line g → f ≡ g }
{}

/// Lines are at most one script.
pub fn one_script()
    ensures { (x : Limits) (n at s g : ℕ) (ls : List (List ℕ)) (xs ys : List Statement) → IsScript x n at s g ls xs → IsScript x n at s g ls ys → xs ≡ ys }
{}

/// Lines have at most one first fault.
pub fn one_fault()
    ensures { (x : Limits) (n s g : ℕ) (ls : List (List ℕ)) (p q : Refused) → FirstFault x n s g ls p → FirstFault x n s g ls q → p ≡ q }
{}

/// Lines with a fault are no script.
pub fn script_or_fault()
    ensures { (x : Limits) (n at s g : ℕ) (ls : List (List ℕ)) (xs : List Statement) (r : Refused) → IsScript x n at s g ls xs → FirstFault x n s g ls r → ⊥ }
{}

/// Each form of a script is within the limits.
pub fn forms_are_within()
    ensures { (bytes : List ℕ) (list : List Statement) → IsScriptOf bytes list → All (λ s. IsWithin version_1 s.form) list }
{}

/// The bytes of each statement, from its place `start` on, are those of the line with its number, without its
/// carriage return.
pub fn places_of_lines()
    ensures { (bytes : List ℕ) (list : List Statement) → IsScriptOf bytes list → All (λ s. IsPlaceOf bytes s) list }
{}
