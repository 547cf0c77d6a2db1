//! What holds of the definitions of a run; each law is the contract of a function.

ghost use Rattle.std.specs.Prelude.{◌≡◌, ℕ, List};
ghost use Rattle.script_parse.specs.declared.Statement.{Statement};
ghost use Rattle.session.specs.State.{State};
ghost use Rattle.drinfeld_cli.specs.Runs.{Piece, Runs};

/// The first `k` statements of a script have at most one defined text, and leave at most one state.
pub fn one_text()
    ensures { (piece : Piece) (list : List Statement) (k : ℕ) (x y : List ℕ) (m n : State) → Runs piece list k x m → Runs piece list k y n → (x ≡ y) × (m ≡ n) }
{}
