//! What holds of the definitions of statements; each law is the contract of a function.

ghost use Rattle.std.specs.Prelude.{◌≡◌, List};
ghost use Rattle.script_lang.specs.declared.Token.{Token};
ghost use Rattle.script_statement.specs.declared.form.Form.{Form};
ghost use Rattle.script_statement.specs.Statements.{IsStatement};

/// The tokens of a line stand for at most one form.
pub fn one_form()
    ensures { (tokens : List Token) (f g : Form) → IsStatement tokens f → IsStatement tokens g → f ≡ g }
{}
