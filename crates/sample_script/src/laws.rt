//! What holds of the sample; each law is the contract of a function.

ghost use Rattle.std.specs.Prelude.{◌≡◌, ◌<◌, ℕ, List, length};
ghost use Rattle.script_parse.specs.declared.Statement.{Statement};
ghost use Rattle.script_parse.specs.Scripts.{IsScriptOf};
ghost use Rattle.sample_script.specs.Sample.{sample_text};

/// The sample has fewer than 2,000 bytes.
pub fn sample_is_short()
    ensures { (n : ℕ) → length (sample_text n) < 2000 }
{}

/// The sample of each number is a script of 26 statements, which passes no limit.
pub fn sample_is_script()
    ensures { (n : ℕ) → (list : List Statement) × IsScriptOf (sample_text n) list × (length list ≡ 26) }
{}
