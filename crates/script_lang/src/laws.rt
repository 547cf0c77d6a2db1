//! What holds of the definitions of lines, tokens and the grammar; each law is the contract of a function.

ghost use Rattle.std.specs.Prelude.{◌≡◌, ℕ, ◌<◌, ◌==◌, ◌∷◌, ◌++◌, Bool, true, not, List, [], Option, Some};
ghost use Rattle.std.specs.List.{list_all};
ghost use Rattle.script_lang.specs.declared.lexer.Letter.{Letter};
ghost use Rattle.script_lang.specs.declared.lexer.Token.{Token};
ghost use Rattle.script_lang.specs.declared.sum.Factor.{Factor};
ghost use Rattle.script_lang.specs.declared.sum.Kind.{Kind};
ghost use Rattle.script_lang.specs.declared.sum.ModArg.{ModArg};
ghost use Rattle.script_lang.specs.declared.sum.OreArg.{OreArg};
ghost use Rattle.script_lang.specs.declared.sum.Sum.{Sum};
ghost use Rattle.script_lang.specs.Lines.{lines};
ghost use Rattle.script_lang.specs.Kinds.{ending, letter_factor};
ghost use Rattle.script_lang.specs.Grammar.{IsSum, IsList, IsModOperand, IsOreOperand, binds};
ghost use Rattle.script_lang.specs.Tokens.{IsTokens};

/// A line, its line feed and more bytes are that line and the lines of those.
pub fn lines_at_feed()
    ensures { (line rest : List ℕ) → list_all (λ b. not (b == 10)) line ≡ true → lines (line ++ 10 ∷ rest) ≡ line ∷ lines rest }
{}

/// Bytes without a line feed are one line, where there are any.
pub fn last_line()
    ensures { (b : ℕ) (bs : List ℕ) → list_all (λ c. not (c == 10)) (b ∷ bs) ≡ true → lines (b ∷ bs) ≡ (b ∷ bs) ∷ [] }
{}

/// No letter both ends a term and is a factor.
pub fn ending_is_no_factor()
    ensures { (k : Kind) (l : Letter) (n : ℕ) (f : Factor) → ending k ≡ Some l → letter_factor k l n ≡ Some f → ⊥ }
{}

/// A line has at most one list of tokens.
pub fn one_token_list()
    ensures { (line : List ℕ) (ts us : List Token) → IsTokens line ts → IsTokens line us → ts ≡ us }
{}

/// Tokens have at most one reading as a sum of a kind, where what is left doesn't bind on.
pub fn one_sum()
    ensures { (k : Kind) (d : ℕ) (lead : Bool) (tokens rest more : List Token) (s u : Sum) → IsSum k d lead tokens rest s → binds rest < 1 → IsSum k d lead tokens more u → binds more < 1 → (rest ≡ more) × (s ≡ u) }
{}

/// Tokens begin with at most one list.
pub fn one_list()
    ensures { (tokens rest more : List Token) (list items : List Sum) → IsList tokens rest list → IsList tokens more items → (rest ≡ more) × (list ≡ items) }
{}

/// Tokens begin with at most one Drinfeld module as an operand.
pub fn one_module_operand()
    ensures { (tokens rest more : List Token) (m n : ModArg) → IsModOperand tokens rest m → IsModOperand tokens more n → (rest ≡ more) × (m ≡ n) }
{}

/// Tokens have at most one reading as a twisted polynomial, where what is left doesn't bind on.
pub fn one_twisted_operand()
    ensures { (tokens rest more : List Token) (u v : OreArg) → IsOreOperand tokens rest u → binds rest < 1 → IsOreOperand tokens more v → binds more < 1 → (rest ≡ more) × (u ≡ v) }
{}

/// Where tokens are two twisted polynomials one after another, they are so in one way: no operand
/// begins with a sign that binds, so the first is as long as it can be.
pub fn two_twisted_operands()
    ensures { (tokens mid between : List Token) (u v x y : OreArg) → IsOreOperand tokens mid u → IsOreOperand mid [] v → IsOreOperand tokens between x → IsOreOperand between [] y → (u ≡ x) × (v ≡ y) }
{}
