ghost use Rattle.std.specs.Prelude.{◌≡◌};
ghost use Rattle.script_statement.specs.Verbs.{verb_of, question_verb_of, module_verb_of, pair_verb_of, twisted_verb_of, asked, related, computed, divided};

use super::form::Form;
use script_lang::{ModArg, Name, OreArg};

/// The first word of a statement, by what follows it.
#[derive(Clone, Copy)]
pub enum Verb {
    /// `base`
    Base,
    /// `over`
    Over,
    /// `module`
    Module,
    /// `ore`
    Ore,
    /// `show`
    Show,
    /// Its first operand is a Drinfeld module.
    OfModule(ModuleVerb),
    /// Its first two operands are twisted polynomials.
    OfTwisted(TwistedVerb),
}

/// A verb whose first operand is a Drinfeld module.
#[derive(Clone, Copy)]
pub enum ModuleVerb {
    /// One module alone.
    Ask(Question),
    /// `j`: a number.
    J,
    /// `image`: a polynomial in `T`, and a name where the result gets one.
    Image,
    /// `quotient`: a twisted polynomial, and a name where the result gets one.
    Quotient,
    /// `motive`: a twisted polynomial.
    Motive,
    /// A second module.
    Pair(PairVerb),
}

/// A verb whose first two operands are Drinfeld modules.
#[derive(Clone, Copy)]
pub enum PairVerb {
    /// `check`: a twisted polynomial.
    Check,
    /// `bounded`: a number.
    Bounded,
    /// Two modules alone.
    Relate(Relation),
}

/// A verb whose first two operands are twisted polynomials.
#[derive(Clone, Copy)]
pub enum TwistedVerb {
    /// Its result may get a name.
    Compute(Operation),
    /// Its result gets no name.
    Divide(Division),
}

/// What is asked of one Drinfeld module.
#[derive(Clone, Copy)]
pub enum Question {
    Rank,
    Char,
    Height,
    Ordinary,
    Supersingular,
    Frob,
    Frobpower,
}

/// What is asked of two Drinfeld modules.
#[derive(Clone, Copy)]
pub enum Relation {
    Iso,
    Isogenous,
    Full,
    Fullsize,
}

/// What is computed of two twisted polynomials.
#[derive(Clone, Copy)]
pub enum Operation {
    Add,
    Sub,
    Mul,
}

/// What division gives of two twisted polynomials.
#[derive(Clone, Copy)]
pub enum Division {
    Rdiv,
    Ldiv,
    Common,
    Multiple,
}

/// The verb that a word is; None where no statement begins with it.
pub fn verb_of(word: &[u8]) -> Option<Verb>
    ensures { result ≡ verb_of word.now }
{
    if word == b"base".as_slice() {
        return Some(Verb::Base);
    }
    if word == b"over".as_slice() {
        return Some(Verb::Over);
    }
    if word == b"module".as_slice() {
        return Some(Verb::Module);
    }
    if word == b"ore".as_slice() {
        return Some(Verb::Ore);
    }
    if word == b"show".as_slice() {
        return Some(Verb::Show);
    }
    question_verb_of(word)
}

/// The verb of a word that isn't one of `base`, `over`, `module`, `ore` and `show`.
fn question_verb_of(word: &[u8]) -> Option<Verb>
    ensures { result ≡ question_verb_of word.now }
{
    if word == b"rank".as_slice() {
        return Some(Verb::OfModule(ModuleVerb::Ask(Question::Rank)));
    }
    if word == b"char".as_slice() {
        return Some(Verb::OfModule(ModuleVerb::Ask(Question::Char)));
    }
    if word == b"height".as_slice() {
        return Some(Verb::OfModule(ModuleVerb::Ask(Question::Height)));
    }
    if word == b"ordinary".as_slice() {
        return Some(Verb::OfModule(ModuleVerb::Ask(Question::Ordinary)));
    }
    if word == b"supersingular".as_slice() {
        return Some(Verb::OfModule(ModuleVerb::Ask(Question::Supersingular)));
    }
    if word == b"frob".as_slice() {
        return Some(Verb::OfModule(ModuleVerb::Ask(Question::Frob)));
    }
    if word == b"frobpower".as_slice() {
        return Some(Verb::OfModule(ModuleVerb::Ask(Question::Frobpower)));
    }
    module_verb_of(word)
}

/// The verb of a word that is no question on one Drinfeld module either.
fn module_verb_of(word: &[u8]) -> Option<Verb>
    ensures { result ≡ module_verb_of word.now }
{
    if word == b"j".as_slice() {
        return Some(Verb::OfModule(ModuleVerb::J));
    }
    if word == b"image".as_slice() {
        return Some(Verb::OfModule(ModuleVerb::Image));
    }
    if word == b"quotient".as_slice() {
        return Some(Verb::OfModule(ModuleVerb::Quotient));
    }
    if word == b"motive".as_slice() {
        return Some(Verb::OfModule(ModuleVerb::Motive));
    }
    pair_verb_of(word)
}

/// The verb of a word that begins no statement on one Drinfeld module.
fn pair_verb_of(word: &[u8]) -> Option<Verb>
    ensures { result ≡ pair_verb_of word.now }
{
    if word == b"check".as_slice() {
        return Some(Verb::OfModule(ModuleVerb::Pair(PairVerb::Check)));
    }
    if word == b"iso".as_slice() {
        return Some(Verb::OfModule(ModuleVerb::Pair(PairVerb::Relate(Relation::Iso))));
    }
    if word == b"isogenous".as_slice() {
        return Some(Verb::OfModule(ModuleVerb::Pair(PairVerb::Relate(Relation::Isogenous))));
    }
    if word == b"bounded".as_slice() {
        return Some(Verb::OfModule(ModuleVerb::Pair(PairVerb::Bounded)));
    }
    if word == b"full".as_slice() {
        return Some(Verb::OfModule(ModuleVerb::Pair(PairVerb::Relate(Relation::Full))));
    }
    if word == b"fullsize".as_slice() {
        return Some(Verb::OfModule(ModuleVerb::Pair(PairVerb::Relate(Relation::Fullsize))));
    }
    twisted_verb_of(word)
}

/// The verb of a word whose statement has twisted polynomials alone.
fn twisted_verb_of(word: &[u8]) -> Option<Verb>
    ensures { result ≡ twisted_verb_of word.now }
{
    if word == b"add".as_slice() {
        return Some(Verb::OfTwisted(TwistedVerb::Compute(Operation::Add)));
    }
    if word == b"sub".as_slice() {
        return Some(Verb::OfTwisted(TwistedVerb::Compute(Operation::Sub)));
    }
    if word == b"mul".as_slice() {
        return Some(Verb::OfTwisted(TwistedVerb::Compute(Operation::Mul)));
    }
    if word == b"rdiv".as_slice() {
        return Some(Verb::OfTwisted(TwistedVerb::Divide(Division::Rdiv)));
    }
    if word == b"ldiv".as_slice() {
        return Some(Verb::OfTwisted(TwistedVerb::Divide(Division::Ldiv)));
    }
    if word == b"common".as_slice() {
        return Some(Verb::OfTwisted(TwistedVerb::Divide(Division::Common)));
    }
    if word == b"multiple".as_slice() {
        return Some(Verb::OfTwisted(TwistedVerb::Divide(Division::Multiple)));
    }
    None
}

/// The form of a question.
pub(crate) fn asked(question: Question, phi: ModArg) -> Form
    ensures { result ≡ asked question phi }
{
    match question {
        Question::Rank => Form::Rank { phi },
        Question::Char => Form::Char { phi },
        Question::Height => Form::Height { phi },
        Question::Ordinary => Form::Ordinary { phi },
        Question::Supersingular => Form::Supersingular { phi },
        Question::Frob => Form::Frob { phi },
        Question::Frobpower => Form::Frobpower { phi },
    }
}

/// The form of a question on two modules.
pub(crate) fn related(relation: Relation, phi: ModArg, psi: ModArg) -> Form
    ensures { result ≡ related relation phi psi }
{
    match relation {
        Relation::Iso => Form::Iso { phi, psi },
        Relation::Isogenous => Form::Isogenous { phi, psi },
        Relation::Full => Form::Full { phi, psi },
        Relation::Fullsize => Form::Fullsize { phi, psi },
    }
}

/// The form of a computation.
pub(crate) fn computed(operation: Operation, u: OreArg, v: OreArg, name: Option<Name>) -> Form
    ensures { result ≡ computed operation u v name }
{
    match operation {
        Operation::Add => Form::Add { u, v, name },
        Operation::Sub => Form::Sub { u, v, name },
        Operation::Mul => Form::Mul { u, v, name },
    }
}

/// The form of a division.
pub(crate) fn divided(division: Division, u: OreArg, v: OreArg) -> Form
    ensures { result ≡ divided division u v }
{
    match division {
        Division::Rdiv => Form::Rdiv { u, v },
        Division::Ldiv => Form::Ldiv { u, v },
        Division::Common => Form::Common { u, v },
        Division::Multiple => Form::Multiple { u, v },
    }
}
