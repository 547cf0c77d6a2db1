ghost use Rattle.std.specs.Prelude.{◌≡◌};
ghost use Rattle.statement_operands.specs.declared.stop.Stop.TheVariants.{NoMemory as OutOfMemory};

use ring_core::NoMemory;
use script_parse::SizeKind;

/// Why a statement has no meaning.
#[derive(Clone, Copy, Debug, PartialEq, Eq)]
pub enum MeaningKind {
    /// The statement needs a field that isn't set yet.
    FieldMissing,
    /// The statement sets a field that is set already.
    FieldSet,
    /// The modulus isn't monic of the stated degree.
    BadModulus,
    /// Two nonzero residues of the base multiply to zero.
    BaseReducible,
    /// Two nonzero residues of the top multiply to zero.
    TopReducible,
    /// An operand is a name that isn't defined.
    UnknownName,
    /// An operand is the name of a value of the other kind.
    WrongKind,
    /// The new name is defined already.
    NameTaken,
    /// A list in the place of a Drinfeld module has fewer than two items, or its last is zero.
    NoRank,
    /// A division by zero.
    ZeroDivisor,
    /// The constants of the two Drinfeld modules differ.
    OtherConstant,
    /// The Drinfeld module has no invariant with this number.
    NoInvariant,
}

/// Why a statement has no answer.
#[derive(Clone, Copy, Debug, PartialEq, Eq)]
pub enum Stop {
    /// It has no meaning.
    Meaning(MeaningKind),
    /// It passes a limit that its operands show.
    Size(SizeKind),
    /// Memory was refused.
    NoMemory,
}

impl From<NoMemory> for Stop {
    ghost from_gives = { λ _ e. e ≡ OutOfMemory };

    fn from(_: NoMemory) -> Stop {
        Stop::NoMemory
    }
}
