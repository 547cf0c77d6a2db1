//! The law of quotients: a function whose contract is the law, and which calls no operation.
ghost use Rattle.std.specs.Prelude.{◌≡◌, List};
ghost use Rattle.drinfeld_mod.specs.Module.{IsModule};
ghost use Rattle.kernel_quotient.specs.Quotient.{IsQuotient};

use ring_core::FrobField;

/// A module has at most one quotient by a twisted polynomial.
pub fn one_quotient<K: FrobField>()
    ensures { (k : K) (phi u psi chi : List K.Elem) → let r = K.ops k in let frob = (K.frob_ops k).frob in
        IsModule r phi → IsQuotient r frob phi u psi → IsQuotient r frob phi u chi → psi ≡ chi }
{}
