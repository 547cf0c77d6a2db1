//! Linear systems over the field with two elements: worked examples for `fq_linear`.
#![tactic(auto)]

ghost use Rattle.std.specs.Prelude.{◌≡◌};
ghost use Rattle.tests_linear.specs.BitField.{bit_ops, bit_inv, bit_laws};

use ring_core::Field;

/// The field with two elements, false and true.
pub struct BitField;

impl Field for BitField {
    type Elem = bool;

    ghost ops = { λ k. bit_ops };

    ghost inv_of = { λ k. bit_inv };

    ghost ring = { λ k. bit_laws.ring };

    fn is_elem(&self, _a: bool) -> bool {
        true
    }

    fn zero(&self) -> bool {
        false
    }

    fn one(&self) -> bool {
        true
    }

    fn add(&self, a: bool, b: bool) -> bool {
        if a { !b } else { b }
    }

    fn neg(&self, a: bool) -> bool {
        a
    }

    fn mul(&self, a: bool, b: bool) -> bool {
        a && b
    }

    fn inv(&self, a: bool) -> Option<bool> {
        if a { Some(true) } else { None }
    }

    fn equal(&self, a: bool, b: bool) -> bool {
        if a { b } else { !b }
    }

    ghost laws = { λ k. bit_laws };
}

#[cfg(test)]
mod tests;
