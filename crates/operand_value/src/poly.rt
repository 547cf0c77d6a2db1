ghost use Rattle.std.specs.Prelude.{◌≡◌, ◌<◌, IfOk, OnOk, length, true};
ghost use Rattle.ring_core.specs.Ring.{IsElem};
ghost use Rattle.ring_core.specs.Coeffs.{are_elems, is_canonical, trim};
ghost use Rattle.ring_core.specs.Monomial.{monomial};
ghost use Rattle.ring_core.specs.Twisted.{list_add};
ghost use Rattle.operand_value.specs.Values.{poly_value};

use super::letters::Letters;
use super::powers::{Uses, powers_of_a, powers_of_z};
use super::value::term_value;
use ring_core::lists::{coeff_at, trimmed};
use ring_core::rows::extend;
use ring_core::{E, Field, NoMemory};
use script_lang::Sum;
use std::alloc::Global;

/// Adds `c` to the coefficient at `k`, in place.
fn add_at<F: Field>(field: &F, row: &mut [E<F>], k: usize, c: E<F>)
    requires place { k < length row.old }
    requires elems { are_elems (F.ops field.now) row.old ≡ true }
    requires term { IsElem (F.ops field.now) c }
    ensures elems { are_elems (F.ops field.now) row.new ≡ true }
    ensures sum { let r = F.ops field.now in trim r row.new ≡ list_add r (trim r row.old) (monomial r c k) }
{
    let old = coeff_at(field, row, k);
    let sum = field.add(old, c);
    row[k] = sum;
}

/// Adds the polynomial with the one term `c` at the power `k`.
fn add_term<F: Field>(field: &F, row: &mut Vec<E<F>>, k: u32, c: E<F>) -> Result<(), NoMemory>
    requires elems { are_elems (F.ops field.now) row.old.items ≡ true }
    requires term { IsElem (F.ops field.now) c }
    ensures elems { OnOk result (are_elems (F.ops field.now) row.new.items ≡ true) }
    ensures sum { let r = F.ops field.now in
        OnOk result (trim r row.new.items ≡ list_add r (trim r row.old.items) (monomial r c k)) }
{
    let place = k as usize;
    extend(field, row, place + 1)?;
    add_at(field, row, place, c);
    Ok(())
}

/// The polynomial that a sum is in the letter that ends its terms, lowest coefficient first, without
/// zeros at the top. Each term is one sum in the field.
pub fn poly_value<F: Letters>(alloc: Global, field: &F, sum: &Sum) -> Result<Vec<E<F>>, NoMemory>
    ensures value { IfOk result (λ v. v.items ≡ poly_value (F.ops field.now) (F.letters field.now) sum.now) }
    ensures elem { IfOk result (λ v. is_canonical (F.ops field.now) v.items ≡ true) }
{
    let mut uses = Uses::none();
    uses.count(sum);
    let a = powers_of_a(alloc, field, uses)?;
    let z = powers_of_z(alloc, field, uses)?;
    let mut row = Vec::new(alloc);
    for term in sum.terms.as_slice() {
        let value = term_value(field, &a, &z, term);
        add_term(field, &mut row, term.power, value)?;
    }
    Ok(trimmed(field, row))
}
