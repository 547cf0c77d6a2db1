//! The polynomial of least degree over the base that has a given root, from the first power of the root
//! that is a combination of the powers before it.
ghost use Rattle.std.specs.Prelude.{◌≡◌, ◌+◌, ◌++◌, ◌∷◌, [], IfOk, length, true};
ghost use Rattle.ring_core.specs.Ring.{IsElem};
ghost use Rattle.ring_core.specs.Coeffs.{coeff, are_elems, first_values};
ghost use Rattle.ring_core.specs.Powers.{power_of};
ghost use Rattle.minimal_poly.specs.MinPoly.{IsMinPoly};
ghost use Rattle.minimal_poly.specs.steps.PowerRows.{power_row};

use fq_linear::{Rows, first_dependence};
use fq_poly::Poly;
use ring_core::lists::neg_values;
use ring_core::{B, E, Field, FrobField, NoMemory};
use std::alloc::Global;

/// The coordinates of `c` over the base.
fn coordinates<K: FrobField>(alloc: Global, k: &K, c: E<K>) -> Result<Vec<B<K>>, NoMemory>
    requires { IsElem (K.ops k.now) c }
    ensures { let f = K.frob_ops k.now in IfOk result (λ v. v.items ≡ first_values f.degree (f.coord c)) }
{
    let mut list = Vec::new(alloc);
    for j in 0..k.degree() {
        list.push(k.coord(c, j))?;
    }
    Ok(list)
}

/// The coordinates of the powers of `c` up to the degree of the field, a row for each: one row more than
/// there are coordinates.
fn power_rows<K: FrobField>(alloc: Global, k: &K, c: E<K>) -> Result<Rows<B<K>>, NoMemory>
    requires { IsElem (K.ops k.now) c }
    ensures width { IfOk result (λ v. v.width ≡ (K.frob_ops k.now).degree) }
    ensures rows { let f = K.frob_ops k.now in IfOk result (λ v. v.rows ≡ first_values (f.degree + 1) (power_row (K.ops k.now) f c)) }
{
    let n = k.degree();
    let mut rows = Rows::new(alloc, n);
    let mut power = k.one();
    for _i in 0..n + 1 {
        let row = coordinates(alloc, k, power)?;
        rows.push(&row)?;
        power = k.mul(power, c);
    }
    Ok(rows)
}

/// The negatives of the members of the list, and then one.
fn monic_relation<F: Field>(alloc: Global, f: &F, list: &[E<F>]) -> Result<Vec<E<F>>, NoMemory>
    requires { are_elems (F.ops f.now) list.now ≡ true }
    ensures { let r = F.ops f.now in IfOk result (λ v. v.items ≡ first_values (length list.now) (λ i. r.neg (coeff r list.now i)) ++ r.one ∷ []) }
{
    let mut relation = neg_values(alloc, f, list)?;
    relation.push(f.one())?;
    Ok(relation)
}

/// The minimal polynomial of `c` over the base of `k`, lowest coefficient first: the monic polynomial of
/// least degree that has the root `c`, and the only one. Its degree is at most that of the field. It is
/// `minpoly` of elements of finite fields in the SageMath reference manual. The only refusal is want of memory.
pub fn min_poly<K: FrobField>(alloc: Global, k: &K, c: E<K>) -> Result<Poly<B<K>>, NoMemory>
    requires { IsElem (K.ops k.now) c }
    ensures { IfOk result (IsMinPoly (K.ops k.now) (K.Base.ops (K.base_of k.now)) (K.frob_ops k.now).embed c) }
{
    let rows = power_rows(alloc, k, c)?;
    let Some((_, coefficients)) = first_dependence(alloc, k.base(), &rows)? else {
        // one row more than there are coordinates can't be independent
        unreachable!()
    };
    let relation = monic_relation(alloc, k.base(), &coefficients)?;
    Ok(Poly::from_vec(relation))
}
