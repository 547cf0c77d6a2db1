//! Coordinates over the polynomials in T with coefficients in the base.
ghost use Rattle.std.specs.Prelude.{◌≡◌, ◌*◌, ◌<◌, IfOk, length, true};
ghost use Rattle.ring_core.specs.Coeffs.{coeff, are_elems, is_canonical, list_of};
ghost use Rattle.fq_poly.specs.Poly.{poly_ops};
ghost use Rattle.drinfeld_mod.specs.Module.{IsModule, rank_of};
ghost use Rattle.motive_coords.specs.OverT.{IsOverT, base_parts};

use super::coordinates::motive;
use drinfeld_mod::Module;
use fq_poly::Poly;
use ore_poly::Ore;
use ring_core::lists::{coeff_at, trimmed};
use ring_core::{B, E, FrobField, NoMemory};
use std::alloc::Global;

/// The coordinates of `u` over the polynomials in T: with rank `r` and a field of degree `n` over the base, `n r`
/// polynomials over the base. Number `i n + j` has as coefficients the `j`-th base coordinates of the coefficients
/// of motive coordinate `i`. Multiplication of `u` by the image of a polynomial on the right multiplies them by it.
pub fn over_t<K: FrobField>(
    alloc: Global,
    field: &K,
    phi: &Module<E<K>>,
    u: &Ore<E<K>>,
) -> Result<Vec<Poly<B<K>>>, NoMemory>
    requires module { IsModule (K.ops field.now) phi.now }
    requires elem { is_canonical (K.ops field.now) u.now ≡ true }
    ensures { IfOk result
        (λ v. IsOverT (K.ops field.now) (K.Base.ops (K.base_of field.now)) (K.frob_ops field.now) phi.now u.now v.items) }
{
    let list = motive(alloc, field, phi, u)?;
    let parts = motive_over_t(alloc, field, phi, &list)?;
    Ok(parts)
}

/// The coordinates over the polynomials in T, from the motive coordinates `list`, which are as many polynomials as
/// the rank.
pub fn motive_over_t<K: FrobField>(
    alloc: Global,
    field: &K,
    phi: &Module<E<K>>,
    list: &[Poly<E<K>>],
) -> Result<Vec<Poly<B<K>>>, NoMemory>
    requires module { IsModule (K.ops field.now) phi.now }
    requires count { length list.now ≡ rank_of phi.now }
    requires elems { are_elems (poly_ops (K.ops field.now)) list.now ≡ true }
    ensures { IfOk result
        (λ v. v.items ≡ base_parts (K.ops field.now) (K.Base.ops (K.base_of field.now)) (K.frob_ops field.now) list.now) }
{
    let n = field.degree();
    let parts = all_parts(alloc, field, list, n, phi.rank() * n)?;
    Ok(parts)
}

/// The `j`-th base coordinates of the coefficients, as a polynomial.
fn base_part<K: FrobField>(
    alloc: Global,
    field: &K,
    list: &[E<K>],
    j: usize,
) -> Result<Poly<B<K>>, NoMemory>
    requires elems { are_elems (K.ops field.now) list.now ≡ true }
    requires place { j < (K.frob_ops field.now).degree }
    ensures { IfOk result
        (λ v. v ≡ list_of (K.Base.ops (K.base_of field.now)) (length list.now) (λ e. (K.frob_ops field.now).coord (coeff (K.ops field.now) list.now e) j)) }
{
    let mut values = Vec::new(alloc);
    for e in 0..list.len() {
        let member = coeff_at(field, list, e);
        let part = field.coord(member, j);
        values.push(part)?;
    }
    Ok(Poly::from_vec(trimmed(field.base(), values)))
}

/// The base coordinates of the polynomials, for a field of degree `n`.
fn all_parts<K: FrobField>(
    alloc: Global,
    field: &K,
    list: &[Poly<E<K>>],
    n: usize,
    count: usize,
) -> Result<Vec<Poly<B<K>>>, NoMemory>
    requires elems { are_elems (poly_ops (K.ops field.now)) list.now ≡ true }
    requires degree { n ≡ (K.frob_ops field.now).degree }
    requires count { count ≡ length list.now * n }
    ensures { IfOk result
        (λ v. v.items ≡ base_parts (K.ops field.now) (K.Base.ops (K.base_of field.now)) (K.frob_ops field.now) list.now) }
{
    let mut parts = Vec::new(alloc);
    for q in 0..count {
        let part = base_part(alloc, field, list[q / n].as_slice(), q % n)?;
        parts.push(part)?;
    }
    Ok(parts)
}
