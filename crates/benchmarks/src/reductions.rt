//! How many row operations the relations of the rows take of which a full list is made: the images of the elements with
//! a single coordinate, times the powers of tau below the degree of the field, under `u phi_T - phi_T u`. A row
//! operation adds a multiple of one row, behind zeros, to another; the row's transform takes part in it. Each takes one
//! inverse in the base, and nothing else takes one, so a base that counts its inverses counts them.
ghost use Rattle.std.specs.Prelude.{◌≡◌, ◌≤◌, IfOk, OnOk, true};
ghost use Rattle.ring_core.specs.Ring.{IsElem};
ghost use Rattle.ring_core.specs.Coeffs.{are_elems, is_canonical};
ghost use Rattle.flat_modules.specs.Flat.{are_flat};

use super::fields::{BITS_OF_TWELVE, FieldData, SMALL, first_top};
use super::random::Random;
use super::{invalid, no_memory};
use central_coords::coordinates;
use flat_reduce::kernel_rows;
use fq_poly::Poly;
use ore_poly::{Ore, OreRing};
use poly_reduce::FlatRows;
use popov_basis::relations_flat;
use ring_core::lists::{all_elems, trimmed};
use ring_core::{B, E, Field, FrobField, NoMemory, Ring};
use std::alloc::Global;
use std::io;
use std::time::{Duration, Instant};
use tests_support::counting::CountingField;

/// The element whose coordinates are the binary digits of the number, lowest first.
fn element<K: FrobField>(rt: &HostRuntime, k: &K, number: usize) -> io::Result<E<K>>
    ensures { IfOk result (IsElem (K.ops k.now)) }
{
    let mut list = Vec::new(rt.alloc());
    let mut rest = number;
    for _j in 0..k.degree() {
        list.push(if rest % 2 == 1 {
            k.base().one()
        } else {
            k.base().zero()
        })?;
        rest /= 2;
    }
    if list.len() != k.degree() || !all_elems(k.base(), &list) {
        return Err(invalid());
    }
    Ok(k.of_coords(&list))
}

/// A twisted polynomial of this degree whose coefficients are drawn; the highest is one where it would be zero.
fn drawn<K: FrobField>(
    rt: &HostRuntime,
    k: &K,
    random: &mut Random,
    degree: usize,
) -> io::Result<Ore<E<K>>>
    ensures { IfOk result (λ u. is_canonical (K.ops k.now) u ≡ true) }
{
    let mut list = Vec::new(rt.alloc());
    for _i in 0..degree {
        list.push(element(rt, k, random.below(4096))?)?;
    }
    let top = element(rt, k, random.below(4096))?;
    list.push(if k.equal(top, k.zero()) { k.one() } else { top })?;
    if !all_elems(k, &list) {
        return Err(invalid());
    }
    match OreRing::new(k).make(rt.alloc(), &list) {
        Ok(u) => Ok(u),
        Err(_) => Err(no_memory()),
    }
}

/// The coordinates of `u phi - phi u` over the base.
fn image<K: FrobField>(
    alloc: Global,
    k: &K,
    phi: &Ore<E<K>>,
    u: &Ore<E<K>>,
) -> Result<Vec<B<K>>, NoMemory>
    requires module { is_canonical (K.ops k.now) phi.now ≡ true }
    requires factor { is_canonical (K.ops k.now) u.now ≡ true }
{
    let ring = OreRing::new(k);
    let left = ring.mul(alloc, u, phi)?;
    let right = ring.mul(alloc, phi, u)?;
    let less = ring.neg(alloc, &right)?;
    let image = ring.add(alloc, &left, &less)?;
    coordinates(alloc, k, image.as_slice(), image.len())
}

/// The twisted polynomial `c tau^i`.
fn monomial<K: FrobField>(rt: &HostRuntime, k: &K, c: E<K>, i: usize) -> io::Result<Ore<E<K>>>
    requires { IsElem (K.ops k.now) c }
    ensures { IfOk result (λ u. is_canonical (K.ops k.now) u ≡ true) }
{
    let mut list = vec![in rt.alloc(); k.zero(); i]?;
    list.push(c)?;
    if !all_elems(k, &list) {
        return Err(invalid());
    }
    match OreRing::new(k).make(rt.alloc(), &list) {
        Ok(u) => Ok(u),
        Err(_) => Err(no_memory()),
    }
}

/// Puts the row without the zeros at its end after the others.
fn push_row<F: Field>(f: &F, rows: &mut Vec<Poly<E<F>>>, row: Vec<E<F>>) -> Result<(), NoMemory>
    requires rows { are_flat (F.ops f.now) rows.old.items ≡ true }
    requires row { are_elems (F.ops f.now) row.items ≡ true }
    ensures { OnOk result (are_flat (F.ops f.now) rows.new.items ≡ true) }
{
    rows.push(Poly::from_vec(trimmed(f, row)))?;
    Ok(())
}

/// Puts the rows of the elements with a single coordinate times `tau^i` after the others.
fn push_images<K: FrobField, F: Field<Elem = B<K>>>(
    rt: &HostRuntime,
    k: &K,
    f: &F,
    phi: &Ore<E<K>>,
    i: usize,
    rows: &mut Vec<Poly<B<K>>>,
) -> io::Result<()>
    requires module { is_canonical (K.ops k.now) phi.now ≡ true }
    requires rows { are_flat (F.ops f.now) rows.old.items ≡ true }
    ensures { OnOk result (are_flat (F.ops f.now) rows.new.items ≡ true) }
{
    let mut number = 1usize;
    for _j in 0..k.degree() {
        let u = monomial(rt, k, element(rt, k, number)?, i)?;
        let Ok(row) = image(rt.alloc(), k, phi, &u) else {
            return Err(no_memory());
        };
        if !all_elems(f, &row) {
            return Err(invalid());
        }
        let Ok(()) = push_row(f, rows, row) else {
            return Err(no_memory());
        };
        number = number.saturating_mul(2);
    }
    Ok(())
}

/// The rows of the module, over a field like the base.
fn images<K: FrobField, F: Field<Elem = B<K>>>(
    rt: &HostRuntime,
    k: &K,
    f: &F,
    phi: &Ore<E<K>>,
) -> io::Result<Vec<Poly<B<K>>>>
    requires { is_canonical (K.ops k.now) phi.now ≡ true }
    ensures { IfOk result (λ v. are_flat (F.ops f.now) v.items ≡ true) }
{
    let mut rows = Vec::new(rt.alloc());
    for i in 0..k.degree() {
        push_images(rt, k, f, phi, i, &mut rows)?;
    }
    Ok(rows)
}

/// The width of the rows.
fn width<K: FrobField>(k: &K) -> usize
    ensures { 1 ≤ result }
{
    k.degree().saturating_mul(k.degree()).max(1)
}

/// The row operations that the relations of the module's rows take.
fn row_operations<K: FrobField>(rt: &HostRuntime, k: &K, phi: &Ore<E<K>>) -> io::Result<u64>
    requires { is_canonical (K.ops k.now) phi.now ≡ true }
{
    let f = CountingField::new(k.base());
    let rows = images(rt, k, &f, phi)?;
    match kernel_rows(rt.alloc(), &f, width(k), &rows) {
        Ok(_relations) => Ok(f.inverses()),
        Err(_) => Err(no_memory()),
    }
}

/// What some basis of the relations of the module's rows takes, and what their standard basis takes.
fn times<K: FrobField>(rt: &HostRuntime, k: &K, phi: &Ore<E<K>>) -> io::Result<(Duration, Duration)>
    requires { is_canonical (K.ops k.now) phi.now ≡ true }
{
    let base = k.base();
    let rows = images(rt, k, base, phi)?;
    let start = Instant::now(rt)?;
    let Ok(relations) = kernel_rows(rt.alloc(), base, width(k), &rows) else {
        return Err(no_memory());
    };
    let kernel = start.elapsed(rt)?;
    let rows = FlatRows::from_vec(rt.alloc(), width(k), rows);
    let start = Instant::now(rt)?;
    let Ok(basis) = relations_flat(rt.alloc(), base, &rows) else {
        return Err(no_memory());
    };
    let standard = start.elapsed(rt)?;
    if basis.len() != relations.len() {
        return Err(invalid());
    }
    Ok((kernel, standard))
}

/// How many modules are drawn for each degree and rank.
const MODULES: u32 = 100;

/// The least and the most of what was counted, and the sum.
#[derive(Drop)]
struct Counts {
    least: u64,
    most: u64,
    sum: u64,
}

impl Counts {
    fn new() -> Counts {
        Counts {
            least: u64::MAX,
            most: 0,
            sum: 0,
        }
    }

    fn add(&mut self, count: u64) {
        self.least = self.least.min(count);
        self.most = self.most.max(count);
        self.sum = self.sum.saturating_add(count);
    }

    fn mean(&self) -> u64 {
        self.sum / MODULES as u64
    }
}

/// Prints the fewest and the most row operations of drawn modules of this rank, and the least times, with their means.
fn print_rank<K: FrobField>(rt: &HostRuntime, k: &K, rank: usize) -> io::Result<()> {
    let mut random = Random::new(2026);
    let mut operations = Counts::new();
    let mut kernels = Counts::new();
    let mut bases = Counts::new();
    for _i in 0..MODULES {
        let phi = drawn(rt, k, &mut random, rank)?;
        operations.add(row_operations(rt, k, &phi)?);
        let (kernel, standard) = times(rt, k, &phi)?;
        kernels.add(u64::try_from(kernel.as_micros()).unwrap_or(u64::MAX));
        bases.add(u64::try_from(standard.as_micros()).unwrap_or(u64::MAX));
    }
    println!(rt;
        "  rank {rank}: {} to {} row operations, {} on average",
        operations.least,
        operations.most,
        operations.mean()
    )?;
    println!(rt;
        "    a basis of the relations {} us at least, {} on average; the standard basis {}, {}",
        kernels.least,
        kernels.mean(),
        bases.least,
        bases.mean()
    )
}

/// Counts the row operations over the top field of the data.
fn print_field(rt: &HostRuntime, data: &FieldData) -> io::Result<()> {
    let made = first_top(rt, data)?;
    let k = &made.tower;
    println!(rt; "{} elements, degree {}", k.base().q(), k.degree())?;
    print_rank(rt, k, 2)?;
    print_rank(rt, k, 8)
}

/// Counts for the degrees 8 and 12.
pub(super) fn print_all(rt: &HostRuntime) -> io::Result<()> {
    print_field(rt, &SMALL)?;
    print_field(rt, &BITS_OF_TWELVE)
}
