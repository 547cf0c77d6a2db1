//! Random matrices of polynomials.
ghost use Rattle.std.specs.Prelude.{◌≡◌, ◌≤◌, IfOk, true};
ghost use Rattle.linear_algebra.specs.Linear.{are_rows};
ghost use Rattle.fq_poly.specs.Poly.{poly_ops};

use super::matrices::{checked_rows, holds};
use field_tower::Code;
use fq_poly::Poly;
use poly_reduce::PolyRows;
use ring_core::Field;
use std::alloc::Global;
use std::test::Fail;

/// A linear congruential generator.
#[derive(Drop)]
pub struct Random {
    state: u64,
}

impl Random {
    /// The generator that starts at `seed`; one seed gives the same numbers at each run.
    pub fn new(seed: u64) -> Random {
        Random { state: seed }
    }

    /// The next number below `n`, and 0 where there is none.
    pub fn below(&mut self, n: usize) -> usize {
        self.state = self
            .state
            .wrapping_mul(6364136223846793005)
            .wrapping_add(1442695040888963407);
        (self.state >> 33) as usize % n.max(1)
    }

    /// A polynomial with at most `len` coefficients, all codes below `q`; the highest isn't zero.
    fn poly(&mut self, alloc: Global, q: usize, len: usize) -> Result<Poly<Code>, Fail> {
        let mut list = Vec::new(alloc);
        let len = self.below(len.saturating_add(1));
        for _ in 1..len {
            list.push(Code::try_from(self.below(q))?)?;
        }
        if len > 0 {
            let top = self.below(q.saturating_sub(1)).saturating_add(1);
            list.push(Code::try_from(top)?)?;
        }
        Ok(Poly::from_vec(list))
    }

    /// A row of `width` such polynomials.
    fn row(
        &mut self,
        alloc: Global,
        q: usize,
        len: usize,
        width: usize,
    ) -> Result<Vec<Poly<Code>>, Fail> {
        let mut row = Vec::new(alloc);
        for _ in 0..width {
            row.push(self.poly(alloc, q, len)?)?;
        }
        Ok(row)
    }
}

/// A matrix of such polynomials with these numbers of rows and of entries in a row, over a field with the codes below `q`.
pub fn matrix<F: Field<Elem = Code>>(
    alloc: Global,
    f: &F,
    random: &mut Random,
    q: usize,
    len: usize,
    sizes: [usize; 2],
) -> Result<PolyRows<Code>, Fail>
    ensures width { IfOk result (λ v. 1 ≤ v.width) }
    ensures rows { IfOk result (λ v. are_rows (poly_ops (F.ops f.now)) v.width v.rows ≡ true) }
{
    let [n, width] = sizes;
    let mut m = PolyRows::new(alloc, width);
    for _ in 0..n {
        let row = random.row(alloc, q, len, m.width())?;
        holds(row.len() == m.width(), "a row of the width")?;
        m.push(row)?;
    }
    checked_rows(f, m)
}

/// Row `i` of a matrix with ones at the diagonal, zeros above it and polynomials below.
fn triangular_row(
    alloc: Global,
    random: &mut Random,
    q: usize,
    n: usize,
    i: usize,
) -> Result<Vec<Poly<Code>>, Fail> {
    let mut row = Vec::new(alloc);
    for j in 0..n {
        let mut entry = Vec::new(alloc);
        if j == i {
            entry.push(1)?;
        }
        row.push(if j < i {
            random.poly(alloc, q, 2)?
        } else {
            Poly::from_vec(entry)
        })?;
    }
    Ok(row)
}

/// An invertible matrix with `n` rows.
pub fn triangular<F: Field<Elem = Code>>(
    alloc: Global,
    f: &F,
    random: &mut Random,
    q: usize,
    n: usize,
) -> Result<PolyRows<Code>, Fail>
    ensures width { IfOk result (λ v. 1 ≤ v.width) }
    ensures rows { IfOk result (λ v. are_rows (poly_ops (F.ops f.now)) v.width v.rows ≡ true) }
{
    let mut m = PolyRows::new(alloc, n);
    for i in 0..n {
        let row = triangular_row(alloc, random, q, n, i)?;
        holds(row.len() == m.width(), "a row of the width")?;
        m.push(row)?;
    }
    checked_rows(f, m)
}
