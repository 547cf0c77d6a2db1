//! How long the kernel of a linear system takes, and how many products of the field it makes; what the
//! calls of fields take; what the least relation of Frobenius, the height and an image of a module take; how many row
//! operations the relations of rows of polynomials take; and how long the reader of scripts takes.
//! With the word `linear` four large systems are measured, with `fields` the fields, with `frobenius` four
//! modules, with `modules` one of rank 8, with `reductions` the rows of which full lists are made, with `parse` the
//! script on standard input; with no word small systems and products, whose counts are compared with a bound.
#![tactic(auto)]

ghost use Rattle.std.specs.Prelude.{◌≡◌, ◌<◌, true};
ghost use Rattle.linear_algebra.specs.Linear.{are_rows};

mod fields;
mod frobenius;
mod modules;
mod random;
mod reductions;
mod scripts;

use field_tower::{BaseField, multiply};
use fields::{BYTES, LETTER, NINE, degree};
use fq_linear::{Rows, kernel};
use random::{Random, Shape, random_rows};
use ring_core::lists::all_elems;
use ring_core::{E, Field};
use std::process::ExitCode;
use std::time::{Duration, Instant};
use std::{env, io};
use tests_support::counting::CountingField;

/// What a kernel cost: products of the field, and time.
#[derive(Drop)]
struct Cost {
    rows: usize,
    width: usize,
    rank: usize,
    products: u64,
    time: Duration,
}

impl Cost {
    /// The most products that the kernel may make: `2 * rows * rank * (rows + width)`.
    fn bound(&self) -> u64 {
        2u64.saturating_mul(self.rows as u64)
            .saturating_mul(self.rank as u64)
            .saturating_mul((self.rows as u64).saturating_add(self.width as u64))
    }

    fn is_within(&self) -> bool {
        self.products <= self.bound()
    }
}

fn invalid() -> io::Error {
    io::Error::from(io::ErrorKind::InvalidData)
}

fn no_memory() -> io::Error {
    io::Error::from(io::ErrorKind::OutOfMemory)
}

/// Runs the kernel of the rows twice: over the field, whose time is taken, and over a field around it that counts. The
/// rank is the number of rows less that of independent relations.
fn measure<K: Field>(rt: &HostRuntime, field: &K, rows: &Rows<E<K>>) -> io::Result<Cost>
    requires { are_rows (K.ops field.now) rows.now.width rows.now.rows ≡ true }
{
    let start = Instant::now(rt)?;
    let Ok(timed) = kernel(rt.alloc(), field, rows) else {
        return Err(no_memory());
    };
    let time = start.elapsed(rt)?;
    let counting_field = CountingField::new(field);
    let Ok(relations) = kernel(rt.alloc(), &counting_field, rows) else {
        return Err(no_memory());
    };
    if timed.len() != relations.len() {
        return Err(invalid());
    }
    Ok(Cost {
        rows: rows.len(),
        width: rows.width(),
        rank: rows.len().saturating_sub(relations.len()),
        products: counting_field.products(),
        time,
    })
}

/// The products of the field that a product of two residues makes, modulo a monic polynomial of degree `n`;
/// all other coefficients are `c`.
fn residue_products<K: Field>(rt: &HostRuntime, field: &K, c: E<K>, n: usize) -> io::Result<u64>
    requires { 0 < n }
{
    let alloc = rt.alloc();
    let counting_field = CountingField::new(field);
    let mut modulus = vec![in alloc; c; n.saturating_add(1)]?;
    if let Some(top) = modulus.last_mut() {
        *top = field.one();
    }
    let a = vec![in alloc; c; n]?;
    let mut out = vec![in alloc; c; n]?;
    if !all_elems(&counting_field, &modulus)
        || !all_elems(&counting_field, &a)
        || !all_elems(&counting_field, &out)
    {
        return Err(invalid());
    }
    multiply(&counting_field, &modulus, &a, &a, &mut out);
    Ok(counting_field.products())
}

/// The cost of a system over the residues modulo `p` and this modulus, with this many rows, places of a row, and places
/// of a row that are drawn.
fn cost_of(rt: &HostRuntime, p: u32, modulus: &[u32], sizes: [usize; 3]) -> io::Result<Cost> {
    let Ok(field) = BaseField::make(rt.alloc(), p, degree(modulus), modulus) else {
        return Err(no_memory());
    };
    let [rows, width, drawn] = sizes;
    let shape = Shape { rows, width, drawn };
    let mut random = Random::new(2026);
    let Ok(rows) = random_rows(rt.alloc(), &field, &mut random, &shape) else {
        return Err(no_memory());
    };
    if rows.len() != shape.rows {
        return Err(invalid());
    }
    measure(rt, &field, &rows)
}

fn print(rt: &HostRuntime, name: &str, cost: &Cost) -> io::Result<()> {
    let millis = cost.time.as_millis();
    println!(rt;
        "{name}: {} rows of {} places, rank {}",
        cost.rows, cost.width, cost.rank
    )?;
    println!(rt; "  seconds {}.{:03}", millis / 1000, millis % 1000)?;
    println!(rt; "  products {}, bound {}", cost.products, cost.bound())?;
    Ok(())
}

/// Measures dense systems over 256 elements and over nine, and sparse ones over two and over 251.
fn large(rt: &HostRuntime) -> io::Result<bool> {
    let bytes = cost_of(rt, 2, BYTES, [800, 900, 900])?;
    print(rt, "dense, 256 elements", &bytes)?;
    let nine = cost_of(rt, 3, NINE, [800, 900, 900])?;
    print(rt, "dense, 9 elements", &nine)?;
    let sparse = cost_of(rt, 2, LETTER, [520, 584, 40])?;
    print(rt, "sparse, 2 elements", &sparse)?;
    let numbers = cost_of(rt, 251, LETTER, [520, 584, 40])?;
    print(rt, "sparse, 251 elements", &numbers)?;
    Ok(bytes.is_within() && nine.is_within() && sparse.is_within() && numbers.is_within())
}

/// Compares the products of small systems with the bound, and prints a line that is always the same
/// where all stay within it. One has more rows than places, so that some depend on others, and one is
/// all zeros, whose bound is zero.
fn small(rt: &HostRuntime) -> io::Result<bool> {
    for sizes in [[40, 45, 45], [45, 40, 40], [40, 45, 5], [40, 45, 0]] {
        let bytes = cost_of(rt, 2, BYTES, sizes)?;
        let bits = cost_of(rt, 2, LETTER, sizes)?;
        if !bytes.is_within() || !bits.is_within() {
            return Ok(false);
        }
    }
    println!(rt; "kernel: the count of products is within its bound")?;
    Ok(true)
}

/// Compares the products of a product of residues with the bound `2 n^2`, and prints a line that is
/// always the same where all stay within it.
fn small_residues(rt: &HostRuntime) -> io::Result<bool> {
    let Ok(field) = BaseField::make(rt.alloc(), 2, 8, BYTES) else {
        return Err(no_memory());
    };
    for n in 1..17 {
        if residue_products(rt, &field, 3, n)? > 2 * (n * n) as u64 {
            return Ok(false);
        }
    }
    println!(rt; "residues: the count of products is within its bound")?;
    Ok(true)
}

fn run(rt: &HostRuntime) -> io::Result<bool> {
    let words: Vec<String> = env::args(rt)?.skip(1).collect(rt.alloc())?;
    match words.first() {
        None => Ok(small(rt)? && small_residues(rt)?),
        Some(word) if word.as_str() == "linear" => large(rt),
        Some(word) if word.as_str() == "fields" => {
            fields::print_all(rt)?;
            Ok(true)
        }
        Some(word) if word.as_str() == "frobenius" => {
            frobenius::print_all(rt)?;
            Ok(true)
        }
        Some(word) if word.as_str() == "modules" => {
            modules::print_all(rt)?;
            Ok(true)
        }
        Some(word) if word.as_str() == "reductions" => {
            reductions::print_all(rt)?;
            Ok(true)
        }
        Some(word) if word.as_str() == "parse" => {
            scripts::print_parse(rt)?;
            Ok(true)
        }
        Some(_) => Ok(false),
    }
}

fn main(rt: HostRuntime) -> ExitCode {
    match run(&rt) {
        Ok(true) => ExitCode::SUCCESS,
        _ => ExitCode::FAILURE,
    }
}
