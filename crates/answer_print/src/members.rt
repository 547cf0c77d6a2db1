//! Lists of homomorphisms, and their counts.
ghost use Rattle.std.specs.Prelude.{◌≡◌, ◌++◌, [], codes, decimal, OnOk};
ghost use Rattle.std.specs.List.{flat_map};
ghost use Rattle.answer.specs.Elements.{twisted_text};
ghost use Rattle.answer.specs.Texts.{line, degree_text, members_text};

use super::lines::{write_number_line, write_twisted_line};
use super::terms::write_labelled;
use field_tower::{TopElem, Tower};
use ore_poly::Ore;
use ring_core::NoMemory;
use std::alloc::Global;

/// Appends a line for each twisted polynomial, in their order.
fn write_each(
    alloc: Global,
    into: &mut Vec<u8>,
    top: &Tower,
    list: &[Ore<TopElem>],
) -> Result<(), NoMemory>
    ensures { OnOk result (into.new.items ≡ into.old.items ++ flat_map (λ u. line [] (twisted_text top.now u)) list.now) }
{
    for u in list {
        write_twisted_line(alloc, into, top, b"", u)?;
    }
    Ok(())
}

/// Appends the lines of a list of homomorphisms: how many there are, and then each of them.
pub(crate) fn write_members(
    alloc: Global,
    into: &mut Vec<u8>,
    top: &Tower,
    list: &[Ore<TopElem>],
) -> Result<(), NoMemory>
    ensures { OnOk result (into.new.items ≡ into.old.items ++ members_text top.now list.now) }
{
    write_number_line(into, b"members ", list.len())?;
    write_each(alloc, into, top, list)
}

/// Appends the greatest degree of the members, where there are any.
fn write_degree(into: &mut Vec<u8>, degree: Option<usize>) -> Result<(), NoMemory>
    ensures { OnOk result (into.new.items ≡ into.old.items ++ degree_text degree) }
{
    let Some(d) = degree else {
        return Ok(());
    };
    write_labelled(into, b", degree ", d)
}

/// Appends the line of a count of homomorphisms and of the greatest of their degrees.
pub(crate) fn write_count(
    into: &mut Vec<u8>,
    members: u32,
    degree: Option<usize>,
) -> Result<(), NoMemory>
    ensures { OnOk result (into.new.items
        ≡ into.old.items ++ line (codes "members ") (decimal members ++ degree_text degree)) }
{
    write_labelled(into, b"members ", members as usize)?;
    write_degree(into, degree)?;
    into.extend_from_slice(b"\n")?;
    Ok(())
}
