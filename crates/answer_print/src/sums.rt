//! Sums of terms, and texts in brackets.
ghost use Rattle.std.specs.Prelude.{◌≡◌, ◌++◌, map, OnOk};
ghost use Rattle.answer.specs.Sums.{sum_text};
ghost use Rattle.answer.specs.Elements.{bracketed};

use super::printer::Printer;
use super::terms::{place_of, write_separator, write_term};
use ring_core::NoMemory;
use std::alloc::Global;

/// Appends the sum in `letter` with these coefficients, lowest first. Its terms stand from the highest
/// power down where `falls`, else from the lowest up, with a separator between each two.
pub(crate) fn write_sum<P: Printer>(
    alloc: Global,
    into: &mut Vec<u8>,
    printer: &P,
    letter: &[u8],
    separator: &[u8],
    falls: bool,
    list: &[P::Elem],
) -> Result<(), NoMemory>
    ensures { OnOk result (into.new.items
        ≡ into.old.items ++ sum_text (P.printer printer.now) letter.now separator.now falls list.now) }
{
    let mut text = Vec::new(alloc);
    let mut empty = true;
    for i in 0..list.len() {
        let k = place_of(falls, list.len(), i);
        let c = &list[k];
        if printer.is_zero(c) {
            continue;
        }
        text.clear();
        printer.write(alloc, &mut text, c)?;
        write_separator(into, empty, separator)?;
        write_term(into, letter, &text, k)?;
        empty = false;
    }
    if empty {
        into.extend_from_slice(b"0")?;
        return Ok(());
    }
    Ok(())
}

/// Appends the texts of the members in brackets, with a comma and a space between each two.
pub(crate) fn write_bracketed<P: Printer>(
    alloc: Global,
    into: &mut Vec<u8>,
    printer: &P,
    list: &[P::Elem],
) -> Result<(), NoMemory>
    ensures { OnOk result (into.new.items ≡ into.old.items ++ bracketed (map (P.printer printer.now).text list.now)) }
{
    into.extend_from_slice(b"[")?;
    for i in 0..list.len() {
        write_separator(into, i == 0, b", ")?;
        printer.write(alloc, into, &list[i])?;
    }
    into.extend_from_slice(b"]")?;
    Ok(())
}
