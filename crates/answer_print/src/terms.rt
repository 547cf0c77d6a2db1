//! The terms of a sum.
ghost use Rattle.std.specs.Prelude.{◌≡◌, ◌<◌, ◌++◌, decimal, if◌then◌else◌, OnOk};
ghost use Rattle.answer.specs.Sums.{has_plus, power_text, factor_text, term_text, place};

use itoa::Buffer;
use ring_core::NoMemory;

/// Appends the number in decimal.
pub(crate) fn write_number(into: &mut Vec<u8>, n: usize) -> Result<(), NoMemory>
    ensures { OnOk result (into.new.items ≡ into.old.items ++ decimal n) }
{
    let mut buffer = Buffer::new();
    into.extend_from_slice(buffer.format(n).as_bytes())?;
    Ok(())
}

/// Appends a label and a number in decimal.
pub(crate) fn write_labelled(into: &mut Vec<u8>, label: &[u8], n: usize) -> Result<(), NoMemory>
    ensures { OnOk result (into.new.items ≡ into.old.items ++ (label.now ++ decimal n)) }
{
    into.extend_from_slice(label)?;
    write_number(into, n)
}

/// Appends a power of the letter, which stands alone where the exponent is 1.
fn write_power(into: &mut Vec<u8>, letter: &[u8], k: usize) -> Result<(), NoMemory>
    ensures { OnOk result (into.new.items ≡ into.old.items ++ power_text letter.now k) }
{
    into.extend_from_slice(letter)?;
    if k == 1 {
        return Ok(());
    }
    into.extend_from_slice(b"^")?;
    write_number(into, k)
}

/// Whether the text is that of a sum.
fn has_plus(text: &[u8]) -> bool
    ensures { result ≡ has_plus text.now }
{
    text.iter().any(|b| *b == b'+')
}

/// Appends a coefficient's text as it stands before a power: in parentheses where it is a sum.
fn write_factor(into: &mut Vec<u8>, text: &[u8]) -> Result<(), NoMemory>
    ensures { OnOk result (into.new.items ≡ into.old.items ++ factor_text text.now) }
{
    if has_plus(text) {
        into.extend_from_slice(b"(")?;
        into.extend_from_slice(text)?;
        into.extend_from_slice(b")")?;
        return Ok(());
    }
    into.extend_from_slice(text)?;
    Ok(())
}

/// Appends the term at the power `k` of the letter whose coefficient has this text.
pub(crate) fn write_term(
    into: &mut Vec<u8>,
    letter: &[u8],
    text: &[u8],
    k: usize,
) -> Result<(), NoMemory>
    ensures { OnOk result (into.new.items ≡ into.old.items ++ term_text letter.now text.now k) }
{
    if k == 0 {
        into.extend_from_slice(text)?;
        return Ok(());
    }
    if text == b"1".as_slice() {
        return write_power(into, letter, k);
    }
    write_factor(into, text)?;
    into.extend_from_slice(b"*")?;
    write_power(into, letter, k)
}

/// The `i`-th of `n` places, from the last down where `falls`, else from the first up.
pub(crate) fn place_of(falls: bool, n: usize, i: usize) -> usize
    requires { i < n }
    ensures value { result ≡ place falls n i }
    ensures within { result < n }
{
    if falls { n - (i + 1) } else { i }
}

/// Appends the separator, but before the first text.
pub(crate) fn write_separator(
    into: &mut Vec<u8>,
    first: bool,
    separator: &[u8],
) -> Result<(), NoMemory>
    ensures { OnOk result (into.new.items ≡ if first then into.old.items else into.old.items ++ separator.now) }
{
    if first {
        return Ok(());
    }
    into.extend_from_slice(separator)?;
    Ok(())
}
