ghost use Rattle.std.specs.Prelude.{◌≡◌, ◌++◌, ◌+◌, ◌/◌, ◌<◌, length, IfOk, OnOk};
ghost use Rattle.sample_script.specs.Sample.{next_value, element, top_element, name_of, module_text, module_line, count_line, twelve, sample_text};

use super::draws::Draws;
use answer_print::digit_sum;
use itoa::Buffer;
use ring_core::NoMemory;
use std::alloc::Global;

/// The element of a draw.
#[tactic(auto, unfolding(crate::specs::Sample::element))]
fn element(alloc: Global, draw: u32) -> Result<Vec<u8>, NoMemory>
    requires { draw < 256 }
    ensures { IfOk result (λ v. v.items ≡ element draw) }
{
    digit_sum(alloc, b"z", 2, 8, draw as u16)
}

/// The highest coefficient of a draw.
fn top_element(alloc: Global, draw: u32) -> Result<Vec<u8>, NoMemory>
    requires { draw < 256 }
    ensures { IfOk result (λ v. v.items ≡ top_element draw) }
{
    if draw == 0 {
        return Ok(b"1".to_vec(alloc)?);
    }
    element(alloc, draw)
}

/// Appends the name of the module with this number.
fn write_name(into: &mut Vec<u8>, k: u32) -> Result<(), NoMemory>
    ensures { OnOk result (into.new.items ≡ into.old.items ++ name_of k) }
{
    let mut buffer = Buffer::new();
    into.extend_from_slice(b"m")?;
    into.extend_from_slice(buffer.format(k).as_bytes())?;
    Ok(())
}

/// Appends the line of the module with this number, of the next two draws.
fn write_module(
    alloc: Global,
    into: &mut Vec<u8>,
    k: u32,
    draws: &mut Draws,
) -> Result<(), NoMemory>
    ensures text { OnOk result (into.new.items ≡ into.old.items
        ++ module_text k (next_value draws.old.value / 16777216) (next_value (next_value draws.old.value) / 16777216)) }
    ensures draws { OnOk result (draws.new.value ≡ next_value (next_value draws.old.value)) }
{
    let middle = element(alloc, draws.next())?;
    let top = top_element(alloc, draws.next())?;
    into.extend_from_slice(b"module ")?;
    write_name(into, k)?;
    into.extend_from_slice(b" = [z, ")?;
    into.extend_from_slice(&middle)?;
    into.extend_from_slice(b", ")?;
    into.extend_from_slice(&top)?;
    into.extend_from_slice(b"]\n")?;
    Ok(())
}

/// Appends the lines of the modules.
fn write_modules(alloc: Global, into: &mut Vec<u8>, n: u32) -> Result<(), NoMemory>
    ensures { OnOk result (into.new.items ≡ into.old.items ++ twelve (module_line n)) }
{
    let mut draws = Draws { value: n };
    for k in 1..13u32 {
        write_module(alloc, into, k, &mut draws)?;
    }
    Ok(())
}

/// Appends the line that counts the endomorphisms of the module with this number.
fn write_count(into: &mut Vec<u8>, k: u32) -> Result<(), NoMemory>
    ensures { OnOk result (into.new.items ≡ into.old.items ++ count_line k) }
{
    into.extend_from_slice(b"fullsize ")?;
    write_name(into, k)?;
    into.extend_from_slice(b" ")?;
    write_name(into, k)?;
    into.extend_from_slice(b"\n")?;
    Ok(())
}

/// Appends the lines of the counts.
fn write_counts(into: &mut Vec<u8>) -> Result<(), NoMemory>
    ensures { OnOk result (into.new.items ≡ into.old.items ++ twelve count_line) }
{
    for k in 1..13u32 {
        write_count(into, k)?;
    }
    Ok(())
}

/// The sample script of a number: a field of 256 elements, twelve modules of rank 2 whose coefficients are drawn from
/// the number, and a count of the endomorphisms of each. It has 26 lines, and fewer than 2,000 bytes.
/// `NoMemory` where memory is refused.
#[tactic(auto, unfolding(crate::specs::Sample::sample_text))]
pub fn sample(alloc: Global, n: u32) -> Result<Vec<u8>, NoMemory>
    ensures text { IfOk result (λ v. v.items ≡ sample_text n) }
    ensures short { IfOk result (λ v. length v.items < 2000) }
{
    let mut text = b"base 2\nover 8 z^8+z^4+z^3+z+1\n".to_vec(alloc)?;
    write_modules(alloc, &mut text, n)?;
    write_counts(&mut text)?;
    Ok(text)
}
