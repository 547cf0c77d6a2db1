ghost use Rattle.std.specs.Prelude.{◌≡◌, ◌==◌, [], ◌∷◌, ◌<◌, length, MatchOption, IfSome};
ghost use Rattle.std.specs.List.{position, position_or_len, before_first, list_all};
ghost use Rattle.std.specs.Str.Lines.{strip_carriage_return};
ghost use Rattle.script_lang.specs.Lines.{lines, content, is_space, is_blank};

/// The first line of a script and what follows it; None where there is none.
///
/// A line ends before a line feed, which belongs to neither part. What follows the last line feed is
/// one more line where it isn't empty.
pub fn next_line(script: &[u8]) -> Option<(&[u8], &[u8])>
    ensures first { MatchOption result (script.now ≡ []) (λ p. lines script.now ≡ p.0.now ∷ lines p.1.now) }
    ensures shorter { IfSome result (λ p. length p.1.now < length script.now) }
{
    if script.is_empty() {
        return None;
    }
    let Some(end) = place(script, b'\n') else {
        return Some((script, &script[script.len()..]));
    };
    Some((&script[..end], &script[end + 1..]))
}

/// What a line says: without one carriage return at its end, and without its comment, which is all
/// from the first `#` on.
pub fn content_of(line: &[u8]) -> &[u8]
    ensures { result.now ≡ content line.now }
{
    without_comment(without_return(line))
}

/// Whether a line says nothing: its content has spaces and tabs alone.
pub fn is_blank(line: &[u8]) -> bool
    ensures { result ≡ is_blank line.now }
{
    content_of(line).iter().all(|byte| is_space(*byte))
}

/// Whether the byte is a space or a tab.
pub fn is_space(byte: u8) -> bool
    ensures { result ≡ is_space byte }
{
    byte == b' ' || byte == b'\t'
}

fn without_return(line: &[u8]) -> &[u8]
    ensures { result.now ≡ strip_carriage_return line.now }
{
    if line.last() == Some(&b'\r') {
        return &line[..line.len() - 1];
    }
    line
}

fn without_comment(line: &[u8]) -> &[u8]
    ensures { result.now ≡ before_first (λ b. b == 35) line.now }
{
    let Some(start) = place(line, b'#') else {
        return line;
    };
    &line[..start]
}

/// The first place of a byte.
fn place(bytes: &[u8], byte: u8) -> Option<usize>
    ensures { result ≡ position (λ b. b == byte) bytes.now }
{
    bytes.iter().position(|b| *b == byte)
}
