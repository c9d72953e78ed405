//! The lines of a text and the words of a line, as pieces of it.

ghost use Rattle.std.specs.Prelude.{◌≡◌, ◌<◌, ◌==◌, ◌∷◌, length, vec_len, ◌+◌, ◌≤◌, IfOk, map, position};
ghost use Rattle.std.specs.Str.Lines.{lines, strip_carriage_return};
ghost use Rattle.dm_text.specs.Text.{words_of, is_blank, with_first};

use dm_event::NoMemory;
use std::alloc::Global;

fn line_end(text: &[u8]) -> Option<usize>
    ensures { result ≡ position (λ b. b == 10) text.now }
{
    text.iter().position(|b| *b == b'\n')
}

fn word_end(text: &[u8]) -> Option<usize>
    ensures { result ≡ position is_blank text.now }
{
    text.iter().position(|b| *b == b' ' || *b == b'\t')
}

fn without_return(line: &[u8]) -> &[u8]
    ensures { result.now ≡ strip_carriage_return line.now }
{
    match line {
        [front @ .., b'\r'] => front,
        _ => line,
    }
}

// The first line of a text, without its end, and what follows it.
fn first_line(text: &[u8]) -> (&[u8], &[u8])
    requires { 0 < length text.now }
    ensures first { lines text.now ≡ result.0.now ∷ lines result.1.now }
    ensures shorter { length result.1.now < length text.now }
{
    match line_end(text) {
        None => (text, &[]),
        Some(end) => (without_return(&text[..end]), &text[end + 1..]),
    }
}

/// The lines of a text. A line ends with a line feed, which the last one may lack. A carriage
/// return right before the line feed is no part of the line.
pub fn lines_of(alloc: Global, text: &[u8]) -> Result<Vec<&[u8]>, NoMemory>
    ensures exact { IfOk result (λ found. map (λ line. line.now) found.items ≡ lines text.now) }
    ensures few { IfOk result (λ found. vec_len found ≤ length text.now) }
{
    let mut found = Vec::new(alloc);
    let mut rest = text;
    while !rest.is_empty() {
        let (line, after) = first_line(rest);
        found.push(line)?;
        rest = after;
    }
    Ok(found)
}

// What stands before the first blank, and what after it.
pub(crate) fn first_part(text: &[u8]) -> (&[u8], &[u8])
    requires { 0 < length text.now }
    ensures first { words_of text.now ≡ with_first result.0.now (words_of result.1.now) }
    ensures shorter { length result.1.now < length text.now }
    ensures fits { length result.0.now + length result.1.now ≤ length text.now }
{
    match word_end(text) {
        None => (text, &[]),
        Some(end) => (&text[..end], &text[end + 1..]),
    }
}
