//! Texts cut at a mark.

ghost use Rattle.std.specs.Prelude.{◌≡◌, ◌∷◌, ◌<◌, IfOk, IfSome, IfNone, [], option_map, length, map, position, ◌==◌};
ghost use Rattle.dm_kinds.specs.Marks.{cut_at, pieces_of};

use dm_event::NoMemory;
use std::alloc::Global;

fn mark_at(text: &[u8], mark: u8) -> Option<usize>
    ensures { result ≡ position (λ b. b == mark) text.now }
{
    text.iter().position(|b| *b == mark)
}

/// What stands before the first mark, and what behind it.
pub fn cut_at(text: &[u8], mark: u8) -> Option<(&[u8], &[u8])>
    ensures exact { option_map (λ parts. (parts.0.now, parts.1.now)) result ≡ cut_at mark text.now }
    ensures first { IfSome result (λ parts. pieces_of mark text.now ≡ parts.0.now ∷ pieces_of mark parts.1.now) }
    ensures whole { IfNone result (pieces_of mark text.now ≡ text.now ∷ []) }
    ensures shorter { IfSome result (λ parts. length parts.1.now < length text.now) }
{
    match mark_at(text, mark) {
        None => None,
        Some(end) => Some((&text[..end], &text[end + 1..])),
    }
}

/// The pieces of a text between the marks.
pub fn pieces(alloc: Global, text: &[u8], mark: u8) -> Result<Vec<&[u8]>, NoMemory>
    ensures { IfOk result (λ found. map (λ piece. piece.now) found.items ≡ pieces_of mark text.now) }
{
    let mut found = Vec::new(alloc);
    let mut rest = text;
    while let Some((piece, after)) = cut_at(rest, mark) {
        found.push(piece)?;
        rest = after;
    }
    found.push(rest)?;
    Ok(found)
}
