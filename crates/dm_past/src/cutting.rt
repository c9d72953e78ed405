//! The lines of a text.

ghost use Rattle.std.specs.Prelude.{◌≡◌, ◌∷◌, ◌<◌, IfOk, length, map, not, ◌==◌};
ghost use Rattle.std.specs.List.{list_all};
ghost use Rattle.dm_kinds.specs.Marks.{pieces_of};
ghost use Rattle.dm_past.specs.Cuts.{is_piece, are_pieces, is_spaced, lines_in};

use dm_event::NoMemory;
use dm_kinds::{cut_at, pieces};
use std::alloc::Global;

fn lacks_tab(piece: &[u8]) -> bool
    ensures { result ≡ list_all (λ b. not (b == 9)) piece.now }
{
    piece.iter().all(|b| *b != b'\t')
}

fn is_piece(piece: &[u8]) -> bool
    ensures { result ≡ is_piece piece.now }
{
    !piece.is_empty() && lacks_tab(piece)
}

#[tactic(auto, unfolding(crate::specs::Cuts::are_pieces))]
fn are_pieces(pieces: &[&[u8]]) -> bool
    ensures { result ≡ are_pieces (map (λ piece. piece.now) pieces.now) }
{
    for piece in pieces {
        if !is_piece(piece) {
            return false;
        }
    }
    true
}

/// Whether the line is words with one space between each two.
#[tactic(auto, unfolding(crate::specs::Cuts::is_spaced))]
pub(crate) fn is_spaced(alloc: Global, line: &[u8]) -> Result<bool, NoMemory>
    ensures { IfOk result (λ spaced. spaced ≡ is_spaced line.now) }
{
    Ok(are_pieces(&pieces(alloc, line, b' ')?))
}

/// The first line of a text, whether a line feed ends it, and what follows.
pub(crate) fn first_line(text: &[u8]) -> (&[u8], bool, &[u8])
    requires { 0 < length text.now }
    ensures first { lines_in (pieces_of 10 text.now) ≡ (result.0.now, result.1) ∷ lines_in (pieces_of 10 result.2.now) }
    ensures shorter { length result.2.now < length text.now }
{
    match cut_at(text, b'\n') {
        None => (text, false, &[]),
        Some((line, after)) => (line, true, after),
    }
}
