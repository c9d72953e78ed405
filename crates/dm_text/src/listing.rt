//! All words of a line.

ghost use Rattle.std.specs.Prelude.{◌≡◌, ◌≤◌, length, map, vec_len, IfOk};
ghost use Rattle.dm_text.specs.Text.{words_of};

use crate::iterating::Words;
use dm_event::NoMemory;
use std::alloc::Global;

/// The words of a line: its runs of bytes other than space and tab.
pub fn words(alloc: Global, line: &[u8]) -> Result<Vec<&[u8]>, NoMemory>
    ensures exact { IfOk result (λ found. map (λ word. word.now) found.items ≡ words_of line.now) }
    ensures few { IfOk result (λ found. vec_len found ≤ length line.now) }
{
    let mut found = Vec::new(alloc);
    let mut words = Words::of(line);
    while let Some(word) = words.next() {
        found.push(word)?;
    }
    Ok(found)
}
