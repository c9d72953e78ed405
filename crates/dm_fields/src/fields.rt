//! The parts of a line: fixed words, the number of words, and numbers.

ghost use Rattle.std.specs.Prelude.{◌≡◌, ◌≤◌, IfOk, OnOk, length};
ghost use Rattle.std.specs.Str.{bytes_eq};
ghost use Rattle.dm_fields.specs.Fields.{Gives, spelled, check, word_at, fixed_word, unknown_at, word_count, canonical, u8_at, u16_at, u32_at, u64_at, i64_at};

use crate::fault::LineError;
use dm_event::LineFault;
use dm_text::{number, signed};

/// The word at a place, or no bytes where the line is too short.
#[tactic(auto, unfolding(crate::specs::Fields::word_at))]
pub fn word<'a>(words: &[&'a [u8]], n: usize) -> &'a [u8]
    ensures { result.now ≡ word_at (spelled words.now) n }
{
    if n < words.len() { words[n] } else { &[] }
}

/// Whether the word is that text.
pub fn is(word: &[u8], text: &[u8]) -> bool
    ensures { result ≡ bytes_eq word.now text.now }
{
    word == text
}

/// The fault, unless the test passed.
pub fn require(fault: LineFault, holds: bool) -> Result<(), LineError>
    ensures { Gives (λ x. x) result (check fault holds) }
{
    if holds {
        Ok(())
    } else {
        Err(LineError::Fault(fault))
    }
}

/// A word that is there and isn't the fixed word of its place is a fault.
#[tactic(auto, unfolding(crate::specs::Fields::fixed_word))]
pub fn fixed_word(words: &[&[u8]], n: usize, text: &[u8]) -> Result<(), LineError>
    ensures { Gives (λ x. x) result (fixed_word (spelled words.now) n text.now) }
{
    require(
        LineFault::Word,
        words.len() <= n || is(word(words, n), text),
    )
}

/// What is wrong with a place at which one of some fixed words should stand, and none of them does.
#[tactic(auto, unfolding(crate::specs::Fields::unknown_at))]
pub fn unknown_at(words: &[&[u8]], n: usize) -> LineFault
    ensures { result ≡ unknown_at (spelled words.now) n }
{
    if words.len() <= n {
        LineFault::Count
    } else {
        LineFault::Word
    }
}

/// The line has from `least` to `most` words.
#[tactic(auto, unfolding(crate::specs::Fields::word_count))]
pub fn word_count(words: &[&[u8]], least: usize, most: usize) -> Result<(), LineError>
    ensures exact { Gives (λ x. x) result (word_count (spelled words.now) least most) }
    ensures least { OnOk result (least ≤ length words.now) }
{
    require(
        LineFault::Count,
        least <= words.len() && words.len() <= most,
    )
}

/// The number up to `most` of which the word is the canonical text.
pub fn canonical(word: &[u8], most: u64) -> Result<u64, LineError>
    ensures exact { Gives (λ x. x) result (canonical most word.now) }
    ensures fits { IfOk result (λ n. n ≤ most) }
{
    number(word, most).ok_or(LineError::Fault(LineFault::Number))
}

#[tactic(auto, unfolding(crate::specs::Fields::u8_at))]
pub fn u8_at(words: &[&[u8]], n: usize) -> Result<u8, LineError>
    ensures { Gives (λ x. x) result (u8_at (spelled words.now) n) }
{
    Ok(canonical(word(words, n), u64::from(u8::MAX))? as u8)
}

#[tactic(auto, unfolding(crate::specs::Fields::u16_at))]
pub fn u16_at(words: &[&[u8]], n: usize) -> Result<u16, LineError>
    ensures { Gives (λ x. x) result (u16_at (spelled words.now) n) }
{
    Ok(canonical(word(words, n), u64::from(u16::MAX))? as u16)
}

#[tactic(auto, unfolding(crate::specs::Fields::u32_at))]
pub fn u32_at(words: &[&[u8]], n: usize) -> Result<u32, LineError>
    ensures { Gives (λ x. x) result (u32_at (spelled words.now) n) }
{
    Ok(canonical(word(words, n), u64::from(u32::MAX))? as u32)
}

#[tactic(auto, unfolding(crate::specs::Fields::u64_at))]
pub fn u64_at(words: &[&[u8]], n: usize) -> Result<u64, LineError>
    ensures { Gives (λ x. x) result (u64_at (spelled words.now) n) }
{
    canonical(word(words, n), u64::MAX)
}

#[tactic(auto, unfolding(crate::specs::Fields::i64_at))]
pub fn i64_at(words: &[&[u8]], n: usize) -> Result<i64, LineError>
    ensures { Gives (λ x. x) result (i64_at (spelled words.now) n) }
{
    signed(word(words, n)).ok_or(LineError::Fault(LineFault::Number))
}
