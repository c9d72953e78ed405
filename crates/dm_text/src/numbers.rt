//! Numbers and their canonical texts.

ghost use Rattle.std.specs.Prelude.{◌≡◌, ◌^◌, ◌<◌, ◌≤◌, IfSome, Some, ℕ, ℤ, List, FitsSigned};
ghost use Rattle.std.specs.Fmt.{decimal, signed_decimal};
ghost use Rattle.std.specs.Int.{w64};
ghost use Rattle.dm_text.specs.Text.{Appends, number_of, begins_number, signed_of};

use crate::shown::put_text;
use dm_event::NoMemory;
use std::alloc::Global;
use std::str;

// Whether the first byte, and the length after a `0`, are those of a canonical number.
fn begins_number(word: &[u8]) -> bool
    ensures { result ≡ begins_number word.now }
{
    match word {
        [] => false,
        [b'0', rest @ ..] => rest.is_empty(),
        [first, ..] => b'1' <= *first && *first <= b'9',
    }
}

/// The number up to `most` of which the word is the canonical text: `0`, or digits of which the
/// first isn't `0`.
pub fn number(word: &[u8], most: u64) -> Option<u64>
    ensures exact { result ≡ number_of most word.now }
    ensures fits { IfSome result (λ n. n ≤ most) }
{
    if !begins_number(word) {
        return None;
    }
    let Ok(text) = str::from_utf8(word) else {
        return None;
    };
    match text.parse::<u64>() {
        Ok(n) => if n <= most { Some(n) } else { None },
        Err(_) => None,
    }
}

/// The signed number of which the word is the canonical text: that of a number, or `-` and that of
/// a number other than 0.
#[tactic(auto, unfolding(crate::specs::Text::signed_of))]
pub fn signed(word: &[u8]) -> Option<i64>
    ensures { result ≡ signed_of word.now }
{
    match word {
        [] => None,
        // the least number has no counterpart above 0, so the size is lowered by one first
        [b'-', size @ ..] => match number(size, 1 << 63) {
            None | Some(0) => None,
            Some(n) => Some(-((n - 1) as i64) - 1),
        },
        _ => Some(number(word, i64::MAX as u64)? as i64),
    }
}

/// Appends the canonical text of a number.
pub fn put_number(alloc: Global, out: &mut Vec<u8>, n: u64) -> Result<(), NoMemory>
    ensures { Appends result out.old.items out.new.items (decimal n) }
{
    put_text(out, &n.to_string(alloc)?)
}

/// Appends the canonical text of a signed number.
pub fn put_signed(alloc: Global, out: &mut Vec<u8>, n: i64) -> Result<(), NoMemory>
    ensures { Appends result out.old.items out.new.items (signed_decimal n) }
{
    put_text(out, &n.to_string(alloc)?)
}

/// What is read of a written number is that number, and no other word is read as it.
pub fn numbers_both_ways()
    ensures back { (most n : ℕ) → n ≤ most → most < 2 ^ 64 → number_of most (decimal n) ≡ Some n }
    ensures only { (most n : ℕ) (word : List ℕ) → number_of most word ≡ Some n → (word ≡ decimal n) × (n ≤ most) }
    ensures signed_back { (z : ℤ) → FitsSigned w64 z → signed_of (signed_decimal z) ≡ Some z }
    ensures signed_only { (z : ℤ) (word : List ℕ) → signed_of word ≡ Some z → (word ≡ signed_decimal z) × FitsSigned w64 z }
{}
