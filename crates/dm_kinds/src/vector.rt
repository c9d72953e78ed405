//! The vector of a line, which may be several words.

ghost use Rattle.std.specs.Prelude.{◌≡◌, ◌≤◌, ◌+◌, [], length, take, drop};
ghost use Rattle.dm_fields.specs.Fields.{Gives, spelled};
ghost use Rattle.dm_kinds.specs.Values.{opens, closes, closed_in, vector_end, last_number, closed_numbers, numbers_of, sized, vector_at};

use dm_event::{LineFault, Schema, SiteNo, Vector};
use dm_fields::{LineError, canonical, word};
use std::alloc::Global;

const NO_NUMBER: LineError = LineError::Fault(LineFault::Number);

fn opens(word: &[u8]) -> bool
    ensures { result ≡ opens word.now }
{
    matches!(word, [b'[', ..])
}

fn closes(word: &[u8]) -> bool
    ensures { result ≡ closes word.now }
{
    matches!(word, [.., b']'])
}

/// How many words there are up to the first that ends with `]`, or at all.
fn closed_in(words: &[&[u8]]) -> usize
    ensures exact { result ≡ closed_in (spelled words.now) }
    ensures few { result ≤ length words.now }
{
    let mut count = 0;
    for word in words {
        count += 1;
        if closes(word) {
            return count;
        }
    }
    count
}

pub(crate) fn words_from<'a>(words: &'a [&'a [u8]], place: usize) -> &'a [&'a [u8]]
    ensures { spelled result.now ≡ drop place (spelled words.now) }
{
    if place <= words.len() {
        &words[place..]
    } else {
        &[]
    }
}

// So many words from a place on, or as many as there are.
fn words_between<'a>(words: &'a [&'a [u8]], place: usize, count: usize) -> &'a [&'a [u8]]
    ensures { spelled result.now ≡ take count (drop place (spelled words.now)) }
{
    let rest = words_from(words, place);
    if count <= rest.len() {
        &rest[..count]
    } else {
        rest
    }
}

/// The place behind the vector that begins at a place. A vector that is opened goes on to the first
/// word that closes it, or to the end of the line.
#[tactic(auto, unfolding(crate::specs::Values::vector_end))]
pub(crate) fn vector_end(words: &[&[u8]], n: usize) -> usize
    requires { n ≤ 6 }
    ensures exact { result ≡ vector_end (spelled words.now) n }
    ensures behind { n ≤ result }
    ensures near { result ≤ length words.now + 7 }
{
    if opens(word(words, n)) {
        n + closed_in(words_from(words, n))
    } else {
        n + 1
    }
}

/// The number before the bracket that closes the vector.
fn last_number(word: &[u8]) -> Result<u64, LineError>
    ensures { Gives (λ x. x) result (last_number word.now) }
{
    match word {
        [digits @ .., b']'] => canonical(digits, u64::MAX),
        _ => Err(NO_NUMBER),
    }
}

/// The numbers of a word and of the words behind it, the last one before a bracket.
#[tactic(auto, unfolding(crate::specs::Values::closed_numbers))]
fn closed_numbers(alloc: Global, first: &[u8], behind: &[&[u8]]) -> Result<Vec<u64>, LineError>
    ensures { Gives (λ v. v.items) result (closed_numbers [] first.now (spelled behind.now)) }
{
    let mut numbers = Vec::new(alloc);
    let mut word = first;
    for next in behind {
        numbers.push(canonical(word, u64::MAX)?)?;
        word = next;
    }
    numbers.push(last_number(word)?)?;
    Ok(numbers)
}

#[tactic(auto, unfolding(crate::specs::Values::numbers_of))]
fn numbers_of(alloc: Global, words: &[&[u8]]) -> Result<Vec<u64>, LineError>
    ensures { Gives (λ v. v.items) result (numbers_of (spelled words.now)) }
{
    match words {
        [[b'[', first @ ..], behind @ ..] => closed_numbers(alloc, first, behind),
        _ => Err(NO_NUMBER),
    }
}

/// The vector of the numbers, where there is one for each site.
#[tactic(auto, unfolding(crate::specs::Values::sized))]
fn sized(schema: &Schema, numbers: &[u64]) -> Option<Vector>
    ensures { result ≡ sized schema.now numbers.now }
{
    let sites = schema.sites();
    if numbers.len() != usize::from(sites) {
        return None;
    }
    let mut vector = Vector::zeros(sites);
    for i in 0..numbers.len() {
        vector.set(i as SiteNo + 1, numbers[i]);
    }
    Some(vector)
}

/// The vector at a place, and None for one of another length than that of the schema.
#[tactic(auto, unfolding(crate::specs::Values::vector_at))]
pub(crate) fn vector_at(
    alloc: Global,
    schema: &Schema,
    words: &[&[u8]],
    n: usize,
) -> Result<Option<Vector>, LineError>
    requires { n ≤ 6 }
    ensures { Gives (λ x. x) result (vector_at schema.now (spelled words.now) n) }
{
    let vector = words_between(words, n, vector_end(words, n) - n);
    let numbers = numbers_of(alloc, vector)?;
    Ok(sized(schema, &numbers))
}
