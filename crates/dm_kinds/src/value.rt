//! What a word says: an attempt, keys, pairs, ops, a byte, a choice.

ghost use Rattle.std.specs.Prelude.{◌≡◌, []};
ghost use Rattle.dm_fields.specs.Fields.{Gives, spelled};
ghost use Rattle.dm_kinds.specs.Values.{txn_of, key_of, pair_of, op_of, items_from, list_of, byte_of, choice_at, found_at};

use crate::marks::{cut_at, pieces};
use dm_event::{Choice, Found, Key, LineFault, Op, Pair, TxnId};
use dm_fields::{LineError, canonical, is, unknown_at, word};
use dm_text::signed;
use std::alloc::Global;

const NO_NUMBER: LineError = LineError::Fault(LineFault::Number);

#[tactic(auto, unfolding(crate::specs::Values::txn_of))]
pub(crate) fn txn_of(word: &[u8]) -> Result<TxnId, LineError>
    ensures { Gives (λ x. x) result (txn_of word.now) }
{
    let (session, behind) = cut_at(word, b'.').ok_or(NO_NUMBER)?;
    let (number, attempt) = cut_at(behind, b'.').ok_or(NO_NUMBER)?;
    Ok(TxnId {
        session: canonical(session, u64::from(u32::MAX))? as u32,
        number: canonical(number, u64::from(u32::MAX))? as u32,
        attempt: canonical(attempt, u64::MAX)?,
    })
}

#[tactic(auto, unfolding(crate::specs::Values::key_of))]
pub(crate) fn key_of(word: &[u8]) -> Result<Key, LineError>
    ensures { Gives (λ x. x) result (key_of word.now) }
{
    Ok(canonical(word, u64::from(u32::MAX))? as u32)
}

#[tactic(auto, unfolding(crate::specs::Values::pair_of))]
fn pair_of(word: &[u8]) -> Result<Pair, LineError>
    ensures { Gives (λ x. x) result (pair_of word.now) }
{
    let (key, value) = cut_at(word, b':').ok_or(NO_NUMBER)?;
    Ok(Pair {
        key: key_of(key)?,
        value: signed(value).ok_or(NO_NUMBER)?,
    })
}

#[tactic(auto, unfolding(crate::specs::Values::op_of))]
fn op_of(word: &[u8]) -> Result<Op, LineError>
    ensures { Gives (λ x. x) result (op_of word.now) }
{
    match word {
        [b'g', key @ ..] => Ok(Op::Read { key: key_of(key)? }),
        [b'p', pair @ ..] => {
            let Pair { key, value } = pair_of(pair)?;
            Ok(Op::Write { key, value })
        }
        [b'a', pair @ ..] => {
            let Pair { key, value: by } = pair_of(pair)?;
            Ok(Op::Add { key, by })
        }
        _ => Err(NO_NUMBER),
    }
}

#[tactic(auto, unfolding(crate::specs::Values::items_from))]
fn each_key(alloc: Global, pieces: &[&[u8]]) -> Result<Vec<Key>, LineError>
    ensures { Gives (λ v. v.items) result (items_from key_of [] (spelled pieces.now)) }
{
    let mut keys = Vec::new(alloc);
    for piece in pieces {
        keys.push(key_of(piece)?)?;
    }
    Ok(keys)
}

#[tactic(auto, unfolding(crate::specs::Values::items_from))]
fn each_pair(alloc: Global, pieces: &[&[u8]]) -> Result<Vec<Pair>, LineError>
    ensures { Gives (λ v. v.items) result (items_from pair_of [] (spelled pieces.now)) }
{
    let mut pairs = Vec::new(alloc);
    for piece in pieces {
        pairs.push(pair_of(piece)?)?;
    }
    Ok(pairs)
}

#[tactic(auto, unfolding(crate::specs::Values::items_from))]
fn each_op(alloc: Global, pieces: &[&[u8]]) -> Result<Vec<Op>, LineError>
    ensures { Gives (λ v. v.items) result (items_from op_of [] (spelled pieces.now)) }
{
    let mut ops = Vec::new(alloc);
    for piece in pieces {
        ops.push(op_of(piece)?)?;
    }
    Ok(ops)
}

/// Keys with a comma between each two, or `-` for none.
#[tactic(auto, unfolding(crate::specs::Values::list_of))]
pub(crate) fn keys_of(alloc: Global, word: &[u8]) -> Result<Vec<Key>, LineError>
    ensures { Gives (λ v. v.items) result (list_of key_of word.now) }
{
    if is(word, b"-") {
        return Ok(Vec::new(alloc));
    }
    each_key(alloc, &pieces(alloc, word, b',')?)
}

#[tactic(auto, unfolding(crate::specs::Values::list_of))]
pub(crate) fn pairs_of(alloc: Global, word: &[u8]) -> Result<Vec<Pair>, LineError>
    ensures { Gives (λ v. v.items) result (list_of pair_of word.now) }
{
    if is(word, b"-") {
        return Ok(Vec::new(alloc));
    }
    each_pair(alloc, &pieces(alloc, word, b',')?)
}

#[tactic(auto, unfolding(crate::specs::Values::list_of))]
pub(crate) fn ops_of(alloc: Global, word: &[u8]) -> Result<Vec<Op>, LineError>
    ensures { Gives (λ v. v.items) result (list_of op_of word.now) }
{
    if is(word, b"-") {
        return Ok(Vec::new(alloc));
    }
    each_op(alloc, &pieces(alloc, word, b',')?)
}

/// A byte of a log, or `-` past its end.
#[tactic(auto, unfolding(crate::specs::Values::byte_of))]
pub(crate) fn byte_of(word: &[u8]) -> Result<Option<u8>, LineError>
    ensures { Gives (λ x. x) result (byte_of word.now) }
{
    if is(word, b"-") {
        return Ok(None);
    }
    Ok(Some(canonical(word, u64::from(u8::MAX))? as u8))
}

#[tactic(auto, unfolding(crate::specs::Values::choice_at))]
pub(crate) fn choice_at(words: &[&[u8]], n: usize) -> Result<Choice, LineError>
    ensures { Gives (λ x. x) result (choice_at (spelled words.now) n) }
{
    let choice = word(words, n);
    if is(choice, b"master") {
        Ok(Choice::Master)
    } else if is(choice, b"best") {
        Ok(Choice::Best)
    } else if is(choice, b"reader") {
        Ok(Choice::Reader)
    } else if is(choice, b"hand") {
        Ok(Choice::Hand)
    } else {
        Err(LineError::Fault(unknown_at(words, n)))
    }
}

#[tactic(auto, unfolding(crate::specs::Values::found_at))]
pub(crate) fn found_at(words: &[&[u8]], n: usize) -> Result<Found, LineError>
    ensures { Gives (λ x. x) result (found_at (spelled words.now) n) }
{
    let found = word(words, n);
    if is(found, b"clean") {
        Ok(Found::Clean)
    } else if is(found, b"kept") {
        Ok(Found::Kept)
    } else if is(found, b"lost") {
        Ok(Found::Lost)
    } else {
        Err(LineError::Fault(unknown_at(words, n)))
    }
}
