//! Causes: why an attempt failed, and why an item was refused.

ghost use Rattle.std.specs.Prelude.{◌≡◌, ◌≤◌};
ghost use Rattle.dm_fields.specs.Fields.{Gives, spelled};
ghost use Rattle.dm_kinds.specs.Kinds.{damage_at, undeclared_of, log_of, damage_of, memory_of, refusal_of, own_log_of, own_damage_of, cause_of};

use crate::neat::word_count;
use crate::value::{byte_of, key_of};
use dm_event::{Cause, SiteNo};
use dm_fields::{LineError, is, u8_at, u64_at, unknown_at, word};

/// `PLACE READ WRITTEN` from a place on.
#[tactic(auto, unfolding(crate::specs::Kinds::damage_at))]
fn damage_at(words: &[&[u8]], site: SiteNo, n: usize) -> Result<Cause, LineError>
    requires { n ≤ 6 }
    ensures { Gives (λ x. x) result (damage_at (spelled words.now) site n) }
{
    let place = u64_at(words, n)?;
    let read = byte_of(word(words, n + 1))?;
    let written = byte_of(word(words, n + 2))?;
    Ok(Cause::Damage {
        site,
        place,
        read,
        written,
    })
}

#[tactic(auto, unfolding(crate::specs::Kinds::memory_of))]
fn memory_of(neat: bool, words: &[&[u8]], count: usize) -> Result<Cause, LineError>
    ensures { Gives (λ x. x) result (memory_of neat (spelled words.now) count) }
{
    word_count(neat, words, count)?;
    Ok(Cause::Memory)
}

#[tactic(auto, unfolding(crate::specs::Kinds::undeclared_of))]
fn undeclared_of(neat: bool, words: &[&[u8]]) -> Result<Cause, LineError>
    ensures { Gives (λ x. x) result (undeclared_of neat (spelled words.now)) }
{
    word_count(neat, words, 6)?;
    let key = key_of(word(words, 5))?;
    Ok(Cause::Undeclared { key })
}

#[tactic(auto, unfolding(crate::specs::Kinds::log_of))]
fn log_of(neat: bool, words: &[&[u8]]) -> Result<Cause, LineError>
    ensures { Gives (λ x. x) result (log_of neat (spelled words.now)) }
{
    word_count(neat, words, 6)?;
    let site = u8_at(words, 5)?;
    Ok(Cause::Log { site })
}

#[tactic(auto, unfolding(crate::specs::Kinds::damage_of))]
fn damage_of(neat: bool, words: &[&[u8]]) -> Result<Cause, LineError>
    ensures { Gives (λ x. x) result (damage_of neat (spelled words.now)) }
{
    word_count(neat, words, 9)?;
    let site = u8_at(words, 5)?;
    damage_at(words, site, 6)
}

/// The cause of `reply C N refused CAUSE`, which has a site.
#[tactic(auto, unfolding(crate::specs::Kinds::refusal_of))]
pub(crate) fn refusal_of(neat: bool, words: &[&[u8]]) -> Result<Cause, LineError>
    ensures { Gives (λ x. x) result (refusal_of neat (spelled words.now)) }
{
    let cause = word(words, 4);
    if is(cause, b"undeclared") {
        undeclared_of(neat, words)
    } else if is(cause, b"log") {
        log_of(neat, words)
    } else if is(cause, b"damage") {
        damage_of(neat, words)
    } else if is(cause, b"memory") {
        memory_of(neat, words, 5)
    } else {
        Err(LineError::Fault(unknown_at(words, 4)))
    }
}

#[tactic(auto, unfolding(crate::specs::Kinds::own_log_of))]
fn own_log_of(neat: bool, words: &[&[u8]]) -> Result<Cause, LineError>
    ensures { Gives (λ x. x) result (own_log_of neat (spelled words.now)) }
{
    word_count(neat, words, 4)?;
    let site = u8_at(words, 1)?;
    Ok(Cause::Log { site })
}

#[tactic(auto, unfolding(crate::specs::Kinds::own_damage_of))]
fn own_damage_of(neat: bool, words: &[&[u8]]) -> Result<Cause, LineError>
    ensures { Gives (λ x. x) result (own_damage_of neat (spelled words.now)) }
{
    word_count(neat, words, 7)?;
    let site = u8_at(words, 1)?;
    damage_at(words, site, 4)
}

/// The cause of `fail I TXN CAUSE`, which is of the step's own site.
#[tactic(auto, unfolding(crate::specs::Kinds::cause_of))]
pub(crate) fn cause_of(neat: bool, words: &[&[u8]]) -> Result<Cause, LineError>
    ensures { Gives (λ x. x) result (cause_of neat (spelled words.now)) }
{
    let cause = word(words, 3);
    if is(cause, b"log") {
        own_log_of(neat, words)
    } else if is(cause, b"memory") {
        memory_of(neat, words, 4)
    } else if is(cause, b"damage") {
        own_damage_of(neat, words)
    } else {
        Err(LineError::Fault(unknown_at(words, 3)))
    }
}
