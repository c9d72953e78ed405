//! What a command line says, by its words.

ghost use Rattle.std.specs.Prelude.{◌≡◌, ◌≤◌, ◌<◌, ◌+◌, [], All, IfOk, OnOk, true, length, drop};
ghost use Rattle.std.specs.List.{list_all};
ghost use Rattle.dm_event.specs.Layout.{is_key, key_count};
ghost use Rattle.dm_fields.specs.Fields.{Gives, spelled};
ghost use Rattle.dm_lines.specs.Ranges.{Fits, IsPart, IsSession, are_keys};
ghost use Rattle.dm_lines.specs.Reading.{declared_of, session_of, sent_count, sent_of, chosen_of, place_of, restarted_of, route_of, get_of, write_of, memory_of, fail_of, refresh_of, ask_of, part_of, doubt_of, found_of, restart_of, site_line_of, line_of};

use crate::fields::keys_of;
use crate::line::Line;
use dm_event::{Found, Key, Keys, LineFault, MAX_KEYS, Part, Schema, Value, Want};
use dm_fields::{
    LineError, fixed_word, i64_at, is, require, u8_at, u16_at, u32_at, unknown_at, word, word_count,
};
use std::alloc::Global;

#[tactic(auto, unfolding(crate::specs::Ranges::are_keys))]
fn are_keys(schema: &Schema, keys: &[Key]) -> bool
    ensures { result ≡ are_keys schema.now keys.now }
{
    keys.iter().all(|key| schema.is_key(*key))
}

#[tactic(auto, unfolding(crate::specs::Reading::declared_of))]
fn declared_of(schema: &Schema, keys: Vec<Key>) -> Result<Keys, LineError>
    ensures exact { Gives (λ x. x) result (declared_of schema.now keys.items) }
    ensures keys { IfOk result (λ keys. list_all (is_key schema.now) keys ≡ true) }
{
    require(LineFault::Range, are_keys(schema, &keys))?;
    Keys::new(keys).ok_or(LineError::Fault(LineFault::Repeat))
}

/// The words from this place on.
fn words_from<'a>(words: &'a [&'a [u8]], place: usize) -> &'a [&'a [u8]]
    ensures { result.now ≡ drop place words.now }
{
    if place <= words.len() {
        &words[place..]
    } else {
        &[]
    }
}

/// The session at this place of a line of so many words.
#[tactic(auto, unfolding(crate::specs::Reading::session_of))]
fn session_of(words: &[&[u8]], count: usize, place: usize) -> Result<u32, LineError>
    ensures exact { Gives (λ x. x) result (session_of (spelled words.now) count place) }
    ensures fits { IfOk result (λ session. IsSession session) }
{
    word_count(words, count, count)?;
    let session = u32_at(words, place)?;
    require(LineFault::Range, Schema::is_session(session))?;
    Ok(session)
}

#[tactic(auto, unfolding(crate::specs::Reading::sent_count))]
fn sent_count(words: &[&[u8]]) -> Result<(), LineError>
    ensures { Gives (λ x. x) result (sent_count (spelled words.now)) }
{
    let count = words.len();
    require(
        LineFault::Count,
        count == 4 || 5 + 1 <= count && count <= 5 + MAX_KEYS,
    )
}

/// A transaction that is sent to a site.
#[tactic(auto, unfolding(crate::specs::Reading::sent_of))]
fn sent_of(alloc: Global, schema: &Schema, words: &[&[u8]]) -> Result<Line, LineError>
    ensures exact { Gives (λ x. x) result (sent_of schema.now (spelled words.now)) }
    ensures fit { IfOk result (λ line. Fits schema.now line) }
{
    fixed_word(words, 4, b"keys")?;
    sent_count(words)?;
    let session = u32_at(words, 1)?;
    let site = u8_at(words, 3)?;
    let keys = keys_of(alloc, words_from(words, 5))?;
    require(LineFault::Range, Schema::is_session(session))?;
    require(LineFault::Range, schema.is_site(site))?;
    let declared = declared_of(schema, keys)?;
    Ok(Line::Route {
        session,
        want: Want::Txn(declared),
        site: Some(site),
    })
}

/// A transaction for which the site is chosen.
#[tactic(auto, unfolding(crate::specs::Reading::chosen_of))]
fn chosen_of(alloc: Global, schema: &Schema, words: &[&[u8]]) -> Result<Line, LineError>
    ensures exact { Gives (λ x. x) result (chosen_of schema.now (spelled words.now)) }
    ensures fit { IfOk result (λ line. Fits schema.now line) }
{
    word_count(words, 3 + 1, 3 + MAX_KEYS)?;
    let session = u32_at(words, 1)?;
    let keys = keys_of(alloc, words_from(words, 3))?;
    require(LineFault::Range, Schema::is_session(session))?;
    let declared = declared_of(schema, keys)?;
    Ok(Line::Route {
        session,
        want: Want::Txn(declared),
        site: None,
    })
}

#[tactic(auto, unfolding(crate::specs::Reading::place_of))]
fn place_of(schema: &Schema, words: &[&[u8]]) -> Result<Line, LineError>
    ensures exact { Gives (λ x. x) result (place_of schema.now (spelled words.now)) }
    ensures fit { IfOk result (λ line. Fits schema.now line) }
{
    word_count(words, 5, 5)?;
    let session = u32_at(words, 1)?;
    let part = u16_at(words, 3)?;
    let site = u8_at(words, 4)?;
    require(LineFault::Range, Schema::is_session(session))?;
    require(LineFault::Range, schema.is_part(part))?;
    require(LineFault::Range, schema.is_site(site))?;
    Ok(Line::Route {
        session,
        want: Want::Place(part),
        site: Some(site),
    })
}

#[tactic(auto, unfolding(crate::specs::Reading::restarted_of))]
fn restarted_of(schema: &Schema, words: &[&[u8]]) -> Result<Line, LineError>
    ensures exact { Gives (λ x. x) result (restarted_of schema.now (spelled words.now)) }
    ensures fit { IfOk result (λ line. Fits schema.now line) }
{
    word_count(words, 4, 4)?;
    let session = u32_at(words, 1)?;
    let site = u8_at(words, 3)?;
    require(LineFault::Range, Schema::is_session(session))?;
    require(LineFault::Range, schema.is_site(site))?;
    Ok(Line::Route {
        session,
        want: Want::Restart,
        site: Some(site),
    })
}

fn no_keys(alloc: Global) -> Keys
    ensures { result ≡ [] }
{
    match Keys::new(Vec::new(alloc)) {
        Some(keys) => keys,
        None => unreachable!(),
    }
}

/// The third word says what is routed, and how.
#[tactic(auto, unfolding(crate::specs::Reading::route_of))]
fn route_of(alloc: Global, schema: &Schema, words: &[&[u8]]) -> Result<Line, LineError>
    ensures exact { Gives (λ x. x) result (route_of schema.now (spelled words.now)) }
    ensures fit { IfOk result (λ line. Fits schema.now line) }
{
    if words.len() <= 2 {
        let session = session_of(words, 2, 1)?;
        return Ok(Line::Route {
            session,
            want: Want::Txn(no_keys(alloc)),
            site: None,
        });
    }
    let third = word(words, 2);
    if is(third, b"at") {
        sent_of(alloc, schema, words)
    } else if is(third, b"keys") {
        chosen_of(alloc, schema, words)
    } else if is(third, b"place") {
        place_of(schema, words)
    } else if is(third, b"restart") {
        restarted_of(schema, words)
    } else {
        Err(LineError::Fault(LineFault::Word))
    }
}

#[tactic(auto, unfolding(crate::specs::Reading::get_of))]
fn get_of(schema: &Schema, words: &[&[u8]]) -> Result<Line, LineError>
    ensures exact { Gives (λ x. x) result (get_of schema.now (spelled words.now)) }
    ensures fit { IfOk result (λ line. Fits schema.now line) }
{
    word_count(words, 3, 3)?;
    let session = u32_at(words, 1)?;
    let key = u32_at(words, 2)?;
    require(LineFault::Range, Schema::is_session(session))?;
    require(LineFault::Range, schema.is_key(key))?;
    Ok(Line::Get { session, key })
}

#[tactic(auto, unfolding(crate::specs::Reading::write_of))]
fn write_of(schema: &Schema, words: &[&[u8]]) -> Result<(u32, Key, Value), LineError>
    ensures exact { Gives (λ x. x) result (write_of schema.now (spelled words.now)) }
    ensures session { IfOk result (λ write. IsSession write.0) }
    ensures key { IfOk result (λ write. write.1 < key_count schema.now) }
{
    word_count(words, 4, 4)?;
    let session = u32_at(words, 1)?;
    let key = u32_at(words, 2)?;
    let value = i64_at(words, 3)?;
    require(LineFault::Range, Schema::is_session(session))?;
    require(LineFault::Range, schema.is_key(key))?;
    Ok((session, key, value))
}

/// Whether the failure is for want of memory.
#[tactic(auto, unfolding(crate::specs::Reading::memory_of))]
fn memory_of(words: &[&[u8]]) -> Result<bool, LineError>
    ensures { Gives (λ x. x) result (memory_of (spelled words.now)) }
{
    let cause = word(words, 2);
    if is(cause, b"log") {
        Ok(false)
    } else if is(cause, b"memory") {
        Ok(true)
    } else {
        Err(LineError::Fault(unknown_at(words, 2)))
    }
}

#[tactic(auto, unfolding(crate::specs::Reading::fail_of))]
fn fail_of(words: &[&[u8]]) -> Result<(u32, bool), LineError>
    ensures exact { Gives (λ x. x) result (fail_of (spelled words.now)) }
    ensures fits { IfOk result (λ fail. IsSession fail.0) }
{
    let memory = memory_of(words)?;
    let session = session_of(words, 3, 1)?;
    Ok((session, memory))
}

#[tactic(auto, unfolding(crate::specs::Reading::refresh_of))]
fn refresh_of(schema: &Schema, words: &[&[u8]]) -> Result<Line, LineError>
    ensures exact { Gives (λ x. x) result (refresh_of schema.now (spelled words.now)) }
    ensures fit { IfOk result (λ line. Fits schema.now line) }
{
    word_count(words, 3, 3)?;
    let site = u8_at(words, 1)?;
    let origin = u8_at(words, 2)?;
    require(LineFault::Range, schema.is_site(site))?;
    require(LineFault::Range, schema.is_site(origin))?;
    Ok(Line::Refresh { site, origin })
}

#[tactic(auto, unfolding(crate::specs::Reading::ask_of))]
fn ask_of(schema: &Schema, words: &[&[u8]]) -> Result<Line, LineError>
    ensures exact { Gives (λ x. x) result (ask_of schema.now (spelled words.now)) }
    ensures fit { IfOk result (λ line. Fits schema.now line) }
{
    word_count(words, 3, 3)?;
    let part = u16_at(words, 1)?;
    let session = u32_at(words, 2)?;
    require(LineFault::Range, schema.is_part(part))?;
    require(LineFault::Range, Schema::is_session(session))?;
    Ok(Line::Ask { part, session })
}

/// The partition at this place of a line of so many words.
#[tactic(auto, unfolding(crate::specs::Reading::part_of))]
fn part_of(schema: &Schema, words: &[&[u8]], count: usize, place: usize) -> Result<Part, LineError>
    ensures exact { Gives (λ x. x) result (part_of schema.now (spelled words.now) count place) }
    ensures fits { IfOk result (λ part. IsPart schema.now part) }
{
    word_count(words, count, count)?;
    let part = u16_at(words, place)?;
    require(LineFault::Range, schema.is_part(part))?;
    Ok(part)
}

#[tactic(auto, unfolding(crate::specs::Reading::doubt_of))]
fn doubt_of(schema: &Schema, words: &[&[u8]]) -> Result<Line, LineError>
    ensures exact { Gives (λ x. x) result (doubt_of schema.now (spelled words.now)) }
    ensures fit { IfOk result (λ line. Fits schema.now line) }
{
    let pending = word(words, 1);
    if is(pending, b"commit") {
        let session = session_of(words, 3, 2)?;
        Ok(Line::DoubtCommit { session })
    } else if is(pending, b"release") {
        let part = part_of(schema, words, 3, 2)?;
        Ok(Line::DoubtRelease { part })
    } else if is(pending, b"grant") {
        let part = part_of(schema, words, 3, 2)?;
        Ok(Line::DoubtGrant { part })
    } else {
        Err(LineError::Fault(unknown_at(words, 1)))
    }
}

#[tactic(auto, unfolding(crate::specs::Reading::found_of))]
fn found_of(words: &[&[u8]]) -> Result<Found, LineError>
    ensures { Gives (λ x. x) result (found_of (spelled words.now)) }
{
    let found = word(words, 2);
    if is(found, b"clean") {
        Ok(Found::Clean)
    } else if is(found, b"kept") {
        Ok(Found::Kept)
    } else if is(found, b"lost") {
        Ok(Found::Lost)
    } else {
        Err(LineError::Fault(unknown_at(words, 2)))
    }
}

#[tactic(auto, unfolding(crate::specs::Reading::restart_of))]
fn restart_of(schema: &Schema, words: &[&[u8]]) -> Result<Line, LineError>
    ensures exact { Gives (λ x. x) result (restart_of schema.now (spelled words.now)) }
    ensures fit { IfOk result (λ line. Fits schema.now line) }
{
    let found = found_of(words)?;
    word_count(words, 3, 3)?;
    let site = u8_at(words, 1)?;
    require(LineFault::Range, schema.is_site(site))?;
    Ok(Line::Restart { site, found })
}

/// The command of a line that speaks of a site or a partition.
#[tactic(auto, unfolding(crate::specs::Reading::site_line_of))]
fn site_line_of(schema: &Schema, words: &[&[u8]]) -> Result<Line, LineError>
    ensures exact { Gives (λ x. x) result (site_line_of schema.now (spelled words.now)) }
    ensures fit { IfOk result (λ line. Fits schema.now line) }
{
    let first = word(words, 0);
    if is(first, b"refresh") {
        refresh_of(schema, words)
    } else if is(first, b"ask") {
        ask_of(schema, words)
    } else if is(first, b"release") {
        let part = part_of(schema, words, 2, 1)?;
        Ok(Line::Release { part })
    } else if is(first, b"grant") {
        let part = part_of(schema, words, 2, 1)?;
        Ok(Line::Grant { part })
    } else if is(first, b"settle") {
        let part = part_of(schema, words, 2, 1)?;
        Ok(Line::Settle { part })
    } else if is(first, b"doubt") {
        doubt_of(schema, words)
    } else if is(first, b"restart") {
        restart_of(schema, words)
    } else {
        Err(LineError::Fault(LineFault::Word))
    }
}

/// The command that a line says.
#[tactic(auto, unfolding(crate::specs::Reading::line_of))]
pub(crate) fn line_of(alloc: Global, schema: &Schema, words: &[&[u8]]) -> Result<Line, LineError>
    ensures exact { Gives (λ x. x) result (line_of schema.now (spelled words.now)) }
    ensures fit { IfOk result (λ line. Fits schema.now line) }
{
    let first = word(words, 0);
    if is(first, b"route") {
        route_of(alloc, schema, words)
    } else if is(first, b"begin") {
        let session = session_of(words, 2, 1)?;
        Ok(Line::Begin { session })
    } else if is(first, b"get") {
        get_of(schema, words)
    } else if is(first, b"put") {
        let (session, key, value) = write_of(schema, words)?;
        Ok(Line::Put {
            session,
            key,
            value,
        })
    } else if is(first, b"add") {
        let (session, key, by) = write_of(schema, words)?;
        Ok(Line::Add { session, key, by })
    } else if is(first, b"commit") {
        let session = session_of(words, 2, 1)?;
        Ok(Line::Commit { session })
    } else if is(first, b"reply") {
        let session = session_of(words, 2, 1)?;
        Ok(Line::Reply { session })
    } else if is(first, b"fail") {
        let (session, memory) = fail_of(words)?;
        Ok(Line::Fail { session, memory })
    } else {
        site_line_of(schema, words)
    }
}
