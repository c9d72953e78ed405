//! The line of any step.

ghost use Rattle.std.specs.Prelude.{◌≡◌, drop};
ghost use Rattle.dm_fields.specs.Fields.{Gives, spelled};
ghost use Rattle.dm_kinds.specs.Kinds.{ask_of, settle_of, begin_of, moved_of, end_of, fail_of, refresh_of, restart_of, site_step_of, step_of};

use crate::act::act_of;
use crate::cause::cause_of;
use crate::neat::word_count;
use crate::range::{fit_ops, fit_pairs};
use crate::reply::reply_of;
use crate::route::route_of;
use crate::value::{found_at, ops_of, pairs_of, txn_of};
use crate::vector::{vector_at, vector_end, words_from};
use dm_event::{LineFault, Ops, Pairs, Schema, Step};
use dm_fields::{LineError, fixed_word, is, require, u8_at, u16_at, u64_at, word};
use std::alloc::Global;

/// `ask P EPOCH TO TXN`.
#[tactic(auto, unfolding(crate::specs::Kinds::ask_of))]
fn ask_of(schema: &Schema, neat: bool, words: &[&[u8]]) -> Result<Step, LineError>
    ensures { Gives (λ x. x) result (ask_of schema.now neat (spelled words.now)) }
{
    word_count(neat, words, 5)?;
    let part = u16_at(words, 1)?;
    let epoch = u64_at(words, 2)?;
    let to = u8_at(words, 3)?;
    let txn = txn_of(word(words, 4))?;
    require(
        LineFault::Range,
        schema.is_part(part) && schema.is_site(to) && Schema::is_session(txn.session),
    )?;
    Ok(Step::Ask {
        part,
        epoch,
        to,
        txn,
    })
}

/// `settle P EPOCH`.
#[tactic(auto, unfolding(crate::specs::Kinds::settle_of))]
fn settle_of(schema: &Schema, neat: bool, words: &[&[u8]]) -> Result<Step, LineError>
    ensures { Gives (λ x. x) result (settle_of schema.now neat (spelled words.now)) }
{
    word_count(neat, words, 3)?;
    let part = u16_at(words, 1)?;
    let epoch = u64_at(words, 2)?;
    require(LineFault::Range, schema.is_part(part))?;
    Ok(Step::Settle { part, epoch })
}

/// `begin I TXN VEC`.
#[tactic(auto, unfolding(crate::specs::Kinds::begin_of))]
fn begin_of(alloc: Global, schema: &Schema, neat: bool, words: &[&[u8]]) -> Result<Step, LineError>
    ensures { Gives (λ x. x) result (begin_of schema.now neat (spelled words.now)) }
{
    word_count(neat, words, vector_end(words, 3))?;
    let site = u8_at(words, 1)?;
    let txn = txn_of(word(words, 2))?;
    let begin = vector_at(alloc, schema, words, 3)?;
    require(
        LineFault::Range,
        schema.is_site(site) && Schema::is_session(txn.session),
    )?;
    let begin = begin.ok_or(LineError::Fault(LineFault::Range))?;
    Ok(Step::Begin { site, txn, begin })
}

/// `moved I TXN`.
#[tactic(auto, unfolding(crate::specs::Kinds::moved_of))]
fn moved_of(schema: &Schema, neat: bool, words: &[&[u8]]) -> Result<Step, LineError>
    ensures { Gives (λ x. x) result (moved_of schema.now neat (spelled words.now)) }
{
    word_count(neat, words, 3)?;
    let site = u8_at(words, 1)?;
    let txn = txn_of(word(words, 2))?;
    require(
        LineFault::Range,
        schema.is_site(site) && Schema::is_session(txn.session),
    )?;
    Ok(Step::Moved { site, txn })
}

/// `end I TXN ops OPS reads PAIRS`.
#[tactic(auto, unfolding(crate::specs::Kinds::end_of))]
fn end_of(alloc: Global, schema: &Schema, neat: bool, words: &[&[u8]]) -> Result<Step, LineError>
    ensures { Gives (λ x. x) result (end_of schema.now neat (spelled words.now)) }
{
    fixed_word(words, 3, b"ops")?;
    fixed_word(words, 5, b"reads")?;
    word_count(neat, words, 7)?;
    let site = u8_at(words, 1)?;
    let txn = txn_of(word(words, 2))?;
    let ops = ops_of(alloc, word(words, 4))?;
    let reads = pairs_of(alloc, word(words, 6))?;
    require(
        LineFault::Range,
        schema.is_site(site)
            && Schema::is_session(txn.session)
            && fit_ops(schema, &ops)
            && fit_pairs(schema, &reads),
    )?;
    Ok(Step::End {
        site,
        txn,
        ops: Ops::new(ops),
        reads: Pairs::new(reads),
    })
}

/// `fail I TXN CAUSE`.
#[tactic(auto, unfolding(crate::specs::Kinds::fail_of))]
fn fail_of(schema: &Schema, neat: bool, words: &[&[u8]]) -> Result<Step, LineError>
    ensures { Gives (λ x. x) result (fail_of schema.now neat (spelled words.now)) }
{
    let cause = cause_of(neat, words)?;
    let site = u8_at(words, 1)?;
    let txn = txn_of(word(words, 2))?;
    require(
        LineFault::Range,
        schema.is_site(site) && Schema::is_session(txn.session),
    )?;
    Ok(Step::Fail { site, txn, cause })
}

/// `refresh I ORIGIN`.
#[tactic(auto, unfolding(crate::specs::Kinds::refresh_of))]
fn refresh_of(schema: &Schema, neat: bool, words: &[&[u8]]) -> Result<Step, LineError>
    ensures { Gives (λ x. x) result (refresh_of schema.now neat (spelled words.now)) }
{
    word_count(neat, words, 3)?;
    let site = u8_at(words, 1)?;
    let origin = u8_at(words, 2)?;
    require(
        LineFault::Range,
        schema.is_site(site) && schema.is_site(origin),
    )?;
    Ok(Step::Refresh { site, origin })
}

/// `restart I VEC FOUND`.
#[tactic(auto, unfolding(crate::specs::Kinds::restart_of))]
fn restart_of(
    alloc: Global,
    schema: &Schema,
    neat: bool,
    words: &[&[u8]],
) -> Result<Step, LineError>
    ensures { Gives (λ x. x) result (restart_of schema.now neat (spelled words.now)) }
{
    let end = vector_end(words, 2);
    let found = found_at(words, end)?;
    word_count(neat, words, end + 1)?;
    let site = u8_at(words, 1)?;
    let vector = vector_at(alloc, schema, words, 2)?;
    require(LineFault::Range, schema.is_site(site))?;
    let vector = vector.ok_or(LineError::Fault(LineFault::Range))?;
    Ok(Step::Restart {
        site,
        vector,
        found,
    })
}

#[tactic(auto, unfolding(crate::specs::Kinds::site_step_of))]
fn site_step_of(
    alloc: Global,
    schema: &Schema,
    neat: bool,
    words: &[&[u8]],
) -> Result<Step, LineError>
    ensures { Gives (λ x. x) result (site_step_of schema.now neat (spelled words.now)) }
{
    let kind = word(words, 0);
    if is(kind, b"end") {
        end_of(alloc, schema, neat, words)
    } else if is(kind, b"fail") {
        fail_of(schema, neat, words)
    } else if is(kind, b"refresh") {
        refresh_of(schema, neat, words)
    } else if is(kind, b"restart") {
        restart_of(alloc, schema, neat, words)
    } else if is(kind, b"doubt") {
        let act = act_of(alloc, schema, neat, words_from(words, 1))?;
        Ok(Step::Doubt {
            site: act.site,
            pending: act.pending,
        })
    } else {
        Ok(act_of(alloc, schema, neat, words)?.into_step())
    }
}

/// The step that the words of a line say.
#[tactic(auto, unfolding(crate::specs::Kinds::step_of))]
pub fn step_of(
    alloc: Global,
    schema: &Schema,
    neat: bool,
    words: &[&[u8]],
) -> Result<Step, LineError>
    ensures { Gives (λ x. x) result (step_of schema.now neat (spelled words.now)) }
{
    let kind = word(words, 0);
    if is(kind, b"route") {
        route_of(alloc, schema, neat, words)
    } else if is(kind, b"reply") {
        reply_of(schema, neat, words)
    } else if is(kind, b"ask") {
        ask_of(schema, neat, words)
    } else if is(kind, b"settle") {
        settle_of(schema, neat, words)
    } else if is(kind, b"begin") {
        begin_of(alloc, schema, neat, words)
    } else if is(kind, b"moved") {
        moved_of(schema, neat, words)
    } else {
        site_step_of(alloc, schema, neat, words)
    }
}
