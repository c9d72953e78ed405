//! The line of a Route.

ghost use Rattle.std.specs.Prelude.{◌≡◌, ◌≤◌};
ghost use Rattle.dm_fields.specs.Fields.{Gives, spelled};
ghost use Rattle.dm_kinds.specs.Kinds.{way_words, way_at, way_min, sent_of, placed_of, restarted_of, route_of};

use crate::neat::word_count;
use crate::range::declared_of;
use crate::value::{choice_at, keys_of, txn_of};
use crate::vector::{vector_at, vector_end};
use dm_event::{Choice, LineFault, Schema, SiteNo, Step, TxnId, Vector, Want};
use dm_fields::{LineError, fixed_word, is, require, u8_at, u16_at, unknown_at, word};
use std::alloc::Global;

/// Which attempt a Route sends where, and the least vector, None where its length is another than
/// that of the schema.
#[derive(Clone, Copy)]
pub struct Way {
    pub txn: TxnId,
    pub min: Option<Vector>,
    pub site: SiteNo,
}

/// `min VEC to I CHOICE` from a place on, to the line's end.
#[tactic(auto, unfolding(crate::specs::Kinds::way_words))]
fn way_words(neat: bool, words: &[&[u8]], n: usize) -> Result<Choice, LineError>
    requires { n ≤ 4 }
    ensures { Gives (λ x. x) result (way_words neat (spelled words.now) n) }
{
    let end = vector_end(words, n + 1);
    fixed_word(words, n, b"min")?;
    fixed_word(words, end, b"to")?;
    let choice = choice_at(words, end + 2)?;
    word_count(neat, words, end + 3)?;
    Ok(choice)
}

#[tactic(auto, unfolding(crate::specs::Kinds::way_at))]
fn way_at(alloc: Global, schema: &Schema, words: &[&[u8]], n: usize) -> Result<Way, LineError>
    requires { n ≤ 4 }
    ensures { Gives (λ x. x) result (way_at schema.now (spelled words.now) n) }
{
    let txn = txn_of(word(words, 1))?;
    let min = vector_at(alloc, schema, words, n + 1)?;
    let site = u8_at(words, vector_end(words, n + 1) + 1)?;
    Ok(Way { txn, min, site })
}

/// The least vector of a way in its ranges.
#[tactic(auto, unfolding(crate::specs::Kinds::way_min))]
fn way_min(schema: &Schema, way: &Way) -> Result<Vector, LineError>
    ensures { Gives (λ x. x) result (way_min schema.now way.now) }
{
    require(
        LineFault::Range,
        Schema::is_session(way.txn.session) && schema.is_site(way.site),
    )?;
    way.min.ok_or(LineError::Fault(LineFault::Range))
}

/// `route TXN txn KEYS min VEC to I CHOICE`.
#[tactic(auto, unfolding(crate::specs::Kinds::sent_of))]
fn sent_of(alloc: Global, schema: &Schema, neat: bool, words: &[&[u8]]) -> Result<Step, LineError>
    ensures { Gives (λ x. x) result (sent_of schema.now neat (spelled words.now)) }
{
    let choice = way_words(neat, words, 4)?;
    let way = way_at(alloc, schema, words, 4)?;
    let keys = keys_of(alloc, word(words, 3))?;
    let min = way_min(schema, &way)?;
    let declared = declared_of(schema, keys)?;
    Ok(Step::Route {
        txn: way.txn,
        want: Want::Txn(declared),
        min,
        site: way.site,
        choice,
    })
}

/// `route TXN place P min VEC to I CHOICE`.
#[tactic(auto, unfolding(crate::specs::Kinds::placed_of))]
fn placed_of(alloc: Global, schema: &Schema, neat: bool, words: &[&[u8]]) -> Result<Step, LineError>
    ensures { Gives (λ x. x) result (placed_of schema.now neat (spelled words.now)) }
{
    let choice = way_words(neat, words, 4)?;
    let way = way_at(alloc, schema, words, 4)?;
    let part = u16_at(words, 3)?;
    let min = way_min(schema, &way)?;
    require(LineFault::Range, schema.is_part(part))?;
    Ok(Step::Route {
        txn: way.txn,
        want: Want::Place(part),
        min,
        site: way.site,
        choice,
    })
}

/// `route TXN restart min VEC to I CHOICE`.
#[tactic(auto, unfolding(crate::specs::Kinds::restarted_of))]
fn restarted_of(
    alloc: Global,
    schema: &Schema,
    neat: bool,
    words: &[&[u8]],
) -> Result<Step, LineError>
    ensures { Gives (λ x. x) result (restarted_of schema.now neat (spelled words.now)) }
{
    let choice = way_words(neat, words, 3)?;
    let way = way_at(alloc, schema, words, 3)?;
    let min = way_min(schema, &way)?;
    Ok(Step::Route {
        txn: way.txn,
        want: Want::Restart,
        min,
        site: way.site,
        choice,
    })
}

#[tactic(auto, unfolding(crate::specs::Kinds::route_of))]
pub(crate) fn route_of(
    alloc: Global,
    schema: &Schema,
    neat: bool,
    words: &[&[u8]],
) -> Result<Step, LineError>
    ensures { Gives (λ x. x) result (route_of schema.now neat (spelled words.now)) }
{
    let want = word(words, 2);
    if is(want, b"txn") {
        sent_of(alloc, schema, neat, words)
    } else if is(want, b"place") {
        placed_of(alloc, schema, neat, words)
    } else if is(want, b"restart") {
        restarted_of(alloc, schema, neat, words)
    } else {
        Err(LineError::Fault(unknown_at(words, 2)))
    }
}
