//! The lines of what a site may be in doubt about: commits, releases and grants.

ghost use Rattle.std.specs.Prelude.{◌≡◌, ◌≤◌, length, ◌+◌};
ghost use Rattle.dm_fields.specs.Fields.{Gives, spelled};
ghost use Rattle.dm_kinds.specs.Kinds.{release_of, grant_of, commit_words, entry_at, fits_entry, commit_of, act_of, taken};

use crate::neat::word_count;
use crate::range::{fit_ops, fit_pairs};
use crate::value::{ops_of, pairs_of, txn_of};
use crate::vector::{vector_at, vector_end};
use dm_event::{Entry, LineFault, Ops, Pairs, Pending, Schema, SiteNo, Step};
use dm_fields::{LineError, fixed_word, is, require, u8_at, u16_at, u64_at, unknown_at, word};
use std::alloc::Global;

/// What a site does, and may be in doubt about.
#[derive(Drop)]
pub struct Act {
    pub site: SiteNo,
    pub pending: Pending,
}

/// `release I P EPOCH to K VEC`.
#[tactic(auto, unfolding(crate::specs::Kinds::release_of))]
fn release_of(alloc: Global, schema: &Schema, neat: bool, words: &[&[u8]]) -> Result<Act, LineError>
    ensures { Gives (λ x. x) result (release_of schema.now neat (spelled words.now)) }
{
    fixed_word(words, 4, b"to")?;
    word_count(neat, words, vector_end(words, 6))?;
    let site = u8_at(words, 1)?;
    let part = u16_at(words, 2)?;
    let epoch = u64_at(words, 3)?;
    let to = u8_at(words, 5)?;
    let vector = vector_at(alloc, schema, words, 6)?;
    require(
        LineFault::Range,
        schema.is_site(site) && schema.is_part(part) && schema.is_site(to),
    )?;
    let vector = vector.ok_or(LineError::Fault(LineFault::Range))?;
    Ok(Act {
        site,
        pending: Pending::Release {
            part,
            epoch,
            to,
            vector,
        },
    })
}

/// `grant I P EPOCH VEC`.
#[tactic(auto, unfolding(crate::specs::Kinds::grant_of))]
fn grant_of(alloc: Global, schema: &Schema, neat: bool, words: &[&[u8]]) -> Result<Act, LineError>
    ensures { Gives (λ x. x) result (grant_of schema.now neat (spelled words.now)) }
{
    word_count(neat, words, vector_end(words, 4))?;
    let site = u8_at(words, 1)?;
    let part = u16_at(words, 2)?;
    let epoch = u64_at(words, 3)?;
    let vector = vector_at(alloc, schema, words, 4)?;
    require(
        LineFault::Range,
        schema.is_site(site) && schema.is_part(part),
    )?;
    let vector = vector.ok_or(LineError::Fault(LineFault::Range))?;
    Ok(Act {
        site,
        pending: Pending::Grant {
            part,
            epoch,
            vector,
        },
    })
}

/// `ops OPS reads PAIRS writes PAIRS` from a place on, to the line's end.
#[tactic(auto, unfolding(crate::specs::Kinds::commit_words))]
fn commit_words(neat: bool, words: &[&[u8]], n: usize) -> Result<(), LineError>
    requires { n ≤ length words.now + 7 }
    ensures { Gives (λ x. x) result (commit_words neat (spelled words.now) n) }
{
    fixed_word(words, n, b"ops")?;
    fixed_word(words, n + 2, b"reads")?;
    fixed_word(words, n + 4, b"writes")?;
    word_count(neat, words, n + 6)
}

/// The entry of a commit. Its ranges are left open but for the length of its vector.
#[tactic(auto, unfolding(crate::specs::Kinds::entry_at))]
fn entry_at(alloc: Global, schema: &Schema, words: &[&[u8]], n: usize) -> Result<Entry, LineError>
    requires { n ≤ length words.now + 7 }
    ensures { Gives (λ x. x) result (entry_at schema.now (spelled words.now) n) }
{
    let origin = u8_at(words, 1)?;
    let txn = txn_of(word(words, 2))?;
    let seq = u64_at(words, 3)?;
    let begin = vector_at(alloc, schema, words, 4)?;
    let ops = ops_of(alloc, word(words, n + 1))?;
    let reads = pairs_of(alloc, word(words, n + 3))?;
    let writes = pairs_of(alloc, word(words, n + 5))?;
    let begin = begin.ok_or(LineError::Fault(LineFault::Range))?;
    Ok(Entry {
        txn,
        origin,
        seq,
        begin,
        ops: Ops::new(ops),
        reads: Pairs::new(reads),
        writes: Pairs::new(writes),
    })
}

fn fits_entry(schema: &Schema, entry: &Entry) -> bool
    ensures { result ≡ fits_entry schema.now entry.now }
{
    schema.is_site(entry.origin)
        && Schema::is_session(entry.txn.session)
        && fit_ops(schema, entry.ops.as_slice())
        && fit_pairs(schema, entry.reads.as_slice())
        && fit_pairs(schema, entry.writes.as_slice())
}

/// `commit I TXN SEQ VEC ops OPS reads PAIRS writes PAIRS`.
#[tactic(auto, unfolding(crate::specs::Kinds::commit_of))]
fn commit_of(alloc: Global, schema: &Schema, neat: bool, words: &[&[u8]]) -> Result<Act, LineError>
    ensures { Gives (λ x. x) result (commit_of schema.now neat (spelled words.now)) }
{
    let end = vector_end(words, 4);
    commit_words(neat, words, end)?;
    let entry = entry_at(alloc, schema, words, end)?;
    require(LineFault::Range, fits_entry(schema, &entry))?;
    Ok(Act {
        site: entry.origin,
        pending: Pending::Commit(entry),
    })
}

#[tactic(auto, unfolding(crate::specs::Kinds::act_of))]
pub(crate) fn act_of(
    alloc: Global,
    schema: &Schema,
    neat: bool,
    words: &[&[u8]],
) -> Result<Act, LineError>
    ensures { Gives (λ x. x) result (act_of schema.now neat (spelled words.now)) }
{
    let kind = word(words, 0);
    if is(kind, b"commit") {
        commit_of(alloc, schema, neat, words)
    } else if is(kind, b"release") {
        release_of(alloc, schema, neat, words)
    } else if is(kind, b"grant") {
        grant_of(alloc, schema, neat, words)
    } else {
        Err(LineError::Fault(unknown_at(words, 0)))
    }
}

impl Act {
    /// The step that the site takes.
    pub(crate) fn into_step(self) -> Step
        ensures { result ≡ taken self.site self.pending }
    {
        let Act { site, pending } = self;
        match pending {
            Pending::Commit(entry) => Step::Commit { entry },
            Pending::Release {
                part,
                epoch,
                to,
                vector,
            } => Step::Release {
                site,
                part,
                epoch,
                to,
                vector,
            },
            Pending::Grant {
                part,
                epoch,
                vector,
            } => Step::Grant {
                site,
                part,
                epoch,
                vector,
            },
        }
    }
}
