//! How the items of the sessions stand.

ghost use Rattle.std.specs.Prelude.{ℕ, ◌+◌, ◌≡◌, ◌≤◌, length, replicate, IfOk, option_map, slice_get};
ghost use Rattle.dm_event.specs.declared.limits.TheConstants.{MAX_SESSIONS};
ghost use Rattle.dm_model.specs.Attempts.{state_by, dropped_at, dropped_by};
ghost use Rattle.dm_state.specs.Standings.{idle};
ghost use Rattle.dm_steps.specs.Next.{next_txn, next_state, next_attempt};

use dm_event::{Attempt, AttemptState, MAX_SESSIONS, NoMemory, Pending, SiteNo, Step, TxnId};
use std::alloc::Global;

/// The attempt of a session of which no step has come yet.
pub(crate) fn idle() -> Attempt
    ensures { result ≡ idle }
{
    Attempt {
        txn: None,
        state: AttemptState::Unrouted,
    }
}

/// The state to which a step of the session brings its item.
fn state_by(step: &Step, session: u32) -> Option<AttemptState>
    ensures { result ≡ state_by session step.now }
{
    let (of, state) = match step {
        Step::Route {
            txn,
            site,
            choice,
            ..
        } => (
            txn.session,
            AttemptState::Routed {
                site: *site,
                choice: *choice,
            },
        ),
        Step::Reply { session: of, .. } => (*of, AttemptState::Unrouted),
        Step::Moved { txn, .. } => (txn.session, AttemptState::Moved),
        Step::Begin { site, txn, .. } => (txn.session, AttemptState::Running { site: *site }),
        Step::Commit { entry } => (
            entry.txn.session,
            AttemptState::Committed {
                site: entry.origin,
                seq: entry.seq,
            },
        ),
        Step::End { site, txn, .. } => (txn.session, AttemptState::Ended { site: *site }),
        Step::Fail { txn, cause, .. } => (txn.session, AttemptState::Failed { cause: *cause }),
        Step::Doubt {
            site,
            pending: Pending::Commit(entry),
        } => (entry.txn.session, AttemptState::Doubted { site: *site }),
        _ => return None,
    };
    if of == session { Some(state) } else { None }
}

fn dropped_at(site: SiteNo, before: AttemptState) -> AttemptState
    ensures { result ≡ dropped_at site before }
{
    match before {
        AttemptState::Running { site: at } if at == site => AttemptState::Dropped,
        other => other,
    }
}

/// The state after a step that isn't the session's own.
fn dropped_by(step: &Step, before: AttemptState) -> AttemptState
    ensures { result ≡ dropped_by step.now before }
{
    match step {
        Step::Doubt { site, .. } | Step::Restart { site, .. } => dropped_at(*site, before),
        _ => before,
    }
}

/// The attempt at the session's current item, which a Reply ends.
fn next_txn(step: &Step, session: u32, before: Option<TxnId>) -> Option<TxnId>
    ensures { result ≡ next_txn session step.now before }
{
    match step {
        Step::Reply { session: of, .. } if *of == session => None,
        Step::Route { txn, .. } if txn.session == session => Some(*txn),
        _ => before,
    }
}

fn next_state(step: &Step, session: u32, before: AttemptState) -> AttemptState
    ensures { result ≡ next_state session step.now before }
{
    match state_by(step, session) {
        Some(state) => state,
        None => dropped_by(step, before),
    }
}

fn next_attempt(step: &Step, session: u32, before: Attempt) -> Attempt
    ensures { result ≡ next_attempt session step.now before }
{
    Attempt {
        txn: next_txn(step, session, before.txn),
        state: next_state(step, session, before.state),
    }
}

/// Brings the attempt of each session, that of session 1 first, to what it is after the step.
pub(crate) fn advance(attempts: &mut [Attempt], step: &Step)
    requires { length attempts.old ≤ MAX_SESSIONS }
    ensures long { length attempts.new ≡ length attempts.old }
    ensures each { (k : ℕ) → slice_get attempts.new k ≡ option_map (next_attempt (k + 1) step.now) (slice_get attempts.old k) }
{
    for i in 0..attempts.len() {
        attempts[i] = next_attempt(step, i as u32 + 1, attempts[i]);
    }
}

/// Every session unrouted.
pub(crate) fn opening(alloc: Global) -> Result<Vec<Attempt>, NoMemory>
    ensures { IfOk result (λ list. list.items ≡ replicate MAX_SESSIONS idle) }
{
    Ok(Vec::from_elem(alloc, idle(), MAX_SESSIONS as usize)?)
}
