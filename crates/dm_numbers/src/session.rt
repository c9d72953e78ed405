//! What a session has seen.

ghost use Rattle.std.specs.Prelude.{ℕ, ◌+◌, ◌≡◌, ◌≤◌, length, replicate, IfOk, option_map, option_and_then, option_copied, slice_get};
ghost use Rattle.dm_event.specs.declared.limits.TheConstants.{MAX_SESSIONS};
ghost use Rattle.dm_numbers.specs.Counted.{told_session, no_session};
ghost use Rattle.dm_numbers.specs.Told.{told_commit, told_seen_by, told_seen, told_routes};
ghost use Rattle.dm_steps.specs.Next.{next_begin};

use crate::joining::{commit_vector, joined};
use dm_event::{Entry, MAX_SESSIONS, NoMemory, Said, Schema, Step, Vector};
use std::alloc::Global;

/// What there is of a session.
#[derive(Clone, Copy, Debug, PartialEq, Eq)]
pub struct SessionNumbers {
    /// The maximum of what it was answered.
    pub seen: Vector,
    /// The begin vector of its last Begin.
    pub begin: Option<Vector>,
    /// The number of Routes of its current item.
    pub routes: u64,
}

fn committed(entry: Option<&Entry>) -> Option<Vector>
    ensures { result ≡ option_and_then told_commit (option_copied entry.entry) }
{
    match entry {
        Some(entry) => commit_vector(entry),
        None => None,
    }
}

/// What the outcome adds to what the session has seen.
fn seen_by(said: Said, entry: Option<&Entry>, begin: Option<Vector>) -> Option<Vector>
    ensures { result ≡ told_seen_by said (option_copied entry.entry) begin }
{
    match said {
        Said::Committed { .. } => committed(entry),
        Said::Read { .. } => begin,
        _ => None,
    }
}

fn next_seen(
    step: &Step,
    session: u32,
    entry: Option<&Entry>,
    begin: Option<Vector>,
    seen: Vector,
) -> Vector
    ensures { result ≡ told_seen session step.now (option_copied entry.entry) begin seen }
{
    match step {
        Step::Reply {
            session: of,
            said,
            ..
        } if *of == session => joined(seen, seen_by(*said, entry, begin)),
        _ => seen,
    }
}

fn next_begin(step: &Step, session: u32, before: Option<Vector>) -> Option<Vector>
    ensures { result ≡ next_begin session step.now before }
{
    match step {
        Step::Begin { txn, begin, .. } if txn.session == session => Some(*begin),
        _ => before,
    }
}

fn next_routes(step: &Step, session: u32, before: u64) -> u64
    ensures { result ≡ told_routes session step.now before }
{
    match step {
        Step::Route { txn, .. } if txn.session == session => txn.attempt,
        Step::Reply { session: of, .. } if *of == session => 0,
        _ => before,
    }
}

fn next_session(
    step: &Step,
    session: u32,
    entry: Option<&Entry>,
    before: SessionNumbers,
) -> SessionNumbers
    ensures { result ≡ told_session session step.now (option_copied entry.entry) before }
{
    SessionNumbers {
        seen: next_seen(step, session, entry, before.begin, before.seen),
        begin: next_begin(step, session, before.begin),
        routes: next_routes(step, session, before.routes),
    }
}

/// Brings what is kept of each session, that of session 1 first, to what it is after the step, where the
/// entry is given that a Reply names.
pub(crate) fn advance(sessions: &mut [SessionNumbers], step: &Step, entry: Option<&Entry>)
    requires { length sessions.old ≤ MAX_SESSIONS }
    ensures long { length sessions.new ≡ length sessions.old }
    ensures each { (k : ℕ) → slice_get sessions.new k ≡ option_map (told_session (k + 1) step.now (option_copied entry.entry)) (slice_get sessions.old k) }
{
    for i in 0..sessions.len() {
        sessions[i] = next_session(step, i as u32 + 1, entry, sessions[i]);
    }
}

/// Sessions that have seen nothing yet.
pub(crate) fn opening(alloc: Global, schema: &Schema) -> Result<Vec<SessionNumbers>, NoMemory>
    ensures blank { IfOk result (λ list. list.items ≡ replicate MAX_SESSIONS (no_session schema.now.sites)) }
    ensures all { IfOk result (λ list. length list.items ≡ MAX_SESSIONS) }
{
    let one = SessionNumbers {
        seen: Vector::zeros(schema.sites()),
        begin: None,
        routes: 0,
    };
    Ok(Vec::from_elem(alloc, one, MAX_SESSIONS as usize)?)
}
