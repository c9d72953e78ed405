//! How the items of the sessions stand.

ghost use Rattle.std.specs.Prelude.{◌≡◌, ◌==◌, ◌≤◌, length, reverse, option_map, option_copied};
ghost use Rattle.dm_event.specs.Txns.{same_txn};
ghost use Rattle.dm_event.specs.declared.step.TxnId.{TxnId};
ghost use Rattle.dm_model.specs.Attempts.{is_reply, replies, is_route, routes, last_routing, routing, wanted_keys, declared, state_by, dropped_at, dropped_by, state, attempt};
ghost use Rattle.dm_model.specs.Words.{since};
ghost use Rattle.dm_plain.specs.Routings.{routing_by, wanted_by, want_of};
ghost use Rattle.dm_steps.specs.Adding.{routed_by};
ghost use Rattle.dm_told.specs.Routings.{without_want};

use dm_event::{Attempt, AttemptState, Key, Pending, SiteNo, Step, TxnId, Want};
use dm_told::Routing;

fn is_reply(step: &Step, session: u32) -> bool
    ensures { result ≡ is_reply session step.now }
{
    match step {
        Step::Reply { session: of, .. } => *of == session,
        _ => false,
    }
}

pub(crate) fn is_route(step: &Step, session: u32) -> bool
    ensures { result ≡ is_route session step.now }
{
    match step {
        Step::Route { txn, .. } => txn.session == session,
        _ => false,
    }
}

/// The number of the session's Replies.
#[tactic(auto, using(dm_event::proofs::Backwards::past_more))]
pub fn replies(steps: &[Step], session: u32) -> u64
    ensures exact { result ≡ replies session (reverse steps.now) }
    ensures few { result ≤ length steps.now }
{
    let mut count = 0;
    for step in steps {
        if is_reply(step, session) {
            count += 1;
        }
    }
    count
}

/// The number of Routes of the session's current item.
#[tactic(auto, using(dm_event::proofs::Backwards::past_more))]
pub fn routes(steps: &[Step], session: u32) -> u64
    ensures exact { result ≡ routes session (reverse steps.now) }
    ensures few { result ≤ length steps.now }
{
    let mut count = 0;
    for step in steps {
        count = if is_reply(step, session) {
            0
        } else if is_route(step, session) {
            count + 1
        } else {
            count
        };
    }
    count
}

/// What the step says, if it is a Route of the session.
pub fn routing_by(step: &Step, session: u32) -> Option<Routing>
    ensures { result ≡ routing_by session step.now }
{
    match step {
        Step::Route {
            txn,
            min,
            site,
            choice,
            ..
        } if txn.session == session => Some(Routing {
            txn: *txn,
            min: *min,
            site: *site,
            choice: *choice,
        }),
        _ => None,
    }
}

/// What the step wants, if it is a Route of the session.
pub fn wanted_by(step: &Step, session: u32) -> Option<&Want>
    ensures { option_copied result ≡ wanted_by session step.now }
{
    match step {
        Step::Route { txn, want, .. } if txn.session == session => Some(want),
        _ => None,
    }
}

fn want_of(step: &Step, attempt: TxnId) -> Option<&Want>
    ensures { option_copied result ≡ want_of attempt step.now }
{
    match step {
        Step::Route { txn, want, .. } if attempt.same(txn) => Some(want),
        _ => None,
    }
}

/// The last Route of the session.
#[tactic(auto, using(dm_event::proofs::Backwards::past_more, crate::proofs::Routings::routing_last))]
pub fn last_routing(steps: &[Step], session: u32) -> Option<Routing>
    ensures { result ≡ option_map without_want (last_routing session (reverse steps.now)) }
{
    let mut last = None;
    for step in steps {
        last = routing_by(step, session).or(last);
    }
    last
}

/// What the last Route of the session wants.
#[tactic(auto, using(dm_event::proofs::Backwards::past_more, crate::proofs::Routings::wanted_last))]
pub fn last_want(steps: &[Step], session: u32) -> Option<&Want>
    ensures { option_copied result ≡ option_map (λ r. r.want) (last_routing session (reverse steps.now)) }
{
    let mut last = None;
    for step in steps {
        last = wanted_by(step, session).or(last);
    }
    last
}

/// What the Route of the attempt wants.
#[tactic(auto, using(dm_event::proofs::Backwards::past_more, crate::proofs::Routings::want_last))]
fn want(steps: &[Step], txn: TxnId) -> Option<&Want>
    ensures { option_copied result ≡ option_map (λ r. r.want) (routing txn (reverse steps.now)) }
{
    let mut last = None;
    for step in steps {
        last = want_of(step, txn).or(last);
    }
    last
}

/// The keys that a Route with this want declares.
pub fn wanted_keys(want: &Want) -> &[Key]
    ensures { result.now ≡ wanted_keys want.now }
{
    match want {
        Want::Txn(keys) => keys.as_slice(),
        Want::Place(_) | Want::Restart => &[],
    }
}

/// The keys that the attempt declares.
pub fn declared(steps: &[Step], txn: TxnId) -> &[Key]
    ensures { result.now ≡ declared txn (reverse steps.now) }
{
    match want(steps, txn) {
        Some(want) => wanted_keys(want),
        None => &[],
    }
}

/// The state to which a step of the session brings its item.
fn state_by(step: &Step, session: u32) -> Option<AttemptState>
    ensures { result ≡ state_by session step.now }
{
    let (of, state) = match step {
        Step::Route {
            txn,
            site,
            choice,
            ..
        } => (
            txn.session,
            AttemptState::Routed {
                site: *site,
                choice: *choice,
            },
        ),
        Step::Reply { session: of, .. } => (*of, AttemptState::Unrouted),
        Step::Moved { txn, .. } => (txn.session, AttemptState::Moved),
        Step::Begin { site, txn, .. } => (txn.session, AttemptState::Running { site: *site }),
        Step::Commit { entry } => (
            entry.txn.session,
            AttemptState::Committed {
                site: entry.origin,
                seq: entry.seq,
            },
        ),
        Step::End { site, txn, .. } => (txn.session, AttemptState::Ended { site: *site }),
        Step::Fail { txn, cause, .. } => (txn.session, AttemptState::Failed { cause: *cause }),
        Step::Doubt {
            site,
            pending: Pending::Commit(entry),
        } => (entry.txn.session, AttemptState::Doubted { site: *site }),
        _ => return None,
    };
    if of == session { Some(state) } else { None }
}

fn dropped_at(site: SiteNo, before: AttemptState) -> AttemptState
    ensures { result ≡ dropped_at site before }
{
    match before {
        AttemptState::Running { site: at } if at == site => AttemptState::Dropped,
        other => other,
    }
}

/// The state after a step that isn't the session's own.
fn dropped_by(step: &Step, before: AttemptState) -> AttemptState
    ensures { result ≡ dropped_by step.now before }
{
    match step {
        Step::Doubt { site, .. } | Step::Restart { site, .. } => dropped_at(*site, before),
        _ => before,
    }
}

/// The state of the session's current item.
#[tactic(auto, using(dm_event::proofs::Backwards::past_more))]
fn state(steps: &[Step], session: u32) -> AttemptState
    ensures { result ≡ state session (reverse steps.now) }
{
    let mut now = AttemptState::Unrouted;
    for step in steps {
        now = state_by(step, session).unwrap_or(dropped_by(step, now));
    }
    now
}

/// The attempt of the last Route of the session's current item.
#[tactic(auto, using(dm_event::proofs::Backwards::past_more, crate::proofs::Routings::routed_last))]
fn current_txn(steps: &[Step], session: u32) -> Option<TxnId>
    ensures { result ≡ option_map (λ r. r.txn) (last_routing session (since (is_reply session) (reverse steps.now))) }
{
    let mut last = None;
    for step in steps {
        last = if is_reply(step, session) {
            None
        } else {
            routed_by(step, session).or(last)
        };
    }
    last
}

fn routed_by(step: &Step, session: u32) -> Option<TxnId>
    ensures { result ≡ routed_by session step.now }
{
    match step {
        Step::Route { txn, .. } if txn.session == session => Some(*txn),
        _ => None,
    }
}

/// The last attempt at the session's current item.
pub fn attempt(steps: &[Step], session: u32) -> Attempt
    ensures { result ≡ attempt session (reverse steps.now) }
{
    Attempt {
        txn: current_txn(steps, session),
        state: state(steps, session),
    }
}
