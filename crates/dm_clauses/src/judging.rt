//! Whether a step may follow a history, and why not.

ghost use Rattle.std.specs.Prelude.{◌≡◌, ◌<◌, ◌≤◌, ◌+◌, option_map, option_and_then, option_copied, is_none, true, not, find};
ghost use Rattle.std.specs.List.{list_all};
ghost use Rattle.dm_event.specs.Layout.{is_key, is_site};
ghost use Rattle.dm_event.specs.declared.step.Step.TheVariants.{Doubt, Refresh, Route};
ghost use Rattle.dm_event.specs.Vectors.{first_above};
ghost use Rattle.dm_model.specs.Allowed.{elsewhere, missing_for, next_entry, route_clauses, reply_clauses, begin_clauses, moved_clauses, commit_clauses, end_clauses, fail_clauses, refresh_clauses, clauses, next_refresh, refusal};
ghost use Rattle.dm_model.specs.Attempts.{routed_txn};
ghost use Rattle.dm_model.specs.Choices.{due_for};
ghost use Rattle.dm_model.specs.Clauses.{first};
ghost use Rattle.dm_model.specs.Placings.{may_begin_now};
ghost use Rattle.dm_model.specs.Shape.{is_said, is_want, is_shaped};
ghost use Rattle.dm_clauses.specs.Judging.{away};

use crate::choosing::choice_due;
use crate::handing::{ask_why, grant_why, release_why, settle_why};
use crate::restarting::restart_why;
use crate::rows::{
    BeginReads, CommitReads, begin_refusal, commit_refusal, end_refusal, fail_refusal,
    moved_refusal, refresh_refusal, reply_refusal, route_refusal,
};
use crate::shape::is_shaped;
use dm_body::{body_fits, has_writes, reads_fit, undeclared_in};
use dm_event::{
    Choice, Entry, Key, Op, Pair, Part, Pending, Placing, Said, SiteNo, Step, TxnId, Vector, Want,
    Why,
};
use dm_outcomes::may_say;
use dm_told::{Reading, Told, routed_to, routed_txn, sites, stands_routed};

/// The site and the choice that are due for a Route to the site.
fn due_for<T: Told>(told: &T, session: u32, want: &Want, site: SiteNo) -> (SiteNo, Choice)
    requires session { 1 ≤ session }
    requires want { is_want (T.layout told.now) want.now ≡ true }
    ensures { result ≡ due_for (T.layout told.now) (T.past told.now) session want.now site }
{
    match want {
        Want::Txn(keys) => choice_due(told, session, keys),
        Want::Place(_) | Want::Restart => (site, Choice::Hand),
    }
}

fn route_why<T: Told>(
    told: &T,
    txn: TxnId,
    want: &Want,
    min: &Vector,
    site: SiteNo,
    choice: Choice,
) -> Option<Why>
    requires { is_shaped (T.layout told.now) (Route txn want.now min.now site choice) ≡ true }
    ensures { result ≡ first (route_clauses (T.layout told.now) (T.past told.now) txn want.now min.now site choice) }
{
    route_refusal(
        told.replies(txn.session) + 1,
        told.routes(txn.session) + 1,
        told.session_vector(txn.session),
        due_for(told, txn.session, want, site),
        told.attempt(txn.session),
        txn,
        min,
        site,
        choice,
    )
}

fn reply_why<T: Told>(told: &T, session: u32, number: u32, said: Said) -> Option<Why>
    requires { is_said (T.layout told.now) said ≡ true }
    ensures { result ≡ first (reply_clauses (T.layout told.now) (T.past told.now) session number said) }
{
    reply_refusal(
        told.replies(session) + 1,
        may_say(told, session, said),
        number,
    )
}

fn may_begin_now(now: Placing, site: SiteNo) -> bool
    ensures { result ≡ may_begin_now now site }
{
    match now {
        Placing::Settled { site: at, .. } | Placing::Granted { site: at, .. } => at == site,
        Placing::Asked { .. } | Placing::Between { .. } => false,
    }
}

/// The key's partition, where the site may not begin on it.
fn away<T: Told>(told: &T, site: SiteNo, key: Key) -> Option<Part>
    requires { is_key (T.layout told.now) key ≡ true }
    ensures { result ≡ away (T.layout told.now) (T.past told.now) site key }
{
    match told.schema().part_of(key) {
        Some(part) => if may_begin_now(told.placing(part), site) {
            None
        } else {
            Some(part)
        },
        None => unreachable!(),
    }
}

/// The first of the keys' partitions, in the order of the keys, on which the site may not begin.
pub fn elsewhere<T: Told>(told: &T, site: SiteNo, keys: &[Key]) -> Option<Part>
    requires { list_all (is_key (T.layout told.now)) keys.now ≡ true }
    ensures { result ≡ elsewhere (T.layout told.now) (T.past told.now) site keys.now }
{
    for key in keys {
        if let Some(part) = away(told, site, *key) {
            return Some(part);
        }
    }
    None
}

/// The least component in which the minimum of the attempt's Route is above the begin vector.
fn behind<T: Told>(told: &T, txn: TxnId, begin: &Vector) -> Option<SiteNo>
    ensures { result ≡ option_and_then (λ r. first_above r.min begin.now) (routed_txn txn (T.past told.now)) }
{
    match routed_txn(told, txn) {
        Some(routing) => routing.min.first_above(begin),
        None => None,
    }
}

fn begin_why<T: Told>(told: &T, site: SiteNo, txn: TxnId, begin: &Vector) -> Option<Why>
    ensures { result ≡ first (begin_clauses (T.layout told.now) (T.past told.now) site txn begin.now) }
{
    told.is_legal();
    // Only of an attempt that stands routed or runs is told what it declares.
    let to = routed_to(told, txn);
    if to.is_none() {
        return Some(Why::NotRouted);
    }
    let keys = told.declared(txn);
    let reads = BeginReads {
        to,
        down: told.is_down(site),
        elsewhere: elsewhere(told, site, keys),
        vector: told.vector(site),
        behind: behind(told, txn, begin),
        holder: told.holder(site, keys),
    };
    begin_refusal(reads, site, begin)
}

fn commit_why<T: Told>(told: &T, entry: &Entry) -> Option<Why>
    requires { is_site (T.layout told.now) entry.now.origin ≡ true }
    ensures { result ≡ first (commit_clauses (T.layout told.now) (T.past told.now) entry.now) }
{
    told.is_legal();
    let runs = told.run_site(entry.txn);
    if runs.is_none() {
        return Some(Why::NotRunning);
    }
    let mut reading = Reading {
        told,
        at: &entry.begin,
    };
    let ops = entry.ops.as_slice();
    let reads = CommitReads {
        runs,
        due: told.entry_count(entry.origin) + 1,
        begin: told.begin_vector(entry.txn),
        undeclared: undeclared_in(told.declared(entry.txn), ops),
        fits: body_fits(
            ops,
            entry.reads.as_slice(),
            entry.writes.as_slice(),
            &mut reading,
        ),
    };
    commit_refusal(reads, has_writes(ops), entry)
}

fn end_why<T: Told>(told: &T, site: SiteNo, txn: TxnId, ops: &[Op], reads: &[Pair]) -> Option<Why>
    ensures { result ≡ first (end_clauses (T.layout told.now) (T.past told.now) site txn ops.now reads.now) }
{
    told.is_legal();
    let runs = told.run_site(txn);
    if runs.is_none() {
        return Some(Why::NotRunning);
    }
    // What runs has begun.
    let Some(begin) = told.begin_vector(txn) else {
        return Some(Why::NotRunning);
    };
    let mut reading = Reading { told, at: &begin };
    end_refusal(
        runs,
        has_writes(ops),
        reads_fit(ops, reads, &mut reading),
        site,
    )
}

/// The entry of the origin that the site would take over next.
pub fn next_entry<T: Told>(told: &T, site: SiteNo, origin: SiteNo) -> Option<&Entry>
    requires { is_site (T.layout told.now) origin ≡ true }
    ensures { option_copied result ≡ next_entry (T.layout told.now) (T.past told.now) site origin }
{
    told.entry(origin, told.reached(site, origin) + 1)
}

/// The least site, other than the entry's origin, of which the vector has less than the entry needs.
fn missing_for<T: Told>(told: &T, vector: &Vector, entry: &Entry) -> Option<SiteNo>
    ensures { result ≡ missing_for (T.layout told.now).sites vector.now entry.now }
{
    for site in 1..sites(told) + 1 {
        if site != entry.origin && vector.get(site) < entry.begin.get(site) {
            return Some(site);
        }
    }
    None
}

fn refresh_why<T: Told>(told: &T, site: SiteNo, origin: SiteNo) -> Option<Why>
    requires { is_site (T.layout told.now) origin ≡ true }
    ensures { result ≡ first (refresh_clauses (T.layout told.now) (T.past told.now) site origin) }
{
    let next = next_entry(told, site, origin);
    let vector = told.vector(site);
    let behind = match next {
        Some(entry) => missing_for(told, &vector, entry),
        None => None,
    };
    refresh_refusal(told.is_down(site), next.is_some(), behind, site, origin)
}

fn moved_why<T: Told>(told: &T, site: SiteNo, txn: TxnId) -> Option<Why>
    ensures { result ≡ first (moved_clauses (T.layout told.now) (T.past told.now) site txn) }
{
    told.is_legal();
    let to = routed_to(told, txn);
    if to.is_none() {
        return Some(Why::NotRouted);
    }
    moved_refusal(
        to,
        told.is_down(site),
        elsewhere(told, site, told.declared(txn)),
        site,
    )
}

fn fail_why<T: Told>(told: &T, site: SiteNo, txn: TxnId) -> Option<Why>
    ensures { result ≡ first (fail_clauses (T.layout told.now) (T.past told.now) site txn) }
{
    fail_refusal(stands_routed(told, txn), told.run_site(txn), site)
}

/// A Doubt is judged as its pending step would be.
fn doubt_why<T: Told>(told: &T, site: SiteNo, pending: &Pending) -> Option<Why>
    requires { is_shaped (T.layout told.now) (Doubt site pending.now) ≡ true }
    ensures { result ≡ first (clauses (T.layout told.now) (T.past told.now) (Doubt site pending.now)) }
{
    match pending {
        Pending::Commit(entry) => commit_why(told, entry),
        Pending::Release {
            part,
            epoch,
            to,
            vector,
        } => release_why(told, site, *part, *epoch, *to, vector),
        Pending::Grant {
            part,
            epoch,
            vector,
        } => grant_why(told, site, *part, *epoch, vector),
    }
}

/// Whether each number of the step is in its range.
fn has_shape<T: Told>(told: &T, step: &Step) -> bool
    ensures { result ≡ is_shaped (T.layout told.now) step.now }
{
    is_shaped(told.schema(), step)
}

/// Why the step may not follow the history: the first of its shape and its clauses that fails.
pub fn refusal<T: Told>(told: &T, step: &Step) -> Option<Why>
    ensures { result ≡ refusal (T.layout told.now) (T.past told.now) step.now }
{
    if !has_shape(told, step) {
        return Some(Why::Shape);
    }
    match step {
        Step::Route {
            txn,
            want,
            min,
            site,
            choice,
        } => route_why(told, *txn, want, min, *site, *choice),
        Step::Reply {
            session,
            number,
            said,
        } => reply_why(told, *session, *number, *said),
        Step::Begin { site, txn, begin } => begin_why(told, *site, *txn, begin),
        Step::Commit { entry } => commit_why(told, entry),
        Step::End {
            site,
            txn,
            ops,
            reads,
        } => end_why(told, *site, *txn, ops.as_slice(), reads.as_slice()),
        Step::Refresh { site, origin } => refresh_why(told, *site, *origin),
        Step::Moved { site, txn } => moved_why(told, *site, *txn),
        Step::Fail { site, txn, .. } => fail_why(told, *site, *txn),
        Step::Ask {
            part,
            epoch,
            to,
            txn,
        } => ask_why(told, *part, *epoch, *to, *txn),
        Step::Settle { part, epoch } => settle_why(told, *part, *epoch),
        Step::Release {
            site,
            part,
            epoch,
            to,
            vector,
        } => release_why(told, *site, *part, *epoch, *to, vector),
        Step::Grant {
            site,
            part,
            epoch,
            vector,
        } => grant_why(told, *site, *part, *epoch, vector),
        Step::Doubt { site, pending } => doubt_why(told, *site, pending),
        Step::Restart {
            site,
            vector,
            found,
        } => restart_why(told, *site, vector, *found),
    }
}

/// Whether the site may take over the origin's next entry.
fn may_refresh<T: Told>(told: &T, site: SiteNo, origin: SiteNo) -> bool
    ensures { result ≡ is_none (refusal (T.layout told.now) (T.past told.now) (Refresh site origin)) }
{
    has_shape(told, &Step::Refresh { site, origin }) && refresh_why(told, site, origin).is_none()
}

/// The least origin whose next entry the site may take over.
pub fn next_refresh<T: Told>(told: &T, site: SiteNo) -> Option<SiteNo>
    ensures { result ≡ next_refresh (T.layout told.now) (T.past told.now) site }
{
    for origin in 1..sites(told) + 1 {
        if may_refresh(told, site, origin) {
            return Some(origin);
        }
    }
    None
}
