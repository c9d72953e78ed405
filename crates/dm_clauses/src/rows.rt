//! The clauses of each kind of step, as functions of what they read of the steps before.

ghost use Rattle.std.specs.Prelude.{◌≡◌, ◌&&◌, ◌<◌, ◌-◌, ◌^◌, ℕ, List, [], unwrap_or, is_some, true};
ghost use Rattle.dm_event.specs.declared.step.Op.{Op};
ghost use Rattle.dm_event.specs.declared.step.Pair.{Pair};
ghost use Rattle.dm_model.specs.Bodies.{Ran, has_writes};
ghost use Rattle.dm_model.specs.Clauses.{first};
ghost use Rattle.dm_model.specs.Rows.{may_route, may_choose, route_row, reply_row, begin_row, moved_row, commit_row, end_row, fail_row, refresh_row, found_fits, restart_row, ask_row, release_row, grant_row, settle_row};
ghost use Rattle.dm_model.specs.Tests.{same_choice, same_pairs};
ghost use Rattle.dm_clauses.specs.Judging.{epoch_now};

use dm_event::{
    Attempt, AttemptState, Choice, Entry, Found, Key, Part, Placing, SiteNo, TxnId, Vector, Why,
};

fn may_route(now: AttemptState) -> bool
    ensures { result ≡ may_route now }
{
    match now {
        AttemptState::Unrouted | AttemptState::Moved | AttemptState::Dropped => true,
        _ => false,
    }
}

pub(crate) fn same_choice(a: Choice, b: Choice) -> bool
    ensures { result ≡ same_choice a b }
{
    match (a, b) {
        (Choice::Master, Choice::Master)
        | (Choice::Best, Choice::Best)
        | (Choice::Reader, Choice::Reader)
        | (Choice::Hand, Choice::Hand) => true,
        _ => false,
    }
}

fn may_choose(due: (SiteNo, Choice), site: SiteNo, choice: Choice) -> bool
    ensures { result ≡ may_choose due site choice }
{
    match choice {
        Choice::Hand => true,
        _ => site == due.0 && same_choice(choice, due.1),
    }
}

/// Why a session may not have this Route.
pub(crate) fn route_refusal(
    number: u64,
    attempt: u64,
    least: Vector,
    due: (SiteNo, Choice),
    last: Attempt,
    txn: TxnId,
    min: &Vector,
    site: SiteNo,
    choice: Choice,
) -> Option<Why>
    ensures { result ≡ first (route_row number attempt least due last txn min.now site choice) }
{
    if u64::from(txn.number) != number {
        return Some(Why::NotDue { due: number });
    }
    if !may_route(last.state) {
        return Some(Why::Unfinished {
            txn: last.txn.unwrap_or(txn),
        });
    }
    if txn.attempt != attempt {
        return Some(Why::NotDue { due: attempt });
    }
    if !min.same(&least) {
        return Some(Why::WrongVector { due: least });
    }
    if may_choose(due, site, choice) {
        None
    } else {
        Some(Why::WrongChoice {
            site: due.0,
            choice: due.1,
        })
    }
}

/// Why a session may not be answered so.
pub(crate) fn reply_refusal(due: u64, allowed: bool, number: u32) -> Option<Why>
    ensures { result ≡ first (reply_row due allowed number) }
{
    if u64::from(number) != due {
        return Some(Why::NotDue { due });
    }
    if allowed { None } else { Some(Why::WrongSaid) }
}

/// What a Begin reads of the steps before: the fields are those of the row.
#[derive(Drop)]
pub(crate) struct BeginReads {
    pub(crate) to: Option<SiteNo>,
    pub(crate) down: bool,
    pub(crate) elsewhere: Option<Part>,
    pub(crate) vector: Vector,
    pub(crate) behind: Option<SiteNo>,
    pub(crate) holder: Option<(TxnId, Key)>,
}

/// Why an attempt may not begin.
pub(crate) fn begin_refusal(reads: BeginReads, site: SiteNo, begin: &Vector) -> Option<Why>
    ensures { result ≡ first (begin_row (record { to = reads.to; down = reads.down; elsewhere = reads.elsewhere; vector = reads.vector; behind = reads.behind; holder = reads.holder }) site begin.now) }
{
    match reads.to {
        None => return Some(Why::NotRouted),
        Some(due) => {
            if due != site {
                return Some(Why::WrongSite { due });
            }
        }
    }
    if reads.down {
        return Some(Why::Down { site });
    }
    if let Some(part) = reads.elsewhere {
        return Some(Why::Elsewhere { part });
    }
    if !begin.same(&reads.vector) {
        return Some(Why::WrongVector { due: reads.vector });
    }
    if let Some(component) = reads.behind {
        return Some(Why::Behind { component });
    }
    match reads.holder {
        Some((by, key)) => Some(Why::Held { by, key }),
        None => None,
    }
}

/// What a Commit reads of the steps before: the fields are those of the row, but that whether the entry
/// fits what its ops did stands in for that, and an attempt that runs has begun.
#[derive(Drop)]
pub(crate) struct CommitReads {
    pub(crate) runs: Option<SiteNo>,
    pub(crate) due: u64,
    pub(crate) begin: Option<Vector>,
    pub(crate) undeclared: Option<Key>,
    pub(crate) fits: bool,
}

/// Why a running attempt may not commit.
pub(crate) fn commit_refusal(reads: CommitReads, writes: bool, entry: &Entry) -> Option<Why>
    requires begun { is_some reads.runs ≡ true → is_some reads.begin ≡ true }
    requires writes { writes ≡ has_writes entry.now.ops }
    ensures { (ran : Ran) → reads.fits ≡ (same_pairs entry.now.reads ran.reads && same_pairs entry.now.writes ran.writes) → result ≡ first (commit_row (record { runs = reads.runs; due = reads.due; begin = unwrap_or reads.begin []; undeclared = reads.undeclared; ran = ran }) entry.now) }
{
    let Some(at) = reads.runs else {
        return Some(Why::NotRunning);
    };
    if at != entry.origin {
        return Some(Why::WrongSite { due: at });
    }
    if entry.seq != reads.due {
        return Some(Why::NotDue { due: reads.due });
    }
    let Some(begin) = reads.begin else {
        unreachable!();
    };
    if !entry.begin.same(&begin) {
        return Some(Why::WrongVector { due: begin });
    }
    if let Some(key) = reads.undeclared {
        return Some(Why::Undeclared { key });
    }
    if !reads.fits {
        return Some(Why::WrongBody);
    }
    if writes { None } else { Some(Why::NoWrites) }
}

/// Why a running attempt may not end as one that wrote nothing.
pub(crate) fn end_refusal(
    runs: Option<SiteNo>,
    writes: bool,
    fits: bool,
    site: SiteNo,
) -> Option<Why>
    ensures { (ops : List Op) (reads due : List Pair) → writes ≡ has_writes ops → fits ≡ same_pairs reads due → result ≡ first (end_row runs due site ops reads) }
{
    let Some(at) = runs else {
        return Some(Why::NotRunning);
    };
    if at != site {
        return Some(Why::WrongSite { due: at });
    }
    if writes {
        return Some(Why::HasWrites);
    }
    if fits { None } else { Some(Why::WrongBody) }
}

/// Why a site may not take over the origin's next entry.
pub(crate) fn refresh_refusal(
    down: bool,
    next: bool,
    behind: Option<SiteNo>,
    site: SiteNo,
    origin: SiteNo,
) -> Option<Why>
    ensures { result ≡ first (refresh_row down next behind site origin) }
{
    if site == origin {
        return Some(Why::Own);
    }
    if down {
        return Some(Why::Down { site });
    }
    if !next {
        return Some(Why::Missing);
    }
    match behind {
        Some(component) => Some(Why::Behind { component }),
        None => None,
    }
}

/// Why an attempt may not be sent away.
pub(crate) fn moved_refusal(
    to: Option<SiteNo>,
    down: bool,
    elsewhere: Option<Part>,
    site: SiteNo,
) -> Option<Why>
    ensures { result ≡ first (moved_row to down elsewhere site) }
{
    match to {
        None => return Some(Why::NotRouted),
        Some(due) => {
            if due != site {
                return Some(Why::WrongSite { due });
            }
        }
    }
    if down {
        return Some(Why::Down { site });
    }
    match elsewhere {
        Some(_) => None,
        None => Some(Why::AllHere),
    }
}

/// Why an attempt may not fail.
pub(crate) fn fail_refusal(routed: bool, runs: Option<SiteNo>, site: SiteNo) -> Option<Why>
    ensures { result ≡ first (fail_row routed runs site) }
{
    match runs {
        Some(due) => {
            if due == site {
                None
            } else {
                Some(Why::WrongSite { due })
            }
        }
        None => if routed { None } else { Some(Why::NotRunning) },
    }
}

/// Whether the log may be found so.
fn found_fits(found: Found, down: bool) -> bool
    ensures { result ≡ found_fits found down }
{
    match found {
        Found::Clean => !down,
        Found::Kept | Found::Lost => down,
    }
}

/// Why a site may not be restarted so.
pub(crate) fn restart_refusal(
    down: bool,
    due: u64,
    behind: Option<SiteNo>,
    ahead: Option<SiteNo>,
    unclosed: Option<(SiteNo, u64)>,
    site: SiteNo,
    vector: &Vector,
    found: Found,
) -> Option<Why>
    ensures { result ≡ first (restart_row down due behind ahead unclosed site vector.now found) }
{
    if !found_fits(found, down) {
        return Some(Why::WrongFound);
    }
    if vector.get(site) != due {
        return Some(Why::NotDue { due });
    }
    if let Some(component) = behind {
        return Some(Why::Behind { component });
    }
    if let Some(component) = ahead {
        return Some(Why::Ahead { component });
    }
    match unclosed {
        Some((origin, seq)) => Some(Why::NotClosed { origin, seq }),
        None => None,
    }
}

/// Why a partition may not be asked for.
pub(crate) fn ask_refusal(
    routed: bool,
    wanted: bool,
    now: Placing,
    part: Part,
    epoch: u64,
    to: SiteNo,
) -> Option<Why>
    ensures { result ≡ first (ask_row routed wanted now part epoch to) }
{
    if !routed {
        return Some(Why::NotRouted);
    }
    if !wanted {
        return Some(Why::WrongWant);
    }
    let Placing::Settled { site, epoch: due } = now else {
        return Some(Why::Unsettled { part });
    };
    if epoch != due {
        return Some(Why::NotDue { due });
    }
    if site == to {
        Some(Why::Home { site })
    } else {
        None
    }
}

/// Why a site may not release a partition.
pub(crate) fn release_refusal(
    now: Placing,
    down: bool,
    runner: Option<TxnId>,
    own: Vector,
    site: SiteNo,
    epoch: u64,
    to: SiteNo,
    vector: &Vector,
) -> Option<Why>
    ensures { result ≡ first (release_row now down runner own site epoch to vector.now) }
{
    let Placing::Asked {
        site: master,
        epoch: due,
        to: wanted,
    } = now
    else {
        return Some(Why::NotAsked);
    };
    if master != site {
        return Some(Why::WrongSite { due: master });
    }
    if epoch != due {
        return Some(Why::NotDue { due });
    }
    if to != wanted {
        return Some(Why::WrongSite { due: wanted });
    }
    if down {
        return Some(Why::Down { site });
    }
    if let Some(txn) = runner {
        return Some(Why::Running { txn });
    }
    if vector.same(&own) {
        None
    } else {
        Some(Why::WrongVector { due: own })
    }
}

/// Why a partition may not be granted to a site.
pub(crate) fn grant_refusal(
    now: Placing,
    down: bool,
    behind: Option<SiteNo>,
    site: SiteNo,
    epoch: u64,
    vector: &Vector,
) -> Option<Why>
    requires { epoch_now now < 2 ^ 64 - 1 }
    ensures { result ≡ first (grant_row now down behind site epoch vector.now) }
{
    let Placing::Between {
        epoch: released,
        to,
        vector: due,
        ..
    } = now
    else {
        return Some(Why::NotReleased);
    };
    if to != site {
        return Some(Why::WrongSite { due: to });
    }
    if epoch != released + 1 {
        return Some(Why::NotDue { due: released + 1 });
    }
    if !vector.same(&due) {
        return Some(Why::WrongVector { due });
    }
    if down {
        return Some(Why::Down { site });
    }
    match behind {
        Some(component) => Some(Why::Behind { component }),
        None => None,
    }
}

/// Why a granted partition may not be settled.
pub(crate) fn settle_refusal(now: Placing, epoch: u64) -> Option<Why>
    ensures { result ≡ first (settle_row now epoch) }
{
    let Placing::Granted { epoch: due, .. } = now else {
        return Some(Why::NotGranted);
    };
    if epoch == due {
        None
    } else {
        Some(Why::NotDue { due })
    }
}
