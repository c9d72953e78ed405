//! What is due: the numbers, vectors and steps that a command line asks for.

ghost use Rattle.std.specs.Prelude.{◌≡◌, ◌<◌, ◌^◌, ◌-◌, None, Some, IfOk, length};
ghost use Rattle.dm_clauses.specs.Judging.{epoch_now};
ghost use Rattle.dm_lines.specs.Ranges.{FitsRoute, IsSession};
ghost use Rattle.dm_model.specs.Attempts.{wanted_keys};
ghost use Rattle.dm_schedule.specs.Drive.{next_txn, least_due, vector_of, routed_at, routed_of, live_at, live_of, running_of, is_declared, entry_due, end_due, site_due, floor_due, outcome_due};

use crate::driver::{Driver, Run};
use dm_body::Ran;
use dm_event::{
    Attempt, AttemptState, Choice, Entry, Found, Key, NoMemory, Placing, Said, SiteNo, Step, TxnId,
    Vector, Want,
};

/// An attempt that stands routed, with its site.
fn routed_at(attempt: Attempt) -> Option<(TxnId, SiteNo)>
    ensures { result ≡ routed_at attempt.txn attempt.state }
{
    match (attempt.txn, attempt.state) {
        (Some(txn), AttemptState::Routed { site, .. }) => Some((txn, site)),
        _ => None,
    }
}

/// The session's next attempt.
#[tactic(auto, unfolding(crate::specs::Drive::next_txn))]
pub(crate) fn next_txn(driver: &Driver, session: u32) -> TxnId
    requires { length driver.now.history < 2 ^ 32 - 1 }
    ensures { result ≡ next_txn driver.now session }
{
    TxnId {
        session,
        number: (driver.book().replies(session) + 1) as u32,
        attempt: driver.book().routes(session) + 1,
    }
}

/// The least vector at which it may begin.
#[tactic(auto, unfolding(crate::specs::Drive::least_due))]
pub(crate) fn least_due(driver: &Driver, session: u32) -> Vector
    ensures { result ≡ least_due driver.now session }
{
    driver.book().session_vector(session)
}

#[tactic(auto, unfolding(crate::specs::Drive::vector_of))]
pub(crate) fn vector_of(driver: &Driver, site: SiteNo) -> Vector
    ensures { result ≡ vector_of driver.now site }
{
    driver.book().vector(site)
}

/// The session's attempt that stands routed, with its site.
#[tactic(auto, unfolding(crate::specs::Drive::routed_of))]
pub(crate) fn routed(driver: &Driver, session: u32) -> Option<(TxnId, SiteNo)>
    ensures { result ≡ routed_of driver.now session }
{
    routed_at(driver.book().attempt(session))
}

/// An attempt that stands routed or runs, with its site.
fn live_at(attempt: Attempt) -> Option<(TxnId, SiteNo)>
    ensures { result ≡ live_at attempt.txn attempt.state }
{
    match (attempt.txn, attempt.state) {
        (Some(txn), AttemptState::Routed { site, .. } | AttemptState::Running { site }) => {
            Some((txn, site))
        }
        _ => None,
    }
}

/// The session's attempt that stands routed or runs, with its site.
#[tactic(auto, unfolding(crate::specs::Drive::live_of))]
pub(crate) fn live(driver: &Driver, session: u32) -> Option<(TxnId, SiteNo)>
    ensures { result ≡ live_of driver.now session }
{
    live_at(driver.book().attempt(session))
}

/// The session's attempt that runs.
#[tactic(auto, unfolding(crate::specs::Drive::running_of))]
pub(crate) fn running(driver: &Driver, session: u32) -> Option<Run>
    ensures { result ≡ running_of driver.now session }
{
    let attempt = driver.book().attempt(session);
    match (attempt.txn, attempt.state) {
        (Some(txn), AttemptState::Running { site }) => {
            let begin = driver.book().begin_vector(txn)?;
            Some(Run { txn, site, begin })
        }
        _ => None,
    }
}

#[tactic(auto, unfolding(crate::specs::Drive::is_declared))]
pub(crate) fn is_declared(driver: &Driver, txn: TxnId, key: Key) -> bool
    ensures { result ≡ is_declared driver.now txn key }
{
    driver.book().declared(txn).contains(&key)
}

/// The entry of the ops so far.
#[tactic(auto, unfolding(crate::specs::Drive::entry_due))]
pub(crate) fn entry_due(driver: &Driver, session: u32, run: &Run) -> Result<Entry, NoMemory>
    requires session { IsSession session }
    requires running { running_of driver.now session ≡ Some run.now }
    ensures { IfOk result (λ entry. entry ≡ entry_due driver.now session run.now) }
{
    let Ran { ops, reads, writes } = driver.ran(session, run)?;
    Ok(Entry {
        txn: run.txn,
        origin: run.site,
        seq: driver.book().entry_count(run.site) + 1,
        begin: run.begin,
        ops,
        reads,
        writes,
    })
}

/// The End of the ops so far.
#[tactic(auto, unfolding(crate::specs::Drive::end_due))]
pub(crate) fn end_due(driver: &Driver, session: u32, run: &Run) -> Result<Step, NoMemory>
    requires session { IsSession session }
    requires running { running_of driver.now session ≡ Some run.now }
    ensures { IfOk result (λ step. step ≡ end_due driver.now session run.now) }
{
    let Ran { ops, reads, .. } = driver.ran(session, run)?;
    Ok(Step::End {
        site: run.site,
        txn: run.txn,
        ops,
        reads,
    })
}

#[tactic(auto, unfolding(crate::specs::Drive::outcome_due))]
pub(crate) fn outcome_due(driver: &Driver, session: u32) -> Option<Said>
    ensures { result ≡ outcome_due driver.now session }
{
    driver.book().said_for(session)
}

/// The site and the choice that are due for a transaction.
#[tactic(auto, unfolding(crate::specs::Drive::site_due))]
pub(crate) fn site_due(driver: &Driver, session: u32, want: &Want) -> (SiteNo, Choice)
    requires session { IsSession session }
    requires want { FitsRoute driver.now.layout want.now None }
    ensures { result ≡ site_due driver.now session (wanted_keys want.now) }
{
    match want {
        Want::Txn(_) => driver.book().choice_for(session, want),
        Want::Place(_) | Want::Restart => unreachable!(),
    }
}

pub(crate) fn epoch_now(placing: Placing) -> u64
    ensures { result ≡ epoch_now placing }
{
    match placing {
        Placing::Settled { epoch, .. }
        | Placing::Asked { epoch, .. }
        | Placing::Between { epoch, .. }
        | Placing::Granted { epoch, .. } => epoch,
    }
}

/// The vector of a restart of the site.
#[tactic(auto, unfolding(crate::specs::Drive::floor_due))]
pub(crate) fn floor_due(driver: &Driver, site: SiteNo, found: Found) -> Vector
    ensures { result ≡ floor_due driver.now site found }
{
    driver.book().floor_with_kept(site, found)
}
