//! Two sessions, each of which may be served.

ghost use Rattle.std.specs.Prelude.{◌≡◌, ◌<◌, ◌+◌, ◌^◌, IfSome, IsTrue};
ghost use Rattle.dm_served.specs.Clients.{Serves};
ghost use Rattle.dm_room.specs.Room.{items_of};

use crate::job::{Job, Who, body_of};
use dm_chronicle::Named;
use dm_client::{OpenGate, Shared, Told, place, restart_site, transact};
use dm_logdisk::LogDisk;
use dm_session::Session;
use std::alloc::Global;
use std::sync::Wait;

/// The two sessions.
#[derive(Drop)]
pub(crate) struct Two<N: Named> {
    pub(crate) first: Session<N>,
    pub(crate) second: Session<N>,
}

/// Whether the session has an item left.
fn has_item<N: Named>(items: &[u32], session: &Session<N>) -> bool
    ensures left { IsTrue result → session.now.count < items_of items.now session.now.id }
    ensures room { IsTrue result → session.now.count + 1 < 2 ^ 32 }
{
    match items.get((session.id() as usize).wrapping_sub(1)) {
        Some(count) => session.replies() < *count,
        None => false,
    }
}

/// Has a session's next item done, and gives the session back with what it was told.
fn answer<D: LogDisk + Drop, N: Named, R: Wait>(
    shared: &Shared<D, N>,
    rt: &R,
    alloc: Global,
    items: &[u32],
    session: Session<N>,
    job: Job,
) -> Option<(Session<N>, Told)>
    requires serves { Serves shared.now session }
    requires items { items.now ≡ shared.now.items }
    ensures { IfSome result (λ answered. Serves shared.now answered.0) }
{
    if !has_item(items, &session) {
        return None;
    }
    let schema = shared.schema();
    match job {
        Job::Place { part, to } => {
            if schema.is_part(part) && schema.is_site(to) {
                Some(place(shared, rt, &OpenGate, session, part, to))
            } else {
                None
            }
        }
        Job::Restart { site } => {
            if schema.is_site(site) {
                Some(restart_site(shared, rt, &OpenGate, session, site))
            } else {
                None
            }
        }
        Job::Add { .. } | Job::AddBoth { .. } | Job::Read { .. } | Job::Loose { .. } => {
            let body = body_of(alloc, schema, job)?;
            Some(transact(shared, rt, &OpenGate, session, &body))
        }
    }
}

impl<N: Named> Two<N> {
    /// Has one of them do a job.
    pub(crate) fn answer<D: LogDisk + Drop, R: Wait>(
        self,
        shared: &Shared<D, N>,
        rt: &R,
        alloc: Global,
        items: &[u32],
        who: Who,
        job: Job,
    ) -> Option<(Two<N>, Told)>
        requires first { Serves shared.now self.first }
        requires second { Serves shared.now self.second }
        requires items { items.now ≡ shared.now.items }
        ensures first { IfSome result (λ answered. Serves shared.now answered.0.first) }
        ensures second { IfSome result (λ answered. Serves shared.now answered.0.second) }
    {
        let Two { first, second } = self;
        match who {
            Who::First => {
                let (first, told) = answer(shared, rt, alloc, items, first, job)?;
                Some((Two { first, second }, told))
            }
            Who::Second => {
                let (second, told) = answer(shared, rt, alloc, items, second, job)?;
                Some((Two { first, second }, told))
            }
        }
    }
}
