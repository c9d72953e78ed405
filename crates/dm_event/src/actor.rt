//! Whose action a step is.

ghost use Rattle.std.specs.Prelude.{◌≡◌};
ghost use Rattle.dm_event.specs.Actors.{actors};

use crate::step::{Pending, Step};
use crate::{Part, SiteNo};

/// One who acts: only the holder of an actor's pass may push its steps.
#[derive(Clone, Copy, Debug, PartialEq, Eq)]
pub enum Actor {
    Session(u32),
    Partition(Part),
    Site(SiteNo),
}

impl Step {
    /// The one or two actors of the step.
    pub fn actors(&self) -> (Actor, Option<Actor>)
        ensures { result ≡ actors self.now }
    {
        match self {
            Step::Route { txn, .. } => (Actor::Session(txn.session), None),
            Step::Reply { session, .. } => (Actor::Session(*session), None),
            Step::Ask { part, .. } | Step::Settle { part, .. } => (Actor::Partition(*part), None),
            Step::Begin { site, txn, .. }
            | Step::Moved { site, txn }
            | Step::End { site, txn, .. }
            | Step::Fail { site, txn, .. } => {
                (Actor::Site(*site), Some(Actor::Session(txn.session)))
            }
            Step::Commit { entry } => (
                Actor::Site(entry.origin),
                Some(Actor::Session(entry.txn.session)),
            ),
            Step::Doubt {
                site,
                pending: Pending::Commit(entry),
            } => (Actor::Site(*site), Some(Actor::Session(entry.txn.session))),
            Step::Doubt { site, .. }
            | Step::Refresh { site, .. }
            | Step::Release { site, .. }
            | Step::Grant { site, .. }
            | Step::Restart { site, .. } => (Actor::Site(*site), None),
        }
    }
}
