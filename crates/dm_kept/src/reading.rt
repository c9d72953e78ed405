//! What the steps at given places say.

ghost use Rattle.std.specs.Prelude.{◌≡◌, ◌==◌, option_and_then, option_copied, option_map, slice_get};
ghost use Rattle.dm_index.specs.Places.{carried, carried_at};
ghost use Rattle.dm_model.specs.Attempts.{routing_of};
ghost use Rattle.dm_model.specs.Doubts.{doubt_at};
ghost use Rattle.dm_told.specs.Routings.{without_want};

use dm_event::{Entry, Pending, SiteNo, Step, Want};
use dm_plain::{doubt_at, routing_by, wanted_by};
use dm_told::Routing;

/// The Route at the place, if there is one of the session.
pub(crate) fn routing_at(steps: &[Step], place: Option<usize>, session: u32) -> Option<Routing>
    ensures { result ≡ option_map without_want (option_and_then (λ p. option_and_then (routing_of (λ txn. txn.session == session)) (slice_get steps.now p)) place) }
{
    routing_by(steps.get(place?)?, session)
}

/// What the Route at the place wants, if there is one of the session.
pub(crate) fn want_at(steps: &[Step], place: Option<usize>, session: u32) -> Option<&Want>
    ensures { option_copied result ≡ option_map (λ r. r.want) (option_and_then (λ p. option_and_then (routing_of (λ txn. txn.session == session)) (slice_get steps.now p)) place) }
{
    wanted_by(steps.get(place?)?, session)
}

/// The pending step of the Doubt at the place, if there is one of the site.
pub(crate) fn pending_at(steps: &[Step], place: Option<usize>, site: SiteNo) -> Option<&Pending>
    ensures { option_copied result ≡ option_and_then (λ p. option_and_then (doubt_at site) (slice_get steps.now p)) place }
{
    doubt_at(steps.get(place?)?, site)
}

/// The entry that the step carries: a Commit's, or that of a Doubt of a commit.
fn carried(step: &Step) -> Option<&Entry>
    ensures { option_copied result ≡ carried step.now }
{
    match step {
        Step::Commit { entry } => Some(entry),
        Step::Doubt {
            pending: Pending::Commit(entry),
            ..
        } => Some(entry),
        _ => None,
    }
}

/// The entry that the step at the place carries.
pub(crate) fn entry_at(steps: &[Step], place: Option<usize>) -> Option<&Entry>
    ensures { option_copied result ≡ option_and_then (carried_at steps.now) place }
{
    carried(steps.get(place?)?)
}
