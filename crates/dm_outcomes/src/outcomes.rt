//! What a session may be answered, and what is due.

ghost use Rattle.std.specs.Prelude.{◌≡◌, ◌<◌, ◌&&◌, Bool, true, length, option_and_then};
ghost use Rattle.dm_event.specs.declared.step.Want.{Want};
ghost use Rattle.dm_model.specs.Attempts.{last_routing};
ghost use Rattle.dm_model.specs.Outcomes.{may_say, due_of, said_due, is_routed_for, restarted_since, settled_epochs, wants_place, wants_restart};
ghost use Rattle.dm_model.specs.Shape.{is_said, is_want};
ghost use Rattle.dm_model.specs.Tests.{is_among};
ghost use Rattle.dm_told.specs.Asking.{was_routed_for};

use crate::states::{is_committed, is_doubted, is_ended, may_refuse, refused_due};
use crate::wants::{is_routed_for_place, is_routed_for_restart};
use dm_event::{AttemptState, Part, Said, SiteNo, Want};
use dm_told::Told;

/// Whether the session may be answered that the partition is placed at the site under the epoch.
fn may_place<T: Told>(told: &T, session: u32, part: Part, site: SiteNo, epoch: u64) -> bool
    requires { part < length (T.layout told.now).masters }
    ensures { result ≡ (is_routed_for session site (wants_place part) (T.past told.now)
        && is_among (settled_epochs (T.layout told.now) (T.past told.now) session part site) epoch) }
{
    is_routed_for_place(told, session, site, part) && told.stood_settled(session, part, site, epoch)
}

/// Whether the session may be answered that the site is restarted.
fn may_tell_restart<T: Told>(told: &T, session: u32, site: SiteNo) -> bool
    ensures { result ≡ (is_routed_for session site wants_restart (T.past told.now) && restarted_since session site (T.past told.now)) }
{
    is_routed_for_restart(told, session, site) && told.restarted_since(session, site)
}

/// Whether the session may be answered so; the outcome's numbers are in their ranges.
pub fn may_say<T: Told>(told: &T, session: u32, said: Said) -> bool
    requires { is_said (T.layout told.now) said ≡ true }
    ensures { result ≡ may_say (T.layout told.now) (T.past told.now) session said }
{
    let state = told.attempt(session).state;
    match said {
        Said::Committed { site, seq } => is_committed(state, site, seq),
        Said::Read { site } => is_ended(state, site),
        Said::InDoubt { site } => is_doubted(state, site),
        Said::Placed { part, site, epoch } => may_place(told, session, part, site, epoch),
        Said::Restarted { site } => may_tell_restart(told, session, site),
        Said::Refused(cause) => may_refuse(state, cause),
    }
}

/// What is due for a session whose last Route went to the site for that.
fn due_of<T: Told>(told: &T, session: u32, site: SiteNo, want: &Want) -> Option<Said>
    requires shaped { is_want (T.layout told.now) want.now ≡ true }
    requires wanted { (passes : Want → Bool) → passes want.now ≡ true → was_routed_for session site passes (T.past told.now) ≡ true }
    ensures { result ≡ due_of (T.layout told.now) (T.past told.now) session site want.now }
{
    match want {
        Want::Txn(_) => None,
        Want::Place(part) => match told.last_settled(session, *part, site) {
            Some(epoch) => Some(Said::Placed {
                part: *part,
                site,
                epoch,
            }),
            None => None,
        },
        Want::Restart => if told.restarted_since(session, site) {
            Some(Said::Restarted { site })
        } else {
            None
        },
    }
}

/// What is due for the session's last Route.
fn due_by_route<T: Told>(told: &T, session: u32) -> Option<Said>
    ensures { result ≡ option_and_then (λ r. due_of (T.layout told.now) (T.past told.now) session r.site r.want) (last_routing session (T.past told.now)) }
{
    told.is_legal();
    match (told.last_routing(session), told.last_want(session)) {
        (Some(routing), Some(want)) => due_of(told, session, routing.site, want),
        _ => None,
    }
}

/// The outcome due for the session, if there is one.
pub fn said_due<T: Told>(told: &T, session: u32) -> Option<Said>
    ensures { result ≡ said_due (T.layout told.now) (T.past told.now) session }
{
    match told.attempt(session).state {
        AttemptState::Routed { .. } => due_by_route(told, session),
        AttemptState::Committed { site, seq } => Some(Said::Committed { site, seq }),
        AttemptState::Ended { site } => Some(Said::Read { site }),
        AttemptState::Doubted { site } => Some(Said::InDoubt { site }),
        AttemptState::Failed { cause } => refused_due(cause),
        AttemptState::Unrouted
        | AttemptState::Moved
        | AttemptState::Running { .. }
        | AttemptState::Dropped => None,
    }
}
