//! Which outcomes the state of an attempt allows.

ghost use Rattle.std.specs.Prelude.{◌≡◌};
ghost use Rattle.dm_model.specs.Outcomes.{is_committed, is_ended, is_doubted, is_unrouted, has_failed, may_give_up, may_refuse, refused_due};

use crate::causes::same_cause;
use dm_event::{AttemptState, Cause, Said, SiteNo};

fn is_unrouted(now: AttemptState) -> bool
    ensures { result ≡ is_unrouted now }
{
    match now {
        AttemptState::Unrouted => true,
        _ => false,
    }
}

fn has_failed(now: AttemptState, cause: Cause) -> bool
    ensures { result ≡ has_failed now cause }
{
    match now {
        AttemptState::Failed { cause: why } => same_cause(why, cause),
        _ => false,
    }
}

fn may_give_up(now: AttemptState) -> bool
    ensures { result ≡ may_give_up now }
{
    match now {
        AttemptState::Unrouted
        | AttemptState::Routed { .. }
        | AttemptState::Moved
        | AttemptState::Dropped => true,
        _ => has_failed(now, Cause::Memory),
    }
}

pub(crate) fn may_refuse(now: AttemptState, cause: Cause) -> bool
    ensures { result ≡ may_refuse now cause }
{
    match cause {
        Cause::Undeclared { .. } => is_unrouted(now),
        Cause::Log { .. } | Cause::Damage { .. } => has_failed(now, cause),
        Cause::Memory => may_give_up(now),
    }
}

pub(crate) fn is_committed(now: AttemptState, site: SiteNo, seq: u64) -> bool
    ensures { result ≡ is_committed now site seq }
{
    match now {
        AttemptState::Committed { site: at, seq: of } => at == site && of == seq,
        _ => false,
    }
}

pub(crate) fn is_ended(now: AttemptState, site: SiteNo) -> bool
    ensures { result ≡ is_ended now site }
{
    match now {
        AttemptState::Ended { site: at } => at == site,
        _ => false,
    }
}

pub(crate) fn is_doubted(now: AttemptState, site: SiteNo) -> bool
    ensures { result ≡ is_doubted now site }
{
    match now {
        AttemptState::Doubted { site: at } => at == site,
        _ => false,
    }
}

pub(crate) fn refused_due(cause: Cause) -> Option<Said>
    ensures { result ≡ refused_due cause }
{
    match cause {
        Cause::Undeclared { .. } => None,
        other => Some(Said::Refused(other)),
    }
}
