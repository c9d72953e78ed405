//! What a session stands routed for.

ghost use Rattle.std.specs.Prelude.{◌≡◌, true};
ghost use Rattle.dm_model.specs.Outcomes.{wants_place, wants_restart, is_routed_for};

use dm_event::{Part, SiteNo, Want};
use dm_told::{Told, is_routed};

fn wants_place(want: &Want, part: Part) -> bool
    ensures { result ≡ wants_place part want.now }
{
    match want {
        Want::Place(of) => *of == part,
        Want::Txn(_) | Want::Restart => false,
    }
}

fn wants_restart(want: &Want) -> bool
    ensures { result ≡ wants_restart want.now }
{
    match want {
        Want::Restart => true,
        Want::Txn(_) | Want::Place(_) => false,
    }
}

fn is_routed_to<T: Told>(told: &T, session: u32, site: SiteNo) -> bool
    ensures { result ≡ is_routed_for session site (λ want. true) (T.past told.now) }
{
    match told.last_routing(session) {
        Some(routing) => is_routed(told.attempt(session).state) && routing.site == site,
        None => false,
    }
}

pub(crate) fn is_routed_for_place<T: Told>(told: &T, session: u32, site: SiteNo, part: Part) -> bool
    ensures { result ≡ is_routed_for session site (wants_place part) (T.past told.now) }
{
    match told.last_want(session) {
        Some(want) => is_routed_to(told, session, site) && wants_place(want, part),
        None => false,
    }
}

pub(crate) fn is_routed_for_restart<T: Told>(told: &T, session: u32, site: SiteNo) -> bool
    ensures { result ≡ is_routed_for session site wants_restart (T.past told.now) }
{
    match told.last_want(session) {
        Some(want) => is_routed_to(told, session, site) && wants_restart(want),
        None => false,
    }
}
