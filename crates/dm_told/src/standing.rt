//! Which attempts stand routed.

ghost use Rattle.std.specs.Prelude.{◌≡◌, false, is_some, option_copied, option_map};
ghost use Rattle.std.specs.Option.{option_map_or};
ghost use Rattle.dm_model.specs.Attempts.{is_routed, routed, routed_txn, wants_txn};
ghost use Rattle.dm_told.specs.Routings.{without_want};

use crate::routing::Routing;
use crate::told::Told;
use dm_event::{AttemptState, SiteNo, TxnId, Want};

pub fn is_routed(state: AttemptState) -> bool
    ensures { result ≡ is_routed state }
{
    match state {
        AttemptState::Routed { .. } => true,
        _ => false,
    }
}

fn wants_txn(want: Option<&Want>) -> bool
    ensures { result ≡ option_map_or wants_txn (option_copied want.entry) false }
{
    match want {
        Some(Want::Txn(_)) => true,
        _ => false,
    }
}

/// The attempt's Route, where its session stands routed by it.
pub fn routed<T: Told>(told: &T, txn: TxnId) -> Option<Routing>
    ensures { result ≡ option_map without_want (routed txn (T.past told.now)) }
{
    let routing = told.last_routing(txn.session)?;
    if is_routed(told.attempt(txn.session).state) && txn.same(&routing.txn) {
        Some(routing)
    } else {
        None
    }
}

/// Whether the attempt's session stands routed by it.
#[tactic(auto, using(crate::proofs::Routings::some_routing))]
pub fn stands_routed<T: Told>(told: &T, txn: TxnId) -> bool
    ensures { result ≡ is_some (routed txn (T.past told.now)) }
{
    routed(told, txn).is_some()
}

/// The attempt's Route, where its session stands routed by it for a transaction.
pub fn routed_txn<T: Told>(told: &T, txn: TxnId) -> Option<Routing>
    ensures { result ≡ option_map without_want (routed_txn txn (T.past told.now)) }
{
    let routing = told.last_routing(txn.session)?;
    if is_routed(told.attempt(txn.session).state)
        && txn.same(&routing.txn)
        && wants_txn(told.last_want(txn.session))
    {
        Some(routing)
    } else {
        None
    }
}

/// The site to which the attempt is routed for a transaction.
pub fn routed_to<T: Told>(told: &T, txn: TxnId) -> Option<SiteNo>
    ensures { result ≡ option_map (λ r. r.site) (routed_txn txn (T.past told.now)) }
{
    match routed_txn(told, txn) {
        Some(routing) => Some(routing.site),
        None => None,
    }
}
