//! Sites that are restarted by hand.

ghost use Rattle.std.specs.Prelude.{◌≡◌, ◌+◌, None, reverse, IsTrue};
ghost use Rattle.dm_answers.specs.declared.item.Item.TheVariants.{Restart as RestartItem};
ghost use Rattle.dm_client.specs.Client.{Answered};
ghost use Rattle.dm_client.specs.Moves.{said_restarted};
ghost use Rattle.dm_event.specs.Layout.{is_site};
ghost use Rattle.dm_event.specs.declared.attempt.AttemptState.TheVariants.{Unrouted};
ghost use Rattle.dm_invariant.specs.Stations.{layout_of};
ghost use Rattle.dm_model.specs.Attempts.{state};
ghost use Rattle.dm_session.specs.Sitting.{IsCounted};
ghost use Rattle.dm_sites.specs.Telling.{IsReady};

use crate::shared::Shared;
use dm_chronicle::Named;
use dm_event::{Cause, Choice, Said, SiteNo, Want};
use dm_logdisk::LogDisk;
use dm_session::Session;
use dm_sites::{Gate, Stop, Told, bare};
use std::sync::Wait;

/// Answers the session's next item, which restarts the site.
pub fn restart_site<D: LogDisk + Drop, N: Named, G: Gate, R: Wait>(
    shared: &Shared<D, N>,
    rt: &R,
    _gate: &G,
    session: Session<N>,
    site: SiteNo,
) -> (Session<N>, Told)
    requires schema { layout_of session.pass ≡ shared.now.layout }
    requires counted { IsCounted session }
    requires unrouted { state session.id (reverse session.pass.seen) ≡ Unrouted }
    requires there { IsTrue (is_site (layout_of session.pass) site) }
    ensures { Answered (RestartItem site) result.1 session result.0 }
{
    let (mut session, told) = route_and_restart(shared, rt, session, site);
    session.reply(rt, &shared.sites.chron, told.said);
    (session, told)
}

fn said_restarted(restarted: Result<(), Stop>, site: SiteNo) -> Said
    ensures { result ≡ said_restarted site restarted }
{
    match restarted {
        Ok(()) => Said::Restarted { site },
        Err(stop) => Said::Refused(stop.cause()),
    }
}

/// Routes the item by hand, and restarts the site.
fn route_and_restart<D: LogDisk + Drop, N: Named, R: Wait>(
    shared: &Shared<D, N>,
    rt: &R,
    session: Session<N>,
    site: SiteNo,
) -> (Session<N>, Told)
    requires schema { layout_of session.pass ≡ shared.now.layout }
    requires counted { IsCounted session }
    requires unrouted { state session.id (reverse session.pass.seen) ≡ Unrouted }
    requires there { IsTrue (is_site (layout_of session.pass) site) }
    ensures same { (result.0.id ≡ session.id) × (result.0.count ≡ session.count) }
    ensures ready { IsReady session.id (session.count + 1) (RestartItem site) session.vector None session.pass result.0.pass result.1 }
{
    let mut session = session;
    let sites = &shared.sites;
    match session.route(rt, &sites.chron, Want::Restart, site, Choice::Hand) {
        Err(_) => {
            let told = bare(sites.alloc, Said::Refused(Cause::Memory), None);
            (session, told)
        }
        Ok(txn) => {
            let (rest, mut own) = session.part();
            let restarted = sites.restart_at(rt, &mut own, txn, site);
            let said = said_restarted(restarted, site);
            (rest.back(own), bare(sites.alloc, said, Some(txn)))
        }
    }
}
