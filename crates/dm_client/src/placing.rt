//! Partitions that are placed by hand.

ghost use Rattle.std.specs.Prelude.{◌≡◌, ◌+◌, None, reverse, IsTrue};
ghost use Rattle.dm_answers.specs.declared.item.Item.TheVariants.{Place as PlaceItem};
ghost use Rattle.dm_client.specs.Client.{Answered};
ghost use Rattle.dm_client.specs.Moves.{said_brought};
ghost use Rattle.dm_event.specs.Layout.{is_part, is_site};
ghost use Rattle.dm_event.specs.declared.attempt.AttemptState.TheVariants.{Unrouted};
ghost use Rattle.dm_invariant.specs.Stations.{layout_of};
ghost use Rattle.dm_model.specs.Attempts.{state};
ghost use Rattle.dm_session.specs.Sitting.{IsCounted};
ghost use Rattle.dm_sites.specs.Telling.{IsReady};

use crate::bringing::{Brought, bring};
use crate::shared::Shared;
use dm_chronicle::Named;
use dm_event::{Cause, Choice, Part, PartSet, Said, SiteNo, Want};
use dm_logdisk::LogDisk;
use dm_session::Session;
use dm_sites::{Gate, Stop, Told, bare, stuck};
use dm_table::Place;
use std::sync::Wait;

/// Answers the session's next item, which places the partition at the site.
pub fn place<D: LogDisk + Drop, N: Named, G: Gate, R: Wait>(
    shared: &Shared<D, N>,
    rt: &R,
    _gate: &G,
    session: Session<N>,
    part: Part,
    to: SiteNo,
) -> (Session<N>, Told)
    requires schema { layout_of session.pass ≡ shared.now.layout }
    requires counted { IsCounted session }
    requires unrouted { state session.id (reverse session.pass.seen) ≡ Unrouted }
    requires part { IsTrue (is_part (layout_of session.pass) part) }
    requires there { IsTrue (is_site (layout_of session.pass) to) }
    ensures { Answered (PlaceItem part to) result.1 session result.0 }
{
    let (mut session, told) = take_and_place(shared, rt, session, part, to);
    session.reply(rt, &shared.sites.chron, told.said);
    (session, told)
}

/// Places the partition while its entry is held alone.
fn take_and_place<D: LogDisk + Drop, N: Named, R: Wait>(
    shared: &Shared<D, N>,
    rt: &R,
    session: Session<N>,
    part: Part,
    to: SiteNo,
) -> (Session<N>, Told)
    requires schema { layout_of session.pass ≡ shared.now.layout }
    requires counted { IsCounted session }
    requires unrouted { state session.id (reverse session.pass.seen) ≡ Unrouted }
    requires part { IsTrue (is_part (layout_of session.pass) part) }
    requires there { IsTrue (is_site (layout_of session.pass) to) }
    ensures same { (result.0.id ≡ session.id) × (result.0.count ≡ session.count) }
    ensures ready { IsReady session.id (session.count + 1) (PlaceItem part to) session.vector None session.pass result.0.pass result.1 }
{
    // a schema has few partitions
    let _parts = shared.sites.schema.parts();
    let mut parts = PartSet::empty();
    parts.add(part);
    let Ok(mut taken) = shared.table.take(rt, parts) else {
        let told = bare(shared.sites.alloc, Said::Refused(Cause::Memory), None);
        return (session, told);
    };
    let Some(place) = taken.entry(part) else {
        stuck(rt);
        unreachable!()
    };
    place_here(shared, rt, place, session, part, to)
}

fn said_brought(brought: Result<Brought, Stop>, part: Part, to: SiteNo) -> Said
    ensures { result ≡ said_brought part to brought }
{
    match brought {
        Ok(Brought::There { epoch }) => Said::Placed {
            part,
            site: to,
            epoch,
        },
        Ok(Brought::Elsewhere) => Said::Refused(Cause::Memory),
        Err(stop) => Said::Refused(stop.cause()),
    }
}

/// Routes the item by hand, and brings the partition there.
fn place_here<D: LogDisk + Drop, N: Named, R: Wait>(
    shared: &Shared<D, N>,
    rt: &R,
    place: &mut Place<N>,
    session: Session<N>,
    part: Part,
    to: SiteNo,
) -> (Session<N>, Told)
    requires schema { layout_of session.pass ≡ shared.now.layout }
    requires counted { IsCounted session }
    requires unrouted { state session.id (reverse session.pass.seen) ≡ Unrouted }
    requires part { IsTrue (is_part (layout_of session.pass) part) }
    requires there { IsTrue (is_site (layout_of session.pass) to) }
    requires entry { place.old.part ≡ part }
    ensures same { (result.0.id ≡ session.id) × (result.0.count ≡ session.count) }
    ensures ready { IsReady session.id (session.count + 1) (PlaceItem part to) session.vector None session.pass result.0.pass result.1 }
{
    let mut session = session;
    let sites = &shared.sites;
    match session.route(rt, &sites.chron, Want::Place(part), to, Choice::Hand) {
        Err(_) => {
            let told = bare(sites.alloc, Said::Refused(Cause::Memory), None);
            (session, told)
        }
        Ok(txn) => {
            let (rest, mut own) = session.part();
            let brought = bring(sites, rt, &mut own, place, txn, to, true);
            let said = said_brought(brought, part, to);
            (rest.back(own), bare(sites.alloc, said, Some(txn)))
        }
    }
}
