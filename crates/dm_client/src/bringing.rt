//! Hand-overs, each ended from the placing that it has.

ghost use Rattle.std.specs.Prelude.{◌≡◌, ◌<◌, IfErr, IfOk, IsTrue, OnOk};
ghost use Rattle.dm_client.specs.Moves.{BroughtAs, BroughtOn, MayMove, is_given, is_granted_now, is_over};
ghost use Rattle.dm_event.specs.Layout.{is_part};
ghost use Rattle.dm_event.specs.declared.limits.TheConstants.{MAX_PARTS};
ghost use Rattle.dm_event.specs.declared.actor.Actor.TheVariants.{Session};
ghost use Rattle.dm_invariant.specs.Stations.{IsPassOf, Rested, Went, layout_of};
ghost use Rattle.dm_site.specs.Answers.{IsRoutedIn};
ghost use Rattle.dm_sites.specs.Stages.{StoppedAs};
ghost use Rattle.dm_table.specs.Places.{Knows, WantsPart};

use dm_chronicle::Named;
use dm_core::CorePass;
use dm_event::{MAX_PARTS, Part, PartSet, Placing, SiteNo, TxnId};
use dm_logdisk::LogDisk;
use dm_sites::{Freed, Given, Sites, Stop, stuck};
use dm_table::{Place, Taken};
use std::sync::Wait;

/// Where a partition came to.
#[derive(Drop)]
pub(crate) enum Brought {
    There { epoch: u64 },
    /// It is settled elsewhere, and the Route doesn't want it here.
    Elsewhere,
}

fn is_granted(now: &Placing) -> bool
    ensures { result ≡ is_granted_now now.now }
{
    matches!(now, Placing::Granted { .. })
}

/// Whether the partition is granted once the first site was asked to release it.
fn is_over(freed: &Freed) -> bool
    ensures { result ≡ is_over freed.now }
{
    match freed {
        Freed::Released => false,
        Freed::Passed { now } => is_granted(now),
    }
}

/// Whether the partition is granted once the second site was asked to take it over.
fn is_given(given: &Given) -> bool
    ensures { result ≡ is_given given.now }
{
    match given {
        Given::Granted => true,
        Given::Passed { now } => is_granted(now),
    }
}

/// Has the site take the partition over, and opens it for routing.
fn give<D: LogDisk, N: Named, R: Wait>(
    sites: &Sites<D, N>,
    rt: &R,
    own: &mut CorePass,
    place: &mut Place<N>,
    on: TxnId,
    to: SiteNo,
) -> Result<(), Stop>
    requires own { IsPassOf N.table on.session own.old }
    requires schema { layout_of own.old ≡ sites.now.schema }
    requires routed { IsRoutedIn own.old on }
    requires part { IsTrue (is_part (layout_of own.old) place.old.part) }
    requires knows { Knows place.old own.old }
    ensures went { Went own.old own.new }
    ensures part { place.new.part ≡ place.old.part }
    ensures rested { OnOk result (Rested (Session on.session) own.old own.new) }
    ensures stopped { IfErr result (StoppedAs on own.old own.new) }
{
    let given = sites.grant_at(rt, own, on, to, place.part())?;
    if !is_given(&given) {
        // it isn't on its way: the other site has to release it first
        return Ok(());
    }
    place.settle(rt, &sites.chron, own);
    Ok(())
}

/// Ends the hand-over of an asked partition from the one site to the other, however far it has come.
fn hand_over<D: LogDisk, N: Named, R: Wait>(
    sites: &Sites<D, N>,
    rt: &R,
    own: &mut CorePass,
    place: &mut Place<N>,
    on: TxnId,
    from: SiteNo,
    to: SiteNo,
) -> Result<(), Stop>
    requires own { IsPassOf N.table on.session own.old }
    requires schema { layout_of own.old ≡ sites.now.schema }
    requires routed { IsRoutedIn own.old on }
    requires part { IsTrue (is_part (layout_of own.old) place.old.part) }
    requires knows { Knows place.old own.old }
    ensures went { Went own.old own.new }
    ensures part { place.new.part ≡ place.old.part }
    ensures rested { OnOk result (Rested (Session on.session) own.old own.new) }
    ensures stopped { IfErr result (StoppedAs on own.old own.new) }
{
    let freed = sites.release_at(rt, own, on, from, place.part())?;
    if !is_over(&freed) {
        return give(sites, rt, own, place, on, to);
    }
    place.settle(rt, &sites.chron, own);
    Ok(())
}

/// Does what is due next for the partition to come to the site, if the Route wants it there, and None where it isn't there yet.
fn bring_on<D: LogDisk, N: Named, R: Wait>(
    sites: &Sites<D, N>,
    rt: &R,
    own: &mut CorePass,
    place: &mut Place<N>,
    on: TxnId,
    to: SiteNo,
    wanted: bool,
) -> Result<Option<Brought>, Stop>
    requires own { IsPassOf N.table on.session own.old }
    requires schema { layout_of own.old ≡ sites.now.schema }
    requires routed { IsRoutedIn own.old on }
    requires part { IsTrue (is_part (layout_of own.old) place.old.part) }
    requires wants { IsTrue wanted → WantsPart on place.old.part to own.old }
    ensures went { Went own.old own.new }
    ensures part { place.new.part ≡ place.old.part }
    ensures brought { IfOk result (BroughtOn on place.old.part to own.old own.new) }
    ensures stopped { IfErr result (StoppedAs on own.old own.new) }
{
    place.meet(&sites.chron, own);
    let from = place.site();
    if let Some(target) = place.asked() {
        hand_over(sites, rt, own, place, on, from, target)?;
        return Ok(None);
    }
    if from == to {
        let epoch = place.epoch();
        return Ok(Some(Brought::There { epoch }));
    }
    if !wanted {
        return Ok(Some(Brought::Elsewhere));
    }
    place.ask(rt, &sites.chron, own, to, on)?;
    hand_over(sites, rt, own, place, on, from, to)?;
    Ok(None)
}

/// Brings the partition to the site, if the Route wants it there. A hand-over that is under way is ended in any case, whoever began it.
pub(crate) fn bring<D: LogDisk, N: Named, R: Wait>(
    sites: &Sites<D, N>,
    rt: &R,
    own: &mut CorePass,
    place: &mut Place<N>,
    on: TxnId,
    to: SiteNo,
    wanted: bool,
) -> Result<Brought, Stop>
    requires own { IsPassOf N.table on.session own.old }
    requires schema { layout_of own.old ≡ sites.now.schema }
    requires routed { IsRoutedIn own.old on }
    requires part { IsTrue (is_part (layout_of own.old) place.old.part) }
    requires wants { IsTrue wanted → WantsPart on place.old.part to own.old }
    ensures went { Went own.old own.new }
    ensures part { place.new.part ≡ place.old.part }
    ensures brought { IfOk result (BroughtAs on place.old.part to own.old own.new) }
    ensures stopped { IfErr result (StoppedAs on own.old own.new) }
{
    for _ in rt.forever() {
        if let Some(brought) = bring_on(sites, rt, own, place, on, to, wanted)? {
            return Ok(brought);
        }
    }
    unreachable!()
}

/// Brings the partition, if it is one of the set.
fn bring_one<D: LogDisk, N: Named, R: Wait>(
    sites: &Sites<D, N>,
    rt: &R,
    own: &mut CorePass,
    taken: &mut Taken<'_, N>,
    on: TxnId,
    to: SiteNo,
    parts: &PartSet,
    part: Part,
    wanted: bool,
) -> Result<(), Stop>
    requires own { IsPassOf N.table on.session own.old }
    requires schema { layout_of own.old ≡ sites.now.schema }
    requires routed { IsRoutedIn own.old on }
    requires parts { MayMove on to parts.now wanted own.old }
    requires few { part < MAX_PARTS }
    ensures went { Went own.old own.new }
    ensures moved { OnOk result (Rested (Session on.session) own.old own.new) }
    ensures stopped { IfErr result (StoppedAs on own.old own.new) }
{
    if !parts.holds(part) {
        return Ok(());
    }
    let Some(place) = taken.entry(part) else {
        stuck(rt);
        unreachable!()
    };
    match bring(sites, rt, own, place, on, to, wanted)? {
        Brought::There { .. } | Brought::Elsewhere => Ok(()),
    }
}

/// Ends each hand-over among the taken partitions of the set, and brings each of them to the site, if the Route wants it there.
pub(crate) fn bring_all<D: LogDisk, N: Named, R: Wait>(
    sites: &Sites<D, N>,
    rt: &R,
    own: &mut CorePass,
    taken: &mut Taken<'_, N>,
    on: TxnId,
    to: SiteNo,
    parts: &PartSet,
    wanted: bool,
) -> Result<(), Stop>
    requires own { IsPassOf N.table on.session own.old }
    requires schema { layout_of own.old ≡ sites.now.schema }
    requires routed { IsRoutedIn own.old on }
    requires parts { MayMove on to parts.now wanted own.old }
    ensures went { Went own.old own.new }
    ensures moved { OnOk result (Rested (Session on.session) own.old own.new) }
    ensures stopped { IfErr result (StoppedAs on own.old own.new) }
{
    for part in 0..MAX_PARTS {
        bring_one(sites, rt, own, taken, on, to, parts, part, wanted)?;
    }
    Ok(())
}
