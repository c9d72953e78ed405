//! What a site starts again with.

ghost use Rattle.std.specs.List.{AllByRecursion};
ghost use Rattle.std.specs.Option.{IsSomeAnd};
ghost use Rattle.std.specs.Prelude.{◌≡◌, Ok, IfOk, IfSome, IsTrue, OnErr, OnOk, reverse};
ghost use Rattle.dm_chronicle.specs.Standing.{standing};
ghost use Rattle.dm_core.specs.Lawful.{may_follow};
ghost use Rattle.dm_event.specs.Layout.{is_site};
ghost use Rattle.dm_event.specs.declared.actor.Actor.TheVariants.{Session, Site as SiteActor};
ghost use Rattle.dm_event.specs.declared.step.Step.TheVariants as step;
ghost use Rattle.dm_frames.specs.Records.{frames_of, pending_record, records_of};
ghost use Rattle.dm_kept.specs.Roomy.{HasRoom};
ghost use Rattle.dm_locks.specs.Locks.{no_locks};
ghost use Rattle.dm_logdisk.specs.Story.{IsDurable};
ghost use Rattle.dm_model.specs.Allowed.{with_kept};
ghost use Rattle.dm_model.specs.Doubts.{is_down, pending_at};
ghost use Rattle.dm_model.specs.Floors.{floor};
ghost use Rattle.dm_model.specs.Rows.{found_fits};
ghost use Rattle.dm_record.specs.Bytes.{HasRanges};
ghost use Rattle.dm_redo.specs.Comparing.{stood};
ghost use Rattle.dm_redo.specs.Finding.{AreRecords, frames_of as framed_records};
ghost use Rattle.dm_redo.specs.Holding.{IsAt};
ghost use Rattle.dm_restart.specs.Histories.{logged};
ghost use Rattle.dm_restart.specs.Plans.{completed};
ghost use Rattle.dm_invariant.specs.Keeping.{IsSite, parts_of};
ghost use Rattle.dm_invariant.specs.Logs.{doubted};
ghost use Rattle.dm_desk.specs.Restarting.{IsCleanFor};
ghost use Rattle.dm_invariant.specs.Stations.{IsPassOf, layout_of};
ghost use Rattle.dm_invariant.specs.Turning.{Came, Met};
ghost use Rattle.dm_store.specs.Histories.{committed_inside};

use crate::desk::Desk;
use crate::turns::{enter_both, leave, push_roomy, reserve};
use dm_chronicle::{Named, Turn};
use dm_core::{Book, Chron, CorePass, Frame};
use dm_event::{Found, NoMemory, SiteNo, Step, Vector};
use dm_logdisk::LogDisk;
use dm_record::Record;
use dm_restart::{Plan, plan, plans_of_histories};
use std::alloc::Global;
use std::sync::Wait;

/// The frame of the site's step in doubt, where it is down.
fn in_doubt(book: &Book, alloc: Global, site: SiteNo) -> Result<Option<Frame>, NoMemory>
    ensures frame { IfOk result (λ frame. frame ≡ doubted site (reverse book.now.steps)) }
    ensures ranges { OnOk result (IsTrue (is_down site (reverse book.now.steps)) → IfSome (pending_at site (reverse book.now.steps))
        (λ p. HasRanges (pending_record p))) }
{
    if book.is_down(site) {
        return book.pending_frame(alloc, site);
    }
    Ok(None)
}

/// The frames of the site's records, and that of its step in doubt where it is down.
pub fn expected(
    turn: &Turn<'_, Book>,
    alloc: Global,
    site: SiteNo,
) -> Result<(Vec<Frame>, Option<Frame>), NoMemory>
    ensures frames { IfOk result (λ r. r.0.items ≡ frames_of site (reverse turn.now.seen)) }
    ensures pending { IfOk result (λ r. r.1 ≡ doubted site (reverse turn.now.seen)) }
    ensures ranges { OnOk result (AllByRecursion HasRanges (records_of site (reverse turn.now.seen))) }
    ensures kept { OnOk result (IsTrue (is_down site (reverse turn.now.seen)) → IfSome (pending_at site (reverse turn.now.seen))
        (λ p. HasRanges (pending_record p))) }
{
    let book = turn.kept();
    let frames = book.frames(alloc, site)?;
    let pending = in_doubt(book, alloc, site)?;
    Ok((frames, pending))
}

/// What the site starts again with, and room for its Restart. All steps are looked at.
fn planned(
    turn: &mut Turn<'_, Book>,
    alloc: Global,
    site: SiteNo,
    found: Found,
    own: &[Record],
) -> Result<Plan, NoMemory>
    requires there { IsTrue (is_site (layout_of (standing turn.old)) site) }
    requires fits { IsTrue (found_fits found (is_down site (reverse turn.old.seen))) }
    requires own { own.now ≡ logged site found (reverse turn.old.seen) }
    requires ranges { AllByRecursion HasRanges own.now }
    ensures turn { standing turn.new ≡ standing turn.old }
    ensures vector { IfOk result (λ plan. plan.vector ≡ floor (layout_of (standing turn.old)).sites (with_kept site found (reverse turn.old.seen)) site) }
    ensures layout { IfOk result (λ plan. plan.store.layout ≡ layout_of (standing turn.old)) }
    ensures installed { IfOk result (λ plan. plan.store.installed ≡ completed site (logged site found (reverse turn.old.seen))
        (committed_inside turn.old.seen plan.vector)) }
    ensures room { IfOk result (λ plan. IsSomeAnd turn.old.fixed (λ f. may_follow f turn.old.seen (step.Restart site plan.vector found))
        → IsSomeAnd turn.new.kept (λ book. HasRoom book (step.Restart site plan.vector found))) }
{
    let book = turn.kept();
    // the history so far is legal
    let _steps = book.steps();
    let upto = book.floor_with_kept(site, found);
    let past = book.past(alloc, &upto)?;
    plans_of_histories();
    let plan = plan(alloc, book.schema(), site, own, &past)?;
    let vector = plan.vector;
    reserve(
        turn,
        &Step::Restart {
            site,
            vector,
            found,
        },
    )?;
    Ok(plan)
}

impl<D: LogDisk, N: Named> Desk<D, N> {
    /// Starts the site again with what its loaded log and the history have: the new store is whole before
    /// it takes the old one's place.
    pub fn start<R: Wait>(
        &mut self,
        rt: &R,
        chron: &Chron,
        alloc: Global,
        own: &mut CorePass,
        pass: &mut CorePass,
        site: SiteNo,
        session: u32,
        found: Found,
    ) -> Result<Vector, NoMemory>
        requires chron { chron.now.table ≡ N.table }
        requires own { IsPassOf N.table session own.old }
        requires keeps { IsSite N.table N.faults site pass.old (parts_of D.story D.faults self.old.store self.old.locks self.old.log) }
        requires fits { IsTrue (found_fits found (is_down site (reverse pass.old.seen))) }
        requires clean { IsCleanFor site found session pass.old own.old }
        requires live { IsTrue self.old.log.live }
        requires stands { IfSome (D.story self.old.log.disk) (λ s.
            IsAt (stood found (frames_of site (reverse pass.old.seen)) (doubted site (reverse pass.old.seen))) self.old.log.gate s × IsDurable s) }
        requires records { framed_records self.old.log.records ≡ stood found (frames_of site (reverse pass.old.seen)) (doubted site (reverse pass.old.seen)) }
        requires ranges { AreRecords self.old.log.records }
        requires known { AllByRecursion HasRanges (logged site found (reverse pass.old.seen)) }
        ensures keeps { IsSite N.table N.faults site pass.new (parts_of D.story D.faults self.new.store self.new.locks self.new.log) }
        ensures log { self.new.log ≡ self.old.log }
        ensures ok { IfOk result (λ vector. Came (SiteActor site) (Session session) own.old pass.old own.new pass.new (step.Restart site vector found)) }
        ensures locks { OnOk result (self.new.locks ≡ no_locks) }
        ensures err { OnErr result (Met (SiteActor site) (Session session) own.old pass.old own.new pass.new × (self.new.store ≡ self.old.store)
            × (self.new.locks ≡ self.old.locks)) }
    {
        let mut turn = enter_both(rt, chron, own, pass);
        match planned(&mut turn, alloc, site, found, self.log.records()) {
            Ok(Plan { store, vector }) => {
                self.store = store;
                self.locks.clear();
                push_roomy(
                    turn,
                    own,
                    pass,
                    Step::Restart {
                        site,
                        vector,
                        found,
                    },
                );
                Ok(vector)
            }
            Err(e) => {
                leave(turn, own);
                Err(e)
            }
        }
    }
}
