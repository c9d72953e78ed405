//! The steps of hand-overs, which are logged before they come.

ghost use Rattle.std.specs.Prelude.{◌≡◌, ◌≢◌, ◌≤◌, Some, IfOk, IfErr, OnErr, IsTrue};
ghost use Rattle.dm_event.specs.declared.actor.Actor.TheVariants.{Session, Site as SiteActor};
ghost use Rattle.dm_event.specs.declared.step.Pending.TheVariants as pending;
ghost use Rattle.dm_event.specs.declared.step.Step.TheVariants as step;
ghost use Rattle.dm_disk.specs.Faults.{Rose};
ghost use Rattle.dm_frames.specs.Records.{pending_record};
ghost use Rattle.dm_logdisk.specs.Story.{Both};
ghost use Rattle.dm_record.specs.Bytes.{IsInRange};
ghost use Rattle.dm_desk.specs.Causing.{IsCaused};
ghost use Rattle.dm_site.specs.Handing.{Hands, IsHandOver};
ghost use Rattle.dm_invariant.specs.Logs.{Crashes};
ghost use Rattle.dm_invariant.specs.Stations.{IsPassOf, layout_of};
ghost use Rattle.dm_invariant.specs.Turning.{Came, Met};
ghost use Rattle.dm_invariant.specs.Writing.{MayAppend, MayFail, let_go, locks_after, step_after};

use crate::site::Site;
use dm_chronicle::Named;
use dm_core::{Chron, CorePass};
use dm_event::{Cause, NoMemory, Pending, TxnId};
use dm_logdisk::LogDisk;
use dm_redo::Appended;
use std::alloc::Global;
use std::sync::Wait;

impl<D: LogDisk, N: Named> Site<D, N> {
    /// Appends the record of a hand-over's step that may come, and then pushes the step, or what comes in its
    /// place.
    pub(crate) fn hand_over<R: Wait>(
        &mut self,
        rt: &R,
        chron: &Chron,
        alloc: Global,
        own: &mut CorePass,
        on: TxnId,
        pending: Pending,
    ) -> Result<Result<Appended, Cause>, NoMemory>
        requires chron { chron.now.table ≡ N.table }
        requires own { IsPassOf N.table on.session own.old }
        requires met { own.old.seen ≡ self.old.pass.seen }
        requires may { MayAppend (layout_of self.old.pass) self.old.number on pending self.old.pass.seen }
        requires may_fail { MayFail (layout_of self.old.pass) self.old.number on self.old.pass.seen }
        requires hands { IsHandOver pending }
        requires range { IsInRange (pending_record pending) }
        ensures same { Hands self.old self.new }
        ensures done { IfOk result (λ r. IfOk r (λ done. Came (SiteActor self.old.number) (Session on.session) own.old self.old.pass own.new
            self.new.pass (step_after self.old.number on pending done))) }
        ensures locks { IfOk result (λ r. IfOk r (λ done. self.new.locks ≡ locks_after pending done self.old.locks)) }
        ensures failed { IfOk result (λ r. IfErr r (λ why. Came (SiteActor self.old.number)
            (Session on.session) own.old self.old.pass own.new self.new.pass (step.Fail self.old.number on why))) }
        ensures let_go { IfOk result (λ r. IfErr r (λ _. self.new.locks ≡ let_go on self.old.locks)) }
        ensures err { OnErr result (Met (SiteActor self.old.number) (Session on.session) own.old self.old.pass own.new self.new.pass
            × (self.new.locks ≡ self.old.locks)) }
        ensures count { D.faults self.old.disk ≤ D.faults self.new.disk }
        ensures cause { IfOk result (λ r. IfOk r (λ done. done ≢ Appended.Done → Rose (D.faults self.old.disk) (D.faults self.new.disk))) }
        ensures why { IfOk result (λ r. IfErr r (λ why. IsCaused self.old.number why (D.story self.old.disk) (D.faults self.old.disk)
            (D.faults self.new.disk))) }
        ensures crash { Both (Crashes self.old.number self.old.pass self.new.pass) (D.story self.old.disk) (D.story self.new.disk) }
    {
        match self.make_live(rt, chron, alloc, own, on) {
            Ok(None) => {
                // what it has seen by now is legal
                let _number = self.number;
                let done = self.append_live(rt, chron, alloc, own, on, pending)?;
                Ok(Ok(done))
            }
            Ok(Some(cause)) => Ok(Err(cause)),
            Err(e) => Err(e),
        }
    }

    /// The same over a live log.
    fn append_live<R: Wait>(
        &mut self,
        rt: &R,
        chron: &Chron,
        alloc: Global,
        own: &mut CorePass,
        on: TxnId,
        pending: Pending,
    ) -> Result<Appended, NoMemory>
        requires chron { chron.now.table ≡ N.table }
        requires own { IsPassOf N.table on.session own.old }
        requires met { own.old.seen ≡ self.old.pass.seen }
        requires live { IsTrue self.old.live }
        requires may { MayAppend (layout_of self.old.pass) self.old.number on pending self.old.pass.seen }
        requires hands { IsHandOver pending }
        requires range { IsInRange (pending_record pending) }
        ensures same { Hands self.old self.new }
        ensures done { IfOk result (λ done. Came (SiteActor self.old.number) (Session on.session) own.old self.old.pass own.new self.new.pass
            (step_after self.old.number on pending done)) }
        ensures locks { IfOk result (λ done. self.new.locks ≡ locks_after pending done self.old.locks) }
        ensures err { OnErr result ((own.new ≡ own.old) × (self.new.pass ≡ self.old.pass) × (self.new.locks ≡ self.old.locks)) }
        ensures count { D.faults self.old.disk ≤ D.faults self.new.disk }
        ensures cause { IfOk result (λ done. done ≢ Appended.Done → Rose (D.faults self.old.disk) (D.faults self.new.disk)) }
        ensures crash { Both (Crashes self.old.number self.old.pass self.new.pass) (D.story self.old.disk) (D.story self.new.disk) }
    {
        let site = self.number;
        let frame = self.desk.ready_hand_over(alloc, &pending)?;
        let done = self
            .desk
            .write(rt, chron, own, &mut self.pass, site, on, pending, &frame);
        Ok(done)
    }
}
