//! Releases: a site gives a partition up.

ghost use Rattle.std.specs.Prelude.{◌≡◌, ◌≤◌, IfOk, OnErr, IsTrue};
ghost use Rattle.dm_desk.specs.Telling.{release_due, told_release};
ghost use Rattle.dm_event.specs.Layout.{is_part};
ghost use Rattle.dm_event.specs.declared.actor.Actor.TheVariants.{Session, Site as SiteActor};
ghost use Rattle.dm_event.specs.declared.step.Pending.TheVariants as pending;
ghost use Rattle.dm_logdisk.specs.Story.{Both};
ghost use Rattle.dm_model.specs.Doubts.{is_down};
ghost use Rattle.dm_site.specs.Answers.{IsRoutedIn, ReleasedAs};
ghost use Rattle.dm_site.specs.Handing.{IsReleaseDue, IsReleaseInRange, Hands, IsReleaseCaused, LinesRelease};
ghost use Rattle.dm_invariant.specs.Logs.{Crashes};
ghost use Rattle.dm_invariant.specs.Stations.{IsPassOf, Rested, Went, layout_of};
ghost use Rattle.dm_invariant.specs.Turning.{Met};

use crate::site::Site;
use dm_chronicle::Named;
use dm_core::{Chron, CorePass};
use dm_desk::{
    ReleaseAnswer, ReleaseDue, enter_both, is_down, keeps_limits, leave, placing, release_due,
    runner, told_release, vector,
};
use dm_event::{NoMemory, Part, Pending, TxnId};
use dm_logdisk::LogDisk;
use std::alloc::Global;
use std::sync::Wait;

impl<D: LogDisk, N: Named> Site<D, N> {
    /// What a turn tells of a release.
    fn release_check<R: Wait>(
        &mut self,
        rt: &R,
        chron: &Chron,
        own: &mut CorePass,
        session: u32,
        part: Part,
    ) -> ReleaseDue
        requires chron { chron.now.table ≡ N.table }
        requires own { IsPassOf N.table session own.old }
        requires part { IsTrue (is_part (layout_of own.old) part) }
        ensures met { Met (SiteActor self.old.number) (Session session) own.old self.old.pass own.new self.new.pass }
        ensures same { self.new ≡ record self.old { pass = self.new.pass } }
        ensures due { IsReleaseDue self.old.number part self.new.pass result }
        ensures range { IsReleaseInRange part result }
        ensures fixed { own.new.fixed ≡ self.new.pass.fixed }
    {
        let site = self.number;
        let turn = enter_both(rt, chron, own, &mut self.pass);
        keeps_limits(&turn);
        let down = is_down(&turn, site);
        let now = placing(&turn, part);
        let runner = runner(&turn, site, part);
        let vector = vector(&turn, site);
        leave(turn, own);
        release_due(site, down, now, runner, vector)
    }

    /// Gives the partition up to the site towards which it is asked away, once no attempt runs on it.
    pub fn release<R: Wait>(
        &mut self,
        rt: &R,
        chron: &Chron,
        alloc: Global,
        own: &mut CorePass,
        on: TxnId,
        part: Part,
    ) -> Result<ReleaseAnswer, NoMemory>
        requires chron { chron.now.table ≡ N.table }
        requires own { IsPassOf N.table on.session own.old }
        requires routed { IsRoutedIn own.old on }
        requires part { IsTrue (is_part (layout_of own.old) part) }
        ensures same { Hands self.old self.new }
        ensures own { Went own.old own.new }
        ensures ok { IfOk result (ReleasedAs self.old.number self.old.pass self.new.pass on part own.old own.new) }
        ensures err { OnErr result (Rested (Session on.session) own.old own.new) }
        ensures line { IfOk result (LinesRelease self.old.locks self.new.locks) }
        ensures waits { OnErr result (self.new.locks ≡ self.old.locks) }
        ensures count { D.faults self.old.disk ≤ D.faults self.new.disk }
        ensures cause { IfOk result (IsReleaseCaused self.old.number (D.story self.old.disk) (D.faults self.old.disk) (D.faults self.new.disk)) }
        ensures crash { Both (Crashes self.old.number self.old.pass self.new.pass) (D.story self.old.disk) (D.story self.new.disk) }
    {
        let site = self.number;
        match self.release_check(rt, chron, own, on.session, part) {
            ReleaseDue::Not { answer } => Ok(answer),
            ReleaseDue::Ready { epoch, to, vector } => {
                // what it has seen by now is legal
                let _number = self.number;
                let pending = Pending::Release {
                    part,
                    epoch,
                    to,
                    vector,
                };
                match self.hand_over(rt, chron, alloc, own, on, pending) {
                    Ok(Ok(done)) => Ok(told_release(done, site, vector)),
                    Ok(Err(cause)) => Ok(ReleaseAnswer::Failed { cause }),
                    Err(e) => Err(e),
                }
            }
        }
    }
}
