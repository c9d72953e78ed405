//! Restarts.

ghost use Rattle.std.specs.List.{AllByRecursion};
ghost use Rattle.std.specs.Prelude.{◌≡◌, ◌≤◌, Ok, IfOk, IfSome, IsTrue, OnErr, option_map, reverse};
ghost use Rattle.dm_event.specs.declared.actor.Actor.TheVariants.{Session, Site as SiteActor};
ghost use Rattle.dm_frames.specs.Records.{frames_of, pending_record, records_of};
ghost use Rattle.dm_logdisk.specs.Story.{Both};
ghost use Rattle.dm_model.specs.Doubts.{is_down, pending_at};
ghost use Rattle.dm_record.specs.Bytes.{HasRanges};
ghost use Rattle.dm_site.specs.Answers.{IsRoutedIn, MayRestart, RestartedAs};
ghost use Rattle.dm_invariant.specs.Logs.{Crashes, doubted};
ghost use Rattle.dm_site.specs.Restarts.{IsRestartCaused, Restarts, restart_step};
ghost use Rattle.dm_invariant.specs.Stations.{IsPassOf, Rested, Went};
ghost use Rattle.dm_invariant.specs.Turning.{Came, Met};

use crate::site::Site;
use dm_chronicle::Named;
use dm_core::{Chron, CorePass, Frame};
use dm_desk::{RestartAnswer, enter_both, expected, leave};
use dm_event::{NoMemory, TxnId};
use dm_logdisk::LogDisk;
use std::alloc::Global;
use std::sync::Wait;

impl<D: LogDisk, N: Named> Site<D, N> {
    /// Reads the log against what the history has of the site, and starts again with what stands in it.
    pub fn restart<R: Wait>(
        &mut self,
        rt: &R,
        chron: &Chron,
        alloc: Global,
        own: &mut CorePass,
        on: TxnId,
    ) -> Result<RestartAnswer, NoMemory>
        requires chron { chron.now.table ≡ N.table }
        requires own { IsPassOf N.table on.session own.old }
        requires routed { IsRoutedIn own.old on }
        requires may { MayRestart self.old.number self.old.pass on own.old }
        ensures pass { Went self.old.pass self.new.pass }
        ensures own { Went own.old own.new }
        ensures number { self.new.number ≡ self.old.number }
        ensures ok { IfOk result (RestartedAs self.old.number self.old.pass self.new.pass on own.old own.new) }
        ensures site { IfOk result (Restarts self.old self.new) }
        ensures err { OnErr result (Rested (Session on.session) own.old own.new) }
        ensures unchanged { OnErr result ((self.new.installed ≡ self.old.installed) × (self.new.locks ≡ self.old.locks)) }
        ensures count { D.faults self.old.disk ≤ D.faults self.new.disk }
        ensures cause { IfOk result (IsRestartCaused self.old.number (D.story self.old.disk) (D.faults self.old.disk) (D.faults self.new.disk)) }
        ensures crash { Both (Crashes self.old.number self.old.pass self.new.pass) (D.story self.old.disk) (D.story self.new.disk) }
    {
        let site = self.number;
        let turn = enter_both(rt, chron, own, &mut self.pass);
        let read = expected(&turn, alloc, site);
        leave(turn, own);
        match read {
            Ok((frames, pending)) => self.reload(
                rt,
                chron,
                alloc,
                own,
                on,
                &frames,
                pending.as_ref(),
            ),
            Err(e) => Err(e),
        }
    }

    /// Loads the log against these frames, and starts again.
    fn reload<R: Wait>(
        &mut self,
        rt: &R,
        chron: &Chron,
        alloc: Global,
        own: &mut CorePass,
        on: TxnId,
        frames: &[Frame],
        pending: Option<&Frame>,
    ) -> Result<RestartAnswer, NoMemory>
        requires chron { chron.now.table ≡ N.table }
        requires own { IsPassOf N.table on.session own.old }
        requires met { own.old.seen ≡ self.old.pass.seen }
        requires routed { IsRoutedIn own.old on }
        requires may { MayRestart self.old.number self.old.pass on own.old }
        requires frames { frames.now ≡ frames_of self.old.number (reverse self.old.pass.seen) }
        requires pending { option_map (λ f. f.now) pending ≡ doubted self.old.number (reverse self.old.pass.seen) }
        requires known { AllByRecursion HasRanges (records_of self.old.number (reverse self.old.pass.seen)) }
        requires kept { IsTrue (is_down self.old.number (reverse self.old.pass.seen))
            → IfSome (pending_at self.old.number (reverse self.old.pass.seen)) (λ p. HasRanges (pending_record p)) }
        ensures number { self.new.number ≡ self.old.number }
        ensures ok { IfOk result (λ a. Came (SiteActor self.old.number) (Session on.session) own.old self.old.pass own.new self.new.pass
            (restart_step self.old.number on a)) }
        ensures site { IfOk result (Restarts self.old self.new) }
        ensures err { OnErr result (Met (SiteActor self.old.number) (Session on.session) own.old self.old.pass own.new self.new.pass) }
        ensures unchanged { OnErr result ((self.new.installed ≡ self.old.installed) × (self.new.locks ≡ self.old.locks)) }
        ensures count { D.faults self.old.disk ≤ D.faults self.new.disk }
        ensures cause { IfOk result (IsRestartCaused self.old.number (D.story self.old.disk) (D.faults self.old.disk) (D.faults self.new.disk)) }
        ensures crash { Both (Crashes self.old.number self.old.pass self.new.pass) (D.story self.old.disk) (D.story self.new.disk) }
    {
        let site = self.number;
        let loaded = self.desk.load(
            rt,
            chron,
            alloc,
            own,
            &mut self.pass,
            site,
            on,
            frames,
            pending,
        );
        let found = match loaded {
            Ok(Ok(found)) => found,
            Ok(Err(cause)) => return Ok(RestartAnswer::Failed { cause }),
            Err(e) => return Err(e),
        };
        let pass = &mut self.pass;
        match self
            .desk
            .start(rt, chron, alloc, own, pass, site, on.session, found)
        {
            Ok(vector) => Ok(RestartAnswer::Restarted { vector, found }),
            Err(e) => Err(e),
        }
    }
}
