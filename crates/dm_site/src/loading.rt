//! Loading a log that isn't live.

ghost use Rattle.std.specs.Prelude.{◌≡◌, ◌≤◌, None, Some, IfOk, IfSome, OnErr, IsFalse, reverse};
ghost use Rattle.dm_event.specs.declared.actor.Actor.TheVariants.{Session, Site as SiteActor};
ghost use Rattle.dm_frames.specs.Records.{frames_of};
ghost use Rattle.dm_logdisk.specs.Story.{Both};
ghost use Rattle.dm_model.specs.Doubts.{is_down};
ghost use Rattle.dm_desk.specs.Causing.{IsCaused};
ghost use Rattle.dm_site.specs.Loading.{MadeLive};
ghost use Rattle.dm_invariant.specs.Logs.{Crashes};
ghost use Rattle.dm_invariant.specs.Stations.{IsPassOf, layout_of};
ghost use Rattle.dm_invariant.specs.Turning.{Met};
ghost use Rattle.dm_invariant.specs.Writing.{MayFail};

use crate::site::Site;
use dm_chronicle::{Named, Turn};
use dm_core::{Book, Chron, CorePass, Frame};
use dm_desk::{enter_both, leave};
use dm_event::{Cause, NoMemory, SiteNo, TxnId};
use dm_logdisk::LogDisk;
use std::alloc::Global;
use std::sync::Wait;

/// The frames of the site's records. All steps are looked at.
fn frames(turn: &Turn<'_, Book>, alloc: Global, site: SiteNo) -> Result<Vec<Frame>, NoMemory>
    ensures { IfOk result (λ frames. frames.items ≡ frames_of site (reverse turn.now.seen)) }
{
    turn.kept().frames(alloc, site)
}

impl<D: LogDisk, N: Named> Site<D, N> {
    /// Loads the log of a site that is up, where it isn't live. Where it can't be, the attempt fails, for
    /// the cause that is answered.
    pub(crate) fn make_live<R: Wait>(
        &mut self,
        rt: &R,
        chron: &Chron,
        alloc: Global,
        own: &mut CorePass,
        txn: TxnId,
    ) -> Result<Option<Cause>, NoMemory>
        requires chron { chron.now.table ≡ N.table }
        requires own { IsPassOf N.table txn.session own.old }
        requires met { own.old.seen ≡ self.old.pass.seen }
        requires up { IsFalse (is_down self.old.number (reverse self.old.pass.seen)) }
        requires may { MayFail (layout_of self.old.pass) self.old.number txn self.old.pass.seen }
        ensures number { self.new.number ≡ self.old.number }
        ensures installed { self.new.installed ≡ self.old.installed }
        ensures ok { IfOk result (MadeLive txn self.old self.new own.old own.new) }
        ensures err { OnErr result (Met (SiteActor self.old.number) (Session txn.session) own.old self.old.pass own.new self.new.pass
            × (self.new.locks ≡ self.old.locks)) }
        ensures count { D.faults self.old.disk ≤ D.faults self.new.disk }
        ensures cause { IfOk result (λ o. IfSome o (λ why. IsCaused self.old.number why (D.story self.old.disk) (D.faults self.old.disk)
            (D.faults self.new.disk))) }
        ensures crash { Both (Crashes self.old.number self.old.pass self.new.pass) (D.story self.old.disk) (D.story self.new.disk) }
    {
        if self.desk.log.is_live() {
            return Ok(None);
        }
        let site = self.number;
        let turn = enter_both(rt, chron, own, &mut self.pass);
        let frames = frames(&turn, alloc, site);
        leave(turn, own);
        let frames = frames?;
        let loaded = self.desk.load(
            rt,
            chron,
            alloc,
            own,
            &mut self.pass,
            site,
            txn,
            &frames,
            None,
        );
        match loaded {
            Ok(Ok(_)) => Ok(None),
            Ok(Err(cause)) => Ok(Some(cause)),
            Err(e) => Err(e),
        }
    }
}
