//! Grants: a site takes a partition over.

ghost use Rattle.std.specs.Prelude.{◌≡◌, ◌≤◌, Some, IfOk, IfSome, IsNone, OnErr, IsTrue};
ghost use Rattle.dm_desk.specs.Telling.{grant_due, told_grant};
ghost use Rattle.dm_event.specs.Layout.{is_part};
ghost use Rattle.dm_event.specs.declared.actor.Actor.TheVariants.{Session, Site as SiteActor};
ghost use Rattle.dm_event.specs.declared.step.Pending.TheVariants as pending;
ghost use Rattle.dm_logdisk.specs.Story.{Both};
ghost use Rattle.dm_model.specs.Doubts.{is_down};
ghost use Rattle.dm_site.specs.Answers.{GrantedAs, GrantedFrom, IsRoutedIn};
ghost use Rattle.dm_site.specs.Catching.{Refreshes};
ghost use Rattle.dm_site.specs.Handing.{IsGrantDue, IsGrantInRange, Hands, IsGrantCaused, LinesGrant, HandsIn};
ghost use Rattle.dm_invariant.specs.Logs.{Crashes};
ghost use Rattle.dm_invariant.specs.Stations.{IsPassOf, Rested, Went, layout_of};
ghost use Rattle.dm_invariant.specs.Turning.{Met};

use crate::site::Site;
use dm_chronicle::Named;
use dm_core::{Chron, CorePass};
use dm_desk::{
    CatchAnswer, GrantAnswer, GrantDue, enter_both, grant_due, is_down, keeps_limits, leave,
    placing, told_grant, vector,
};
use dm_event::{NoMemory, Part, Pending, TxnId, Vector};
use dm_logdisk::LogDisk;
use std::alloc::Global;
use std::sync::Wait;

impl<D: LogDisk, N: Named> Site<D, N> {
    /// What a turn tells of a grant.
    fn grant_check<R: Wait>(
        &mut self,
        rt: &R,
        chron: &Chron,
        own: &mut CorePass,
        session: u32,
        part: Part,
    ) -> GrantDue
        requires chron { chron.now.table ≡ N.table }
        requires own { IsPassOf N.table session own.old }
        requires part { IsTrue (is_part (layout_of own.old) part) }
        ensures met { Met (SiteActor self.old.number) (Session session) own.old self.old.pass own.new self.new.pass }
        ensures same { Refreshes self.old self.new }
        ensures fixed { own.new.fixed ≡ self.new.pass.fixed }
        ensures due { IsGrantDue self.old.number part self.new.pass result }
        ensures range { IsGrantInRange part result }
        ensures crash { Both (Crashes self.old.number self.old.pass self.new.pass) (D.story self.old.disk) (D.story self.new.disk) }
    {
        let site = self.number;
        let turn = enter_both(rt, chron, own, &mut self.pass);
        keeps_limits(&turn);
        let down = is_down(&turn, site);
        let now = placing(&turn, part);
        let has = vector(&turn, site);
        leave(turn, own);
        grant_due(site, down, now, &has)
    }

    /// Takes the partition over, where the site has all of the release's vector.
    fn grant_now<R: Wait>(
        &mut self,
        rt: &R,
        chron: &Chron,
        alloc: Global,
        own: &mut CorePass,
        on: TxnId,
        part: Part,
        epoch: u64,
        vector: Vector,
    ) -> Result<GrantAnswer, NoMemory>
        requires chron { chron.now.table ≡ N.table }
        requires own { IsPassOf N.table on.session own.old }
        requires met { own.old.seen ≡ self.old.pass.seen }
        requires routed { IsRoutedIn own.old on }
        requires due { IsGrantDue self.old.number part self.old.pass (GrantDue.Ready epoch vector) }
        requires range { IsGrantInRange part (GrantDue.Ready epoch vector) }
        ensures same { Hands self.old self.new }
        ensures own { Went own.old own.new }
        ensures ok { IfOk result (GrantedFrom self.old.number self.old.pass self.new.pass on part own.old own.new) }
        ensures err { OnErr result (Rested (Session on.session) own.old own.new) }
        ensures line { IfOk result (LinesGrant self.old.locks self.new.locks) }
        ensures waits { OnErr result (self.new.locks ≡ self.old.locks) }
        ensures count { D.faults self.old.disk ≤ D.faults self.new.disk }
        ensures cause { IfOk result (IsGrantCaused self.old.number (D.story self.old.disk) (D.faults self.old.disk) (D.faults self.new.disk)) }
        ensures crash { Both (Crashes self.old.number self.old.pass self.new.pass) (D.story self.old.disk) (D.story self.new.disk) }
    {
        let site = self.number;
        let Some(epoch) = epoch.checked_add(1) else {
            return Err(NoMemory);
        };
        let pending = Pending::Grant {
            part,
            epoch,
            vector,
        };
        match self.hand_over(rt, chron, alloc, own, on, pending) {
            Ok(Ok(done)) => Ok(told_grant(done, site)),
            Ok(Err(cause)) => Ok(GrantAnswer::Failed { cause }),
            Err(e) => Err(e),
        }
    }

    /// One look at the partition: it is taken over, where the site has all of the release's vector, and else
    /// the site catches up, with no answer.
    fn grant_once<R: Wait>(
        &mut self,
        rt: &R,
        chron: &Chron,
        alloc: Global,
        own: &mut CorePass,
        on: TxnId,
        part: Part,
    ) -> Result<Option<GrantAnswer>, NoMemory>
        requires chron { chron.now.table ≡ N.table }
        requires own { IsPassOf N.table on.session own.old }
        requires routed { IsRoutedIn own.old on }
        requires part { IsTrue (is_part (layout_of own.old) part) }
        ensures same { HandsIn self.old self.new }
        ensures own { Went own.old own.new }
        ensures ok { IfOk result (λ o. IfSome o (GrantedAs self.old.number self.old.pass self.new.pass on part own.old own.new)) }
        ensures more { IfOk result (λ o. IsNone o → Refreshes self.old self.new × Rested (Session on.session) own.old own.new) }
        ensures err { OnErr result (Rested (Session on.session) own.old own.new) }
        ensures line { IfOk result (λ o. IfSome o (LinesGrant self.old.locks self.new.locks)) }
        ensures waits { OnErr result (self.new.locks ≡ self.old.locks) }
        ensures count { D.faults self.old.disk ≤ D.faults self.new.disk }
        ensures cause { IfOk result (λ o. IfSome o (IsGrantCaused self.old.number (D.story self.old.disk) (D.faults self.old.disk) (D.faults self.new.disk))) }
        ensures crash { Both (Crashes self.old.number self.old.pass self.new.pass) (D.story self.old.disk) (D.story self.new.disk) }
    {
        match self.grant_check(rt, chron, own, on.session, part) {
            GrantDue::Not { answer } => Ok(Some(answer)),
            GrantDue::Ready { epoch, vector } => {
                match self.grant_now(rt, chron, alloc, own, on, part, epoch, vector) {
                    Ok(answer) => Ok(Some(answer)),
                    Err(e) => Err(e),
                }
            }
            GrantDue::Behind { vector } => match self.catch_up(rt, chron, own, &vector) {
                Ok(CatchAnswer::Reached) => Ok(None),
                Ok(CatchAnswer::Down) => Ok(Some(GrantAnswer::Down)),
                Err(e) => Err(e),
            },
        }
    }

    /// Takes the partition over, once the site has all that its last master had at the release.
    pub fn grant<R: Wait>(
        &mut self,
        rt: &R,
        chron: &Chron,
        alloc: Global,
        own: &mut CorePass,
        on: TxnId,
        part: Part,
    ) -> Result<GrantAnswer, NoMemory>
        requires chron { chron.now.table ≡ N.table }
        requires own { IsPassOf N.table on.session own.old }
        requires routed { IsRoutedIn own.old on }
        requires part { IsTrue (is_part (layout_of own.old) part) }
        ensures same { HandsIn self.old self.new }
        ensures own { Went own.old own.new }
        ensures ok { IfOk result (GrantedAs self.old.number self.old.pass self.new.pass on part own.old own.new) }
        ensures err { OnErr result (Rested (Session on.session) own.old own.new) }
        ensures line { IfOk result (LinesGrant self.old.locks self.new.locks) }
        ensures waits { OnErr result (self.new.locks ≡ self.old.locks) }
        ensures count { D.faults self.old.disk ≤ D.faults self.new.disk }
        ensures cause { IfOk result (IsGrantCaused self.old.number (D.story self.old.disk) (D.faults self.old.disk) (D.faults self.new.disk)) }
        ensures crash { Both (Crashes self.old.number self.old.pass self.new.pass) (D.story self.old.disk) (D.story self.new.disk) }
    {
        for _ in rt.forever() {
            match self.grant_once(rt, chron, alloc, own, on, part) {
                Ok(None) => {}
                Ok(Some(answer)) => return Ok(answer),
                Err(e) => return Err(e),
            }
        }
        unreachable!()
    }
}
