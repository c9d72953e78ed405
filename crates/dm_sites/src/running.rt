//! An attempt at its site.

ghost use Rattle.std.specs.List.{list_all};
ghost use Rattle.std.specs.Prelude.{◌≡◌, ◌≤◌, None, Some, [], length, IfErr, IfOk, IsTrue};
ghost use Rattle.dm_answers.specs.declared.item.Item.TheVariants.{Txn as TxnItem};
ghost use Rattle.dm_event.specs.Layout.{is_site};
ghost use Rattle.dm_event.specs.declared.limits.TheConstants.{MAX_OPS};
ghost use Rattle.dm_event.specs.declared.step.Want.TheVariants.{Txn};
ghost use Rattle.dm_invariant.specs.Running.{IsHere, RoutedFor};
ghost use Rattle.dm_invariant.specs.Stations.{IsPassOf, Went, layout_of};
ghost use Rattle.dm_model.specs.Bodies.{first_undeclared};
ghost use Rattle.dm_model.specs.Shape.{is_op};
ghost use Rattle.dm_session.specs.Sitting.{Between};
ghost use Rattle.dm_sites.specs.Stages.{ClosedAs, StartedAs, StoppedAs};
ghost use Rattle.dm_sites.specs.Telling.{CameAs, IsBody, cause_of, refused_for};

use crate::gate::{Gate, Point};
use crate::sites::Sites;
use crate::stop::Stop;
use crate::told::{Came, bare, came_of};
use crate::waiting::stuck;
use dm_chronicle::Named;
use dm_core::CorePass;
use dm_event::{Body, Cause, Keys, Op, Said, SiteNo, TxnId, Vector};
use dm_logdisk::LogDisk;
use dm_site::{BeginAnswer, CommitAnswer, OpAnswer, Run};
use std::sync::Wait;

/// How a begin went.
#[derive(Drop)]
enum Started {
    Begun { run: Run },
    /// The site may not begin on all its partitions.
    Moved,
}

/// How a run ended.
#[derive(Drop)]
enum Closed {
    Answered { answer: CommitAnswer },
    /// For want of memory.
    GaveUp,
    /// The site came into doubt or restarted meanwhile.
    Dropped,
}

impl<D: LogDisk, N: Named> Sites<D, N> {
    /// Begins the attempt at the site to which it is routed, once it gets its keys. Where it gives up, it waits there no longer.
    fn begin_at<R: Wait>(
        &self,
        rt: &R,
        own: &mut CorePass,
        txn: TxnId,
        to: SiteNo,
        keys: &Keys,
        min: &Vector,
    ) -> Result<Started, Stop>
        requires own { IsPassOf N.table txn.session own.old }
        requires schema { layout_of own.old ≡ self.now.schema }
        requires routed { RoutedFor txn (Txn keys.now) min.now to own.old }
        ensures there { IsTrue (is_site self.now.schema to) }
        ensures went { Went own.old own.new }
        ensures started { IfOk result (StartedAs to txn keys.now min.now own.old own.new) }
        ensures stopped { IfErr result (StoppedAs txn own.old own.new) }
    {
        let at = self.lock_of(rt, to);
        let mut guard = at.lock.lock(rt);
        for _ in rt.forever() {
            if guard.number != to {
                stuck(rt);
                unreachable!()
            }
            let Ok(copy) = keys.try_clone() else {
                guard.site.withdraw(txn);
                return Err(Stop::NoMemory);
            };
            match guard
                .site
                .begin(rt, &self.chron, self.alloc, own, txn, copy, min)
            {
                Ok(BeginAnswer::Begun { run }) => return Ok(Started::Begun { run }),
                Ok(BeginAnswer::Moved) => return Ok(Started::Moved),
                Ok(BeginAnswer::Held { .. }) => guard = at.bell.wait(rt, guard),
                Ok(BeginAnswer::Down) => self.bring_up(rt, at, &mut guard.site, own, txn)?,
                Err(_) => {
                    guard.site.withdraw(txn);
                    return Err(Stop::NoMemory);
                }
            }
        }
        unreachable!()
    }

    /// Does the ops of the run, and commits it.
    fn end_at<R: Wait>(
        &self,
        rt: &R,
        own: &mut CorePass,
        mut run: Run,
        to: SiteNo,
        ops: &[Op],
    ) -> Closed
        requires own { IsPassOf N.table run.txn.session own.old }
        requires schema { layout_of own.old ≡ self.now.schema }
        requires here { IsHere to own.old run }
        requires fresh { run.ops ≡ [] }
        requires declared { first_undeclared run.declared ops.now ≡ None }
        requires few { length ops.now ≤ MAX_OPS }
        requires fits { IsTrue (list_all (is_op (layout_of own.old)) ops.now) }
        ensures went { Went own.old own.new }
        ensures closed { ClosedAs to run ops.now own.old own.new result }
    {
        let at = self.lock_of(rt, to);
        let mut guard = at.lock.lock(rt);
        for i in 0..ops.len() {
            if guard.number != to {
                stuck(rt);
                unreachable!()
            }
            match guard.site.body_op(&self.chron, own, &mut run, &ops[i]) {
                OpAnswer::Value(_) | OpAnswer::Done => {}
                OpAnswer::Dropped => return Closed::Dropped,
            }
        }
        if guard.number != to {
            stuck(rt);
            unreachable!()
        }
        match guard.site.commit(rt, &self.chron, self.alloc, own, run) {
            Ok(answer) => {
                at.bell.notify_all();
                Closed::Answered { answer }
            }
            Err((run, _)) => {
                guard.site.fail(rt, &self.chron, own, run);
                at.bell.notify_all();
                Closed::GaveUp
            }
        }
    }

    /// What comes of an attempt that is routed to the site.
    pub fn run_at<G: Gate, R: Wait>(
        &self,
        rt: &R,
        gate: &G,
        own: &mut CorePass,
        txn: TxnId,
        to: SiteNo,
        body: &Body,
        min: &Vector,
    ) -> Came
        requires own { IsPassOf N.table txn.session own.old }
        requires schema { layout_of own.old ≡ self.now.schema }
        requires routed { RoutedFor txn (Txn body.now.declared) min.now to own.old }
        requires fits { IsBody (layout_of own.old) body.now }
        ensures went { Went own.old own.new }
        ensures came { CameAs txn.session txn.number (TxnItem body.now) min.now (Some txn) own.old own.new result }
        ensures between { Between txn.session own.old.seen own.new.seen }
    {
        match self.begin_at(rt, own, txn, to, &body.declared, min) {
            Ok(Started::Begun { run }) => {
                gate.at(rt, Point::Inside, Some(txn));
                match self.end_at(rt, own, run, to, body.ops.as_slice()) {
                    Closed::Answered { answer } => came_of(self.alloc, answer, txn, to),
                    Closed::GaveUp => self.refused(Cause::Memory, txn),
                    Closed::Dropped => Came::Again { txn },
                }
            }
            Ok(Started::Moved) => Came::Again { txn },
            Err(stop) => self.stopped(stop, txn),
        }
    }

    /// The attempt is refused.
    fn refused(&self, cause: Cause, txn: TxnId) -> Came
        ensures { result ≡ refused_for cause txn }
    {
        Came::Say {
            told: bare(self.alloc, Said::Refused(cause), Some(txn)),
        }
    }

    /// The attempt is refused for what stopped it.
    pub fn stopped(&self, stop: Stop, txn: TxnId) -> Came
        ensures { result ≡ refused_for (cause_of stop) txn }
    {
        self.refused(stop.cause(), txn)
    }
}
