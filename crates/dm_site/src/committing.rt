//! Ops of running attempts, and their ends.

ghost use Rattle.std.specs.List.{list_any};
ghost use Rattle.std.specs.Prelude.{◌≡◌, ◌≢◌, ◌<◌, ◌≤◌, IfOk, IfErr, IfSome, OnErr, IsFalse, IsTrue, length, reverse};
ghost use Rattle.dm_desk.specs.Telling.{told_commit};
ghost use Rattle.dm_event.specs.Entries.{commit_vector};
ghost use Rattle.dm_event.specs.declared.actor.Actor.TheVariants.{Session, Site as SiteActor};
ghost use Rattle.dm_event.specs.declared.limits.TheConstants.{MAX_OPS};
ghost use Rattle.dm_event.specs.declared.step.Step.TheVariants as step;
ghost use Rattle.dm_locks.specs.Claims.{is_of};
ghost use Rattle.dm_logdisk.specs.Story.{Both};
ghost use Rattle.dm_model.specs.Bodies.{has_writes, written_key};
ghost use Rattle.dm_model.specs.Doubts.{is_down};
ghost use Rattle.dm_model.specs.Shape.{is_op};
ghost use Rattle.dm_model.specs.Tests.{is_among};
ghost use Rattle.dm_next.specs.Running.{entry_of_run};
ghost use Rattle.dm_site.specs.Answers.{CommittedAs, GaveUp, OpDone};
ghost use Rattle.dm_site.specs.Ends.{Ends, Wrote, IsCommitCaused, Lines, told_of, reads_of};
ghost use Rattle.dm_invariant.specs.Logs.{Crashes};
ghost use Rattle.dm_invariant.specs.Running.{IsHere};
ghost use Rattle.dm_invariant.specs.Stations.{IsPassOf, Rested, Went, layout_of};
ghost use Rattle.dm_invariant.specs.Turning.{Came, Met};
ghost use Rattle.dm_invariant.specs.Writing.{let_go};

use crate::run::{Run, op_at};
use crate::site::Site;
use dm_body::{OpResult, Overlay, Ran, has_writes};
use dm_chronicle::Named;
use dm_core::{Chron, CorePass};
use dm_desk::{
    CommitAnswer, OpAnswer, enter_both, keeps_limits, leave, let_go, next_seq, push_ending,
    told_commit,
};
use dm_event::{Cause, Entry, NoMemory, Op, Pair, Pairs, Pending, SiteNo, Step, TxnId, Vector};
use dm_logdisk::LogDisk;
use std::alloc::Global;
use std::sync::Wait;

fn told(done: OpResult) -> OpAnswer
    requires { done ≢ OpResult.Full }
    ensures { result ≡ told_of done }
{
    match done {
        OpResult::Value(value) => OpAnswer::Value(value),
        OpResult::Done => OpAnswer::Done,
        OpResult::Full => unreachable!(),
    }
}

fn copied(alloc: Global, reads: &[Pair]) -> Result<Pairs, NoMemory>
    ensures { IfOk result (λ copy. copy ≡ reads.now) }
{
    Ok(Pairs::new(reads.to_vec(alloc)?))
}

fn end_step(site: SiteNo, txn: TxnId, overlay: Overlay) -> Step
    ensures { result ≡ step.End site txn overlay.ops overlay.ran.reads }
{
    let Ran { ops, reads, .. } = overlay.into_ran();
    Step::End {
        site,
        txn,
        ops,
        reads,
    }
}

/// The entry that an attempt commits.
fn entry_of(origin: SiteNo, seq: u64, txn: TxnId, begin: Vector, overlay: Overlay) -> Entry
    ensures { result ≡ entry_of_run origin seq txn begin overlay }
{
    let Ran { ops, reads, writes } = overlay.into_ran();
    Entry {
        txn,
        origin,
        seq,
        begin,
        ops,
        reads,
        writes,
    }
}

impl<D: LogDisk, N: Named> Site<D, N> {
    /// Does one op of a running attempt. It takes no memory.
    pub fn body_op(&mut self, chron: &Chron, own: &mut CorePass, run: &mut Run, op: &Op) -> OpAnswer
        requires chron { chron.now.table ≡ N.table }
        requires own { IsPassOf N.table run.old.txn.session own.old }
        requires here { IsHere self.old.number own.old run.old }
        requires few { length run.old.ops < MAX_OPS }
        requires fits { IsTrue (is_op (layout_of own.old) op.now) }
        requires declared { IfSome (written_key op.now) (λ key. IsTrue (is_among run.old.declared key)) }
        ensures same { self.new ≡ record self.old { pass = self.new.pass } }
        ensures pass { Went self.old.pass self.new.pass }
        ensures own { Went own.old own.new }
        ensures done { OpDone run.old run.new op.now own.old own.new result }
    {
        chron.meet(own, &mut self.pass);
        if !self.desk.locks.holds(run.txn) {
            return OpAnswer::Dropped;
        }
        told(op_at(&self.desk.store, &run.begin, &mut run.overlay, op))
    }

    /// Ends a running attempt: where it wrote, its record is appended first, and then its step is pushed.
    pub fn commit<R: Wait>(
        &mut self,
        rt: &R,
        chron: &Chron,
        alloc: Global,
        own: &mut CorePass,
        run: Run,
    ) -> Result<CommitAnswer, (Run, NoMemory)>
        requires chron { chron.now.table ≡ N.table }
        requires own { IsPassOf N.table run.txn.session own.old }
        requires here { IsHere self.old.number own.old run }
        ensures same { Ends self.old self.new }
        ensures own { Went own.old own.new }
        ensures ok { IfOk result (CommittedAs run own.old own.new) }
        ensures err { IfErr result (λ e. (e.0 ≡ run) × Rested (Session run.txn.session) own.old own.new) }
        ensures line { IfOk result (Lines self.old.locks self.new.locks) }
        ensures waits { IfErr result (λ _. self.new.locks ≡ self.old.locks) }
        ensures down { IfOk result (λ a. a ≡ CommitAnswer.InDoubt → IsTrue (is_down self.old.number (reverse self.new.pass.seen))) }
        ensures count { D.faults self.old.disk ≤ D.faults self.new.disk }
        ensures cause { IfOk result (IsCommitCaused self.old.number (D.story self.old.disk) (D.faults self.old.disk) (D.faults self.new.disk)) }
        ensures crash { Both (Crashes self.old.number self.old.pass self.new.pass) (D.story self.old.disk) (D.story self.new.disk) }
    {
        chron.meet(own, &mut self.pass);
        if !self.desk.locks.holds(run.txn) {
            return Ok(CommitAnswer::Dropped);
        }
        if !has_writes(run.overlay.ops()) {
            return self.end(rt, chron, alloc, own, run);
        }
        match self.make_live(rt, chron, alloc, own, run.txn) {
            Ok(None) => {
                // what it has seen by now is legal
                let _number = self.number;
                self.commit_logged(rt, chron, alloc, own, run)
            }
            Ok(Some(cause)) => Ok(CommitAnswer::Failed { cause }),
            Err(e) => Err((run, e)),
        }
    }

    /// Ends a running attempt that wrote nothing.
    fn end<R: Wait>(
        &mut self,
        rt: &R,
        chron: &Chron,
        alloc: Global,
        own: &mut CorePass,
        run: Run,
    ) -> Result<CommitAnswer, (Run, NoMemory)>
        requires chron { chron.now.table ≡ N.table }
        requires own { IsPassOf N.table run.txn.session own.old }
        requires here { IsHere self.old.number own.old run }
        requires holds { IsTrue (list_any (is_of run.txn) self.old.locks.holders) }
        requires met { own.old.seen ≡ self.old.pass.seen }
        requires reads_only { IsFalse (has_writes run.ops) }
        ensures ok { IfOk result (λ a. Came (SiteActor self.old.number) (Session run.txn.session) own.old self.old.pass own.new self.new.pass
            (step.End self.old.number run.txn run.ops (reads_of a))) }
        ensures told { IfOk result (λ a. a ≡ CommitAnswer.Ended run.begin (reads_of a)) }
        ensures site { IfOk result (λ _. self.new ≡ record self.old { pass = self.new.pass; locks = let_go run.txn self.old.locks }) }
        ensures err { IfErr result (λ e. (e.0 ≡ run) × (own.new ≡ own.old) × (self.new ≡ self.old)) }
    {
        let Ok(reads) = copied(alloc, run.overlay.reads()) else {
            return Err((run, NoMemory));
        };
        let site = self.number;
        let Run {
            txn,
            site: _,
            begin,
            declared: _,
            overlay,
            was: _,
        } = run;
        let turn = enter_both(rt, chron, own, &mut self.pass);
        push_ending(turn, own, &mut self.pass, end_step(site, txn, overlay));
        let_go(&mut self.desk.locks, txn);
        Ok(CommitAnswer::Ended { begin, reads })
    }

    /// Commits a running attempt that wrote, over a live log.
    fn commit_logged<R: Wait>(
        &mut self,
        rt: &R,
        chron: &Chron,
        alloc: Global,
        own: &mut CorePass,
        run: Run,
    ) -> Result<CommitAnswer, (Run, NoMemory)>
        requires chron { chron.now.table ≡ N.table }
        requires own { IsPassOf N.table run.txn.session own.old }
        requires here { IsHere self.old.number own.old run }
        requires holds { IsTrue (list_any (is_of run.txn) self.old.locks.holders) }
        requires met { own.old.seen ≡ self.old.pass.seen }
        requires writes { IsTrue (has_writes run.ops) }
        requires live { IsTrue self.old.live }
        ensures ok { IfOk result (Wrote run self.old self.new own.old own.new) }
        ensures err { IfErr result (λ e. (e.0 ≡ run) × Met (SiteActor self.old.number) (Session run.txn.session) own.old self.old.pass own.new self.new.pass) }
        ensures installed { OnErr result (self.new.installed ≡ self.old.installed) }
        ensures locks { OnErr result (self.new.locks ≡ self.old.locks) }
        ensures number { self.new.number ≡ self.old.number }
        ensures count { D.faults self.old.disk ≤ D.faults self.new.disk }
        ensures cause { IfOk result (IsCommitCaused self.old.number (D.story self.old.disk) (D.faults self.old.disk) (D.faults self.new.disk)) }
        ensures crash { Both (Crashes self.old.number self.old.pass self.new.pass) (D.story self.old.disk) (D.story self.new.disk) }
    {
        let site = self.number;
        let turn = enter_both(rt, chron, own, &mut self.pass);
        keeps_limits(&turn);
        let seq = next_seq(&turn, site);
        leave(turn, own);
        let Ok(reads) = copied(alloc, run.overlay.reads()) else {
            return Err((run, NoMemory));
        };
        let Ok(frame) = self
            .desk
            .ready_commit(alloc, run.txn, seq, &run.begin, run.overlay.writes())
        else {
            return Err((run, NoMemory));
        };
        let Run {
            txn,
            site: _,
            begin,
            declared: _,
            overlay,
            was: _,
        } = run;
        let entry = entry_of(site, seq, txn, begin, overlay);
        let vector = entry.commit_vector();
        let pending = Pending::Commit(entry);
        let done = self
            .desk
            .write(rt, chron, own, &mut self.pass, site, txn, pending, &frame);
        Ok(told_commit(done, site, seq, vector, reads))
    }

    /// Ends a running attempt for want of memory. Where it was dropped before, nothing is pushed. It takes no
    /// memory.
    pub fn fail<R: Wait>(&mut self, rt: &R, chron: &Chron, own: &mut CorePass, run: Run)
        requires chron { chron.now.table ≡ N.table }
        requires own { IsPassOf N.table run.txn.session own.old }
        requires here { IsHere self.old.number own.old run }
        ensures same { self.new ≡ record self.old { pass = self.new.pass; locks = let_go run.txn self.old.locks } }
        ensures pass { Went self.old.pass self.new.pass }
        ensures own { Went own.old own.new }
        ensures failed { GaveUp run own.old own.new }
    {
        let site = self.number;
        let txn = run.txn;
        let turn = enter_both(rt, chron, own, &mut self.pass);
        if !self.desk.locks.holds(txn) {
            leave(turn, own);
            return;
        }
        let cause = Cause::Memory;
        push_ending(turn, own, &mut self.pass, Step::Fail { site, txn, cause });
        let_go(&mut self.desk.locks, txn);
    }
}
