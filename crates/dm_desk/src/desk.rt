//! A site's store, locks and log, and what is done with all three.

ghost use Rattle.std.specs.Prelude.{◌≡◌, ◌≢◌, ◌≤◌, ◌++◌, ◌∷◌, [], ℕ, List, Ok, Err, Some, None};
ghost use Rattle.std.specs.Prelude.{IfOk, IfErr, OnErr, IsTrue, IfSome, IsNone, length, option_map, reverse};
ghost use Rattle.dm_disk.specs.Faults.{Rose};
ghost use Rattle.dm_event.specs.declared.actor.Actor.TheVariants.{Session, Site as SiteActor};
ghost use Rattle.dm_event.specs.declared.step.Step.TheVariants as step;
ghost use Rattle.dm_frames.specs.Records.{frames_of, pending_record};
ghost use Rattle.dm_locks.specs.Locks.{no_locks};
ghost use Rattle.dm_logdisk.specs.Story.{Both, IsDurable};
ghost use Rattle.dm_model.specs.Doubts.{step_of};
ghost use Rattle.dm_record.specs.Bytes.{frame_of};
ghost use Rattle.dm_redo.specs.Comparing.{stood};
ghost use Rattle.dm_redo.specs.Finding.{AreRecords, frames_of as framed_records};
ghost use Rattle.dm_redo.specs.Holding.{IsAt};
ghost use Rattle.dm_desk.specs.Causing.{IsCaused};
ghost use Rattle.dm_invariant.specs.Keeping.{IsSite, parts_of};
ghost use Rattle.dm_invariant.specs.Logs.{Crashes, doubted};
ghost use Rattle.dm_invariant.specs.Stations.{IsPassOf, layout_of};
ghost use Rattle.dm_invariant.specs.Turning.{Came};
ghost use Rattle.dm_invariant.specs.Writing.{step_after, installed_after, locks_after, HasRoomFor, FitsBehind, MayAppend, MayFail, cause_of, let_go};

use crate::turns::{enter_both, push_ending};
use dm_chronicle::Named;
use dm_core::{Chron, CorePass, Frame};
use dm_event::{Cause, Found, NoMemory, Pending, SiteNo, Step, TxnId};
use dm_locks::LockTable;
use dm_logdisk::LogDisk;
use dm_redo::{AgainstFault, Appended, RedoLog};
use dm_store::Store;
use std::alloc::Global;
use std::marker::PhantomData;
use std::sync::Wait;

/// What a site keeps beside its pass, under one lock. N names the chronicle, and the faults of the disks at
/// their opening.
#[derive(Drop)]
pub struct Desk<D: LogDisk, N: Named> {
    pub store: Store,
    pub locks: LockTable,
    pub log: RedoLog<D>,
    of: PhantomData<N>,
}

/// The step that comes of an append: its own, or the attempt's Fail for the log, or the site's Doubt.
fn step_after(site: SiteNo, txn: TxnId, pending: Pending, done: Appended) -> Step
    ensures { result ≡ step_after site txn pending done }
{
    match done {
        Appended::Done => step_of(site, pending),
        Appended::Undone => Step::Fail {
            site,
            txn,
            cause: Cause::Log { site },
        },
        Appended::Doubt => Step::Doubt { site, pending },
    }
}

fn step_of(site: SiteNo, pending: Pending) -> Step
    ensures { result ≡ step_of site pending }
{
    match pending {
        Pending::Commit(entry) => Step::Commit { entry },
        Pending::Release {
            part,
            epoch,
            to,
            vector,
        } => Step::Release {
            site,
            part,
            epoch,
            to,
            vector,
        },
        Pending::Grant {
            part,
            epoch,
            vector,
        } => Step::Grant {
            site,
            part,
            epoch,
            vector,
        },
    }
}

/// The cause for which an attempt fails where a load does, but for want of memory.
fn cause_of(site: SiteNo, fault: AgainstFault) -> Option<Cause>
    ensures { result ≡ cause_of site fault }
{
    match fault {
        AgainstFault::Log => Some(Cause::Log { site }),
        AgainstFault::Differs {
            place,
            read,
            written,
        } => Some(Cause::Damage {
            site,
            place,
            read,
            written,
        }),
        AgainstFault::Memory => None,
    }
}

/// The attempt holds nothing any more. Who waits goes on to wait.
pub fn let_go(locks: &mut LockTable, txn: TxnId)
    ensures { locks.new ≡ let_go txn locks.old }
{
    locks.is_sound();
    if locks.holds(txn) {
        locks.give_back(txn);
    }
}

impl<D: LogDisk, N: Named> Desk<D, N> {
    pub fn new(store: Store, locks: LockTable, log: RedoLog<D>) -> Desk<D, N>
        ensures store { result.store ≡ store }
        ensures locks { result.locks ≡ locks }
        ensures log { result.log ≡ log }
    {
        Desk {
            store,
            locks,
            log,
            of: PhantomData,
        }
    }

    /// What becomes of the store and the locks after an append.
    fn settle(&mut self, pending: &Pending, done: Appended)
        requires room { HasRoomFor self.old.store pending.now }
        requires fits { done ≡ Appended.Done → FitsBehind self.old.store.installed pending.now }
        ensures layout { self.new.store.layout ≡ self.old.store.layout }
        ensures installed { self.new.store.installed ≡ installed_after pending.now done self.old.store.installed }
        ensures locks { self.new.locks ≡ locks_after pending.now done self.old.locks }
        ensures log { self.new.log ≡ self.old.log }
    {
        match done {
            Appended::Done => {
                if let Pending::Commit(entry) = pending {
                    self.store.install(entry.origin, entry.seq, &entry.writes);
                    let_go(&mut self.locks, entry.txn);
                }
            }
            Appended::Undone => {
                if let Pending::Commit(entry) = pending {
                    let_go(&mut self.locks, entry.txn);
                }
            }
            Appended::Doubt => self.locks.clear(),
        }
    }

    /// Appends the record of a step that may come, and then pushes the step, or what comes in its place. It
    /// takes no memory, and no disk call is made under the turn.
    pub fn write<R: Wait>(
        &mut self,
        rt: &R,
        chron: &Chron,
        own: &mut CorePass,
        pass: &mut CorePass,
        site: SiteNo,
        txn: TxnId,
        pending: Pending,
        frame: &Frame,
    ) -> Appended
        requires chron { chron.now.table ≡ N.table }
        requires own { IsPassOf N.table txn.session own.old }
        requires keeps { IsSite N.table N.faults site pass.old (parts_of D.story D.faults self.old.store self.old.locks self.old.log) }
        requires met { own.old.seen ≡ pass.old.seen }
        requires may { MayAppend (layout_of pass.old) site txn pending pass.old.seen }
        requires live { IsTrue self.old.log.live }
        requires ready { length frame.now ≤ self.old.log.ready }
        requires frame { frame.now ≡ frame_of (pending_record pending) }
        requires room { HasRoomFor self.old.store pending }
        ensures keeps { IsSite N.table N.faults site pass.new (parts_of D.story D.faults self.new.store self.new.locks self.new.log) }
        ensures came { Came (SiteActor site) (Session txn.session) own.old pass.old own.new pass.new (step_after site txn pending result) }
        ensures installed { self.new.store.installed ≡ installed_after pending result self.old.store.installed }
        ensures locks { self.new.locks ≡ locks_after pending result self.old.locks }
        ensures count { D.faults self.old.log.disk ≤ D.faults self.new.log.disk }
        ensures cause { result ≢ Appended.Done → Rose (D.faults self.old.log.disk) (D.faults self.new.log.disk) }
        ensures crash { Both (Crashes site pass.old pass.new) (D.story self.old.log.disk) (D.story self.new.log.disk) }
    {
        let done = self.log.append(frame);
        let turn = enter_both(rt, chron, own, pass);
        self.settle(&pending, done);
        push_ending(turn, own, pass, step_after(site, txn, pending, done));
        done
    }

    /// Loads the log again, against the frames of the site and that of its step in doubt. Where it can't be
    /// read, or isn't as it was written, the attempt fails.
    pub fn load<R: Wait>(
        &mut self,
        rt: &R,
        chron: &Chron,
        alloc: Global,
        own: &mut CorePass,
        pass: &mut CorePass,
        site: SiteNo,
        txn: TxnId,
        frames: &[Frame],
        pending: Option<&Frame>,
    ) -> Result<Result<Found, Cause>, NoMemory>
        requires chron { chron.now.table ≡ N.table }
        requires own { IsPassOf N.table txn.session own.old }
        requires keeps { IsSite N.table N.faults site pass.old (parts_of D.story D.faults self.old.store self.old.locks self.old.log) }
        requires met { own.old.seen ≡ pass.old.seen }
        requires may { MayFail (layout_of pass.old) site txn pass.old.seen }
        requires frames { frames.now ≡ frames_of site (reverse pass.old.seen) }
        requires pending { option_map (λ f. f.now) pending ≡ doubted site (reverse pass.old.seen) }
        ensures keeps { IsSite N.table N.faults site pass.new (parts_of D.story D.faults self.new.store self.new.locks self.new.log) }
        ensures ok { IfOk result (λ r. IfOk r (λ _. (own.new ≡ own.old) × (pass.new ≡ pass.old) × (self.new.locks ≡ self.old.locks))) }
        ensures live { IfOk result (λ r. IfOk r (λ _. IsTrue self.new.log.live)) }
        ensures stands { IfOk result (λ r. IfOk r (λ found. IfSome (D.story self.new.log.disk) (λ s.
            IsAt (stood found frames.now (option_map (λ f. f.now) pending.entry)) self.new.log.gate s × IsDurable s))) }
        ensures records { IfOk result (λ r. IfOk r (λ found.
            framed_records self.new.log.records ≡ stood found frames.now (option_map (λ f. f.now) pending.entry))) }
        ensures ranges { IfOk result (λ r. IfOk r (λ _. AreRecords self.new.log.records)) }
        ensures clean { IfOk result (λ r. IfOk r (λ found. found ≡ Found.Clean → IsNone pending.entry)) }
        ensures no_doubt { IfOk result (λ r. IfOk r (λ found. IsNone pending.entry → found ≡ Found.Clean)) }
        ensures failed { IfOk result (λ r. IfErr r (λ why.
            Came (SiteActor site) (Session txn.session) own.old pass.old own.new pass.new (step.Fail site txn why))) }
        ensures let_go { IfOk result (λ r. IfErr r (λ _. self.new.locks ≡ let_go txn self.old.locks)) }
        ensures caused { IfOk result (λ r. IfErr r (λ why.
            IsCaused site why (D.story self.old.log.disk) (D.faults self.old.log.disk) (D.faults self.new.log.disk))) }
        ensures err { OnErr result ((own.new ≡ own.old) × (pass.new ≡ pass.old) × (self.new.locks ≡ self.old.locks)) }
        ensures store { self.new.store ≡ self.old.store }
        ensures count { D.faults self.old.log.disk ≤ D.faults self.new.log.disk }
        ensures crash { Both (Crashes site pass.old pass.new) (D.story self.old.log.disk) (D.story self.new.log.disk) }
    {
        match self.log.load_against(alloc, frames, pending) {
            Ok(found) => Ok(Ok(found)),
            Err(fault) => {
                let Some(cause) = cause_of(site, fault) else {
                    return Err(NoMemory);
                };
                let turn = enter_both(rt, chron, own, pass);
                let_go(&mut self.locks, txn);
                push_ending(turn, own, pass, Step::Fail { site, txn, cause });
                Ok(Err(cause))
            }
        }
    }
}
