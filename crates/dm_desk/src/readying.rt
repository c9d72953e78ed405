//! The memory that an append needs, taken ahead of it, so that what is in the log can always be pushed.

ghost use Rattle.std.specs.Prelude.{◌≡◌, ◌≤◌, IfOk, OnOk, length};
ghost use Rattle.dm_frames.specs.Records.{pending_record};
ghost use Rattle.dm_record.specs.Bytes.{IsInRange, frame_of};
ghost use Rattle.dm_record.specs.declared.record.Record.TheVariants as Record;
ghost use Rattle.dm_store.specs.Known.{AreKnown};

use crate::desk::Desk;
use dm_chronicle::Named;
use dm_core::Frame;
use dm_event::{NoMemory, Pair, Pending, TxnId, Vector};
use dm_frames::pending_frame;
use dm_logdisk::LogDisk;
use dm_record::encode_commit;
use std::alloc::Global;

impl<D: LogDisk, N: Named> Desk<D, N> {
    /// Takes all memory that a commit needs, in the store and in the log.
    pub fn ready_commit(
        &mut self,
        alloc: Global,
        txn: TxnId,
        seq: u64,
        begin: &Vector,
        writes: &[Pair],
    ) -> Result<Frame, NoMemory>
        requires range { IsInRange (Record.Commit txn seq begin.now writes.now) }
        ensures layout { self.new.store.layout ≡ self.old.store.layout }
        ensures installed { self.new.store.installed ≡ self.old.store.installed }
        ensures known { OnOk result (AreKnown self.new.store.known writes.now) }
        ensures spare { OnOk result (1 ≤ self.new.store.spare) }
        ensures locks { self.new.locks ≡ self.old.locks }
        ensures story { D.story self.new.log.disk ≡ D.story self.old.log.disk }
        ensures faults { D.faults self.new.log.disk ≡ D.faults self.old.log.disk }
        ensures gate { self.new.log.gate ≡ self.old.log.gate }
        ensures live { self.new.log.live ≡ self.old.log.live }
        ensures ready { IfOk result (λ f. length f ≤ self.new.log.ready) }
        ensures frame { IfOk result (λ f. f ≡ frame_of (Record.Commit txn seq begin.now writes.now)) }
    {
        self.store.know_each(writes)?;
        self.store.reserve(1)?;
        let frame = encode_commit(alloc, txn, seq, begin, writes)?;
        self.log.ready(frame.len())?;
        Ok(frame)
    }

    /// Takes the memory that the record of a hand-over needs.
    pub fn ready_hand_over(&mut self, alloc: Global, pending: &Pending) -> Result<Frame, NoMemory>
        requires range { IsInRange (pending_record pending.now) }
        ensures store { self.new.store ≡ self.old.store }
        ensures locks { self.new.locks ≡ self.old.locks }
        ensures story { D.story self.new.log.disk ≡ D.story self.old.log.disk }
        ensures faults { D.faults self.new.log.disk ≡ D.faults self.old.log.disk }
        ensures gate { self.new.log.gate ≡ self.old.log.gate }
        ensures live { self.new.log.live ≡ self.old.log.live }
        ensures ready { IfOk result (λ f. length f ≤ self.new.log.ready) }
        ensures frame { IfOk result (λ f. f ≡ frame_of (pending_record pending.now)) }
    {
        let frame = pending_frame(alloc, pending)?;
        self.log.ready(frame.len())?;
        Ok(frame)
    }
}
