//! The log and its calls.

ghost use Rattle.std.specs.Prelude.{◌≡◌, ◌≢◌, ◌+◌, ◌≤◌, ◌↔◌, ℕ, IsTrue, OnOk, IfOk, IfErr, IfSome, IsNone, Option, Ok, Err, option_map, length};
ghost use Rattle.dm_disk.specs.Faults.{Rose};
ghost use Rattle.dm_logdisk.specs.Story.{Both, bytes_of};
ghost use Rattle.dm_redo.specs.Holding.{IsAt};
ghost use Rattle.dm_redo.specs.Appending.{Appends};
ghost use Rattle.dm_redo.specs.Finding.{AreRecords, Loads, KeepsRecords, IsBadAt, frames_of};
ghost use Rattle.dm_redo.specs.Comparing.{Shows, TellsExpected, stood};
ghost use Rattle.dm_redo.specs.Settling.{Keeps, Stood};

use crate::appending::{Appended, write_frame};
use crate::comparing::AgainstFault;
use crate::loading::{LoadFault, against, read_log};
use dm_event::{Found, NoMemory};
use dm_logdisk::LogDisk;
use dm_record::{Frame, Record};
use std::alloc::Global;
use std::marker::Model;

/// The redo log of a site, on a disk.
#[derive(Drop)]
pub struct RedoLog<D: LogDisk> {
    disk: D,
    gate: u64,
    ready: u64,
    live: bool,
    records: Vec<Record>,
}

impl<D: LogDisk> Model for RedoLog<D> {
    ghost use Rattle.dm_redo.specs.Log.{Log, HasRoom};

    ghost Value = { Log D };

    ghost view = { λ l. record { disk = l.disk; gate = l.gate; ready = l.ready; live = l.live; records = l.records.items } };

    ghost invariant = { λ l. HasRoom (D.calls_left l.disk) (D.reach l.disk) l.gate l.ready };
}

impl<D: LogDisk> RedoLog<D> {
    /// Reads the log, and leaves one closed gate byte behind its last record.
    pub fn load(alloc: Global, disk: D) -> Result<RedoLog<D>, (D, LoadFault)>
        ensures loads { IfOk result (λ log. Both (Loads log.gate log.records) (D.story disk) (D.story log.disk)) }
        ensures ranges { IfOk result (λ log. AreRecords log.records) }
        ensures idle { IfOk result (λ log. IfSome (D.story disk) (λ s. IsAt (frames_of log.records) log.gate s → D.story log.disk ≡ D.story disk)) }
        ensures live { IfOk result (λ log. IsTrue log.live) }
        ensures bad { IfErr result (λ e. (place : ℕ) → e.1 ≡ LoadFault.Bad place → IfSome (D.story disk) (λ s. IsBadAt (bytes_of s) place)) }
        ensures same { IfErr result (λ e. e.1 ≢ LoadFault.Log → D.story e.0 ≡ D.story disk) }
        ensures crash { IfErr result (λ e. Both KeepsRecords (D.story disk) (D.story e.0)) }
        ensures count { IfOk result (λ log. D.faults disk ≤ D.faults log.disk) }
        ensures err_count { IfErr result (λ e. D.faults disk ≤ D.faults e.0) }
        ensures cause { IfErr result (λ e. e.1 ≡ LoadFault.Log → Rose (D.faults disk) (D.faults e.0)) }
    {
        let mut disk = disk;
        match read_log(&mut disk, alloc) {
            Ok((records, gate)) => Ok(RedoLog {
                disk,
                gate,
                ready: 0,
                live: true,
                records,
            }),
            Err(fault) => Err((disk, fault)),
        }
    }

    /// Whether the log may be appended to: from a load on, up to a failure.
    pub fn is_live(&self) -> bool
        ensures { result ≡ self.now.live }
    {
        self.live
    }

    /// The records, in the order of the file at the last load.
    pub fn records(&self) -> &[Record]
        ensures { result.now ≡ self.now.records }
    {
        &self.records
    }

    pub fn into_disk(self) -> D
        ensures { result ≡ self.disk }
    {
        self.disk
    }

    /// Makes room for one append of a frame of at most so many bytes.
    pub fn ready(&mut self, bytes: usize) -> Result<(), NoMemory>
        ensures ready { OnOk result (bytes ≤ self.new.ready) }
        ensures same { D.story self.new.disk ≡ D.story self.old.disk }
        ensures gate { self.new.gate ≡ self.old.gate }
        ensures live { self.new.live ≡ self.old.live }
        ensures records { self.new.records ≡ self.old.records }
        ensures faults { D.faults self.new.disk ≡ D.faults self.old.disk }
    {
        let bytes = bytes as u64;
        self.ready = 0;
        let Some(upto) = self.gate.checked_add(2) else {
            return Err(NoMemory);
        };
        let Some(upto) = upto.checked_add(bytes) else {
            return Err(NoMemory);
        };
        self.disk.room(upto)?;
        self.ready = bytes;
        Ok(())
    }

    /// Adds a record, by its frame. Where it isn't Done, the log must be loaded again. It uses the room up.
    pub fn append(&mut self, frame: &Frame) -> Appended
        requires live { IsTrue self.old.live }
        requires ready { length frame.now ≤ self.old.ready }
        ensures story { Both (Appends self.old.gate frame.now result) (D.story self.old.disk) (D.story self.new.disk) }
        ensures live { IsTrue self.new.live ↔ result ≡ Appended.Done }
        ensures gate { result ≡ Appended.Done → self.new.gate ≡ self.old.gate + length frame.now + 1 }
        ensures records { self.new.records ≡ self.old.records }
        ensures count { D.faults self.old.disk ≤ D.faults self.new.disk }
        ensures cause { result ≢ Appended.Done → Rose (D.faults self.old.disk) (D.faults self.new.disk) }
    {
        let len = frame.len() as u64;
        self.live = false;
        self.ready = 0;
        let appended = write_frame(&mut self.disk, self.gate, frame);
        if appended != Appended::Done {
            return appended;
        }
        self.gate += len + 1;
        self.live = true;
        Appended::Done
    }

    /// Loads the log again, against the frames that were written and one that may have been. Bytes may be pending before; after Ok
    /// none are.
    pub fn load_against(
        &mut self,
        alloc: Global,
        written: &[Frame],
        pending: Option<&Frame>,
    ) -> Result<Found, AgainstFault>
        ensures says { Shows written.now (option_map (λ f. f.now) pending.entry) result (D.story self.old.disk) }
        ensures keeps { Both (Keeps written.now (option_map (λ f. f.now) pending.entry)) (D.story self.old.disk) (D.story self.new.disk) }
        ensures stands { IfOk result (λ found.
            Both (Stood written.now (option_map (λ f. f.now) pending.entry) found self.new.gate) (D.story self.old.disk) (D.story self.new.disk)) }
        ensures records { IfOk result (λ found. frames_of self.new.records ≡ stood found written.now (option_map (λ f. f.now) pending.entry)) }
        ensures live { IfOk result (λ _. IsTrue self.new.live) }
        ensures dead { IfErr result (λ _. IsTrue self.new.live → ⊥) }
        ensures count { D.faults self.old.disk ≤ D.faults self.new.disk }
        ensures ranges { IfOk result (λ _. AreRecords self.new.records) }
        ensures clean { IfOk result (λ found. found ≡ Found.Clean → IsNone pending.entry) }
        ensures pending { IfOk result (λ found. IsNone pending.entry → found ≡ Found.Clean) }
        ensures apart { IfErr result (λ e. (place : ℕ) (read written : Option ℕ) → e ≡ AgainstFault.Differs place read written → read ≢ written) }
        ensures expected { IfErr result (TellsExpected written.now (option_map (λ f. f.now) pending.entry)) }
        ensures cause { IfErr result (λ e. e ≡ AgainstFault.Log → Rose (D.faults self.old.disk) (D.faults self.new.disk)) }
    {
        self.live = false;
        self.ready = 0;
        match against(&mut self.disk, alloc, written, pending) {
            Ok((found, records, gate)) => {
                self.records = records;
                self.gate = gate;
                self.live = true;
                Ok(found)
            }
            Err(fault) => Err(fault),
        }
    }
}
