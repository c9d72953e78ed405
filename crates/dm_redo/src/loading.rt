//! What a load finds in a file, and what it leaves there.

ghost use Rattle.std.specs.Prelude.{◌≡◌, ◌≢◌, ◌+◌, ◌≤◌, ◌∷◌, ◌++◌, [], ℕ, IsTrue, IfOk, IfErr, IfSome, IsNone, Option, Ok, Err, option_map, length, take, drop};
ghost use Rattle.dm_disk.specs.Faults.{Rose};
ghost use Rattle.dm_logdisk.specs.Story.{Both, bytes_of};
ghost use Rattle.dm_logdisk.specs.Calls.{Counts};
ghost use Rattle.dm_redo.specs.Reading.{ReadsAll};
ghost use Rattle.dm_redo.specs.Holding.{IsAt};
ghost use Rattle.dm_redo.specs.Comparing.{Shows, TellsExpected, stood};
ghost use Rattle.dm_redo.specs.Settling.{Keeps, Stood};
ghost use Rattle.dm_redo.specs.Finding.{AreRecords, Has, IsBadAt, Loads, KeepsRecords, frames_of, IsOneLog, IsEitherEnd};

use crate::comparing::{AgainstFault, compare, is_open};
use crate::tidying::{firm, tidy};
use dm_event::Found;
use dm_logdisk::{Failed, LogDisk};
use dm_record::{Decoded, Frame, Record, decode};
use std::alloc::Global;

/// How a load failed.
#[derive(Clone, Copy, Debug, PartialEq, Eq)]
pub enum LoadFault {
    /// The disk failed.
    Log,
    /// An open gate byte stands there, and no frame behind it.
    Bad { place: u64 },
    Memory,
}

/// The records and the place where the log ends, or that of an open gate without a frame.
#[tactic(auto, using(crate::proofs::Compared::closed_ends))]
fn find_end(alloc: Global, bytes: &[u8]) -> Result<(Vec<Record>, usize), LoadFault>
    ensures ok { IfOk result (λ r. Has bytes.now r.1 r.0.items) }
    ensures bad { IfErr result (λ e. (place : ℕ) → e ≡ LoadFault.Bad place → IsBadAt bytes.now place) }
    ensures log { IfErr result (λ e. e ≡ LoadFault.Log → ⊥) }
{
    let mut records = Vec::new(alloc);
    let mut gate = 0;
    while is_open(bytes, gate) {
        match decode(alloc, &bytes[gate + 1..]) {
            Ok(Decoded::Whole { rec, used }) => match records.push(rec) {
                Ok(()) => gate += used + 1,
                Err(_) => return Err(LoadFault::Memory),
            },
            Ok(Decoded::Short) => return Err(LoadFault::Bad { place: gate as u64 }),
            Ok(Decoded::Bad { .. }) => return Err(LoadFault::Bad { place: gate as u64 }),
            Err(_) => return Err(LoadFault::Memory),
        }
    }
    Ok((records, gate))
}

/// Reads from the front until the buffer is full or the file has ended. A read may be short, where the disk tells nothing.
fn read_whole<D: LogDisk>(disk: &mut D, into: &mut [u8]) -> Result<usize, Failed>
    ensures told { IfOk result (λ n. IfSome (D.story disk.old) (λ s. ReadsAll (bytes_of s) into.old into.new n)) }
    ensures fits { IfOk result (λ n. n ≤ length into.old) }
    ensures same { D.story disk.new ≡ D.story disk.old }
    ensures count { Counts result (D.faults disk.old) (D.faults disk.new) }
{
    let mut done = 0;
    while done < into.len() {
        let n = disk.read_at(done as u64, &mut into[done..])?;
        if n == 0 {
            return Ok(done);
        }
        done += n;
    }
    Ok(done)
}

/// The file's bytes.
fn read_all<D: LogDisk>(disk: &mut D, alloc: Global) -> Result<Vec<u8>, LoadFault>
    ensures told { IfOk result (λ v. IfSome (D.story disk.old) (λ s. v.items ≡ bytes_of s)) }
    ensures same { D.story disk.new ≡ D.story disk.old }
    ensures count { D.faults disk.old ≤ D.faults disk.new }
    ensures cause { IfErr result (λ e. e ≡ LoadFault.Log → Rose (D.faults disk.old) (D.faults disk.new)) }
    ensures place { IfErr result (λ e. (place : _) → e ≡ LoadFault.Bad place → ⊥) }
{
    let Ok(len) = disk.len() else {
        return Err(LoadFault::Log);
    };
    let Ok(mut bytes) = vec![in alloc; 0u8; len as usize] else {
        return Err(LoadFault::Memory);
    };
    let Ok(n) = read_whole(disk, &mut bytes) else {
        return Err(LoadFault::Log);
    };
    bytes.truncate(n);
    Ok(bytes)
}

/// Whether the gate byte 0 stands there.
fn is_closed(bytes: &[u8], gate: usize) -> bool
    ensures closed { IsTrue result → take (gate + 1) bytes.now ≡ take gate bytes.now ++ 0 ∷ [] }
    ensures open { take (gate + 1) bytes.now ≡ take gate bytes.now ++ 0 ∷ [] → IsTrue result }
{
    gate < bytes.len() && bytes[gate] == 0
}

/// Reads the log, and leaves nothing but a closed gate behind it.
pub(crate) fn read_log<D: LogDisk>(
    disk: &mut D,
    alloc: Global,
) -> Result<(Vec<Record>, u64), LoadFault>
    ensures loads { IfOk result (λ r. Both (Loads r.1 r.0.items) (D.story disk.old) (D.story disk.new)) }
    ensures ranges { IfOk result (λ r. AreRecords r.0.items) }
    ensures idle { IfOk result (λ r. IfSome (D.story disk.old) (λ s. IsAt (frames_of r.0.items) r.1 s → D.story disk.new ≡ D.story disk.old)) }
    ensures bad { IfErr result (λ e. (place : ℕ) → e ≡ LoadFault.Bad place → IfSome (D.story disk.old) (λ s. IsBadAt (bytes_of s) place)) }
    ensures same { IfErr result (λ e. e ≢ LoadFault.Log → D.story disk.new ≡ D.story disk.old) }
    ensures crash { IfErr result (λ e. Both KeepsRecords (D.story disk.old) (D.story disk.new)) }
    ensures count { D.faults disk.old ≤ D.faults disk.new }
    ensures cause { IfErr result (λ e. e ≡ LoadFault.Log → Rose (D.faults disk.old) (D.faults disk.new)) }
{
    let bytes = match read_all(disk, alloc) {
        Ok(bytes) => bytes,
        Err(fault) => return Err(fault),
    };
    let (records, gate) = match find_end(alloc, &bytes) {
        Ok(found) => found,
        Err(fault) => return Err(fault),
    };
    let closed = is_closed(&bytes, gate);
    let Some(upto) = gate.checked_add(1) else {
        return Err(LoadFault::Memory);
    };
    let Ok(()) = disk.room(upto as u64) else {
        return Err(LoadFault::Memory);
    };
    match tidy(disk, bytes.len() as u64, gate as u64, closed) {
        Ok(()) => Ok((records, gate as u64)),
        Err(_) => Err(LoadFault::Log),
    }
}

/// Compares the file with what was written, and leaves nothing pending where it agrees.
pub(crate) fn against<D: LogDisk>(
    disk: &mut D,
    alloc: Global,
    written: &[Frame],
    pending: Option<&Frame>,
) -> Result<(Found, Vec<Record>, u64), AgainstFault>
    ensures says { IfOk result (λ r. Shows written.now (option_map (λ f. f.now) pending.entry) (Ok r.0) (D.story disk.old)) }
    ensures differs { IfErr result (λ e. Shows written.now (option_map (λ f. f.now) pending.entry) (Err e) (D.story disk.old)) }
    ensures keeps { Both (Keeps written.now (option_map (λ f. f.now) pending.entry)) (D.story disk.old) (D.story disk.new) }
    ensures stands { IfOk result (λ r. Both (Stood written.now (option_map (λ f. f.now) pending.entry) r.0 r.2) (D.story disk.old) (D.story disk.new)) }
    ensures records { IfOk result (λ r. frames_of r.1.items ≡ stood r.0 written.now (option_map (λ f. f.now) pending.entry)) }
    ensures count { D.faults disk.old ≤ D.faults disk.new }
    ensures ranges { IfOk result (λ r. AreRecords r.1.items) }
    ensures clean { IfOk result (λ r. (r.0 ≡ Found.Clean → IsNone pending.entry) × (IsNone pending.entry → r.0 ≡ Found.Clean)) }
    ensures apart { IfErr result (λ e. (place : ℕ) (read written : Option ℕ) → e ≡ AgainstFault.Differs place read written → read ≢ written) }
    ensures expected { IfErr result (TellsExpected written.now (option_map (λ f. f.now) pending.entry)) }
    ensures cause { IfErr result (λ e. e ≡ AgainstFault.Log → Rose (D.faults disk.old) (D.faults disk.new)) }
{
    let bytes = match read_all(disk, alloc) {
        Ok(bytes) => bytes,
        Err(LoadFault::Log) => return Err(AgainstFault::Log),
        Err(_) => return Err(AgainstFault::Memory),
    };
    let (found, gate) = match compare(alloc, written, pending, &bytes) {
        Ok(found) => found,
        Err(fault) => return Err(fault),
    };
    // What agrees is frames and an end, so only memory may be wanting.
    let Ok((records, _)) = find_end(alloc, &bytes) else {
        return Err(AgainstFault::Memory);
    };
    let closed = is_closed(&bytes, gate);
    let Some(upto) = gate.checked_add(1) else {
        return Err(AgainstFault::Memory);
    };
    let Ok(()) = disk.room(upto as u64) else {
        return Err(AgainstFault::Memory);
    };
    match firm(disk, bytes.len() as u64, gate as u64, closed) {
        Ok(()) => Ok((found, records, gate as u64)),
        Err(_) => Err(AgainstFault::Log),
    }
}

/// A file has one list of records, and one end.
#[tactic(auto, using(crate::proofs::OneLog::one_log_holds, crate::proofs::OneLog::either_end_holds))]
pub fn one_log()
    ensures one { IsOneLog }
    ensures either { IsEitherEnd }
{}
