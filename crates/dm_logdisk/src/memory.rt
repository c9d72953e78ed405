//! A disk in memory, which keeps a record of its changing calls.

ghost use Rattle.std.specs.Prelude.{◌≡◌, ◌+◌, ◌*◌, ◌-◌, ◌<◌, ◌≤◌, ◌∷◌, [], ◌++◌, true, Some, None, IsOk, OnOk, IsErr, length, vec_len, vec_capacity};
ghost use Rattle.dm_logdisk.specs.Story.{changed, overwritten, filled, wrote, cut_to, synced, bytes_of};
ghost use Rattle.dm_logdisk.specs.Kept.{story_of, first_of, total};
ghost use Rattle.dm_logdisk.specs.Calls.{Counts, Reads};

use crate::crashing::{Pick, copied, mixed, replayed, synced_until};
use crate::disk::{Failed, LogDisk};
use dm_event::NoMemory;
use std::alloc::Global;

/// A kind of call.
#[derive(Clone, Copy, Debug, PartialEq, Eq)]
pub enum Call {
    Len,
    Read,
    Write,
    Cut,
    Sync,
}

/// The nth call of a kind, counted from 1, fails, with its effect or without.
#[derive(Clone, Copy, Debug, PartialEq, Eq)]
pub struct Fail {
    pub call: Call,
    pub nth: u64,
    pub effect: bool,
}

/// A changing call, with whether it had its effect. The bytes of a write stand elsewhere, one piece after the other.
#[derive(Clone, Copy, Debug, PartialEq, Eq)]
pub enum Kept {
    Wrote { at: u64, len: usize, effect: bool },
    Cut { len: u64, effect: bool },
    Synced { effect: bool },
}

/// How many calls of each kind there were.
#[derive(Clone, Copy, Debug, PartialEq, Eq)]
struct Tally {
    lens: u64,
    reads: u64,
    writes: u64,
    cuts: u64,
    syncs: u64,
}

/// A disk in memory. It keeps a record of its changing calls.
#[derive(Drop)]
pub struct MemDisk {
    bytes: Vec<u8>,
    first: Vec<u8>,
    changes: Vec<Kept>,
    pieces: Vec<u8>,
    fails: Vec<Fail>,
    // how many calls pass before each fails without effect
    fuse: Option<u64>,
    tally: Tally,
    faults: u64,
    calls_left: usize,
    reach: usize,
    ghost room_changes: { vec_len changes + calls_left ≤ vec_capacity changes },
    ghost room_pieces: { vec_len pieces + calls_left * reach ≤ vec_capacity pieces },
    ghost room_bytes: { reach ≤ vec_capacity bytes },
    ghost sizes: { total changes.items ≡ vec_len pieces },
    ghost copied: { 0 < calls_left → first_of changes.items first.items bytes.items ≡ first.items },
    ghost same: { bytes.items ≡ bytes_of (story_of first.items changes.items pieces.items bytes.items) },
}

impl MemDisk {
    ghost use Rattle.std.specs.Prelude.{◌≡◌, IfOk};
    ghost use Rattle.dm_logdisk.specs.Story.{opened, bytes_of, IsImage};
    ghost use Rattle.dm_logdisk.specs.Disk.{mem_story};
    ghost use Rattle.dm_logdisk.specs.Picks.{kept_of, picked};

    /// A disk that was opened with these bytes, all of them durable.
    pub fn new(bytes: Vec<u8>, fails: Vec<Fail>) -> MemDisk
        ensures { mem_story result ≡ opened bytes.items }
    {
        let alloc = *bytes.allocator();
        MemDisk {
            bytes,
            first: Vec::new(alloc),
            changes: Vec::new(alloc),
            pieces: Vec::new(alloc),
            fails,
            fuse: None,
            tally: Tally {
                lens: 0,
                reads: 0,
                writes: 0,
                cuts: 0,
                syncs: 0,
            },
            faults: 0,
            calls_left: 0,
            reach: 0,
        }
    }

    /// The same; it passes so many calls, and then fails each without effect. `room` isn't counted, and doesn't fail.
    pub fn fused(bytes: Vec<u8>, calls: u64) -> MemDisk
        ensures { mem_story result ≡ opened bytes.items }
    {
        let alloc = *bytes.allocator();
        let mut disk = MemDisk::new(bytes, Vec::new(alloc));
        disk.fuse = Some(calls);
        disk
    }

    /// The content.
    pub fn bytes(&self) -> &[u8]
        ensures { result.now ≡ bytes_of (mem_story self.now) }
    {
        &self.bytes
    }

    /// What a crash now leaves, by the pick. It takes as long as the changes are many.
    #[tactic(auto, using(crate::proofs::Replayed::given_is_image))]
    pub fn crash(&self, alloc: Global, pick: Pick) -> Result<Vec<u8>, NoMemory>
        ensures given { IfOk result (λ bytes. bytes.items ≡ picked pick (mem_story self.now)) }
        ensures image { IfOk result (λ bytes. IsImage (mem_story self.now) bytes.items) }
    {
        let bytes = self.picked(alloc, pick)?;
        Ok(bytes)
    }

    fn picked(&self, alloc: Global, pick: Pick) -> Result<Vec<u8>, NoMemory>
        ensures { IfOk result (λ bytes. bytes.items ≡ picked pick (mem_story self.now)) }
    {
        match pick {
            Pick::Read => copied(alloc, &self.bytes),
            Pick::Kept => self.kept(alloc),
            Pick::Torn => mixed(alloc, &self.kept(alloc)?, &self.bytes),
        }
    }

    // The content at the last sync that had its effect.
    #[tactic(auto, using(crate::proofs::Replayed::total_take))]
    fn kept(&self, alloc: Global) -> Result<Vec<u8>, NoMemory>
        ensures { IfOk result (λ bytes. bytes.items ≡ kept_of (mem_story self.now)) }
    {
        let until = synced_until(&self.changes);
        let first = if self.changes.is_empty() {
            &self.bytes
        } else {
            &self.first
        };
        replayed(alloc, first, &self.changes[..until], &self.pieces)
    }
}

/// Whether this call fails, and then whether it has its effect.
fn failure(fails: &[Fail], fuse: &mut Option<u64>, call: Call, nth: u64) -> Option<bool> {
    if let Some(left) = *fuse {
        if left == 0 {
            return Some(false);
        }
        *fuse = Some(left - 1);
    }
    for fail in fails {
        if fail.call == call && fail.nth == nth {
            return Some(fail.effect);
        }
    }
    None
}

fn has_effect(failure: Option<bool>) -> bool
    ensures { failure ≡ None → result ≡ true }
{
    failure.unwrap_or(true)
}

fn answer(failure: Option<bool>, effect: bool, faults: &mut u64) -> Result<(), Failed>
    requires { failure ≡ None → effect ≡ true }
    ensures ok { OnOk result (effect ≡ true) }
    ensures count { Counts result faults.old faults.new }
{
    if failure.is_some() {
        *faults = faults.saturating_add(1);
        return Err(Failed);
    }
    Ok(())
}

fn fill(bytes: &mut Vec<u8>, end: usize)
    requires { end ≤ vec_capacity bytes.old }
    ensures filled { bytes.new.items ≡ filled bytes.old.items end }
    ensures capacity { vec_capacity bytes.old ≤ vec_capacity bytes.new }
{
    while bytes.len() < end {
        if bytes.push(0).is_err() {
            unreachable!();
        }
    }
}

#[tactic(auto, using(crate::proofs::Pushed::overwritten_end))]
fn overwrite(bytes: &mut Vec<u8>, at: usize, piece: &[u8])
    requires { at + length piece.now ≤ vec_capacity bytes.old }
    ensures written { bytes.new.items ≡ overwritten at piece.now bytes.old.items }
    ensures capacity { vec_capacity bytes.old ≤ vec_capacity bytes.new }
{
    if at == bytes.len() {
        append_piece(bytes, piece);
    } else {
        let end = at + piece.len();
        fill(bytes, end);
        bytes[at..end].copy_from_slice(piece);
    }
}

pub(crate) fn write(bytes: &mut Vec<u8>, at: usize, piece: &[u8], effect: bool)
    requires { at + length piece.now ≤ vec_capacity bytes.old }
    ensures changed { bytes.new.items ≡ changed (wrote at piece.now effect) bytes.old.items }
    ensures capacity { vec_capacity bytes.old ≤ vec_capacity bytes.new }
{
    if effect {
        overwrite(bytes, at, piece);
    }
}

pub(crate) fn cut(bytes: &mut Vec<u8>, len: usize, effect: bool)
    ensures changed { bytes.new.items ≡ changed (cut_to len effect) bytes.old.items }
    ensures capacity { vec_capacity bytes.old ≤ vec_capacity bytes.new }
{
    if effect {
        bytes.truncate(len);
    }
}

fn keep(changes: &mut Vec<Kept>, change: Kept)
    requires { vec_len changes.old < vec_capacity changes.old }
    ensures kept { changes.new.items ≡ changes.old.items ++ change ∷ [] }
    ensures len { vec_len changes.new ≡ vec_len changes.old + 1 }
    ensures capacity { vec_capacity changes.old ≤ vec_capacity changes.new }
{
    if changes.push(change).is_err() {
        unreachable!();
    }
}

fn append_piece(pieces: &mut Vec<u8>, piece: &[u8])
    requires { vec_len pieces.old + length piece.now ≤ vec_capacity pieces.old }
    ensures kept { pieces.new.items ≡ pieces.old.items ++ piece.now }
    ensures len { vec_len pieces.new ≡ vec_len pieces.old + length piece.now }
    ensures capacity { vec_capacity pieces.old ≤ vec_capacity pieces.new }
{
    if pieces.extend_from_slice(piece).is_err() {
        unreachable!();
    }
}

impl LogDisk for MemDisk {
    ghost use Rattle.std.specs.Prelude.{Some};
    ghost use Rattle.dm_logdisk.specs.Kept.{story_of};

    ghost story = { λ m. Some (story_of m.first.items m.changes.items m.pieces.items m.bytes.items) };

    ghost faults = { λ m. m.faults };

    ghost calls_left = { λ m. m.calls_left };

    ghost reach = { λ m. m.reach };

    fn len(&mut self) -> Result<u64, Failed> {
        self.tally.lens = self.tally.lens.saturating_add(1);
        let failure = failure(&self.fails, &mut self.fuse, Call::Len, self.tally.lens);
        answer(failure, has_effect(failure), &mut self.faults)?;
        Ok(self.bytes.len() as u64)
    }

    fn room(&mut self, upto: u64) -> Result<(), NoMemory> {
        self.calls_left = 0;
        self.reach = 0;
        if self.changes.is_empty() {
            self.first.clear();
            self.first.extend_from_slice(&self.bytes)?;
        }
        let upto = upto as usize;
        let Some(pieces) = upto.checked_mul(8) else {
            return Err(NoMemory);
        };
        self.changes.reserve(8)?;
        self.pieces.reserve(pieces)?;
        self.bytes.reserve(upto)?;
        self.calls_left = 8;
        self.reach = upto;
        Ok(())
    }

    fn read_at(&mut self, at: u64, into: &mut [u8]) -> Result<usize, Failed> {
        self.tally.reads = self.tally.reads.saturating_add(1);
        let failure = failure(&self.fails, &mut self.fuse, Call::Read, self.tally.reads);
        answer(failure, has_effect(failure), &mut self.faults)?;
        Ok(read(&self.bytes, at as usize, into))
    }

    fn write_at(&mut self, at: u64, piece: &[u8]) -> Result<(), Failed> {
        self.tally.writes = self.tally.writes.saturating_add(1);
        let failure = failure(&self.fails, &mut self.fuse, Call::Write, self.tally.writes);
        let effect = has_effect(failure);
        let len = piece.len();
        self.calls_left -= 1;
        keep(&mut self.changes, Kept::Wrote { at, len, effect });
        append_piece(&mut self.pieces, piece);
        write(&mut self.bytes, at as usize, piece, effect);
        answer(failure, effect, &mut self.faults)
    }

    fn cut(&mut self, len: u64) -> Result<(), Failed> {
        self.tally.cuts = self.tally.cuts.saturating_add(1);
        let failure = failure(&self.fails, &mut self.fuse, Call::Cut, self.tally.cuts);
        let effect = has_effect(failure);
        self.calls_left -= 1;
        keep(&mut self.changes, Kept::Cut { len, effect });
        cut(&mut self.bytes, len as usize, effect);
        answer(failure, effect, &mut self.faults)
    }

    fn sync(&mut self) -> Result<(), Failed> {
        self.tally.syncs = self.tally.syncs.saturating_add(1);
        let failure = failure(&self.fails, &mut self.fuse, Call::Sync, self.tally.syncs);
        let effect = has_effect(failure);
        self.calls_left -= 1;
        keep(&mut self.changes, Kept::Synced { effect });
        answer(failure, effect, &mut self.faults)
    }
}

pub(crate) fn read(bytes: &[u8], at: usize, into: &mut [u8]) -> usize
    ensures read { Reads bytes.now at into.old into.new result }
    ensures fits { result ≤ length into.old }
{
    if at >= bytes.len() {
        return 0;
    }
    let n = into.len().min(bytes.len() - at);
    into[..n].copy_from_slice(&bytes[at..at + n]);
    n
}
