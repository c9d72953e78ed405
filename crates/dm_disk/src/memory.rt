//! A source and a sink in memory.

ghost use Rattle.std.specs.Prelude.{◌≡◌, ◌↔◌, ◌≤◌, [], map, string_bytes, Some, IfOk, Contains, length};
ghost use Rattle.dm_disk.specs.Faults.{raised, Rose};
ghost use Rattle.dm_disk.specs.Fetching.{find_file, FetchesFrom, FitsLimit, contents_of};
ghost use Rattle.dm_disk.specs.Putting.{written_after, IsFault, FitsPiece};
ghost use Rattle.dm_disk.specs.InMemory.{MemFinds, after_fetch, answer_to, after_put};

use crate::outside::{Fetched, Put, Sink, Source};
use dm_event::NoMemory;
use std::alloc::Global;
use std::marker::Model;

/// Files in memory.
#[derive(Drop)]
pub struct MemSource {
    files: Vec<(String, Vec<u8>)>,
    fails: Vec<u64>,
    calls: u64,
    faults: u64,
}

impl Model for MemSource {
    ghost use Rattle.dm_disk.specs.InMemory.{SourceState};
    ghost use Rattle.dm_disk.specs.Fetching.{contents_of};

    ghost Value = { SourceState };

    ghost view = { λ s. record {
      files = contents_of s.files.items;
      fails = s.fails.items;
      calls = s.calls;
      faults = s.faults;
    } };
}

impl MemSource {
    /// The nth fetch, counted from 1, fails for each n in `fails`. Of two files with one name the
    /// first counts.
    pub fn new(files: Vec<(String, Vec<u8>)>, fails: Vec<u64>) -> MemSource
        ensures files { result.files ≡ contents_of files.items }
        ensures fails { result.fails ≡ fails.items }
        ensures calls { result.calls ≡ 0 }
        ensures faults { result.faults ≡ 0 }
    {
        MemSource {
            files,
            fails,
            calls: 0,
            faults: 0,
        }
    }
}

fn fetch_from(alloc: Global, files: &[(String, Vec<u8>)], name: &str, limit: u64) -> Fetched
    ensures found { FetchesFrom (find_file (contents_of files.now)) name.now limit result }
    ensures fits { FitsLimit limit result }
    ensures sure { result ≡ Fetched.Failed → ⊥ }
{
    for file in files {
        if file.0.as_str() == name {
            if file.1.len() as u64 > limit {
                return Fetched::TooLong;
            }
            return match file.1.to_vec(alloc) {
                Ok(bytes) => Fetched::Found(bytes),
                Err(_) => Fetched::NoMemory,
            };
        }
    }
    Fetched::Absent
}

impl Source for MemSource {
    ghost files = { λ s. Some (find_file s.files) };

    ghost faults = { λ s. s.faults };

    ghost finds = { MemFinds };

    fn fetch(&mut self, alloc: Global, name: &str, limit: u64) -> Fetched
        ensures found { FetchesFrom (find_file self.old.files) name.now limit result }
        ensures fits { FitsLimit limit result }
        ensures count { self.old.faults ≤ self.new.faults }
        ensures fails { (result ≡ Fetched.Failed) ↔ Contains self.old.fails (raised self.old.calls) }
        ensures after { self.new ≡ after_fetch self.old result }
    {
        self.calls = self.calls.saturating_add(1);
        if self.fails.contains(&self.calls) {
            self.faults = self.faults.saturating_add(1);
            return Fetched::Failed;
        }
        fetch_from(alloc, &self.files, name, limit)
    }
}

/// Text in memory.
#[derive(Drop)]
pub struct MemSink {
    bytes: Vec<u8>,
    limit: usize,
    faults: u64,
}

impl Model for MemSink {
    ghost use Rattle.std.specs.Prelude.{◌≤◌, vec_len, vec_capacity};
    ghost use Rattle.dm_disk.specs.InMemory.{SinkState};

    ghost Value = { SinkState };

    ghost view = { λ s. record {
      written = s.bytes.items;
      limit = s.limit;
      faults = s.faults;
    } };

    ghost invariant = { λ s. record {
      made : s.limit ≤ vec_capacity s.bytes;
      within : vec_len s.bytes ≤ s.limit;
    } };
}

impl MemSink {
    /// A sink that takes `room` bytes, for which it takes its memory here, and then fails.
    pub fn new(alloc: Global, room: u64) -> Result<MemSink, NoMemory>
        ensures written { IfOk result (λ sink. sink.written ≡ []) }
        ensures limit { IfOk result (λ sink. sink.limit ≡ room) }
        ensures faults { IfOk result (λ sink. sink.faults ≡ 0) }
    {
        let limit = room as usize;
        Ok(MemSink {
            bytes: Vec::with_capacity(alloc, limit)?,
            limit,
            faults: 0,
        })
    }

    pub fn written(&self) -> &[u8]
        ensures { result.now ≡ self.now.written }
    {
        &self.bytes
    }
}

impl Sink for MemSink {
    ghost written = { λ s. Some s.written };

    ghost faults = { λ s. s.faults };

    fn put(&mut self, piece: &[u8]) -> Put
        ensures answer { result ≡ answer_to self.old piece.now }
        ensures count { self.old.faults ≤ self.new.faults }
        ensures after { self.new ≡ after_put self.old piece.now result }
    {
        let room = self.limit - self.bytes.len();
        let count = room.min(piece.len());
        if count == 0 && !piece.is_empty() {
            self.faults = self.faults.saturating_add(1);
            return Put::Failed;
        }
        match self.bytes.extend_from_slice(&piece[..count]) {
            Ok(()) => Put::Took(count),
            Err(_) => unreachable!(),
        }
    }
}
