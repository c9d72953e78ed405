//! The files and the standard output of the host. What they give and take is the host's affair:
//! they tell nothing but how often the host answered with an error.

ghost use Rattle.std.specs.Prelude.{◌≡◌, ◌≤◌, None};
ghost use Rattle.dm_disk.specs.Fetching.{FitsLimit, HostFinds, faults_fetching};
ghost use Rattle.dm_disk.specs.Putting.{FitsPiece, faults_putting};

use crate::outside::{Fetched, Put, Sink, Source};
use std::alloc::Global;
use std::fs;
use std::io::{ErrorKind, Read};
use std::marker::Model;
use std::rt::Files;

/// The files of the host, by their paths.
#[derive(Drop)]
pub struct FileSource<R> {
    rt: R,
    faults: u64,
}

// seen as the count of its faults
impl<R> Model for FileSource<R> {
    ghost use Rattle.std.specs.Prelude.{ℕ};

    ghost Value = { ℕ };

    ghost view = { λ s. s.faults };
}

impl<R: Files> FileSource<R> {
    pub fn new(rt: R) -> FileSource<R>
        ensures { result ≡ 0 }
    {
        FileSource { rt, faults: 0 }
    }

    // What an error of the host comes to, but for a file that isn't there.
    fn failed(&mut self, kind: ErrorKind) -> Fetched
        ensures fits { FitsLimit 0 result }
        ensures count { self.old ≤ self.new }
        ensures after { self.new ≡ faults_fetching self.old result }
    {
        if kind == ErrorKind::OutOfMemory {
            return Fetched::NoMemory;
        }
        self.faults = self.faults.saturating_add(1);
        Fetched::Failed
    }
}

impl<R: Files> Source for FileSource<R> {
    ghost files = { λ _. None };

    ghost faults = { λ s. s };

    ghost finds = { λ old new name limit answer. HostFinds old new limit answer };

    /// Reads at most one byte more than `limit`. A directory, a missing permission and every other
    /// error of the host is `Failed`.
    fn fetch(&mut self, alloc: Global, name: &str, limit: u64) -> Fetched
        ensures fits { FitsLimit limit result }
        ensures count { self.old ≤ self.new }
        ensures after { self.new ≡ faults_fetching self.old result }
    {
        let file = match fs::open(&self.rt, name) {
            Ok(file) => file,
            Err(error) if error.kind() == ErrorKind::NotFound => return Fetched::Absent,
            Err(error) => return self.failed(error.kind()),
        };
        let mut bytes = Vec::new(alloc);
        match file.take(limit.saturating_add(1)).read_to_end(&mut bytes) {
            Ok(_) if bytes.len() as u64 > limit => Fetched::TooLong,
            Ok(_) => Fetched::Found(bytes),
            Err(error) => self.failed(error.kind()),
        }
    }
}

/// The standard output of the host.
#[derive(Drop)]
pub struct StdoutSink<R> {
    rt: R,
    faults: u64,
}

// seen as the count of its faults
impl<R> Model for StdoutSink<R> {
    ghost use Rattle.std.specs.Prelude.{ℕ};

    ghost Value = { ℕ };

    ghost view = { λ s. s.faults };
}

impl<R: Print> StdoutSink<R> {
    pub fn new(rt: R) -> StdoutSink<R>
        ensures { result ≡ 0 }
    {
        StdoutSink { rt, faults: 0 }
    }
}

impl<R: Print> Sink for StdoutSink<R> {
    ghost written = { λ _. None };

    ghost faults = { λ s. s };

    fn put(&mut self, piece: &[u8]) -> Put
        ensures fits { FitsPiece piece.now result }
        ensures count { self.old ≤ self.new }
        ensures after { self.new ≡ faults_putting self.old piece.now result }
    {
        let answer = match self.rt.write_some(piece) {
            Ok(count) => Put::Took(count),
            Err(_) => Put::Failed,
        };
        if answer == Put::Failed || (answer == Put::Took(0) && !piece.is_empty()) {
            self.faults = self.faults.saturating_add(1);
        }
        answer
    }
}
