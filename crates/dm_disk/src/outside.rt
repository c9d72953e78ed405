//! Sources of files and sinks of text. Each counts its faults, so that no code above it can blame
//! a fault on it that it didn't have.

ghost use Rattle.std.specs.Prelude.{◌≡◌, ◌≤◌, List, ℕ, Option, length};
ghost use Rattle.dm_disk.specs.Faults.{Rose};
ghost use Rattle.dm_disk.specs.Fetching.{Files, Fetches, FitsLimit};
ghost use Rattle.dm_disk.specs.Putting.{written_after, IsFault, FitsPiece};

use std::alloc::Global;

/// What a fetch gave.
#[derive(Debug, Drop)]
pub enum Fetched {
    Found(Vec<u8>),
    /// There is no file of that name.
    Absent,
    /// The file has more bytes than the limit.
    TooLong,
    /// The source had a fault, which it counted.
    Failed,
    NoMemory,
}

/// Named files.
pub trait Source {
    ghost use Rattle.std.specs.Prelude.{◌≡◌, ◌≤◌, List, ℕ, Option};
    ghost use Rattle.dm_disk.specs.Faults.{Rose};
    ghost use Rattle.dm_disk.specs.Fetching.{Files, Fetches, FitsLimit};
    ghost use Rattle.dm_disk.specs.declared.outside.Fetched.{Fetched};

    /// The files, where the source tells them.
    ghost files: { Self → Option Files };

    /// How often a fetch has failed. The count stays at the last value of a `u64`.
    ghost faults: { Self → ℕ };

    /// What a fetch between these two states, of this name and with this limit, may have answered. Code that works
    /// over any source learns it of an answer only by that fetch, so a contract that names the answer speaks of what
    /// was fetched, also where the files aren't told.
    ghost finds: { Self → Self → List ℕ → ℕ → Fetched → Type 0 };

    /// The bytes of a file, at most `limit` of them.
    fn fetch(&mut self, alloc: Global, name: &str, limit: u64) -> Fetched
        ensures finds { finds self.old self.new name.now limit result }
        ensures same { files self.new ≡ files self.old }
        ensures found { Fetches (files self.old) name.now limit result }
        ensures fits { FitsLimit limit result }
        ensures count { faults self.old ≤ faults self.new }
        ensures cause { result ≡ Fetched.Failed → Rose (faults self.old) (faults self.new) };
}

/// What a sink did with a piece.
#[derive(Clone, Copy, Debug, PartialEq, Eq)]
pub enum Put {
    /// It took so many bytes, from the front. None of a piece that isn't empty is a fault.
    Took(usize),
    /// It had a fault, and took nothing.
    Failed,
}

/// Where text is written.
pub trait Sink {
    /// The bytes so far, where the sink tells them.
    ghost written: { Self → Option (List ℕ) };

    /// How often a call has failed. The count stays at the last value of a `u64`.
    ghost faults: { Self → ℕ };

    /// Writes a part of the piece, from its front.
    fn put(&mut self, piece: &[u8]) -> Put
        ensures took { written self.new ≡ written_after (written self.old) piece.now result }
        ensures fits { FitsPiece piece.now result }
        ensures count { faults self.old ≤ faults self.new }
        ensures cause { IsFault piece.now result → Rose (faults self.old) (faults self.new) };
}
