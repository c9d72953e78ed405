//! The records of a site, and what bytes may be found to be.

use dm_event::{Key, Pairs, Part, SiteNo, TxnId, Vector};

/// The greatest key of any schema.
pub const MAX_KEY: Key = 16_777_215;

/// What a site keeps of a step of its own.
#[derive(Debug, Drop)]
pub enum Record {
    Commit {
        txn: TxnId,
        seq: u64,
        begin: Vector,
        writes: Pairs,
    },
    Release {
        part: Part,
        epoch: u64,
        to: SiteNo,
        vector: Vector,
    },
    Grant {
        part: Part,
        epoch: u64,
        vector: Vector,
    },
}

/// What stands at the front of bytes.
#[derive(Debug, Drop)]
pub enum Decoded {
    /// A frame of so many bytes.
    Whole { rec: Record, used: usize },
    /// The front of a frame, and no more.
    Short,
    /// So many bytes begin a frame, and no more do.
    Bad { place: usize },
}
