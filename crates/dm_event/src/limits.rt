//! How much there may be of each thing.

/// Sites.
pub const MAX_SITES: u8 = 8;

/// Partitions.
pub const MAX_PARTS: u16 = 256;

/// Keys in a partition.
pub const MAX_WIDTH: u32 = 65_536;

/// Sessions.
pub const MAX_SESSIONS: u32 = 32;

/// Keys that a transaction declares.
pub const MAX_KEYS: usize = 32;

/// Ops of a transaction.
pub const MAX_OPS: usize = 64;

/// Ranges of opening values.
pub const MAX_RANGES: usize = 4_096;

/// Each weight of a score.
pub const MAX_WEIGHT: u32 = 1_000;

/// Bytes of a schema, a script or a step file.
pub const MAX_FILE: u64 = 16_777_216;

/// Write sets that placement keeps.
pub const WINDOW: usize = 256;
