//! One version of a key.

ghost use Rattle.std.specs.Prelude.{◌≡◌};
ghost use Rattle.dm_store.specs.Versions.{is_within};

use dm_event::{Key, SiteNo, Value, Vector};

/// What a transaction wrote of one key.
#[derive(Clone, Copy, Debug)]
pub(crate) struct Version {
    pub(crate) origin: SiteNo,
    pub(crate) key: Key,
    pub(crate) seq: u64,
    pub(crate) value: Value,
}

/// A version with the place of the one before it of its key.
#[derive(Clone, Copy, Debug)]
pub(crate) struct Link {
    pub(crate) version: Version,
    pub(crate) older: Option<usize>,
}

/// What is kept of an installed transaction beside its versions.
#[derive(Clone, Copy, Debug)]
pub(crate) struct Installed {
    pub(crate) origin: SiteNo,
    pub(crate) seq: u64,
    /// How many versions are its own.
    pub(crate) writes: usize,
}
