//! Transactions as a store installs them.

use dm_event::{Pairs, SiteNo};

/// A committed transaction: the site at which it ran, its number there, and what it wrote.
#[derive(Debug, Drop)]
pub struct Past {
    pub origin: SiteNo,
    /// From 1 on.
    pub seq: u64,
    /// The last value of each written key, ascending by key.
    pub writes: Pairs,
}
