//! How a session's item stands.

use crate::{Cause, Choice, SiteNo, TxnId};

/// The state of a session's current item.
#[derive(Clone, Copy, Debug, PartialEq, Eq)]
pub enum AttemptState {
    /// The item has no Route yet.
    Unrouted,
    Routed { site: SiteNo, choice: Choice },
    /// The site that it was routed to may not begin on one of its partitions.
    Moved,
    Running { site: SiteNo },
    Committed { site: SiteNo, seq: u64 },
    /// It ended without a write.
    Ended { site: SiteNo },
    Failed { cause: Cause },
    /// Its own commit is in doubt.
    Doubted { site: SiteNo },
    /// Its site went down or started again while it ran.
    Dropped,
}

/// The last attempt at a session's current item.
#[derive(Clone, Copy, Debug, PartialEq, Eq)]
pub struct Attempt {
    /// None exactly where the item has no Route yet.
    pub txn: Option<TxnId>,
    pub state: AttemptState,
}
