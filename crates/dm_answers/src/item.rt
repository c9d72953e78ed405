//! What a client is asked for.

use dm_event::{Body, Part, SiteNo};

/// One item of a session's script.
#[derive(Debug, Drop)]
pub enum Item {
    /// A transaction.
    Txn(Body),
    /// A move of the partition to the site.
    Place { part: Part, to: SiteNo },
    /// A restart of the site.
    Restart { site: SiteNo },
}
