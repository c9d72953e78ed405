//! What a Route is for, and what has come of it.

use dm_event::{Part, SiteNo};

/// The site of a Route and the partition that it wants there; the last epoch under which that partition
/// stood settled at the site since, and whether the site was restarted since.
#[derive(Clone, Copy, Debug)]
pub struct Aim {
    pub site: SiteNo,
    pub part: Option<Part>,
    pub settled: Option<u64>,
    pub restarted: bool,
}
