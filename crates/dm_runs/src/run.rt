//! One attempt that runs.

use dm_event::{SiteNo, TxnId};

/// An attempt that runs, and the site at which it does.
#[derive(Clone, Copy, Debug)]
pub struct Run {
    pub site: SiteNo,
    pub txn: TxnId,
}
