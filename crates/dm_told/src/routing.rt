//! What code keeps of a Route.

use dm_event::{Choice, SiteNo, TxnId, Vector};

/// A Route without what it wants.
#[derive(Clone, Copy, Debug)]
pub struct Routing {
    pub txn: TxnId,
    pub min: Vector,
    pub site: SiteNo,
    pub choice: Choice,
}
