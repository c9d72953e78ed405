//! What a site starts again with.

use dm_event::Vector;
use dm_store::Store;

/// The store and the vector that a site starts again with.
#[derive(Drop)]
pub struct Plan {
    pub store: Store,
    pub vector: Vector,
}
