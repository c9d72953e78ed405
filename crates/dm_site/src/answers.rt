//! What a begin answers.
use crate::run::Run;
use dm_event::{Key, TxnId};

/// How a begin went.
#[derive(Drop)]
pub enum BeginAnswer {
    Begun { run: Run },
    /// The site may not begin on all its partitions; it has to be routed again.
    Moved,
    /// It waits: this attempt, which runs or waits before it, wants the key too.
    Held { by: TxnId, key: Key },
    Down,
}
