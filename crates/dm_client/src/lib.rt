//! What a client does: transactions, hand-overs ahead of them, placings and restarts by hand, over sites and a table that all clients share.
#![tactic(auto)]

mod bringing;
mod placing;
mod restarting;
mod shared;
mod transacting;

pub use dm_closing::Finished;
pub use dm_opening::Start;
pub use dm_sites::{Gate, OpenGate, Point, Told};
pub use placing::place;
pub use restarting::restart_site;
pub use shared::{Shared, apply, finish};
pub use transacting::transact;
