//! How what the clients share begins: a chronicle without a step, whose passes go to the sites, the table and the sessions.
#![tactic(auto)]

mod actors;
mod dealing;
mod making;
mod opening;
mod sessions;
mod start;

pub use opening::{Opened, open};
pub use start::Start;
