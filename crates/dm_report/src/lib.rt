//! The report of a history.
#![tactic(auto)]

mod moves;
mod reply;
mod rest;
mod totals;

pub use reply::put_reply;
pub use rest::write_rest;
