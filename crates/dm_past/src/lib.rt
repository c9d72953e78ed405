//! Histories as texts: what the lines of one say.
#![tactic(auto)]

mod cutting;
mod reading;

pub use dm_fields::HistoryError;
pub use reading::{Reader, histories_both_ways, read};
