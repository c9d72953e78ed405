//! Step files: what their lines say.
#![tactic(auto)]

mod fields;
mod file;
mod line;
mod opening;
mod reading;

pub use dm_fields::HistoryError;
pub use file::{Schedule, read};
pub use line::Line;
