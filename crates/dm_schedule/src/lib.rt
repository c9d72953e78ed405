//! The history that the lines of a step file drive.
#![tactic(auto)]

mod answer;
mod driver;
mod driving;
mod due;
mod judging;
mod sessions;
mod sites;
mod view;

pub use dm_lines::{HistoryError, Line, Schedule, read};
pub use driving::drive;
