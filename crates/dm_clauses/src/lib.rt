//! The clauses of each kind of step: whether a step may follow a history, and why not.
#![tactic(auto)]

mod choosing;
mod handing;
mod judging;
mod restarting;
mod rows;
mod shape;

pub use choosing::{choice_due, parts_of};
pub use judging::{elsewhere, next_entry, next_refresh, refusal};
pub use shape::is_shaped;
