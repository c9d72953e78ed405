//! How the sessions' items and the partitions stand: what is kept of them beside the list of steps, and
//! brought up to date by each step, so that a look at it costs the same however long the list is.
#![tactic(auto)]

mod attempts;
mod placings;
mod replies;
mod states;

pub use states::States;
