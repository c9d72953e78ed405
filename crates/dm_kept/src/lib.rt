//! A legal history with all that is kept of it beside its steps: it answers what the clauses of the next
//! step ask, and none of its answers costs more the longer the history is.
#![tactic(auto)]

mod kept;
mod noting;
mod pushing;
mod reading;
mod restarting;
mod room;
mod running;

pub use kept::Kept;
