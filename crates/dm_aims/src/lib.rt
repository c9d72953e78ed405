//! What is kept of the sessions' last Routes: what each is for, and what has come of a Route for a place
//! or a restart.
#![tactic(auto)]

mod aim;
mod aims;

pub use aim::Aim;
pub use aims::Aims;
