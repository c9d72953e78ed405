//! How what the clients share ends: every pass comes in, the chronicle is closed, and what each site leaves stands in the history.
#![tactic(auto)]

mod bundle;
mod closing;
mod leveling;

pub use closing::{Finished, close};
