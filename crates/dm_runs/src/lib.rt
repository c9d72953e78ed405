//! The attempts that run, kept as the steps come.
#![tactic(auto)]

mod run;
mod runs;

pub use run::Run;
pub use runs::Runs;
