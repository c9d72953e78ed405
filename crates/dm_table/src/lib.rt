//! The routing table: for each partition its master and epoch, and whether it is asked for another site.
#![tactic(auto)]

mod looks;
mod place;
mod table;
#[cfg(test)]
mod tests;

pub use looks::{Glance, Look, Verdict};
pub use place::Place;
pub use table::{Table, Taken};
