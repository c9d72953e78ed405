//! Where in the list of steps a look-up finds what it needs: the entries of each origin, the last Route of
//! each session, and the last Doubt of each site. Each step brings this up to date, so that no look-up goes
//! over the list.
#![tactic(auto)]

mod entries;
mod index;
mod law;
mod marks;

pub use entries::entry_by;
pub use index::Index;
pub use law::{committed_next, entries_are_next};
