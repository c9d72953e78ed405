//! Where a transaction should run whose partitions have different masters.
//!
//! A `Window` remembers the last write sets. `scores` gives each site a score for a wanted set: for
//! how even the use of the sites becomes, for how little the site lacks, and for what was used together.
#![tactic(auto)]

mod choosing;
mod lag;
mod law;
mod loads;
mod scoring;
mod together;
mod window;

pub use choosing::choose;
pub use law::choices_due;
pub use scoring::scores;
pub use window::Window;
