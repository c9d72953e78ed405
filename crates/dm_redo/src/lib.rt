//! The redo log of a site: frames of records on a disk, of which a crash at any moment leaves those that were acknowledged,
//! and at most one more.
#![tactic(auto)]

mod appending;
mod comparing;
mod loading;
mod log;
mod tidying;

pub use appending::Appended;
pub use comparing::{AgainstFault, agreement};
pub use loading::{LoadFault, one_log};
pub use log::RedoLog;
