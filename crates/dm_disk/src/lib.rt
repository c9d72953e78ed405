//! Where the bytes of a run come from and go to.
#![tactic(auto)]

mod host;
mod memory;
mod outside;
mod writing;

pub use host::{FileSource, StdoutSink};
pub use memory::{MemSink, MemSource};
pub use outside::{Fetched, Put, Sink, Source};
pub use writing::{Written, write_all};
