//! The file of a redo log: what its calls do, what a crash may leave of it, and such files in memory and of the host.
#![tactic(auto)]

mod crashing;
mod disk;
mod host;
mod law;
mod lying;
mod memory;

pub use crashing::Pick;
pub use disk::{Failed, LogDisk};
pub use host::FileDisk;
pub use law::reads_are_images;
pub use lying::LyingDisk;
pub use memory::{Call, Fail, MemDisk};
