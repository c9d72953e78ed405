//! The book: the history so far, which is legal, and what it says.
#![tactic(auto)]

mod book;
mod counting;
mod doubts;
mod inside;
mod law;

pub use book::Book;
pub use dm_event::{Attempt, AttemptState, Placing};
pub use dm_record::Frame;
pub use law::{Chron, CorePass, Setting, lists_are_legal};
