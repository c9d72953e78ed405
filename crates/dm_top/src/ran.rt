//! What a command did.

ghost use Rattle.dm_top.specs.Parts.{EndedAs};

use crate::status::Status;
use dm_event::Step;
use std::alloc::Global;

/// What a command did.
#[derive(Drop)]
pub enum Ran {
    /// It ended so, with this history.
    Did { status: Status, history: Vec<Step> },
}

/// A command that ends before its first step.
pub(crate) fn ended(alloc: Global, status: Status) -> Ran
    ensures { EndedAs status result }
{
    Ran::Did {
        status,
        history: Vec::new(alloc),
    }
}
