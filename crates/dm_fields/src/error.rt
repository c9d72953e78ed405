//! Why a text could not be read.

ghost use Rattle.std.specs.Prelude.{◌≡◌};
ghost use Rattle.dm_fields.specs.declared.error.HistoryError.TheVariants.{Memory};

use dm_event::{LineFault, NoMemory};
use std::alloc::{AllocError, AllocFailed};
use thiserror::Error;

#[derive(Clone, Copy, Debug, PartialEq, Eq, Error)]
pub enum HistoryError {
    /// The first faulty line, counted from 1, and the first thing that is wrong with it.
    #[error("a faulty line")]
    Fault { line: u64, kind: LineFault },
    #[error("no memory")]
    Memory,
}

impl From<NoMemory> for HistoryError {
    ghost from_gives = { λ _ e. e ≡ Memory };

    fn from(_e: NoMemory) -> HistoryError {
        HistoryError::Memory
    }
}

impl From<AllocError> for HistoryError {
    ghost from_gives = { λ _ e. e ≡ Memory };

    fn from(_e: AllocError) -> HistoryError {
        HistoryError::Memory
    }
}

impl<T: Drop> From<AllocFailed<T>> for HistoryError {
    ghost from_gives = { λ _ e. e ≡ Memory };

    fn from(_e: AllocFailed<T>) -> HistoryError {
        HistoryError::Memory
    }
}
