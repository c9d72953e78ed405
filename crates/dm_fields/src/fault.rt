//! Why a line could not be read.

ghost use Rattle.std.specs.Prelude.{◌≡◌};
ghost use Rattle.dm_fields.specs.declared.fault.LineError.TheVariants.{Memory};
ghost use Rattle.dm_fields.specs.Faults.{at_line};

use crate::error::HistoryError;
use dm_event::{LineFault, NoMemory};
use std::alloc::{AllocError, AllocFailed};

/// Why a line could not be read: its first fault, or want of memory.
#[derive(Clone, Copy, Debug, PartialEq, Eq)]
pub enum LineError {
    Fault(LineFault),
    Memory,
}

impl LineError {
    /// The error of the line with this number.
    pub fn at(self, line: u64) -> HistoryError
        ensures { result ≡ at_line line self }
    {
        match self {
            LineError::Fault(kind) => HistoryError::Fault { line, kind },
            LineError::Memory => HistoryError::Memory,
        }
    }
}

impl From<NoMemory> for LineError {
    ghost from_gives = { λ _ e. e ≡ Memory };

    fn from(_e: NoMemory) -> LineError {
        LineError::Memory
    }
}

impl From<AllocError> for LineError {
    ghost from_gives = { λ _ e. e ≡ Memory };

    fn from(_e: AllocError) -> LineError {
        LineError::Memory
    }
}

impl<T: Drop> From<AllocFailed<T>> for LineError {
    ghost from_gives = { λ _ e. e ≡ Memory };

    fn from(_e: AllocFailed<T>) -> LineError {
        LineError::Memory
    }
}
