//! The command `step`.

ghost use Rattle.std.specs.Prelude.{◌≤◌, length};
ghost use Rattle.dm_top.specs.Step.{StepEnds};
ghost use Rattle.dm_top.specs.Parts.{DrivesAs, StepEndsAs};

use crate::fetching::fetch;
use crate::ran::{Ran, ended};
use crate::status::Status;
use dm_disk::{Sink, Source, Written, write_all};
use dm_event::{MAX_FILE, NoMemory};
use dm_report::write_rest;
use dm_schedule::{HistoryError, drive, read};
use std::alloc::Global;

/// Reads the bytes, drives the lines, and writes the answers and the rest of the report. The whole text is made before any of it
/// is written, so that nothing is written where the command can't be done.
fn drive_lines<W: Sink>(alloc: Global, bytes: &[u8], sink: &mut W) -> Ran
    requires { length bytes.now ≤ MAX_FILE }
    ensures { DrivesAs bytes.now (record {
      had = W.written sink.old;
      has = W.written sink.new;
      before = W.faults sink.old;
      after = W.faults sink.new;
    }) result }
{
    let schedule = match read(alloc, bytes) {
        Err(HistoryError::Memory) => return ended(alloc, Status::Memory),
        Err(HistoryError::Fault { line, kind }) => {
            return ended(alloc, Status::StepFault { line, kind });
        }
        Ok(schedule) => schedule,
    };
    let mut out = Vec::new(alloc);
    let book = match drive(alloc, &schedule, &mut out) {
        Err(NoMemory) => return ended(alloc, Status::Memory),
        Ok(book) => book,
    };
    let whole = write_rest(alloc, &book, &mut out);
    let history = book.into_steps();
    let status = match whole {
        Err(NoMemory) => Status::Memory,
        Ok(()) => match write_all(sink, &out) {
            Written::Whole => Status::Done,
            Written::Fault => Status::WriteFault,
        },
    };
    Ran::Did { status, history }
}

/// Does `step` with the file of this name.
pub(crate) fn step<S: Source, W: Sink>(
    alloc: Global,
    name: &str,
    source: &mut S,
    sink: &mut W,
) -> Ran
    ensures { StepEndsAs (record { State = S; files = S.files; faults = S.faults; finds = S.finds }) source.old source.new name.now (record {
      had = W.written sink.old;
      has = W.written sink.new;
      before = W.faults sink.old;
      after = W.faults sink.new;
    }) result }
{
    match fetch(alloc, source, name, MAX_FILE) {
        Ok(bytes) => drive_lines(alloc, &bytes, sink),
        Err(status) => ended(alloc, status),
    }
}
