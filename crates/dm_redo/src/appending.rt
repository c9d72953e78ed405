//! The four changing calls of an append.

ghost use Rattle.std.specs.Prelude.{◌≡◌, ◌≢◌, ◌+◌, ◌≤◌, ◌<◌, ◌^◌, length};
ghost use Rattle.dm_disk.specs.Faults.{Rose};
ghost use Rattle.dm_logdisk.specs.Story.{Both};
ghost use Rattle.dm_redo.specs.Appending.{Appends};

use dm_logdisk::LogDisk;
use dm_record::Frame;

/// How an append ended.
#[derive(Clone, Copy, Debug, PartialEq, Eq)]
pub enum Appended {
    /// The record is in the log.
    Done,
    /// The record isn't in the log.
    Undone,
    /// The record is in the log or isn't: a load will tell.
    Doubt,
}

/// Writes the frame behind the closed gate, and opens the gate only once the frame is durable.
pub(crate) fn write_frame<D: LogDisk>(disk: &mut D, gate: u64, frame: &Frame) -> Appended
    requires calls { 4 ≤ D.calls_left disk.old }
    requires reach { gate + length frame.now + 2 ≤ D.reach disk.old }
    requires place { gate + length frame.now + 2 < 2 ^ 64 }
    ensures story { Both (Appends gate frame.now result) (D.story disk.old) (D.story disk.new) }
    ensures count { D.faults disk.old ≤ D.faults disk.new }
    ensures cause { result ≢ Appended.Done → Rose (D.faults disk.old) (D.faults disk.new) }
{
    let closed = frame.closed();
    let Ok(()) = disk.write_at(gate + 1, closed) else {
        return Appended::Undone;
    };
    let Ok(()) = disk.sync() else {
        return Appended::Undone;
    };
    let Ok(()) = disk.write_at(gate, &[1]) else {
        return Appended::Doubt;
    };
    match disk.sync() {
        Ok(()) => Appended::Done,
        Err(_) => Appended::Doubt,
    }
}
