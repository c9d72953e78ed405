//! Tidying the end of a log.

ghost use Rattle.std.specs.Prelude.{◌≡◌, ◌+◌, ◌≤◌, ◌<◌, ◌^◌, ◌++◌, ◌∷◌, [], IfSome, IsTrue, OnOk, length, take};
ghost use Rattle.dm_logdisk.specs.Story.{Both, bytes_of};
ghost use Rattle.dm_logdisk.specs.Calls.{Counts};
ghost use Rattle.dm_redo.specs.Tidying.{IsCut, Shortens, Closes, Tidies};
ghost use Rattle.dm_redo.specs.Settling.{Cuts, Settles, Firms};

use dm_logdisk::{Failed, LogDisk};

/// Cuts the file behind the gate and syncs it, if it is longer.
fn shorten<D: LogDisk>(disk: &mut D, len: u64, gate: u64) -> Result<(), Failed>
    requires calls { 4 ≤ D.calls_left disk.old }
    requires reach { gate + 1 ≤ D.reach disk.old }
    requires place { gate + 1 < 2 ^ 64 }
    requires len { IfSome (D.story disk.old) (λ s. len ≡ length (bytes_of s)) }
    ensures story { Both (Shortens gate result) (D.story disk.old) (D.story disk.new) }
    ensures cut { OnOk result (Both (IsCut gate) (D.story disk.old) (D.story disk.new)) }
    ensures idle { len ≤ gate + 1 → D.story disk.new ≡ D.story disk.old }
    ensures count { Counts result (D.faults disk.old) (D.faults disk.new) }
    ensures calls { D.calls_left disk.old ≤ D.calls_left disk.new + 2 }
    ensures reach { D.reach disk.old ≤ D.reach disk.new }
{
    if len <= gate + 1 {
        return Ok(());
    }
    let Ok(()) = disk.cut(gate + 1) else {
        return Err(Failed);
    };
    disk.sync()
}

/// Closes the gate behind the last frame and syncs it, if it isn't closed.
fn close<D: LogDisk>(disk: &mut D, gate: u64, closed: bool) -> Result<(), Failed>
    requires calls { 2 ≤ D.calls_left disk.old }
    requires reach { gate + 1 ≤ D.reach disk.old }
    requires closed { IfSome (D.story disk.old) (λ s. IsTrue closed → bytes_of s ≡ take gate (bytes_of s) ++ 0 ∷ []) }
    ensures story { Both (Closes gate result) (D.story disk.old) (D.story disk.new) }
    ensures idle { IsTrue closed → D.story disk.new ≡ D.story disk.old }
    ensures count { Counts result (D.faults disk.old) (D.faults disk.new) }
{
    if closed {
        return Ok(());
    }
    let Ok(()) = disk.write_at(gate, &[0]) else {
        return Err(Failed);
    };
    disk.sync()
}

/// Leaves nothing but a closed gate behind the last frame.
pub(crate) fn tidy<D: LogDisk>(
    disk: &mut D,
    len: u64,
    gate: u64,
    closed: bool,
) -> Result<(), Failed>
    requires calls { 4 ≤ D.calls_left disk.old }
    requires reach { gate + 1 ≤ D.reach disk.old }
    requires place { gate + 1 < 2 ^ 64 }
    requires len { IfSome (D.story disk.old) (λ s. len ≡ length (bytes_of s)) }
    requires closed { IfSome (D.story disk.old) (λ s. IsTrue closed → take (gate + 1) (bytes_of s) ≡ take gate (bytes_of s) ++ 0 ∷ []) }
    ensures story { Both (Tidies gate result) (D.story disk.old) (D.story disk.new) }
    ensures idle { IsTrue closed → len ≤ gate + 1 → D.story disk.new ≡ D.story disk.old }
    ensures count { Counts result (D.faults disk.old) (D.faults disk.new) }
{
    let Ok(()) = shorten(disk, len, gate) else {
        return Err(Failed);
    };
    close(disk, gate, closed)
}

/// Cuts the file behind the gate, if it is longer.
fn cut_behind<D: LogDisk>(disk: &mut D, len: u64, gate: u64) -> Result<(), Failed>
    requires call { 0 < D.calls_left disk.old }
    requires reach { gate + 1 ≤ D.reach disk.old }
    requires place { gate + 1 < 2 ^ 64 }
    requires len { IfSome (D.story disk.old) (λ s. len ≡ length (bytes_of s)) }
    ensures story { Both (Cuts gate result) (D.story disk.old) (D.story disk.new) }
    ensures cut { OnOk result (Both (IsCut gate) (D.story disk.old) (D.story disk.new)) }
    ensures count { Counts result (D.faults disk.old) (D.faults disk.new) }
    ensures calls { D.calls_left disk.old ≤ D.calls_left disk.new + 1 }
    ensures reach { D.reach disk.old ≤ D.reach disk.new }
{
    if len <= gate + 1 {
        return Ok(());
    }
    disk.cut(gate + 1)
}

/// The same, and a sync in any case: whatever was pending, nothing is.
fn settle<D: LogDisk>(disk: &mut D, len: u64, gate: u64) -> Result<(), Failed>
    requires calls { 4 ≤ D.calls_left disk.old }
    requires reach { gate + 1 ≤ D.reach disk.old }
    requires place { gate + 1 < 2 ^ 64 }
    requires len { IfSome (D.story disk.old) (λ s. len ≡ length (bytes_of s)) }
    ensures story { Both (Settles gate result) (D.story disk.old) (D.story disk.new) }
    ensures cut { OnOk result (Both (IsCut gate) (D.story disk.old) (D.story disk.new)) }
    ensures count { Counts result (D.faults disk.old) (D.faults disk.new) }
    ensures calls { D.calls_left disk.old ≤ D.calls_left disk.new + 2 }
    ensures reach { D.reach disk.old ≤ D.reach disk.new }
{
    let Ok(()) = cut_behind(disk, len, gate) else {
        return Err(Failed);
    };
    disk.sync()
}

/// Leaves nothing but a closed gate behind the last frame, and nothing pending, whatever was pending before. The gate is written only
/// behind a sync: over a cut that is pending a torn gate byte could open before bytes that came back.
pub(crate) fn firm<D: LogDisk>(
    disk: &mut D,
    len: u64,
    gate: u64,
    closed: bool,
) -> Result<(), Failed>
    requires calls { 4 ≤ D.calls_left disk.old }
    requires reach { gate + 1 ≤ D.reach disk.old }
    requires place { gate + 1 < 2 ^ 64 }
    requires len { IfSome (D.story disk.old) (λ s. len ≡ length (bytes_of s)) }
    requires closed { IfSome (D.story disk.old) (λ s. IsTrue closed → take (gate + 1) (bytes_of s) ≡ take gate (bytes_of s) ++ 0 ∷ []) }
    ensures story { Both (Firms gate result) (D.story disk.old) (D.story disk.new) }
    ensures count { Counts result (D.faults disk.old) (D.faults disk.new) }
{
    let Ok(()) = settle(disk, len, gate) else {
        return Err(Failed);
    };
    close(disk, gate, closed)
}
