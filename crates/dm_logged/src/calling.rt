//! A caller of a log, which says of itself what a crash leaves at each moment of its call.

ghost use Rattle.std.specs.Prelude.{◌≡◌, ◌+◌, [], ◌∷◌, ◌++◌, List, IsTrue, IfOk, OnErr, Ok, length};
ghost use Rattle.dm_logdisk.specs.Story.{Both};
ghost use Rattle.dm_record.specs.Bytes.{frame_of};
ghost use Rattle.dm_record.specs.declared.record.Record.{Record};
ghost use Rattle.dm_redo.specs.Appending.{Appends};
ghost use Rattle.dm_logged.specs.Twice.{LeavesOneOf, Settles};

use dm_event::NoMemory;
use dm_logdisk::LogDisk;
use dm_record::Frame;
use dm_redo::{Appended, RedoLog};

/// Makes room for the frame and appends it.
fn append<D: LogDisk>(log: &mut RedoLog<D>, frame: &Frame) -> Result<Appended, NoMemory>
    requires { IsTrue log.old.live }
    ensures story { IfOk result (λ x. Both (Appends log.old.gate frame.now x) (D.story log.old.disk) (D.story log.new.disk)) }
    ensures same { OnErr result (D.story log.new.disk ≡ D.story log.old.disk) }
    ensures live { result ≡ Ok Appended.Done → IsTrue log.new.live }
    ensures gate { result ≡ Ok Appended.Done → log.new.gate ≡ log.old.gate + length frame.now + 1 }
{
    log.ready(frame.len())?;
    Ok(log.append(frame))
}

/// Appends a record and, once it is in the log, another. The answer is that of the last append that was made.
pub fn append_both<D: LogDisk>(
    log: &mut RedoLog<D>,
    first: &Frame,
    second: &Frame,
) -> Result<Appended, NoMemory>
    requires { IsTrue log.old.live }
    ensures crash { (recs : List Record) (a b : Record) → first.now ≡ frame_of a → second.now ≡ frame_of b →
        Both (LeavesOneOf (recs ∷ (recs ++ a ∷ []) ∷ (recs ++ a ∷ b ∷ []) ∷ []) recs log.old.gate) (D.story log.old.disk) (D.story log.new.disk) }
    ensures done { (recs : List Record) (a b : Record) → first.now ≡ frame_of a → second.now ≡ frame_of b → result ≡ Ok Appended.Done →
        Both (Settles recs log.old.gate (recs ++ a ∷ b ∷ []) log.new.gate) (D.story log.old.disk) (D.story log.new.disk) }
{
    let appended = append(log, first)?;
    match appended {
        Appended::Done => append(log, second),
        Appended::Undone => Ok(Appended::Undone),
        Appended::Doubt => Ok(Appended::Doubt),
    }
}
