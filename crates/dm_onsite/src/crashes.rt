//! What a crash leaves at each call of a disk.
use crate::act::{Act, Who};
use crate::playing::play;
use crate::samples::{ONE, disk};
use crate::stage::Finished;
use dm_logdisk::{MemDisk, Pick};
use dm_record::Frame;
use dm_redo::RedoLog;
use std::alloc::Global;
use std::sync::Wait;
use std::test::Fail;

/// Whether the bytes begin with these frames, each behind an open gate.
fn begins(frames: &[Frame], bytes: &[u8]) -> bool {
    let mut rest = bytes;
    for frame in frames {
        let Some((gate, behind)) = rest.split_first() else {
            return false;
        };
        let Some(more) = behind.strip_prefix(frame.bytes()) else {
            return false;
        };
        if *gate != 1 {
            return false;
        }
        rest = more;
    }
    true
}

/// How many records a load finds in the bytes.
fn found(alloc: Global, bytes: Vec<u8>) -> Option<usize> {
    let log = RedoLog::load(alloc, MemDisk::new(bytes, Vec::new(alloc))).ok()?;
    Some(log.records().len())
}

/// Whether each crash image of site 1's disk holds the records of the history, and at most one more.
fn each_holds(alloc: Global, left: &Finished<MemDisk>) -> Option<bool> {
    let due = left.frames.len();
    for pick in [Pick::Kept, Pick::Read, Pick::Torn] {
        let image = left.disk.crash(alloc, pick).ok()?;
        let whole = begins(&left.frames, &image);
        let found = found(alloc, image)?;
        if !whole || found < due || found > due + 1 {
            return Some(false);
        }
    }
    Some(true)
}

/// Two commits, a release, a grant and a restart, over a disk that passes so many calls of site 1 and then fails.
fn crashed<R: Wait>(rt: &R, alloc: Global, calls: u64, acts: &[(Who, Act)]) -> Option<bool> {
    let one = MemDisk::fused(Vec::new(alloc), calls);
    let played = play(rt, alloc, one, disk(alloc, &[])?, acts)?;
    each_holds(alloc, &played.left)
}

/// The opening load makes four calls. Where a call of it fails there is no play.
#[test]
fn a_crash_leaves_the_records_and_one_at_most(rt: HostRuntime) -> Result<(), Fail> {
    let acts = [
        ONE[0],
        ONE[1],
        ONE[2],
        ONE[0],
        ONE[1],
        ONE[2],
        (Who::First, Act::Ask { to: 2 }),
        (Who::First, Act::Release { site: 1 }),
        (Who::First, Act::Grant { site: 2 }),
        (Who::First, Act::Settle),
        (Who::First, Act::Ask { to: 1 }),
        (Who::First, Act::Release { site: 2 }),
        (Who::First, Act::Grant { site: 1 }),
        (Who::Second, Act::Restart { site: 1 }),
    ];
    for calls in 4..40 {
        assert_eq!(rt; crashed(&rt, rt.alloc(), calls, &acts), Some(true));
    }
    Ok(())
}
