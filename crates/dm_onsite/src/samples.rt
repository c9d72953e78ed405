//! Acts, log files and disks of the tests.

ghost use Rattle.std.specs.Prelude.{◌≡◌, [], IfSome};
ghost use Rattle.dm_logdisk.specs.Disk.{mem_story};
ghost use Rattle.dm_logdisk.specs.Story.{opened};

use crate::act::{Act, Outcome, Who};
use crate::playing::{Played, play};
use dm_event::{Found, Vector};
use dm_logdisk::{Call, Fail as DiskFail, MemDisk};
use std::alloc::Global;
use std::sync::Wait;

/// The first session writes 5 to key 3.
pub(crate) const ONE: [(Who, Act); 3] = [
    (Who::First, Act::Begin { key: 3 }),
    (Who::First, Act::Write { key: 3, value: 5 }),
    (Who::First, Act::Commit),
];

/// The log of the commit of attempt 1.1.1, which writes 5 to key 3.
pub(crate) const COMMITTED: [u8; 61] = [
    1, // the record is there
    0, 0, 0, 55, // the length of what follows
    1, // a commit
    0, 0, 0, 1, // session
    0, 0, 0, 1, // number
    0, 0, 0, 0, 0, 0, 0, 1, // attempt
    0, 0, 0, 0, 0, 0, 0, 1, // seq
    2, // components
    0, 0, 0, 0, 0, 0, 0, 0, // the first
    0, 0, 0, 0, 0, 0, 0, 0, // the second
    1, // writes
    0, 0, 0, 3, // key
    0, 0, 0, 0, 0, 0, 0, 5, // value
    0, // no further record
];

/// The log of a release of partition 0 in epoch 0 to site 2, at the vector (0, 0).
pub(crate) const RELEASED: [u8; 35] = [
    1, 0, 0, 0, 29, 2, 0, 0, 0, 0, 0, 0, 0, 0, 0, 0, 2, 2, 0, 0, 0, 0, 0, 0, 0, 0, 0, 0, 0, 0, 0,
    0, 0, 0, 0,
];

/// The log of a grant of partition 0 in epoch 1, at the vector (0, 0).
pub(crate) const GRANTED: [u8; 34] = [
    1, 0, 0, 0, 28, 3, 0, 0, 0, 0, 0, 0, 0, 0, 0, 1, 2, 0, 0, 0, 0, 0, 0, 0, 0, 0, 0, 0, 0, 0, 0,
    0, 0, 0,
];

/// The log without a record.
pub(crate) const NONE: [u8; 1] = [0];

pub(crate) fn vector(one: u64, two: u64) -> Vector {
    let mut vector = Vector::zeros(2);
    vector.set(1, one);
    vector.set(2, two);
    vector
}

/// The nth call of the kind fails. The first write and the first sync are those of the opening load.
pub(crate) const fn failing(call: Call, nth: u64, effect: bool) -> DiskFail {
    DiskFail { call, nth, effect }
}

/// Each changing call of the first append, and what a restart finds where that call fails, without effect or with it.
pub(crate) const EACH_CALL: [(DiskFail, Found); 8] = [
    (
        DiskFail {
            call: Call::Write,
            nth: 2,
            effect: false,
        },
        Found::Clean,
    ),
    (
        DiskFail {
            call: Call::Write,
            nth: 2,
            effect: true,
        },
        Found::Clean,
    ),
    (
        DiskFail {
            call: Call::Sync,
            nth: 2,
            effect: false,
        },
        Found::Clean,
    ),
    (
        DiskFail {
            call: Call::Sync,
            nth: 2,
            effect: true,
        },
        Found::Clean,
    ),
    (
        DiskFail {
            call: Call::Write,
            nth: 3,
            effect: false,
        },
        Found::Lost,
    ),
    (
        DiskFail {
            call: Call::Write,
            nth: 3,
            effect: true,
        },
        Found::Kept,
    ),
    (
        DiskFail {
            call: Call::Sync,
            nth: 3,
            effect: false,
        },
        Found::Kept,
    ),
    (
        DiskFail {
            call: Call::Sync,
            nth: 3,
            effect: true,
        },
        Found::Kept,
    ),
];

/// An empty disk.
pub(crate) fn disk(alloc: Global, fails: &[DiskFail]) -> Option<MemDisk>
    ensures { IfSome result (λ disk. mem_story disk ≡ opened []) }
{
    let fails = Vec::from_slice(alloc, fails).ok()?;
    Some(MemDisk::new(Vec::new(alloc), fails))
}

fn played<R: Wait>(
    rt: &R,
    alloc: Global,
    fails: &[DiskFail],
    others: &[DiskFail],
    acts: &[(Who, Act)],
) -> Option<Played<MemDisk>> {
    let one = disk(alloc, fails)?;
    let two = disk(alloc, others)?;
    play(rt, alloc, one, two, acts)
}

/// Whether the acts come out so, and leave these bytes, where these calls of site 1's disk fail.
pub(crate) fn comes_so<R: Wait>(
    rt: &R,
    alloc: Global,
    fails: &[DiskFail],
    acts: &[(Who, Act)],
    wants: &[Outcome],
    bytes: &[u8],
) -> bool {
    match played(rt, alloc, fails, &[], acts) {
        Some(played) => played.outcomes.as_slice() == wants && played.left.disk.bytes() == bytes,
        None => false,
    }
}

/// The same of site 2's disk.
pub(crate) fn comes_there<R: Wait>(
    rt: &R,
    alloc: Global,
    fails: &[DiskFail],
    acts: &[(Who, Act)],
    wants: &[Outcome],
    bytes: &[u8],
) -> bool {
    match played(rt, alloc, &[], fails, acts) {
        Some(played) => played.outcomes.as_slice() == wants && played.left.other.bytes() == bytes,
        None => false,
    }
}
