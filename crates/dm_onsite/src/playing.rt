//! The play: acts one after the other.

ghost use Rattle.std.specs.Prelude.{◌≡◌, []};
ghost use Rattle.dm_logdisk.specs.Disk.{mem_story};
ghost use Rattle.dm_logdisk.specs.Story.{opened};
ghost use Rattle.dm_onsite.specs.Opened.{IsEmpty};

use crate::act::{Act, Outcome, Who};
use crate::opening::{Opened, empty_log};
use crate::stage::{Finished, Stage};
use dm_chronicle::Named;
use dm_logdisk::{LogDisk, MemDisk};
use dm_redo::RedoLog;
use std::alloc::Global;
use std::marker::Brand;
use std::sync::Wait;

/// What came of each act, and what is left.
#[derive(Drop)]
pub struct Played<D: LogDisk + Drop> {
    pub outcomes: Vec<Outcome>,
    pub left: Finished<D>,
}

fn play_all<D: LogDisk + Drop, N: Named, R: Wait>(
    rt: &R,
    alloc: Global,
    opened: Opened,
    one: RedoLog<D>,
    two: RedoLog<D>,
    acts: &[(Who, Act)],
) -> Option<Played<D>>
    requires table { opened.chron.table ≡ N.table }
    requires faults { N.faults ≡ [] }
    requires one { IsEmpty D.story one }
    requires two { IsEmpty D.story two }
{
    let (mut stage, mut first, mut second) = Stage::<D, N>::new(alloc, opened, one, two)?;
    let mut outcomes = Vec::new(alloc);
    for (who, what) in acts {
        let player = match *who {
            Who::First => &mut first,
            Who::Second => &mut second,
        };
        outcomes.push(stage.act(rt, alloc, player, *what)).ok()?;
    }
    let left = stage.finish(rt, alloc, first)?;
    Some(Played { outcomes, left })
}

/// Plays the acts over these disks, which are new and empty.
pub fn play<R: Wait>(
    rt: &R,
    alloc: Global,
    disk: MemDisk,
    other: MemDisk,
    acts: &[(Who, Act)],
) -> Option<Played<MemDisk>>
    requires disk { mem_story disk ≡ opened [] }
    requires other { mem_story other ≡ opened [] }
{
    let opened = Opened::new(alloc)?;
    let one = empty_log(alloc, disk)?;
    let two = empty_log(alloc, other)?;
    play_all::<MemDisk, Brand, R>(rt, alloc, opened, one, two, acts)
}
