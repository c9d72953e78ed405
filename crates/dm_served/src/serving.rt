//! A run: an opening, jobs one after the other, and the end.

ghost use Rattle.std.specs.Prelude.{◌≡◌, [], IfSome, map};
ghost use Rattle.dm_logdisk.specs.Disk.{mem_story};
ghost use Rattle.dm_logdisk.specs.Story.{IsDurable, opened};
ghost use Rattle.dm_opening.specs.Opening.{IsEmpty};
ghost use Rattle.dm_served.specs.Clients.{Serves};
ghost use Rattle.dm_served.specs.declared.serving.TheConstants.{ITEMS};

use crate::job::{Job, Who};
use crate::two::Two;
use dm_chronicle::Named;
use dm_client::{Finished, Shared, Start, Told, finish};
use dm_event::{Schema, Weights};
use dm_logdisk::{LogDisk, MemDisk};
use dm_redo::RedoLog;
use std::alloc::Global;
use std::marker::Brand;
use std::sync::Wait;

/// What each client was told, in the order of the jobs, and what is left.
#[derive(Drop)]
pub struct Served<D: LogDisk + Drop> {
    pub told: Vec<Told>,
    pub left: Finished<D>,
}

/// How many items each of the two sessions has.
const ITEMS: [u32; 32] = [
    1_000_000, 1_000_000, 0, 0, 0, 0, 0, 0, 0, 0, 0, 0, 0, 0, 0, 0, 0, 0, 0, 0, 0, 0, 0, 0, 0, 0,
    0, 0, 0, 0, 0, 0,
];

/// Two sites and two partitions of ten keys, the first mastered at site 1 and the second at site 2.
fn schema(alloc: Global) -> Option<Schema>
    ensures { IfSome result (λ schema. schema.sites ≡ 2) }
{
    let even = Weights {
        balance: 1,
        delay: 1,
        together: 1,
    };
    let masters = Vec::from_slice(alloc, &[1, 2]).ok()?;
    Schema::new(2, 10, masters, even, Vec::new(alloc))
}

/// Has the jobs done, one after the other.
fn serve_jobs<D: LogDisk + Drop, N: Named, R: Wait>(
    shared: &Shared<D, N>,
    rt: &R,
    alloc: Global,
    two: Two<N>,
    jobs: &[(Who, Job)],
) -> Option<(Two<N>, Vec<Told>)>
    requires first { Serves shared.now two.first }
    requires second { Serves shared.now two.second }
    requires items { shared.now.items ≡ ITEMS }
{
    let mut two = two;
    let mut told = Vec::new(alloc);
    for (who, job) in jobs {
        let (next, one) = two.answer(shared, rt, alloc, &ITEMS, *who, *job)?;
        two = next;
        told.push(one).ok()?;
    }
    Some((two, told))
}

fn serve_all<D: LogDisk + Drop, N: Named, R: Wait>(
    rt: &R,
    alloc: Global,
    start: Start<D>,
    jobs: &[(Who, Job)],
) -> Option<Served<D>>
    requires table { start.table ≡ N.table }
    requires faults { N.faults ≡ map D.faults start.disks }
    requires items { start.terms.items ≡ ITEMS }
{
    let Ok((shared, mut sessions)) = Shared::<D, N>::new(start) else {
        return None;
    };
    let Some(second) = sessions.pop() else {
        return None;
    };
    let Some(first) = sessions.pop() else {
        return None;
    };
    let (two, told) = serve_jobs(&shared, rt, alloc, Two { first, second }, jobs)?;
    let Two { first, second } = two;
    sessions.push(first).ok()?;
    sessions.push(second).ok()?;
    let left = finish(shared, rt, sessions);
    Some(Served { told, left })
}

/// The log of a disk, if it has no records.
fn empty_log<D: LogDisk + Drop>(alloc: Global, disk: D) -> Option<RedoLog<D>>
    requires { IfSome (D.story disk) IsDurable }
    ensures { IfSome result (IsEmpty D.story) }
{
    let log = RedoLog::load(alloc, disk).ok()?;
    if log.records().is_empty() {
        Some(log)
    } else {
        None
    }
}

/// Has the jobs done over these disks, which are new and empty.
pub fn serve<R: Wait>(
    rt: &R,
    alloc: Global,
    one: MemDisk,
    two: MemDisk,
    jobs: &[(Who, Job)],
) -> Option<Served<MemDisk>>
    requires one { mem_story one ≡ opened [] }
    requires two { mem_story two ≡ opened [] }
{
    let schema = schema(alloc)?;
    let mut logs = Vec::new(alloc);
    logs.push(empty_log(alloc, one)?).ok()?;
    logs.push(empty_log(alloc, two)?).ok()?;
    let Ok(start) = Start::new(alloc, schema, &ITEMS, logs) else {
        return None;
    };
    serve_all::<MemDisk, Brand, R>(rt, alloc, start, jobs)
}
