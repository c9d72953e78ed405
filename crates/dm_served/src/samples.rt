//! Disks of the tests, and what is compared.

ghost use Rattle.std.specs.Prelude.{◌≡◌, [], IfSome};
ghost use Rattle.dm_logdisk.specs.Disk.{mem_story};
ghost use Rattle.dm_logdisk.specs.Story.{opened};

use crate::job::{Job, Who};
use crate::serving::{Served, serve};
use dm_client::Told;
use dm_event::{Said, Step, Value, Vector};
use dm_logdisk::{Fail as DiskFail, MemDisk};
use std::alloc::Global;
use std::sync::Wait;

pub(crate) fn vector(one: u64, two: u64) -> Vector {
    let mut vector = Vector::zeros(2);
    vector.set(1, one);
    vector.set(2, two);
    vector
}

/// An empty disk, of which these calls fail.
pub(crate) fn disk(alloc: Global, fails: &[DiskFail]) -> Option<MemDisk>
    ensures { IfSome result (λ disk. mem_story disk ≡ opened []) }
{
    let fails = Vec::from_slice(alloc, fails).ok()?;
    Some(MemDisk::new(Vec::new(alloc), fails))
}

/// What comes of the jobs, where these calls of the two disks fail.
pub(crate) fn served<R: Wait>(
    rt: &R,
    alloc: Global,
    fails: &[DiskFail],
    others: &[DiskFail],
    jobs: &[(Who, Job)],
) -> Option<Served<MemDisk>> {
    let one = disk(alloc, fails)?;
    let two = disk(alloc, others)?;
    serve(rt, alloc, one, two, jobs)
}

fn says(told: &[Told], wants: &[Said]) -> bool {
    let same = told
        .iter()
        .zip(wants.iter())
        .all(|(told, want)| told.said == *want);
    same && told.len() == wants.len()
}

/// Whether the jobs come out so, and so many sites are restarted meanwhile.
pub(crate) fn comes_so<R: Wait>(
    rt: &R,
    alloc: Global,
    fails: &[DiskFail],
    others: &[DiskFail],
    jobs: &[(Who, Job)],
    wants: &[Said],
    restarts: usize,
) -> bool {
    match served(rt, alloc, fails, others, jobs) {
        Some(served) => {
            let steps = served.left.book.steps();
            let came = steps
                .iter()
                .filter(|step| matches!(step, Step::Restart { .. }))
                .count();
            says(&served.told, wants) && served.left.level.is_ok() && came == restarts
        }
        None => false,
    }
}

/// Whether the last job is told this outcome at this vector, having read these values.
pub(crate) fn ends_so<R: Wait>(
    rt: &R,
    alloc: Global,
    jobs: &[(Who, Job)],
    said: Said,
    at: Option<Vector>,
    reads: &[Value],
) -> Option<bool> {
    let served = served(rt, alloc, &[], &[], jobs)?;
    let told = served.told.last()?;
    let values = told
        .reads
        .as_slice()
        .iter()
        .map(|pair| pair.value)
        .eq(reads.iter().copied());
    Some(told.said == said && told.vector == at && values)
}
