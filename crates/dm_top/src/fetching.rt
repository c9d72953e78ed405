//! The bytes of a file.

ghost use Rattle.dm_top.specs.Fetching.{Asked};

use crate::status::Status;
use dm_disk::{Fetched, Source};
use dm_schema::Name;
use std::alloc::Global;

/// The most bytes of a history file.
pub const MAX_HISTORY: u64 = 268_435_456;

/// The bytes of a file, or the status with which the command ends.
pub(crate) fn fetch<S: Source>(
    alloc: Global,
    source: &mut S,
    name: &str,
    limit: u64,
) -> Result<Vec<u8>, Status>
    ensures { Asked (record { State = S; files = S.files; faults = S.faults; finds = S.finds }) source.old source.new name.now limit result }
{
    match source.fetch(alloc, name, limit) {
        Fetched::Found(bytes) => Ok(bytes),
        Fetched::Absent => match Name::new(alloc, name) {
            Ok(name) => Err(Status::Absent { name }),
            Err(_) => Err(Status::Memory),
        },
        Fetched::TooLong => match Name::new(alloc, name) {
            Ok(name) => Err(Status::TooLong { name, limit }),
            Err(_) => Err(Status::Memory),
        },
        Fetched::Failed => Err(Status::ReadFault),
        Fetched::NoMemory => Err(Status::Memory),
    }
}
