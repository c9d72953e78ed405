//! A chronicle with its passes, and logs without records.

ghost use Rattle.std.specs.Prelude.{◌≡◌, IfSome};
ghost use Rattle.dm_event.specs.declared.actor.Actor.TheVariants.{Partition, Session, Site};
ghost use Rattle.dm_logdisk.specs.Story.{IsDurable};
ghost use Rattle.dm_onsite.specs.Opened.{IsEmpty, IsNew};

use dm_chronicle::Chronicle;
use dm_core::{Book, Chron, CorePass};
use dm_event::{Actor, Schema, Weights};
use dm_logdisk::LogDisk;
use dm_redo::RedoLog;
use std::alloc::Global;

/// A chronicle that has seen nothing, and the passes of its actors.
#[derive(Drop)]
pub(crate) struct Opened {
    pub(crate) schema: Schema,
    pub(crate) chron: Chron,
    pub(crate) one: CorePass,
    pub(crate) two: CorePass,
    pub(crate) first: CorePass,
    pub(crate) second: CorePass,
    pub(crate) entry: CorePass,
    ghost sites: { schema.sites ≡ 2 },
    ghost one_is: { IsNew chron.table schema (Site 1) one },
    ghost two_is: { IsNew chron.table schema (Site 2) two },
    ghost first_is: { IsNew chron.table schema (Session 1) first },
    ghost second_is: { IsNew chron.table schema (Session 2) second },
    ghost entry_is: { IsNew chron.table schema (Partition 0) entry },
}

/// Two sites and two partitions of ten keys, the first mastered at site 1 and the second at site 2.
fn schema(alloc: Global) -> Option<Schema>
    ensures { IfSome result (λ schema. schema.sites ≡ 2) }
{
    let even = Weights {
        balance: 1,
        delay: 1,
        together: 1,
    };
    let masters = Vec::from_slice(alloc, &[1, 2]).ok()?;
    Schema::new(2, 10, masters, even, Vec::new(alloc))
}

impl Opened {
    pub(crate) fn new(alloc: Global) -> Option<Opened> {
        let schema = schema(alloc)?;
        let Ok(book) = Book::new(alloc, &schema, &[0; 32]) else {
            return None;
        };
        let actors = [
            Actor::Site(1),
            Actor::Site(2),
            Actor::Session(1),
            Actor::Session(2),
            Actor::Partition(0),
        ];
        let Ok((chron, mut passes)) = Chronicle::new(alloc, book, &actors) else {
            return None;
        };
        let entry = passes.pop()?;
        let second = passes.pop()?;
        let first = passes.pop()?;
        let two = passes.pop()?;
        let one = passes.pop()?;
        Some(Opened {
            schema,
            chron,
            one,
            two,
            first,
            second,
            entry,
        })
    }
}

/// The log of a disk, if it has no records.
pub(crate) fn empty_log<D: LogDisk + Drop>(alloc: Global, disk: D) -> Option<RedoLog<D>>
    requires { IfSome (D.story disk) IsDurable }
    ensures { IfSome result (IsEmpty D.story) }
{
    let log = RedoLog::load(alloc, disk).ok()?;
    if log.records().is_empty() {
        Some(log)
    } else {
        None
    }
}
