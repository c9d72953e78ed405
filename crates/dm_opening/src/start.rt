//! What a run is opened with.

ghost use Rattle.std.specs.Prelude.{◌≡◌, IfErr, IfOk, length, map, vec_len};
ghost use Rattle.dm_event.specs.declared.limits.TheConstants.{MAX_SESSIONS};
ghost use Rattle.dm_opening.specs.Opening.{AllEmpty};

use crate::dealing::{Dealt, deal};
use dm_event::{NoMemory, Schema};
use dm_logdisk::LogDisk;
use dm_redo::RedoLog;
use std::alloc::Global;
use std::marker::Model;

/// A chronicle without a step, its passes, and the logs of its sites. There is room for the disks that come back at the end.
#[derive(Drop)]
pub struct Start<D: LogDisk + Drop> {
    pub(crate) alloc: Global,
    pub(crate) schema: Schema,
    pub(crate) dealt: Dealt,
    pub(crate) logs: Vec<RedoLog<D>>,
    pub(crate) room: Vec<D>,
}

impl<D: LogDisk + Drop> Model for Start<D> {
    ghost use Rattle.std.specs.Prelude.{◌≡◌, [], length, map, vec_len};
    ghost use Rattle.dm_event.specs.declared.limits.TheConstants.{MAX_SESSIONS};
    ghost use Rattle.dm_opening.specs.Opening.{AllEmpty, Opening};

    ghost Value = { Opening D };

    ghost view = { λ s. record {
      table = s.dealt.chron.table;
      terms = s.dealt.chron.fixed;
      disks = map (λ l. l.disk) s.logs.items;
    } };

    ghost invariant = { λ s. (s.schema ≡ s.dealt.chron.fixed.layout) × (vec_len s.logs ≡ s.schema.sites) × AllEmpty D.story s.logs.items
        × (s.room.items ≡ []) × (length s.dealt.chron.fixed.items ≡ MAX_SESSIONS) };
}

impl<D: LogDisk + Drop> Start<D> {
    /// `items` has the number of items of each of the 32 sessions, 0 where there is no script. The logs are those of the sites, in order.
    pub fn new(
        alloc: Global,
        schema: Schema,
        items: &[u32],
        logs: Vec<RedoLog<D>>,
    ) -> Result<Start<D>, (Vec<RedoLog<D>>, NoMemory)>
        requires sessions { length items.now ≡ MAX_SESSIONS }
        requires sites { vec_len logs ≡ schema.sites }
        requires empty { AllEmpty D.story logs.items }
        ensures terms { IfOk result (λ start. start.terms ≡ record { layout = schema; items = items.now }) }
        ensures disks { IfOk result (λ start. start.disks ≡ map (λ l. l.disk) logs.items) }
        ensures back { IfErr result (λ e. e.0 ≡ logs) }
    {
        let Ok(dealt) = deal(alloc, &schema, items) else {
            return Err((logs, NoMemory));
        };
        let Ok(room) = Vec::with_capacity(alloc, logs.len()) else {
            return Err((logs, NoMemory));
        };
        Ok(Start {
            alloc,
            schema,
            dealt,
            logs,
            room,
        })
    }
}
