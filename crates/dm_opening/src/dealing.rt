//! A chronicle without a step, and its passes.

ghost use Rattle.std.specs.Prelude.{◌≡◌, [], IfOk, length};
ghost use Rattle.dm_chronicle.specs.Standing.{starts};
ghost use Rattle.dm_event.specs.declared.limits.TheConstants.{MAX_SESSIONS};
ghost use Rattle.dm_opening.specs.Dealing.{ids_from, parts_from, sessions_of, sites_from};

use crate::actors::{actors_of, ids_of};
use dm_chronicle::Chronicle;
use dm_core::{Book, Chron, CorePass};
use dm_event::{Actor, NoMemory, Schema};
use std::alloc::Global;

/// The chronicle, its actors, the sessions that have items, and the passes of the sites, the partitions and these sessions, each in order.
#[derive(Drop)]
pub(crate) struct Dealt {
    pub(crate) chron: Chron,
    pub(crate) actors: Vec<Actor>,
    pub(crate) ids: Vec<u32>,
    pub(crate) sites: Vec<CorePass>,
    pub(crate) parts: Vec<CorePass>,
    pub(crate) sessions: Vec<CorePass>,
    ghost actors_are: { actors.items ≡ chron.actors },
    ghost ids_are: { ids.items ≡ ids_from 1 chron.fixed.items },
    ghost sites_are: { sites.items ≡ starts chron.table chron.fixed [] (sites_from 1 chron.fixed.layout.sites) },
    ghost parts_are: { parts.items ≡ starts chron.table chron.fixed [] (parts_from 0 (length chron.fixed.layout.masters)) },
    ghost sessions_are: { sessions.items ≡ starts chron.table chron.fixed [] (sessions_of ids.items) },
}

/// So many items for each session.
pub(crate) fn deal(alloc: Global, schema: &Schema, items: &[u32]) -> Result<Dealt, NoMemory>
    requires { length items.now ≡ MAX_SESSIONS }
    ensures { IfOk result (λ dealt. dealt.chron.fixed ≡ record { layout = schema.now; items = items.now }) }
{
    let sites = usize::from(schema.sites());
    let parts = usize::from(schema.parts());
    let ids = ids_of(alloc, items)?;
    let actors = actors_of(alloc, schema, &ids)?;
    let book = Book::new(alloc, schema, items)?;
    let Ok((chron, passes)) = Chronicle::new(alloc, book, &actors) else {
        return Err(NoMemory);
    };
    let mut passes = passes;
    let sessions = passes.split_off(sites + parts)?;
    let parts = passes.split_off(sites)?;
    Ok(Dealt {
        chron,
        actors,
        ids,
        sites: passes,
        parts,
        sessions,
    })
}
