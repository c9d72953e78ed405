//! The actors of a chronicle.

ghost use Rattle.std.specs.Prelude.{◌≡◌, ◌≤◌, ◌+◌, ◌++◌, IfOk, OnOk, length};
ghost use Rattle.dm_event.specs.declared.limits.TheConstants.{MAX_SESSIONS};
ghost use Rattle.dm_opening.specs.Dealing.{id_if, ids_from, parts_from, sessions_of, sites_from};

use dm_event::{Actor, NoMemory, Part, Schema, SiteNo};
use std::alloc::Global;

/// The session with this number, if it has items.
fn add_id(ids: &mut Vec<u32>, id: u32, items: u32) -> Result<(), NoMemory>
    ensures { OnOk result (ids.new.items ≡ ids.old.items ++ id_if items id) }
{
    if items != 0 {
        ids.push(id)?;
    }
    Ok(())
}

/// The sessions that have items, ascending.
pub(crate) fn ids_of(alloc: Global, items: &[u32]) -> Result<Vec<u32>, NoMemory>
    requires { length items.now ≤ MAX_SESSIONS }
    ensures { IfOk result (λ ids. ids.items ≡ ids_from 1 items.now) }
{
    let mut ids = Vec::new(alloc);
    for i in 0..items.len() {
        add_id(&mut ids, i as u32 + 1, items[i])?;
    }
    Ok(ids)
}

fn add_sites(actors: &mut Vec<Actor>, sites: SiteNo) -> Result<(), NoMemory>
    ensures { OnOk result (actors.new.items ≡ actors.old.items ++ sites_from 1 sites) }
{
    for before in 0..sites {
        actors.push(Actor::Site(before + 1))?;
    }
    Ok(())
}

fn add_parts(actors: &mut Vec<Actor>, parts: Part) -> Result<(), NoMemory>
    ensures { OnOk result (actors.new.items ≡ actors.old.items ++ parts_from 0 parts) }
{
    for part in 0..parts {
        actors.push(Actor::Partition(part))?;
    }
    Ok(())
}

fn add_sessions(actors: &mut Vec<Actor>, ids: &[u32]) -> Result<(), NoMemory>
    ensures { OnOk result (actors.new.items ≡ actors.old.items ++ sessions_of ids.now) }
{
    for i in 0..ids.len() {
        actors.push(Actor::Session(ids[i]))?;
    }
    Ok(())
}

/// All sites, then all partitions, then these sessions.
pub(crate) fn actors_of(alloc: Global, schema: &Schema, ids: &[u32]) -> Result<Vec<Actor>, NoMemory>
    ensures { IfOk result (λ actors. actors.items ≡ sites_from 1 schema.now.sites ++ (parts_from 0 (length schema.now.masters) ++ sessions_of ids.now)) }
{
    let mut actors = Vec::new(alloc);
    add_sites(&mut actors, schema.sites())?;
    add_parts(&mut actors, schema.parts())?;
    add_sessions(&mut actors, ids)?;
    Ok(actors)
}
