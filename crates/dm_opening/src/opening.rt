//! How a run begins.

ghost use Rattle.std.specs.Prelude.{◌≡◌, ◌≤◌, [], IfErr, IfOk, map, vec_capacity, vec_len};
ghost use Rattle.dm_event.specs.declared.limits.TheConstants.{MAX_SITES};
ghost use Rattle.dm_opening.specs.Dealing.{ids_from};
ghost use Rattle.dm_opening.specs.Making.{AreNumbered};
ghost use Rattle.dm_opening.specs.Opening.{AreNew};

use crate::dealing::Dealt;
use crate::making::make;
use crate::sessions::open_all;
use crate::start::Start;
use dm_chronicle::Named;
use dm_event::{Actor, NoMemory, SiteNo};
use dm_logdisk::LogDisk;
use dm_redo::RedoLog;
use dm_session::Session;
use dm_site::Site;
use dm_sites::{Numbered, SiteLock, Sites};
use dm_table::Table;
use std::sync::{Condvar, Mutex};

/// The sites behind their locks, the table, the actors of the chronicle, room for the disks at the end, and the sessions that have items.
#[derive(Drop)]
pub struct Opened<D: LogDisk + Drop, N: Named> {
    pub sites: Sites<D, N>,
    pub table: Table<N>,
    pub actors: Vec<Actor>,
    pub room: Vec<D>,
    pub sessions: Vec<Session<N>>,
    ghost all: { actors.items ≡ sites.chron.actors },
    ghost none: { room.items ≡ [] },
}

/// Each site behind its lock, for which there is room.
fn lock_all<D: LogDisk + Drop, N: Named>(
    locks: Vec<SiteLock<D, N>>,
    sites: Vec<Site<D, N>>,
) -> Vec<SiteLock<D, N>>
    requires none { locks.items ≡ [] }
    requires room { vec_len sites ≤ vec_capacity locks }
    requires numbers { AreNumbered 1 sites.items }
    requires few { vec_len sites ≤ MAX_SITES }
    ensures { vec_len result ≡ vec_len sites }
{
    let mut locks = locks;
    let mut sites = sites;
    while let Some(site) = sites.pop() {
        let number = sites.len() as SiteNo + 1;
        locks.push_reserved(SiteLock {
            lock: Mutex::new(Numbered { number, site }),
            bell: Condvar::new(),
        });
    }
    locks.reverse();
    locks
}

/// Opens the sites, the table and the sessions of a start. `N` names its chronicle, and the faults of its disks so far.
pub fn open<D: LogDisk + Drop, N: Named>(
    start: Start<D>,
) -> Result<Opened<D, N>, (Vec<RedoLog<D>>, NoMemory)>
    requires table { start.table ≡ N.table }
    requires faults { N.faults ≡ map D.faults start.disks }
    ensures terms { IfOk result (λ opened. opened.sites.chron.fixed ≡ start.terms) }
    ensures schema { IfOk result (λ opened. opened.sites.schema ≡ start.terms.layout) }
    ensures sessions { IfOk result (λ opened. AreNew N.table start.terms (ids_from 1 start.terms.items) opened.sessions.items) }
    ensures back { IfErr result (λ e. map (λ l. l.disk) e.0.items ≡ start.disks) }
{
    let Start {
        alloc,
        schema,
        dealt,
        logs,
        room,
    } = start;
    let Dealt {
        chron,
        actors,
        ids,
        sites,
        parts,
        sessions,
    } = dealt;
    let count = schema.sites();
    let Ok(table) = Table::new(alloc, &schema, parts) else {
        return Err((logs, NoMemory));
    };
    let Ok(sessions) = open_all(alloc, &chron, count, ids, sessions) else {
        return Err((logs, NoMemory));
    };
    let Ok(locks) = Vec::with_capacity(alloc, logs.len()) else {
        return Err((logs, NoMemory));
    };
    let sites = match make(alloc, &schema, &chron, sites, logs) {
        Ok(sites) => sites,
        Err(e) => return Err(e),
    };
    let locks = lock_all(locks, sites);
    let sites = Sites {
        alloc,
        schema,
        chron,
        locks,
    };
    Ok(Opened {
        sites,
        table,
        actors,
        room,
        sessions,
    })
}
