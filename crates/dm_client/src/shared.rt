//! What all clients share, from its opening to its end.

ghost use Rattle.std.specs.Prelude.{◌≡◌, IfErr, IfOk, OnOk, length, map};
ghost use Rattle.dm_closing.specs.Closed.{AllKept, AllLeft, AllLevel};
ghost use Rattle.dm_model.specs.Legal.{Legal};
ghost use Rattle.dm_opening.specs.Dealing.{ids_from};
ghost use Rattle.dm_opening.specs.Opening.{AreNew};

use dm_chronicle::Named;
use dm_closing::{Finished, close};
use dm_event::{Actor, NoMemory, Schema, SiteNo};
use dm_logdisk::LogDisk;
use dm_opening::{Opened, Start, open};
use dm_redo::RedoLog;
use dm_session::Session;
use dm_site::RefreshAnswer;
use dm_sites::Sites;
use dm_table::Table;
use std::marker::Model;
use std::sync::{Mutex, Wait};

/// The sites, the table and the chronicle, which N names.
#[derive(Drop)]
pub struct Shared<D: LogDisk + Drop, N: Named> {
    pub(crate) sites: Sites<D, N>,
    pub(crate) table: Table<N>,
    actors: Vec<Actor>,
    // Room for the disks at the end. It is empty, and behind a lock as a disk may not be shared.
    room: Mutex<Vec<D>>,
}

impl<D: LogDisk + Drop, N: Named> Model for Shared<D, N> {
    ghost use Rattle.std.specs.Prelude.{◌≡◌};
    ghost use Rattle.dm_core.specs.Lawful.{Terms};

    ghost Value = { Terms };

    ghost view = { λ s. s.sites.chron.fixed };

    ghost invariant = { λ s. (s.sites.schema ≡ s.sites.chron.fixed.layout) × (s.actors.items ≡ s.sites.chron.actors) };
}

impl<D: LogDisk + Drop, N: Named> Shared<D, N> {
    /// What the clients share at the start, and a session for each that has items. `N` names the start's chronicle, and the faults of its
    /// disks so far. For want of memory the logs come back, and the chronicle is dropped.
    pub fn new(
        start: Start<D>,
    ) -> Result<(Shared<D, N>, Vec<Session<N>>), (Vec<RedoLog<D>>, NoMemory)>
        requires table { start.table ≡ N.table }
        requires faults { N.faults ≡ map D.faults start.disks }
        ensures terms { IfOk result (λ opened. opened.0 ≡ start.terms) }
        ensures sessions { IfOk result (λ opened. AreNew N.table start.terms (ids_from 1 start.terms.items) opened.1.items) }
        ensures back { IfErr result (λ e. map (λ l. l.disk) e.0.items ≡ start.disks) }
    {
        let Opened {
            sites,
            table,
            actors,
            room,
            sessions,
        } = open(start)?;
        let shared = Shared {
            sites,
            table,
            actors,
            room: Mutex::new(room),
        };
        Ok((shared, sessions))
    }

    pub fn schema(&self) -> &Schema
        ensures { result.now ≡ self.now.layout }
    {
        &self.sites.schema
    }
}

/// Has the site take over the next transaction of another one, and wakes who waits there. Whether there was one is a hint.
pub fn apply<D: LogDisk + Drop, N: Named, R: Wait>(
    shared: &Shared<D, N>,
    rt: &R,
    site: SiteNo,
) -> Result<bool, NoMemory> {
    match shared.sites.refresh_at(rt, site)? {
        RefreshAnswer::Applied { .. } => Ok(true),
        RefreshAnswer::Nothing | RefreshAnswer::Down => Ok(false),
    }
}

/// Takes all passes in, once each site that is up has all that was committed, and closes the chronicle. Every session is given back.
pub fn finish<D: LogDisk + Drop, N: Named, R: Wait>(
    shared: Shared<D, N>,
    rt: &R,
    sessions: Vec<Session<N>>,
) -> Finished<D>
    ensures sessions { AllKept sessions.items result.book.steps }
    ensures schema { result.book.layout ≡ shared.layout }
    ensures items { result.book.items ≡ shared.items }
    ensures legal { Legal result.book.layout result.book.steps }
    ensures every { length result.disks.items ≡ shared.layout.sites }
    ensures disks { AllLeft D.story D.faults N.faults 1 result.book.steps result.disks.items }
    ensures level { OnOk result.level (AllLevel result.book.layout result.book.steps) }
{
    let Shared {
        sites,
        table,
        actors,
        room,
    } = shared;
    let mut room = room.into_inner();
    room.clear();
    close(sites, table.into_passes(), &actors, room, rt, sessions)
}
