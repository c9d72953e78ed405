//! The table: a lock for each partition.

ghost use Rattle.std.specs.Prelude.{◌≡◌, ◌<◌, IfSome};
ghost use Rattle.dm_event.specs.declared.limits.TheConstants.{MAX_PARTS};
ghost use Rattle.dm_table.specs.Starts.{AreNew, ArePasses};

use crate::looks::{Glance, Look};
use crate::place::Place;
use dm_chronicle::Named;
use dm_core::CorePass;
use dm_event::{MAX_PARTS, NoMemory, Part, PartSet, Schema};
use std::alloc::Global;
use std::sync::{Mutex, MutexGuard, RwLock, RwLockWriteGuard, Wait};

// A pass may not be shared, so the gate, which many pass together or one alone, stands beside the lock round
// the place. Who has the gate alone has the place too; who doesn't has it for a look alone.
#[derive(Drop)]
struct Entry<N: Named> {
    gate: RwLock<()>,
    place: Mutex<Place<N>>,
}

/// The table of all partitions. N names the chronicle.
#[derive(Drop)]
pub struct Table<N: Named> {
    alloc: Global,
    entries: Vec<Entry<N>>,
    // Room for the passes when they are given back. It is empty, and behind a lock as a pass may not be shared.
    room: Mutex<Vec<CorePass>>,
}

#[derive(Drop)]
struct Held<'a, N: Named> {
    gate: RwLockWriteGuard<'a, ()>,
    place: MutexGuard<'a, Place<N>>,
}

/// Entries that are held alone.
#[derive(Drop)]
pub struct Taken<'a, N: Named> {
    held: Vec<Held<'a, N>>,
}

impl<N: Named> Table<N> {
    /// The passes are those of the partitions, in order, and have seen no step.
    pub fn new(alloc: Global, schema: &Schema, passes: Vec<CorePass>) -> Result<Table<N>, NoMemory>
        requires passes { AreNew N.table schema.now 0 passes.items }
    {
        let room = Vec::with_capacity(alloc, passes.len())?;
        let mut entries = Vec::with_capacity(alloc, passes.len())?;
        let mut passes = passes;
        // The schema brings in how many partitions there are at most.
        let _parts = schema.parts();
        while let Some(pass) = passes.pop() {
            let part = passes.len() as Part;
            entries.push(Entry {
                gate: RwLock::new(()),
                place: Mutex::new(Place::new(part, schema.opening_master(part), pass)),
            })?;
        }
        entries.reverse();
        Ok(Table {
            alloc,
            entries,
            room: Mutex::new(room),
        })
    }

    /// Holds the entries of the partitions together with others who look, in the order of the partitions.
    pub fn look<R: Wait>(&self, rt: &R, parts: PartSet) -> Result<Look<'_>, NoMemory> {
        let mut look = Look::new(self.alloc);
        for part in 0..MAX_PARTS {
            if let Some(entry) = self.entry(&parts, part) {
                let gate = entry.gate.read(rt);
                let glance = entry.glance(rt);
                look.add(gate, glance)?;
            }
        }
        Ok(look)
    }

    /// Holds the entries of the partitions alone, in the order of the partitions.
    pub fn take<R: Wait>(&self, rt: &R, parts: PartSet) -> Result<Taken<'_, N>, NoMemory> {
        let mut held = Vec::new(self.alloc);
        for part in 0..MAX_PARTS {
            if let Some(entry) = self.entry(&parts, part) {
                let gate = entry.gate.write(rt);
                let place = entry.place.lock(rt);
                held.push(Held { gate, place })?;
            }
        }
        Ok(Taken { held })
    }

    /// The passes of the partitions, in order. It takes no memory.
    pub fn into_passes(self) -> Vec<CorePass>
        ensures { ArePasses N.table 0 result.items }
    {
        let Table {
            mut entries,
            room,
            ..
        } = self;
        let mut passes = room.into_inner();
        passes.clear();
        entries.reverse();
        while let Some(entry) = entries.pop() {
            let place = entry.place.into_inner();
            // Each is the next one, and has room, but a lock tells neither.
            if usize::from(place.part()) != passes.len() {
                break;
            }
            if passes.push(place.into_pass()).is_err() {
                break;
            }
        }
        passes
    }

    /// The partition's entry, if it is one of these.
    fn entry(&self, parts: &PartSet, part: Part) -> Option<&Entry<N>>
        requires { part < MAX_PARTS }
    {
        if parts.holds(part) {
            self.entries.get(usize::from(part))
        } else {
            None
        }
    }
}

impl<N: Named> Entry<N> {
    fn glance<R: Wait>(&self, rt: &R) -> Glance {
        let place = self.place.lock(rt);
        Glance {
            part: place.part(),
            site: place.site(),
            asked: place.asked(),
        }
    }
}

impl<'a, N: Named> Taken<'a, N> {
    /// The place of the partition, if it is held.
    pub fn entry(&mut self, part: Part) -> Option<&mut Place<N>>
        ensures { IfSome result (λ place. place.now.part ≡ part) }
    {
        let at = self.held.iter().position(|held| held.place.part() == part)?;
        let held = self.held.get_mut(at)?;
        Some(&mut *held.place)
    }
}

fn is_send<T: Send>() {}

fn is_sync<T: Sync>() {}

// Clients share the table.
fn crosses<N: Named + Send + Sync>() {
    is_send::<Table<N>>();
    is_sync::<Table<N>>();
}
