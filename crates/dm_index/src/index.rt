//! The index.

ghost use Rattle.std.specs.Prelude.{ℕ, ◌≡◌, ◌+◌, ◌<◌, ◌≤◌, ◌++◌, ◌∷◌, List, [], length, reverse, option_copied, IfOk, IfSome, OnOk};
ghost use Rattle.dm_event.specs.Layout.{Layout};
ghost use Rattle.dm_event.specs.declared.step.Step.{Step};
ghost use Rattle.dm_index.specs.Places.{marked_in, place_in, entry_place, with_place, ArePlaces};
ghost use Rattle.dm_index.specs.Rooms.{room_at, takes, CanTake};
ghost use Rattle.dm_model.specs.Allowed.{Allowed};
ghost use Rattle.dm_model.specs.Legal.{LegalPast};
ghost use Rattle.dm_steps.specs.Pendings.{kept_of, entry_by};

use crate::{entries, marks};
use dm_event::{MAX_SESSIONS, NoMemory, Pending, Schema, SiteNo, Step};
use std::alloc::Global;
use std::marker::Model;

/// The places, in the list of steps, of the last Route of each session, of the last Doubt of each site and
/// of the entries of each origin.
#[derive(Debug, Drop)]
pub struct Index {
    routes: Vec<Option<usize>>,
    doubts: Vec<Option<usize>>,
    entries: Vec<Vec<usize>>,
}

impl Model for Index {
    ghost use Rattle.dm_index.specs.Places.{Places};
    ghost use Rattle.dm_index.specs.IndexFields.{places_shown, HasPlaces};

    ghost Value = { Places };

    ghost view = { places_shown };

    ghost invariant = { HasPlaces };
}

impl Index {
    /// That of no steps.
    pub fn new(alloc: Global, schema: &Schema) -> Result<Index, NoMemory>
        ensures { IfOk result (λ index. ArePlaces schema.now [] index) }
    {
        Ok(Index {
            routes: marks::opening(alloc, MAX_SESSIONS as usize)?,
            doubts: marks::opening(alloc, schema.sites() as usize)?,
            entries: entries::opening(alloc, schema.sites())?,
        })
    }

    /// The place of the session's last Route.
    pub fn route(&self, session: u32) -> Option<usize>
        ensures { result ≡ marked_in self.now.routes session }
    {
        marks::marked(&self.routes, session as usize)
    }

    /// The place of the site's last Doubt.
    pub fn doubt(&self, site: SiteNo) -> Option<usize>
        ensures { result ≡ marked_in self.now.doubts site }
    {
        marks::marked(&self.doubts, site as usize)
    }

    /// The place of the step that carries the origin's entry with this number: of its Commit, or of the
    /// Doubt that left it open.
    pub fn entry(&self, origin: SiteNo, seq: u64) -> Option<usize>
        ensures { result ≡ place_in self.now.entries origin seq }
    {
        entries::place(&self.entries, origin as usize, seq as usize)
    }

    /// Makes room for so many further entries of each origin.
    pub fn reserve(&mut self, count: usize) -> Result<(), NoMemory>
        ensures all { OnOk result ((i : ℕ) → i < length self.old.entries → count ≤ room_at self.new.rooms i) }
        ensures routes { self.new.routes ≡ self.old.routes }
        ensures doubts { self.new.doubts ≡ self.old.doubts }
        ensures entries { self.new.entries ≡ self.old.entries }
        ensures rooms { (i : ℕ) → room_at self.old.rooms i ≤ room_at self.new.rooms i }
    {
        entries::reserve(&mut self.entries, count)
    }

    /// Brings the index to what it is after the step, which comes to the place behind all steps. `pending`
    /// is the pending step that a Restart keeps, and None with any other step. It takes no memory.
    pub fn apply(&mut self, step: &Step, pending: Option<&Pending>, place: usize)
        requires { IfSome (entry_by step.now (option_copied pending)) (CanTake self.old) }
        ensures entries { self.new.entries
            ≡ with_place self.old.entries (entry_by step.now (option_copied pending.entry)) (entry_place self.old.doubts step.now place) }
        ensures rooms { (i : ℕ) → room_at self.old.rooms i ≤ room_at self.new.rooms i + takes i (entry_by step.now (option_copied pending.entry)) }
        ensures follows { (layout : Layout) (steps : List Step) → LegalPast layout (reverse steps) → Allowed layout (reverse steps) step.now
            → option_copied pending.entry ≡ kept_of step.now (reverse steps) → place ≡ length steps → ArePlaces layout steps self.old
            → ArePlaces layout (steps ++ step.now ∷ []) self.new }
    {
        let stands = marks::entry_place(&self.doubts, step, place);
        entries::append(&mut self.entries, entries::entry_by(step, pending), stands);
        marks::mark_route(&mut self.routes, step, place);
        marks::mark_doubt(&mut self.doubts, step, place);
    }
}
