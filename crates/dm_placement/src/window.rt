//! The window of the last write sets.

ghost use Rattle.std.specs.Prelude.{◌≡◌, ◌*◌, ℕ, ◌-◌, ◌<◌, ◌≤◌, ◌↔◌, [], length, count_by, slice_get, slice_index, IfOk, IsNone};
ghost use Rattle.dm_model.specs.Scores.{weight, together};
ghost use Rattle.dm_model.specs.Tests.{is_among};
ghost use Rattle.dm_placement.specs.Scored.{home_in, AreSites, HaveHomes};
ghost use Rattle.dm_placement.specs.Sets.{noted};

use crate::together::{count_others, meets};
use circular_buffer::HeapCircularBuffer;
use dm_event::{MAX_PARTS, MAX_SITES, NoMemory, Part, PartSet, SiteNo, WINDOW};
use std::alloc::Global;
use std::marker::Model;

/// The partitions of each of the last transactions that declared some. Contracts see the sets, the
/// oldest first.
#[derive(Debug, Drop)]
pub struct Window {
    sets: HeapCircularBuffer<PartSet>,
}

impl Model for Window {
    ghost use Rattle.std.specs.Prelude.{ℕ, List};
    ghost use Rattle.dm_placement.specs.WindowFields.{sets_of, HoldsMost};

    ghost Value = { List (List ℕ) };

    ghost view = { sets_of };

    ghost invariant = { HoldsMost };
}

impl Window {
    /// No set so far. It takes the memory for all sets at once, so that no later call needs any.
    pub fn new(alloc: Global) -> Result<Window, NoMemory>
        ensures { IfOk result (λ window. window ≡ []) }
    {
        Ok(Window {
            sets: HeapCircularBuffer::with_capacity(alloc, WINDOW)?,
        })
    }

    /// Remembers the set, and forgets the oldest one where there are as many as it keeps.
    pub fn note(&mut self, parts: PartSet)
        ensures { self.new ≡ noted self.old parts }
    {
        self.sets.push_back(parts);
    }

    /// The set at that place, where 0 is the oldest one's.
    pub fn sets(&self, nth: usize) -> Option<PartSet>
        ensures nth { result ≡ slice_get self.now nth }
        ensures beyond { IsNone result ↔ (length self.now ≤ nth) }
    {
        self.sets.get(nth).copied()
    }

    /// In how many of the sets the partition is.
    pub(crate) fn weight(&self, part: Part) -> u32
        requires { part < MAX_PARTS }
        ensures exact { result ≡ weight self.now part }
        ensures bound { result ≤ WINDOW }
    {
        let (older, newer) = self.sets.as_slices();
        (holding(older, part) + holding(newer, part)) as u32
    }
    /// For each site, that of site 1 first, how often a partition with home there was used together with
    /// a wanted one.
    pub(crate) fn together(&self, homes: &[SiteNo], wanted: &PartSet) -> [u32; MAX_SITES as usize]
        requires few { length homes.now ≤ MAX_PARTS }
        requires sites { AreSites MAX_SITES homes.now }
        requires wanted_homes { HaveHomes (length homes.now) wanted.now }
        ensures exact { (site : ℕ) → 1 ≤ site → site ≤ MAX_SITES → slice_index result (site - 1) ≡ together self.now (home_in homes.now) wanted.now site }
        ensures bound { (k : ℕ) → slice_index result k ≤ WINDOW * MAX_PARTS }
    {
        let parts = homes.len() as Part;
        let mut counts = [0; MAX_SITES as usize];
        for set in self.sets.iter() {
            if meets(set, wanted, parts) {
                count_others(set, homes, wanted, &mut counts);
            }
        }
        counts
    }
}

/// How many of the sets hold the partition.
fn holding(sets: &[PartSet], part: Part) -> usize
    requires { part < MAX_PARTS }
    ensures exact { result ≡ count_by (λ set. is_among set part) sets.now }
    ensures bound { result ≤ length sets.now }
{
    let mut count = 0;
    for set in sets {
        if set.holds(part) {
            count += 1;
        }
    }
    count
}
