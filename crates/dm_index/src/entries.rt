//! The places of the entries of each origin, that of its first entry first.

ghost use Rattle.std.specs.Prelude.{ℕ, ◌≡◌, ◌+◌, ◌<◌, ◌≤◌, ◌++◌, ◌∷◌, ◌==◌, [], if◌then◌else◌, length, map, option_copied, replicate, slice_set, IfOk, IfSome, OnOk};
ghost use Rattle.dm_index.specs.Places.{place_in, places_at, with_place};
ghost use Rattle.dm_index.specs.Rooms.{rooms_of, room_at, takes, HasRoom};
ghost use Rattle.dm_steps.specs.Pendings.{entry_by};
ghost use Rattle.dm_steps.specs.Slots.{numbered_in};

use dm_event::{Entry, NoMemory, Pending, SiteNo, Step};
use std::alloc::Global;

/// What the list has at the number, which counts from 1 on.
fn numbered(list: &[usize], number: usize) -> Option<usize>
    ensures { result ≡ numbered_in list.now number }
{
    if number == 0 {
        return None;
    }
    list.get(number - 1).copied()
}

/// The place of the origin's entry with this number.
pub(crate) fn place(places: &[Vec<usize>], origin: usize, seq: usize) -> Option<usize>
    ensures { result ≡ place_in (map (λ v. v.items) places.now) origin seq }
{
    if origin == 0 || places.len() < origin {
        return None;
    }
    numbered(&places[origin - 1], seq)
}

/// The entry that the step adds, where the pending step is given that a Restart keeps.
pub fn entry_by<'a>(step: &'a Step, pending: Option<&'a Pending>) -> Option<&'a Entry>
    ensures { option_copied result ≡ entry_by step.now (option_copied pending.entry) }
{
    match step {
        Step::Commit { entry } => Some(entry),
        Step::Restart { .. } => match pending {
            Some(Pending::Commit(entry)) => Some(entry),
            _ => None,
        },
        _ => None,
    }
}

fn append_at(places: &mut [Vec<usize>], i: usize, place: usize)
    requires here { i < length places.old }
    requires room { 1 ≤ room_at (rooms_of places.old) i }
    ensures long { length places.new ≡ length places.old }
    ensures items { map (λ v. v.items) places.new ≡ slice_set (map (λ v. v.items) places.old) i (places_at (map (λ v. v.items) places.old) i ++ place ∷ []) }
    ensures room { (k : ℕ) → room_at (rooms_of places.old) k ≤ room_at (rooms_of places.new) k + (if k == i then 1 else 0) }
{
    match places[i].push(place) {
        Ok(()) => {}
        Err(_) => unreachable!(),
    }
}

/// Appends the place of the entry, if there is one, to those of its origin.
pub(crate) fn append(places: &mut [Vec<usize>], entry: Option<&Entry>, place: usize)
    requires { IfSome (option_copied entry) (HasRoom places.old) }
    ensures long { length places.new ≡ length places.old }
    ensures items { map (λ v. v.items) places.new ≡ with_place (map (λ v. v.items) places.old) (option_copied entry.entry) place }
    ensures room { (k : ℕ) → room_at (rooms_of places.old) k ≤ room_at (rooms_of places.new) k + takes k (option_copied entry.entry) }
{
    if let Some(entry) = entry {
        append_at(places, entry.origin as usize - 1, place);
    }
}

fn reserve_at(places: &mut [Vec<usize>], i: usize, count: usize) -> Result<(), NoMemory>
    requires { i < length places.old }
    ensures own { OnOk result (count ≤ room_at (rooms_of places.new) i) }
    ensures long { length places.new ≡ length places.old }
    ensures items { map (λ v. v.items) places.new ≡ map (λ v. v.items) places.old }
    ensures room { (k : ℕ) → room_at (rooms_of places.old) k ≤ room_at (rooms_of places.new) k }
{
    places[i].reserve(count)?;
    Ok(())
}

/// Makes room for so many further entries of each origin.
pub(crate) fn reserve(places: &mut [Vec<usize>], count: usize) -> Result<(), NoMemory>
    ensures all { OnOk result ((k : ℕ) → k < length places.old → count ≤ room_at (rooms_of places.new) k) }
    ensures long { length places.new ≡ length places.old }
    ensures items { map (λ v. v.items) places.new ≡ map (λ v. v.items) places.old }
    ensures room { (k : ℕ) → room_at (rooms_of places.old) k ≤ room_at (rooms_of places.new) k }
{
    for i in 0..places.len() {
        reserve_at(places, i, count)?;
    }
    Ok(())
}

/// No entries of so many origins.
pub(crate) fn opening(alloc: Global, count: SiteNo) -> Result<Vec<Vec<usize>>, NoMemory>
    ensures { IfOk result (λ places. map (λ v. v.items) places.items ≡ replicate count []) }
{
    let mut places = Vec::new(alloc);
    for _i in 0..count {
        places.push(Vec::new(alloc))?;
    }
    Ok(places)
}
