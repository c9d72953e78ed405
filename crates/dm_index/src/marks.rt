//! The places of the last Routes and Doubts.

ghost use Rattle.std.specs.Prelude.{ℕ, ◌≡◌, ◌+◌, None, length, replicate, option_map, slice_get, IfOk};
ghost use Rattle.dm_index.specs.Places.{marked_in, told_route, told_doubt, entry_place};

use dm_event::{NoMemory, SiteNo, Step};
use std::alloc::Global;

/// What is marked of the number, which counts from 1 on.
pub(crate) fn marked(marks: &[Option<usize>], number: usize) -> Option<usize>
    ensures { result ≡ marked_in marks.now number }
{
    if number == 0 {
        return None;
    }
    match marks.get(number - 1) {
        Some(place) => *place,
        None => None,
    }
}

/// Marks the place of the step, if it is a Route, as that of its session's last one.
pub(crate) fn mark_route(routes: &mut [Option<usize>], step: &Step, place: usize)
    ensures long { length routes.new ≡ length routes.old }
    ensures each { (k : ℕ) → slice_get routes.new k ≡ option_map (told_route (k + 1) step.now place) (slice_get routes.old k) }
{
    if let Step::Route { txn, .. } = step {
        let session = txn.session as usize;
        if 1 <= session && session <= routes.len() {
            routes[session - 1] = Some(place);
        }
    }
}

/// Marks the place of the step, if it is a Doubt, as that of its site's last one.
pub(crate) fn mark_doubt(doubts: &mut [Option<usize>], step: &Step, place: usize)
    ensures long { length doubts.new ≡ length doubts.old }
    ensures each { (k : ℕ) → slice_get doubts.new k ≡ option_map (told_doubt (k + 1) step.now place) (slice_get doubts.old k) }
{
    if let Step::Doubt { site, .. } = step {
        let site = *site as usize;
        if 1 <= site && site <= doubts.len() {
            doubts[site - 1] = Some(place);
        }
    }
}

/// Where the entry stands that the step adds: at the step itself, or at the Doubt whose commit a Restart
/// keeps.
pub(crate) fn entry_place(doubts: &[Option<usize>], step: &Step, here: usize) -> usize
    ensures { result ≡ entry_place doubts.now step.now here }
{
    match step {
        Step::Restart { site, .. } => marked(doubts, *site as usize).unwrap_or(here),
        _ => here,
    }
}

/// No marks.
pub(crate) fn opening(alloc: Global, count: usize) -> Result<Vec<Option<usize>>, NoMemory>
    ensures { IfOk result (λ list. list.items ≡ replicate count None) }
{
    Ok(Vec::from_elem(alloc, None, count)?)
}
