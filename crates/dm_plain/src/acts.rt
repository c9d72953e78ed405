//! The committed transactions.

ghost use Rattle.std.specs.Prelude.{◌≡◌, ◌<◌, ◌≤◌, ◌^◌, length, reverse, option_copied, option_to_list, filter_map};
ghost use Rattle.dm_model.specs.Acts.{acts_of, entry_of, entry_at};
ghost use Rattle.dm_model.specs.Progress.{entry_count};
ghost use Rattle.dm_steps.specs.Adding.{kept_entry, of_origin, with_number};

use crate::doubts::pending_at;
use dm_event::{Entry, Found, Pending, SiteNo, Step};

/// The entry that the step adds to those of the steps before it.
pub fn entry_of<'a>(step: &'a Step, before: &'a [Step]) -> Option<&'a Entry>
    ensures { option_to_list (option_copied result) ≡ filter_map entry_of (acts_of step.now (reverse before.now)) }
{
    match step {
        Step::Commit { entry } => Some(entry),
        Step::Restart { site, found, .. } => kept_entry(*found, pending_at(before, *site)),
        _ => None,
    }
}

/// The entry of a pending commit that is kept.
pub fn kept_entry(found: Found, pending: Option<&Pending>) -> Option<&Entry>
    ensures { option_copied result ≡ kept_entry found (option_copied pending.entry) }
{
    match (found, pending) {
        (Found::Kept, Some(Pending::Commit(entry))) => Some(entry),
        _ => None,
    }
}

/// The number of entries of the origin.
pub fn entry_count(steps: &[Step], origin: SiteNo) -> u64
    ensures exact { result ≡ entry_count origin (reverse steps.now) }
    ensures few { result ≤ length steps.now }
    ensures memory { length steps.now < 2 ^ 63 }
{
    let mut count = 0;
    for i in 0..steps.len() {
        count += is_of(entry_of(&steps[i], &steps[..i]), origin);
    }
    count
}

/// 1 for an entry of the origin, else 0.
pub fn is_of(entry: Option<&Entry>, origin: SiteNo) -> u64
    ensures { result ≡ of_origin origin (option_copied entry.entry) }
{
    match entry {
        Some(entry) if entry.origin == origin => 1,
        _ => 0,
    }
}

/// The entry with this origin and number.
pub fn entry_at(steps: &[Step], origin: SiteNo, seq: u64) -> Option<&Entry>
    ensures { option_copied result ≡ entry_at origin seq (reverse steps.now) }
{
    let mut last = None;
    for i in 0..steps.len() {
        last = with_number(entry_of(&steps[i], &steps[..i]), origin, seq).or(last);
    }
    last
}

fn with_number(entry: Option<&Entry>, origin: SiteNo, seq: u64) -> Option<&Entry>
    ensures { option_copied result ≡ with_number origin seq (option_copied entry.entry) }
{
    match entry {
        Some(entry) if entry.origin == origin && entry.seq == seq => Some(entry),
        _ => None,
    }
}
