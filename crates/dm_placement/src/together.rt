//! What was used together with wanted partitions.

ghost use Rattle.std.specs.Prelude.{◌≡◌, ℕ, ◌+◌, ◌-◌, ◌^◌, ◌<◌, ◌≤◌, ◌==◌, ◌&&◌, not, count_by, length, slice_index};
ghost use Rattle.std.specs.List.{list_any};
ghost use Rattle.dm_model.specs.Tests.{is_among};
ghost use Rattle.dm_placement.specs.Scored.{home_in, AreSites, HaveHomes};

use dm_event::{MAX_PARTS, MAX_SITES, Part, PartSet, SiteNo};

/// Whether the set holds one of the wanted partitions, which are below `parts`.
pub(crate) fn meets(set: &PartSet, wanted: &PartSet, parts: Part) -> bool
    requires few { parts ≤ MAX_PARTS }
    requires wanted_below { HaveHomes parts wanted.now }
    ensures { result ≡ list_any (is_among set.now) wanted.now }
{
    (0..parts).any(|part| set.holds(part) && wanted.holds(part))
}

/// Counts each partition of the set that isn't wanted at its home.
pub(crate) fn count_others(
    set: &PartSet,
    homes: &[SiteNo],
    wanted: &PartSet,
    counts: &mut [u32; MAX_SITES as usize],
)
    requires few { length homes.now ≤ MAX_PARTS }
    requires sites { AreSites MAX_SITES homes.now }
    requires room { (k : ℕ) → slice_index counts.old k + length homes.now < 2 ^ 32 }
    ensures counted { (site : ℕ) → 1 ≤ site → site ≤ MAX_SITES → slice_index counts.new (site - 1) ≡ slice_index counts.old (site - 1) + count_by (λ p. not (is_among wanted.now p) && (home_in homes.now p == site)) set.now }
    ensures bound { (k : ℕ) → slice_index counts.new k ≤ slice_index counts.old k + length homes.now }
{
    for (index, home) in homes.iter().enumerate() {
        let part = index as Part;
        if set.holds(part) && !wanted.holds(part) {
            counts[*home as usize - 1] += 1;
        }
    }
}
