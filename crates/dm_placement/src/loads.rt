//! How even the use of the sites is.

ghost use Rattle.std.specs.Prelude.{◌≡◌, ℕ, ◌+◌, ◌-◌, ◌*◌, ◌^◌, ◌<◌, ◌≤◌, length, nat_abs, pos, ◌-ℤ◌, sum, sum_by, slice_index, slice_set};
ghost use Rattle.dm_model.specs.Scores.{load};
ghost use Rattle.dm_placement.specs.Loads.{other_load, wanted_load};
ghost use Rattle.dm_placement.specs.Scored.{home_in, AreSites, HaveHomes};

use crate::Window;
use dm_event::{MAX_PARTS, MAX_SITES, Part, PartSet, SiteNo, WINDOW};

/// The loads of the sites: how often their partitions are in the sets of a window.
#[derive(Clone, Copy)]
pub(crate) struct Loads {
    /// Of all partitions, by their homes.
    pub(crate) held: [u32; MAX_SITES as usize],
    /// Of those that aren't wanted.
    others: [u32; MAX_SITES as usize],
    /// Of those that are, at all sites together.
    wanted: u32,
}

impl Loads {
    pub(crate) fn new(window: &Window, homes: &[SiteNo], wanted: &PartSet) -> Loads
        requires few { length homes.now ≤ MAX_PARTS }
        requires sites { AreSites MAX_SITES homes.now }
        ensures held { (site : ℕ) → 1 ≤ site → site ≤ MAX_SITES → slice_index result.held (site - 1) ≡ load MAX_SITES (length homes.now) window.now (home_in homes.now) site }
        ensures others { (site : ℕ) → 1 ≤ site → site ≤ MAX_SITES → slice_index result.others (site - 1) ≡ other_load (length homes.now) window.now (home_in homes.now) wanted.now site }
        ensures wanted { result.wanted ≡ wanted_load (length homes.now) window.now wanted.now }
        ensures eight { (length result.held ≡ MAX_SITES) × (length result.others ≡ MAX_SITES) }
        ensures held_bound { (k : ℕ) → slice_index result.held k ≤ WINDOW * MAX_PARTS }
        ensures others_bound { (k : ℕ) → slice_index result.others k + result.wanted ≤ 2 * WINDOW * MAX_PARTS }
    {
        let mut held = [0; MAX_SITES as usize];
        let mut others = [0; MAX_SITES as usize];
        let mut moving = 0;
        for (index, home) in homes.iter().enumerate() {
            let part = index as Part;
            let at = *home as usize - 1;
            let weight = window.weight(part);
            held[at] += weight;
            if wanted.holds(part) {
                moving += weight;
            } else {
                others[at] += weight;
            }
        }
        Loads {
            held,
            others,
            wanted: moving,
        }
    }

    /// The loads with the wanted partitions at the site.
    pub(crate) fn moved_to(&self, site: SiteNo) -> [u32; MAX_SITES as usize]
        requires site { (1 ≤ site) × (site ≤ MAX_SITES) }
        requires room { (k : ℕ) → slice_index self.now.others k + self.now.wanted ≤ 2 * WINDOW * MAX_PARTS }
        ensures exact { result ≡ slice_set self.now.others (site - 1) (slice_index self.now.others (site - 1) + self.now.wanted) }
        ensures bound { (k : ℕ) → slice_index result k ≤ 2 * WINDOW * MAX_PARTS }
    {
        let mut loads = self.others;
        loads[site as usize - 1] += self.wanted;
        loads
    }
}

/// How far the loads are from even, times their number.
pub(crate) fn uneven(loads: &[u32]) -> u32
    requires sites { length loads.now ≤ MAX_SITES }
    requires loads { (k : ℕ) → slice_index loads.now k ≤ 2 * WINDOW * MAX_PARTS }
    ensures exact { result ≡ sum_by (λ load. nat_abs (pos (length loads.now * load) -ℤ pos (sum loads.now))) loads.now }
    ensures bound { result ≤ 8388608 }
{
    let sites = loads.len() as u32;
    let total = total(loads);
    let mut uneven = 0;
    for load in loads {
        uneven += (sites * *load).abs_diff(total);
    }
    uneven
}

fn total(loads: &[u32]) -> u32
    requires { sum loads.now < 2 ^ 32 }
    ensures { result ≡ sum loads.now }
{
    loads.iter().sum()
}
