//! The scores of the sites.

ghost use Rattle.std.specs.Prelude.{◌≡◌, ℕ, ◌+◌, ◌-◌, ◌*◌, ◌^◌, ◌<◌, ◌≤◌, ◌≤ℤ◌, ◌+ℤ◌, ◌-ℤ◌, ◌*ℤ◌, pos, negsuc, nat_abs, All, length};
ghost use Rattle.std.specs.List.{slice_index_or};
ghost use Rattle.dm_placement.specs.Scored.{AreSites, HaveHomes, score_in};

use crate::Window;
use crate::lag::{lag, need};
use crate::loads::{Loads, uneven};
use dm_event::{MAX_PARTS, MAX_SITES, PartSet, SiteNo, Vector, WINDOW, Weights};

/// The score of each site, that of site 1 first, and 0 past the number of sites: what its weights make
/// of how much more even the loads would be with the wanted partitions there, less what the site lacks
/// of the wanted partitions' homes, and of how often its partitions were used together with wanted
/// ones. It takes no memory.
pub fn scores(
    window: &Window,
    homes: &[SiteNo],
    vectors: &[Vector],
    weights: Weights,
    wanted: PartSet,
) -> [i128; MAX_SITES as usize]
    requires parts { length homes.now ≤ MAX_PARTS }
    requires sites { (1 ≤ length vectors.now) × (length vectors.now ≤ MAX_SITES) }
    requires components { All (λ vector. length vector ≡ length vectors.now) vectors.now }
    requires homes { AreSites (length vectors.now) homes.now }
    requires wanted_homes { HaveHomes (length homes.now) wanted }
    ensures each { (site : ℕ) → 1 ≤ site → site ≤ length vectors.now → slice_index_or result (site - 1) (pos 0) ≡ score_in weights window.now homes.now vectors.now wanted site }
    ensures beyond { (site : ℕ) → length vectors.now < site → slice_index_or result (site - 1) (pos 0) ≡ pos 0 }
    ensures bound { (site : ℕ) → nat_abs (slice_index_or result (site - 1) (pos 0)) < 2 ^ 99 }
{
    let sites = vectors.len();
    let loads = Loads::new(window, homes, &wanted);
    let uneven_now = uneven(&loads.held[..sites]);
    let together = window.together(homes, &wanted);
    let need = need(homes, vectors, &wanted);
    let mut scores = [0; MAX_SITES as usize];
    for (index, vector) in vectors.iter().enumerate() {
        let site = index as u8 + 1;
        let uneven_there = uneven(&loads.moved_to(site)[..sites]);
        let lag = lag(&need, vector, sites as u8);
        scores[index] = score(weights, uneven_now, uneven_there, lag, together[index]);
    }
    scores
}

/// The weighted sum of a score's parts: the evenness won, less the lag, and what was used together.
fn score(weights: Weights, uneven_now: u32, uneven_there: u32, lag: u128, together: u32) -> i128
    requires uneven { (uneven_now ≤ 8388608) × (uneven_there ≤ 8388608) }
    requires lag { lag ≤ MAX_SITES * (2 ^ 64 - 1) }
    requires together { together ≤ WINDOW * MAX_PARTS }
    ensures exact { result ≡ (((pos weights.balance *ℤ (pos uneven_now -ℤ pos uneven_there)) -ℤ (pos weights.delay *ℤ pos lag)) +ℤ (pos weights.together *ℤ pos together)) }
    ensures bound { (negsuc (2 ^ 99 - 2) ≤ℤ result) × (result ≤ℤ pos (2 ^ 56)) }
{
    let balance = weighted_gain(weights.balance, uneven_now, uneven_there);
    let delay = weighted_count(weights.delay, lag);
    let together = weighted_count(weights.together, u128::from(together));
    balance - delay + together
}

fn weighted_gain(weight: u32, before: u32, after: u32) -> i128
    requires { (before ≤ 8388608) × (after ≤ 8388608) }
    ensures exact { result ≡ (pos weight *ℤ (pos before -ℤ pos after)) }
    ensures bound { (negsuc (2 ^ 55) ≤ℤ result) × (result ≤ℤ pos (2 ^ 55)) }
{
    i128::from(weight) * (i128::from(before) - i128::from(after))
}

fn weighted_count(weight: u32, count: u128) -> i128
    requires { count ≤ MAX_SITES * (2 ^ 64 - 1) }
    ensures exact { result ≡ (pos weight *ℤ pos count) }
    ensures bound { (pos 0 ≤ℤ result) × (result ≤ℤ pos (4294967295 * count)) }
{
    i128::from(weight) * count as i128
}
