//! The choice by the scores.

ghost use Rattle.std.specs.Prelude.{◌≡◌, ℕ, ◌<◌, ◌≤◌, ◌<ℤ◌, ◌≤ℤ◌, All, length};
ghost use Rattle.dm_placement.specs.Scored.{AreSites, HaveHomes, score_in, choice_in};

use crate::{Window, scores};
use dm_event::{MAX_PARTS, MAX_SITES, PartSet, SiteNo, Vector, Weights};

/// The least site of greatest score, for what `scores` is given. It takes no memory.
pub fn choose(
    window: &Window,
    homes: &[SiteNo],
    vectors: &[Vector],
    weights: Weights,
    wanted: PartSet,
) -> SiteNo
    requires parts { length homes.now ≤ MAX_PARTS }
    requires sites { (1 ≤ length vectors.now) × (length vectors.now ≤ MAX_SITES) }
    requires components { All (λ vector. length vector ≡ length vectors.now) vectors.now }
    requires homes { AreSites (length vectors.now) homes.now }
    requires wanted_homes { HaveHomes (length homes.now) wanted }
    ensures one { (1 ≤ result) × (result ≤ length vectors.now) }
    ensures greatest { (site : ℕ) → 1 ≤ site → site ≤ length vectors.now → score_in weights window.now homes.now vectors.now wanted site ≤ℤ score_in weights window.now homes.now vectors.now wanted result }
    ensures least { (site : ℕ) → 1 ≤ site → site < result → score_in weights window.now homes.now vectors.now wanted site <ℤ score_in weights window.now homes.now vectors.now wanted result }
    ensures due { result ≡ choice_in weights window.now homes.now vectors.now wanted }
{
    let scores = scores(window, homes, vectors, weights, wanted);
    let mut best = 0;
    for index in 1..vectors.len() {
        if scores[best] < scores[index] {
            best = index;
        }
    }
    best as SiteNo + 1
}
