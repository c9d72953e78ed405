//! How much a site lacks.

ghost use Rattle.std.specs.Prelude.{◌≡◌, ◌+◌, ◌-◌, ◌*◌, ◌^◌, ◌<◌, ◌≤◌, All, length, map, sum_by};
ghost use Rattle.dm_event.specs.Vectors.{at, join_all, sites_to};
ghost use Rattle.dm_placement.specs.Scored.{home_in, vector_in, AreSites, HaveHomes};

use dm_event::{MAX_PARTS, MAX_SITES, Part, PartSet, SiteNo, Vector};

/// What the homes of the wanted partitions have.
pub(crate) fn need(homes: &[SiteNo], vectors: &[Vector], wanted: &PartSet) -> Vector
    requires few { length homes.now ≤ MAX_PARTS }
    requires sites { (1 ≤ length vectors.now) × (length vectors.now ≤ MAX_SITES) }
    requires components { All (λ vector. length vector ≡ length vectors.now) vectors.now }
    requires homes { AreSites (length vectors.now) homes.now }
    requires wanted_homes { HaveHomes (length homes.now) wanted.now }
    ensures { result ≡ join_all (length vectors.now) (map (λ p. vector_in vectors.now (home_in homes.now p)) wanted.now) }
{
    let mut need = Vector::zeros(vectors.len() as u8);
    for (index, home) in homes.iter().enumerate() {
        if wanted.holds(index as Part) {
            need.join(&vectors[*home as usize - 1]);
        }
    }
    need
}

/// How many entries the vector lacks of what is needed, at sites up to `sites`.
pub(crate) fn lag(need: &Vector, vector: &Vector, sites: SiteNo) -> u128
    requires { sites ≤ MAX_SITES }
    ensures exact { result ≡ sum_by (λ j. at need.now j - at vector.now j) (sites_to sites) }
    ensures bound { result ≤ MAX_SITES * (2 ^ 64 - 1) }
{
    let mut lag = 0;
    for site in 1..sites + 1 {
        lag += u128::from(need.get(site).saturating_sub(vector.get(site)));
    }
    lag
}
