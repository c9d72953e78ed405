//! What a site may not lose.

ghost use Rattle.std.specs.Prelude.{◌≡◌, true, length, reverse, option_copied, option_map, IfSome};
ghost use Rattle.dm_event.specs.declared.step.Step.TheVariants.{Commit, Doubt};
ghost use Rattle.dm_model.specs.Acts.{entries};
ghost use Rattle.dm_model.specs.Allowed.{Allowed, with_kept};
ghost use Rattle.dm_model.specs.Closed.{unclosed};
ghost use Rattle.dm_model.specs.Floors.{floor_vector, floor};
ghost use Rattle.dm_model.specs.Legal.{Legal};
ghost use Rattle.dm_model.specs.Progress.{entry_count};
ghost use Rattle.dm_model.specs.Shape.{is_entry, is_shaped};
ghost use Rattle.dm_steps.specs.Adding.{kept_floor, floor_by, unclosed_one};

use crate::acts::{entry_count, entry_of, is_of, kept_entry};
use crate::doubts::pending_at;
use crate::sessions::join_one;
use dm_event::{Entry, Found, Pending, Schema, SiteNo, Step, Vector};

/// What a committed transaction adds to the floor of its origin.
fn floor_of_entry(schema: &Schema, entry: &Entry, site: SiteNo) -> Option<Vector>
    requires { is_entry schema.now entry.now ≡ true }
    ensures exact { result ≡ floor_vector site (Commit entry.now) }
    ensures sites { IfSome result (λ vector. length vector ≡ schema.now.sites) }
{
    if entry.origin == site {
        Some(entry.commit_vector())
    } else {
        None
    }
}

/// What a kept pending step of a site adds to the floor of a site.
pub fn kept_floor(
    schema: &Schema,
    found: Found,
    pending: Option<&Pending>,
    at: SiteNo,
    site: SiteNo,
) -> Option<Vector>
    requires { IfSome (option_copied pending) (λ p. is_shaped schema.now (Doubt at p) ≡ true) }
    ensures exact { result ≡ kept_floor site at found (option_copied pending.entry) }
    ensures sites { IfSome result (λ vector. length vector ≡ schema.now.sites) }
{
    match (found, pending) {
        (Found::Kept, Some(Pending::Commit(entry))) => floor_of_entry(schema, entry, site),
        (Found::Kept, Some(Pending::Grant { vector, .. })) if at == site => Some(*vector),
        _ => None,
    }
}

/// What a step adds to the floor of a site.
fn floor_by(schema: &Schema, step: &Step, before: &[Step], site: SiteNo) -> Option<Vector>
    requires legal { Legal schema.now before.now }
    requires allowed { Allowed schema.now (reverse before.now) step.now }
    ensures exact { result ≡ floor_by site step.now (reverse before.now) }
    ensures sites { IfSome result (λ vector. length vector ≡ schema.now.sites) }
{
    match step {
        Step::Commit { entry } => floor_of_entry(schema, entry, site),
        Step::Grant {
            site: at,
            vector,
            ..
        } if *at == site => Some(*vector),
        Step::Restart {
            site: at,
            found,
            ..
        } => { kept_floor(schema, *found, pending_at(before, *at), *at, site) }
        _ => None,
    }
}

/// What the site may not lose: the maximum of the commit vectors of its transactions and of the
/// vectors of the grants to it.
pub fn floor(schema: &Schema, steps: &[Step], site: SiteNo) -> Vector
    requires { Legal schema.now steps.now }
    ensures { result ≡ floor schema.now.sites (reverse steps.now) site }
{
    let mut floor = Vector::zeros(schema.sites());
    for i in 0..steps.len() {
        floor = join_one(floor, floor_by(schema, &steps[i], &steps[..i], site));
    }
    floor
}

/// The entry's origin and number, where it is inside the vector and began at a vector not at most it.
fn unclosed_one(vector: &Vector, entry: Option<&Entry>) -> Option<(SiteNo, u64)>
    ensures { result ≡ unclosed_one vector.now (option_copied entry.entry) }
{
    let entry = entry?;
    if entry.seq <= vector.get(entry.origin) && entry.begin.first_above(vector).is_some() {
        Some((entry.origin, entry.seq))
    } else {
        None
    }
}

/// The first entry for which the vector isn't closed.
fn unclosed(steps: &[Step], vector: &Vector) -> Option<(SiteNo, u64)>
    ensures { result ≡ option_map (λ e. (e.origin, e.seq)) (unclosed vector.now (reverse (entries (reverse steps.now)))) }
{
    let mut found = None;
    for i in 0..steps.len() {
        found = found.or(unclosed_one(vector, entry_of(&steps[i], &steps[..i])));
    }
    found
}

/// The number of the site's transactions, with a kept one counted.
pub fn entry_count_with_kept(steps: &[Step], site: SiteNo, found: Found) -> u64
    ensures { result ≡ entry_count site (with_kept site found (reverse steps.now)) }
{
    entry_count(steps, site) + is_of(kept_entry(found, pending_at(steps, site)), site)
}

/// The site's floor, with a kept step counted.
pub fn floor_with_kept(schema: &Schema, steps: &[Step], site: SiteNo, found: Found) -> Vector
    requires { Legal schema.now steps.now }
    ensures { result ≡ floor schema.now.sites (with_kept site found (reverse steps.now)) site }
{
    join_one(
        floor(schema, steps, site),
        kept_floor(schema, found, pending_at(steps, site), site, site),
    )
}

/// The first entry for which the vector isn't closed, with a kept one counted.
pub fn unclosed_with_kept(
    steps: &[Step],
    site: SiteNo,
    vector: &Vector,
    found: Found,
) -> Option<(SiteNo, u64)>
    ensures { result ≡ option_map (λ e. (e.origin, e.seq)) (unclosed vector.now (reverse (entries (with_kept site found (reverse steps.now))))) }
{
    let entry = kept_entry(found, pending_at(steps, site));
    unclosed(steps, vector).or(unclosed_one(vector, entry))
}
