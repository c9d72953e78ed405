//! How far a site has come.

ghost use Rattle.std.specs.Prelude.{ℕ, ◌+◌, ◌≡◌, ◌≤◌, length, replicate, IfOk, option_map, option_copied, option_and_then, slice_get};
ghost use Rattle.dm_event.specs.declared.limits.TheConstants.{MAX_SITES};
ghost use Rattle.dm_event.specs.declared.step.Step.TheVariants.{Commit};
ghost use Rattle.dm_numbers.specs.Counted.{told_site, no_site};
ghost use Rattle.dm_numbers.specs.Told.{told_raised, told_vector, told_floor_vector, told_floor};
ghost use Rattle.dm_steps.specs.Next.{next_down};
ghost use Rattle.dm_steps.specs.Pendings.{act_of};

use crate::joining::{commit_vector, joined};
use dm_event::{Entry, NoMemory, Pending, Schema, SiteNo, Step, Vector};
use std::alloc::Global;

/// What there is of a site.
#[derive(Clone, Copy, Debug, PartialEq, Eq)]
pub struct SiteNumbers {
    pub vector: Vector,
    /// What it may not lose.
    pub floor: Vector,
    pub down: bool,
}

/// The vector with another component, where it has one at the site.
fn raised(mut vector: Vector, site: SiteNo, n: u64) -> Vector
    ensures { result ≡ told_raised vector site n }
{
    if 1 <= site && site as usize <= vector.as_slice().len() {
        vector.set(site, n);
    }
    vector
}

fn next_vector(step: &Step, site: SiteNo, before: Vector) -> Vector
    ensures { result ≡ told_vector site step.now before }
{
    match step {
        Step::Commit { entry } if entry.origin == site => raised(before, site, entry.seq),
        Step::Refresh { site: at, origin } if *at == site => {
            raised(before, *origin, before.get(*origin).saturating_add(1))
        }
        Step::Restart {
            site: at,
            vector,
            ..
        } if *at == site => *vector,
        _ => before,
    }
}

fn next_down(step: &Step, site: SiteNo, before: bool) -> bool
    ensures { result ≡ next_down site step.now before }
{
    match step {
        Step::Doubt { site: at, .. } if *at == site => true,
        Step::Restart { site: at, .. } if *at == site => false,
        _ => before,
    }
}

fn floor_of_entry(entry: &Entry, site: SiteNo) -> Option<Vector>
    ensures { result ≡ told_floor_vector site (Commit entry.now) }
{
    if entry.origin == site {
        commit_vector(entry)
    } else {
        None
    }
}

/// What the step adds to the floor of the site.
fn floor_by(step: &Step, pending: Option<&Pending>, site: SiteNo) -> Option<Vector>
    ensures { result ≡ option_and_then (told_floor_vector site) (act_of step.now (option_copied pending.entry)) }
{
    match step {
        Step::Commit { entry } => floor_of_entry(entry, site),
        Step::Grant {
            site: at,
            vector,
            ..
        } if *at == site => Some(*vector),
        Step::Restart { site: at, .. } => match pending {
            Some(Pending::Commit(entry)) => floor_of_entry(entry, site),
            Some(Pending::Grant { vector, .. }) if *at == site => Some(*vector),
            _ => None,
        },
        _ => None,
    }
}

fn next_floor(step: &Step, pending: Option<&Pending>, site: SiteNo, before: Vector) -> Vector
    ensures { result ≡ told_floor site step.now (option_copied pending.entry) before }
{
    joined(before, floor_by(step, pending, site))
}

fn next_site(
    step: &Step,
    pending: Option<&Pending>,
    site: SiteNo,
    before: SiteNumbers,
) -> SiteNumbers
    ensures { result ≡ told_site site step.now (option_copied pending.entry) before }
{
    SiteNumbers {
        vector: next_vector(step, site, before.vector),
        floor: next_floor(step, pending, site, before.floor),
        down: next_down(step, site, before.down),
    }
}

/// Brings what is kept of each site, that of site 1 first, to what it is after the step, where the
/// pending step is given that a Restart keeps.
pub(crate) fn advance(sites: &mut [SiteNumbers], step: &Step, pending: Option<&Pending>)
    requires { length sites.old ≤ MAX_SITES }
    ensures long { length sites.new ≡ length sites.old }
    ensures each { (k : ℕ) → slice_get sites.new k ≡ option_map (told_site (k + 1) step.now (option_copied pending.entry)) (slice_get sites.old k) }
{
    for i in 0..sites.len() {
        sites[i] = next_site(step, pending, i as SiteNo + 1, sites[i]);
    }
}

/// Sites that have come nowhere yet.
pub(crate) fn opening(alloc: Global, schema: &Schema) -> Result<Vec<SiteNumbers>, NoMemory>
    ensures blank { IfOk result (λ list. list.items ≡ replicate schema.now.sites (no_site schema.now.sites)) }
    ensures some { IfOk result (λ list. 1 ≤ length list.items) }
    ensures few { IfOk result (λ list. length list.items ≤ MAX_SITES) }
{
    let zeros = Vector::zeros(schema.sites());
    let one = SiteNumbers {
        vector: zeros,
        floor: zeros,
        down: false,
    };
    Ok(Vec::from_elem(alloc, one, schema.sites() as usize)?)
}
