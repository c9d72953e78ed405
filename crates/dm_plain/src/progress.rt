//! How far each site has come.

ghost use Rattle.std.specs.Prelude.{◌≡◌, ◌<◌, ◌≤◌, ◌^◌, [], length, unwrap_or, reverse};
ghost use Rattle.dm_event.specs.Vectors.{at};
ghost use Rattle.dm_model.specs.Legal.{Legal};
ghost use Rattle.dm_model.specs.Progress.{restart_vector, is_restart, is_refresh, reached, site_vector, full};
ghost use Rattle.dm_model.specs.Words.{latest, since, count_of};

use crate::acts::entry_count;
use dm_event::{Schema, SiteNo, Step, Vector};

fn restart_vector(step: &Step, site: SiteNo) -> Option<Vector>
    ensures { result ≡ restart_vector site step.now }
{
    match step {
        Step::Restart {
            site: at,
            vector,
            ..
        } if *at == site => Some(*vector),
        _ => None,
    }
}

pub(crate) fn is_restart(step: &Step, site: SiteNo) -> bool
    ensures { result ≡ is_restart site step.now }
{
    match step {
        Step::Restart { site: at, .. } => *at == site,
        _ => false,
    }
}

fn is_refresh(step: &Step, site: SiteNo, origin: SiteNo) -> bool
    ensures { result ≡ is_refresh site origin step.now }
{
    match step {
        Step::Refresh {
            site: at,
            origin: from,
        } => *at == site && *from == origin,
        _ => false,
    }
}

/// The vector that the site's last Restart set.
#[tactic(auto, using(dm_event::proofs::Backwards::past_more))]
fn last_restart(steps: &[Step], site: SiteNo) -> Option<Vector>
    ensures { result ≡ latest (restart_vector site) (reverse steps.now) }
{
    let mut last = None;
    for step in steps {
        last = restart_vector(step, site).or(last);
    }
    last
}

/// How often the site has refreshed from the origin since its last Restart.
#[tactic(auto, using(dm_event::proofs::Backwards::past_more))]
fn refreshes(steps: &[Step], site: SiteNo, origin: SiteNo) -> u64
    ensures exact { result ≡ count_of (is_refresh site origin) (since (is_restart site) (reverse steps.now)) }
    ensures memory { length steps.now < 2 ^ 63 }
{
    let mut count = 0;
    for step in steps {
        count = if is_restart(step, site) {
            0
        } else if is_refresh(step, site, origin) {
            count + 1
        } else {
            count
        };
    }
    count
}

fn component(vector: Option<Vector>, site: SiteNo) -> u64
    ensures { result ≡ at (unwrap_or vector []) site }
{
    match vector {
        Some(vector) => vector.get(site),
        None => 0,
    }
}

/// How many transactions of the origin the site has.
pub fn reached(schema: &Schema, steps: &[Step], site: SiteNo, origin: SiteNo) -> u64
    requires { Legal schema.now steps.now }
    ensures exact { result ≡ reached site origin (reverse steps.now) }
    ensures few { result ≤ length steps.now }
    ensures memory { length steps.now < 2 ^ 63 }
{
    if site == origin {
        entry_count(steps, site)
    } else {
        component(last_restart(steps, site), origin) + refreshes(steps, site, origin)
    }
}

/// The site's vector.
pub fn site_vector(schema: &Schema, steps: &[Step], site: SiteNo) -> Vector
    requires { Legal schema.now steps.now }
    ensures { result ≡ site_vector schema.now.sites (reverse steps.now) site }
{
    let mut vector = Vector::zeros(schema.sites());
    for origin in 1..schema.sites() + 1 {
        vector.set(origin, reached(schema, steps, site, origin));
    }
    vector
}

/// The number of transactions of each origin.
pub fn full(schema: &Schema, steps: &[Step]) -> Vector
    ensures { result ≡ full schema.now.sites (reverse steps.now) }
{
    let mut vector = Vector::zeros(schema.sites());
    for origin in 1..schema.sites() + 1 {
        vector.set(origin, entry_count(steps, origin));
    }
    vector
}
