//! What has come since a session's last Route.

ghost use Rattle.std.specs.Prelude.{◌≡◌, ◌<◌, ◌||◌, ◌&&◌, not, length, reverse, slice_get, option_to_list};
ghost use Rattle.dm_model.specs.Outcomes.{settled_epoch, settled_epochs, restarted_since};
ghost use Rattle.dm_model.specs.Tests.{is_among};

use crate::attempts::is_route;
use crate::placings::placing;
use crate::progress::is_restart;
use dm_event::{Part, Placing, Schema, SiteNo, Step};

fn settled_epoch(site: SiteNo, now: Placing) -> Option<u64>
    ensures { result ≡ settled_epoch site now }
{
    match now {
        Placing::Settled { site: at, epoch } => (at == site).then_some(epoch),
        _ => None,
    }
}

fn has_epoch(found: Option<u64>, epoch: u64) -> bool
    ensures { result ≡ is_among (option_to_list found) epoch }
{
    match found {
        Some(of) => of == epoch,
        None => false,
    }
}

/// Whether it stood so here, or before a step that is no Route.
fn stands(here: bool, routed: bool, before: bool) -> bool
    ensures { result ≡ (here || (not routed && before)) }
{
    here || (!routed && before)
}

/// Whether the partition stood settled at the site under the epoch, at the session's last Route or
/// later.
pub fn stood_settled(
    schema: &Schema,
    steps: &[Step],
    session: u32,
    part: Part,
    site: SiteNo,
    epoch: u64,
) -> bool
    requires { part < length schema.now.masters }
    ensures { result ≡ is_among (settled_epochs schema.now (reverse steps.now) session part site) epoch }
{
    let mut found = false;
    for i in 0..steps.len() {
        let here = has_epoch(
            settled_epoch(site, placing(schema, &steps[..i + 1], part)),
            epoch,
        );
        found = stands(here, is_route(&steps[i], session), found);
    }
    found
}

/// The last epoch under which the partition stood settled at the site, from the session's last Route
/// on.
pub fn last_settled(
    schema: &Schema,
    steps: &[Step],
    session: u32,
    part: Part,
    site: SiteNo,
) -> Option<u64>
    requires { part < length schema.now.masters }
    ensures { result ≡ slice_get (settled_epochs schema.now (reverse steps.now) session part site) 0 }
{
    let mut last = None;
    for i in 0..steps.len() {
        let earlier = if is_route(&steps[i], session) {
            None
        } else {
            last
        };
        last = settled_epoch(site, placing(schema, &steps[..i + 1], part)).or(earlier);
    }
    last
}

/// Whether the site was restarted after the session's last Route.
#[tactic(auto, using(dm_event::proofs::Backwards::past_more))]
pub fn restarted_since(steps: &[Step], session: u32, site: SiteNo) -> bool
    ensures { result ≡ restarted_since session site (reverse steps.now) }
{
    let mut found = false;
    for step in steps {
        found = !is_route(step, session) && (is_restart(step, site) || found);
    }
    found
}
