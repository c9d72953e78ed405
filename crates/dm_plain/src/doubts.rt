//! Which sites are down, and the step that is in doubt there.

ghost use Rattle.std.specs.Prelude.{◌≡◌, reverse, option_copied};
ghost use Rattle.dm_model.specs.Doubts.{down_after, is_down, doubt_at, pending_at};

use dm_event::{Pending, SiteNo, Step};

fn down_after(step: &Step, site: SiteNo) -> Option<bool>
    ensures { result ≡ down_after site step.now }
{
    match step {
        Step::Doubt { site: at, .. } => (*at == site).then_some(true),
        Step::Restart { site: at, .. } => (*at == site).then_some(false),
        _ => None,
    }
}

/// Whether the site is down: from its Doubt to its next Restart.
#[tactic(auto, using(dm_event::proofs::Backwards::past_more))]
pub fn is_down(steps: &[Step], site: SiteNo) -> bool
    ensures { result ≡ is_down site (reverse steps.now) }
{
    let mut last = None;
    for step in steps {
        last = down_after(step, site).or(last);
    }
    last.unwrap_or(false)
}

/// The pending step, if the step is a Doubt of the site.
pub fn doubt_at(step: &Step, site: SiteNo) -> Option<&Pending>
    ensures { option_copied result ≡ doubt_at site step.now }
{
    match step {
        Step::Doubt { site: at, pending } if *at == site => Some(pending),
        _ => None,
    }
}

/// The pending step of the site's last Doubt.
#[tactic(auto, using(dm_event::proofs::Backwards::past_more))]
pub fn pending_at(steps: &[Step], site: SiteNo) -> Option<&Pending>
    ensures { option_copied result ≡ pending_at site (reverse steps.now) }
{
    let mut last = None;
    for step in steps {
        last = doubt_at(step, site).or(last);
    }
    last
}
