//! Where each partition is mastered, and how far its hand-over has come.

ghost use Rattle.std.specs.Prelude.{◌≡◌, ◌<◌, ◌^◌, length, reverse, option_copied};
ghost use Rattle.dm_model.specs.Placings.{asked, settled, placed_by, placing};
ghost use Rattle.dm_plain.specs.Adding.{kept_placing};

use crate::doubts::pending_at;
use dm_event::{Found, Part, Pending, Placing, Schema, SiteNo, Step};

fn asked(now: Placing, to: SiteNo) -> Placing
    ensures { result ≡ asked now to }
{
    match now {
        Placing::Settled { site, epoch } => Placing::Asked { site, epoch, to },
        other => other,
    }
}

fn settled(now: Placing) -> Placing
    ensures { result ≡ settled now }
{
    match now {
        Placing::Granted { site, epoch } => Placing::Settled { site, epoch },
        other => other,
    }
}

/// The placing after a pending step that the site kept.
fn kept(found: Found, pending: Option<&Pending>, site: SiteNo, part: Part, now: Placing) -> Placing
    ensures { result ≡ kept_placing part site found (option_copied pending.entry) now }
{
    match (found, pending) {
        (
            Found::Kept,
            Some(
                Pending::Release {
                    part: of,
                    epoch,
                    to,
                    vector,
                },
            ),
        ) if *of == part => Placing::Between {
            site,
            epoch: *epoch,
            to: *to,
            vector: *vector,
        },
        (
            Found::Kept,
            Some(
                Pending::Grant {
                    part: of,
                    epoch,
                    ..
                },
            ),
        ) if *of == part => {
            Placing::Granted {
                site,
                epoch: *epoch,
            }
        }
        _ => now,
    }
}

fn placed_by(step: &Step, before: &[Step], part: Part, now: Placing) -> Placing
    ensures { result ≡ placed_by part step.now (reverse before.now) now }
{
    match step {
        Step::Ask { part: of, to, .. } if *of == part => asked(now, *to),
        Step::Settle { part: of, .. } if *of == part => settled(now),
        Step::Release {
            site,
            part: of,
            epoch,
            to,
            vector,
        } if *of == part => Placing::Between {
            site: *site,
            epoch: *epoch,
            to: *to,
            vector: *vector,
        },
        Step::Grant {
            site,
            part: of,
            epoch,
            ..
        } if *of == part => Placing::Granted {
            site: *site,
            epoch: *epoch,
        },
        Step::Restart { site, found, .. } => {
            kept(*found, pending_at(before, *site), *site, part, now)
        }
        _ => now,
    }
}

/// The placing of the partition.
pub fn placing(schema: &Schema, steps: &[Step], part: Part) -> Placing
    requires { part < length schema.now.masters }
    ensures exact { result ≡ placing schema.now (reverse steps.now) part }
    ensures memory { length steps.now < 2 ^ 63 }
{
    let mut now = Placing::Settled {
        site: schema.opening_master(part),
        epoch: 0,
    };
    for i in 0..steps.len() {
        now = placed_by(&steps[i], &steps[..i], part, now);
    }
    now
}
