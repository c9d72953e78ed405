//! Where the partitions stand.

ghost use Rattle.std.specs.Prelude.{ℕ, ◌≡◌, length, map, IfOk, option_map, option_copied, slice_get};
ghost use Rattle.dm_event.specs.declared.placing.Placing.TheVariants.{Settled};
ghost use Rattle.dm_model.specs.Placings.{asked, settled};
ghost use Rattle.dm_state.specs.Moving.{moved};
ghost use Rattle.dm_steps.specs.Next.{next_placing};

use dm_event::{NoMemory, Part, Pending, Placing, Schema, SiteNo, Step};
use std::alloc::Global;

fn asked(now: Placing, to: SiteNo) -> Placing
    ensures { result ≡ asked now to }
{
    match now {
        Placing::Settled { site, epoch } => Placing::Asked { site, epoch, to },
        other => other,
    }
}

fn settled(now: Placing) -> Placing
    ensures { result ≡ settled now }
{
    match now {
        Placing::Granted { site, epoch } => Placing::Settled { site, epoch },
        other => other,
    }
}

/// The placing of the partition after the step.
fn next_placing(step: &Step, pending: Option<&Pending>, part: Part, now: Placing) -> Placing
    ensures { result ≡ next_placing part step.now (option_copied pending.entry) now }
{
    match step {
        Step::Ask { part: of, to, .. } if *of == part => asked(now, *to),
        Step::Settle { part: of, .. } if *of == part => settled(now),
        Step::Release {
            site,
            part: of,
            epoch,
            to,
            vector,
        } if *of == part => Placing::Between {
            site: *site,
            epoch: *epoch,
            to: *to,
            vector: *vector,
        },
        Step::Grant {
            site,
            part: of,
            epoch,
            ..
        } if *of == part => Placing::Granted {
            site: *site,
            epoch: *epoch,
        },
        Step::Restart { site, .. } => match pending {
            Some(
                Pending::Release {
                    part: of,
                    epoch,
                    to,
                    vector,
                },
            ) if *of == part => Placing::Between {
                site: *site,
                epoch: *epoch,
                to: *to,
                vector: *vector,
            },
            Some(
                Pending::Grant {
                    part: of,
                    epoch,
                    ..
                },
            ) if *of == part => Placing::Granted {
                site: *site,
                epoch: *epoch,
            },
            _ => now,
        },
        _ => now,
    }
}

/// The partition whose placing the step may change.
fn moved(step: &Step, pending: Option<&Pending>) -> Option<Part>
    ensures { result ≡ moved step.now (option_copied pending.entry) }
{
    match step {
        Step::Ask { part, .. } | Step::Settle { part, .. } => Some(*part),
        Step::Release { part, .. } | Step::Grant { part, .. } => Some(*part),
        Step::Restart { .. } => match pending {
            Some(Pending::Release { part, .. } | Pending::Grant { part, .. }) => Some(*part),
            _ => None,
        },
        _ => None,
    }
}

/// Brings the placing of each partition to what it is after the step.
pub(crate) fn advance(placings: &mut [Placing], step: &Step, pending: Option<&Pending>)
    ensures long { length placings.new ≡ length placings.old }
    ensures each { (k : ℕ) → slice_get placings.new k ≡ option_map (next_placing k step.now (option_copied pending.entry)) (slice_get placings.old k) }
{
    if let Some(part) = moved(step, pending) {
        let i = part as usize;
        if i < placings.len() {
            placings[i] = next_placing(step, pending, part, placings[i]);
        }
    }
}

/// Every partition settled at its opening master.
pub(crate) fn opening(alloc: Global, schema: &Schema) -> Result<Vec<Placing>, NoMemory>
    ensures { IfOk result (λ list. list.items ≡ map (λ site. Settled site 0) schema.now.masters) }
{
    let mut list = Vec::new(alloc);
    for part in 0..schema.parts() {
        list.push(Placing::Settled {
            site: schema.opening_master(part),
            epoch: 0,
        })?;
    }
    Ok(list)
}
