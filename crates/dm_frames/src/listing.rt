//! The frames of a site's records.

ghost use Rattle.std.specs.List.{AllByRecursion};
ghost use Rattle.std.specs.Prelude.{◌≡◌, IfOk, OnOk, map, option_copied, option_to_list, reverse};
ghost use Rattle.dm_frames.specs.Records.{frames_of, kept_records, records_by, records_of};
ghost use Rattle.dm_record.specs.Bytes.{HasRanges, IsInRange, frame_of};

use crate::framing::{commit_frame, is_act_of, pending_frame};
use dm_event::{Found, NoMemory, Pending, SiteNo, Step};
use dm_plain::pending_at;
use dm_record::{Frame, encode_grant, encode_release};
use std::alloc::Global;

/// The frame of the record that a kept step of the first site adds to those of the second, if it adds
/// one.
fn kept_frame(
    alloc: Global,
    pending: Option<&Pending>,
    at: SiteNo,
    site: SiteNo,
) -> Result<Option<Frame>, NoMemory>
    requires { AllByRecursion IsInRange (kept_records at site (option_copied pending)) }
    ensures frame { IfOk result (λ frame. option_to_list frame ≡ map frame_of (kept_records at site (option_copied pending.entry))) }
    ensures ranges { OnOk result (AllByRecursion HasRanges (kept_records at site (option_copied pending.entry))) }
{
    let Some(pending) = pending else {
        return Ok(None);
    };
    if is_act_of(pending, at, site) {
        Ok(Some(pending_frame(alloc, pending)?))
    } else {
        Ok(None)
    }
}

/// The frame of the record that the step adds to those of the site, if it adds one.
fn frame_by(
    alloc: Global,
    step: &Step,
    before: &[Step],
    site: SiteNo,
) -> Result<Option<Frame>, NoMemory>
    requires { AllByRecursion IsInRange (records_by site step.now (reverse before.now)) }
    ensures frame { IfOk result (λ frame. option_to_list frame ≡ map frame_of (records_by site step.now (reverse before.now))) }
    ensures ranges { OnOk result (AllByRecursion HasRanges (records_by site step.now (reverse before.now))) }
{
    match step {
        Step::Commit { entry } if entry.origin == site => Ok(Some(commit_frame(alloc, entry)?)),
        Step::Release {
            site: at,
            part,
            epoch,
            to,
            vector,
        } if *at == site => Ok(Some(encode_release(alloc, *part, *epoch, *to, vector)?)),
        Step::Grant {
            site: at,
            part,
            epoch,
            vector,
        } if *at == site => Ok(Some(encode_grant(alloc, *part, *epoch, vector)?)),
        Step::Restart {
            site: at,
            found: Found::Kept,
            ..
        } => kept_frame(alloc, pending_at(before, *at), *at, site),
        _ => Ok(None),
    }
}

/// The frames of the records of the site's acts, in the order of the steps. All steps are looked at, and for
/// each Restart that kept a step once more those before it.
pub fn frames(alloc: Global, steps: &[Step], site: SiteNo) -> Result<Vec<Frame>, NoMemory>
    requires { AllByRecursion IsInRange (records_of site (reverse steps.now)) }
    ensures exact { IfOk result (λ frames. frames.items ≡ frames_of site (reverse steps.now)) }
    ensures ranges { OnOk result (AllByRecursion HasRanges (records_of site (reverse steps.now))) }
{
    let mut frames = Vec::new(alloc);
    for i in 0..steps.len() {
        if let Some(frame) = frame_by(alloc, &steps[i], &steps[..i], site)? {
            frames.push(frame)?;
        }
    }
    Ok(frames)
}
