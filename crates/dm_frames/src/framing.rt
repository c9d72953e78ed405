//! The frame of one record.

ghost use Rattle.std.specs.Prelude.{◌≡◌, Some, None, IfOk, OnOk, if◌then◌else◌};
ghost use Rattle.dm_frames.specs.Records.{commit_record, pending_record, record_of};
ghost use Rattle.dm_model.specs.Doubts.{step_of};
ghost use Rattle.dm_record.specs.Bytes.{HasRanges, IsInRange, frame_of};

use dm_event::{Entry, NoMemory, Pending, SiteNo};
use dm_record::{Frame, encode_commit, encode_grant, encode_release};
use std::alloc::Global;

/// The frame of a commit.
pub(crate) fn commit_frame(alloc: Global, entry: &Entry) -> Result<Frame, NoMemory>
    requires { IsInRange (commit_record entry.now) }
    ensures frame { IfOk result (λ f. f ≡ frame_of (commit_record entry.now)) }
    ensures ranges { OnOk result (HasRanges (commit_record entry.now)) }
{
    let writes = entry.writes.as_slice();
    encode_commit(alloc, entry.txn, entry.seq, &entry.begin, writes)
}

/// The frame of the record that a step in doubt would have.
pub fn pending_frame(alloc: Global, pending: &Pending) -> Result<Frame, NoMemory>
    requires { IsInRange (pending_record pending.now) }
    ensures frame { IfOk result (λ f. f ≡ frame_of (pending_record pending.now)) }
    ensures ranges { OnOk result (HasRanges (pending_record pending.now)) }
{
    match pending {
        Pending::Commit(entry) => commit_frame(alloc, entry),
        Pending::Release {
            part,
            epoch,
            to,
            vector,
        } => encode_release(alloc, *part, *epoch, *to, vector),
        Pending::Grant {
            part,
            epoch,
            vector,
        } => encode_grant(alloc, *part, *epoch, vector),
    }
}

/// Whether a kept step of the first site is an act of the second.
pub(crate) fn is_act_of(pending: &Pending, at: SiteNo, site: SiteNo) -> bool
    ensures { record_of site (step_of at pending.now) ≡ (if result then Some (pending_record pending.now) else None) }
{
    match pending {
        Pending::Commit(entry) => entry.origin == site,
        Pending::Release { .. } | Pending::Grant { .. } => at == site,
    }
}
