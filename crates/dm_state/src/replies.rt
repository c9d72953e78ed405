//! How many items of each session are answered.

ghost use Rattle.std.specs.Prelude.{ℕ, ◌+◌, ◌≡◌, length, replicate, IfOk, option_map, slice_get};
ghost use Rattle.dm_event.specs.declared.limits.TheConstants.{MAX_SESSIONS};
ghost use Rattle.dm_state.specs.Standings.{told_replies};

use dm_event::{MAX_SESSIONS, NoMemory, Step};
use std::alloc::Global;

/// Brings the number of Replies of each session, that of session 1 first, to what it is after the step.
pub(crate) fn advance(replies: &mut [u32], step: &Step)
    ensures long { length replies.new ≡ length replies.old }
    ensures each { (k : ℕ) → slice_get replies.new k ≡ option_map (told_replies (k + 1) step.now) (slice_get replies.old k) }
{
    if let Step::Reply {
        session,
        number,
        ..
    } = step
    {
        let session = *session as usize;
        if 1 <= session && session <= replies.len() {
            replies[session - 1] = *number;
        }
    }
}

/// No Reply of any session.
pub(crate) fn opening(alloc: Global) -> Result<Vec<u32>, NoMemory>
    ensures { IfOk result (λ list. list.items ≡ replicate MAX_SESSIONS 0) }
{
    Ok(Vec::from_elem(alloc, 0, MAX_SESSIONS as usize)?)
}
