//! What a crash leaves, found from the record of the changing calls.

ghost use Rattle.std.specs.Prelude.{◌≡◌, ◌<◌, ◌≤◌, ℕ, List, IfOk, OnOk, false, if◌then◌else◌, length, take, get_or};
ghost use Rattle.dm_logdisk.specs.Story.{changed, opened, bytes_of};
ghost use Rattle.dm_logdisk.specs.Kept.{story_from, total, change_of, size_of, is_sync};
ghost use Rattle.dm_logdisk.specs.Picks.{kept_of, mixed};

use crate::memory::{Kept, cut, write};
use dm_event::NoMemory;
use std::alloc::Global;

/// One of the things that a crash may leave.
#[derive(Clone, Copy, Debug, PartialEq, Eq)]
pub enum Pick {
    /// The content at the last sync that had its effect, at first the opening content.
    Kept,
    /// What a read gives.
    Read,
    /// As long as what a read gives: its bytes at even places, the kept ones at odd places, and ff past them.
    Torn,
}

pub(crate) fn copied(alloc: Global, bytes: &[u8]) -> Result<Vec<u8>, NoMemory>
    ensures { IfOk result (λ copy. copy.items ≡ bytes.now) }
{
    Ok(bytes.to_vec(alloc)?)
}

fn is_sync(change: &Kept) -> bool
    ensures { result ≡ is_sync change.now }
{
    *change == (Kept::Synced { effect: true })
}

/// How many changes there are up to the last sync that had its effect.
#[tactic(auto, using(crate::proofs::Replayed::kept_back, crate::proofs::Replayed::kept_there, crate::proofs::Replayed::kept_first))]
pub(crate) fn synced_until(changes: &[Kept]) -> usize
    ensures few { result ≤ length changes.now }
    ensures kept { (first pieces : List ℕ) → kept_of (story_from (opened first) changes.now pieces) ≡ bytes_of (story_from (opened first) (take result changes.now) pieces) }
{
    let mut until = changes.len();
    while until > 0 && !is_sync(&changes[until - 1]) {
        until -= 1;
    }
    until
}

/// Makes the change, and says how many bytes of the pieces it used.
fn redone(bytes: &mut Vec<u8>, change: &Kept, pieces: &[u8]) -> Result<usize, NoMemory>
    requires { size_of change.now ≤ length pieces.now }
    ensures bytes { OnOk result (bytes.new.items ≡ changed (change_of change.now pieces.now) bytes.old.items) }
    ensures used { IfOk result (λ used. used ≡ size_of change.now) }
{
    match *change {
        Kept::Wrote { at, len, effect } => {
            let at = at as usize;
            let Some(end) = at.checked_add(len) else {
                return Err(NoMemory);
            };
            bytes.reserve(end)?;
            write(bytes, at, &pieces[..len], effect);
            Ok(len)
        }
        Kept::Cut { len, effect } => {
            cut(bytes, len as usize, effect);
            Ok(0)
        }
        Kept::Synced { .. } => Ok(0),
    }
}

/// What these changes made of the bytes.
#[tactic(auto, using(crate::proofs::Replayed::replays_first, crate::proofs::Replayed::replays_last, crate::proofs::Replayed::total_on))]
pub(crate) fn replayed(
    alloc: Global,
    first: &[u8],
    changes: &[Kept],
    pieces: &[u8],
) -> Result<Vec<u8>, NoMemory>
    requires { total changes.now ≤ length pieces.now }
    ensures { IfOk result (λ bytes. bytes.items ≡ bytes_of (story_from (opened first.now) changes.now pieces.now)) }
{
    let mut bytes = first.to_vec(alloc)?;
    let mut done = 0;
    for change in changes {
        done += redone(&mut bytes, change, &pieces[done..])?;
    }
    Ok(bytes)
}

/// The byte of a mixture at that place.
fn mixed_byte(odd: bool, kept: &[u8], read: &[u8], at: usize) -> u8
    requires { at < length read.now }
    ensures { result ≡ if odd then get_or kept.now at 255 else get_or read.now at 0 }
{
    if odd {
        kept.get(at).copied().unwrap_or(0xff)
    } else {
        read[at]
    }
}

/// The bytes that a read gives at even places, and the kept ones at odd places.
#[tactic(auto, using(crate::proofs::Replayed::mixed_next))]
pub(crate) fn mixed(alloc: Global, kept: &[u8], read: &[u8]) -> Result<Vec<u8>, NoMemory>
    ensures { IfOk result (λ bytes. bytes.items ≡ mixed false kept.now read.now) }
{
    let mut out = Vec::new(alloc);
    let mut odd = false;
    for at in 0..read.len() {
        out.push(mixed_byte(odd, kept, read, at))?;
        odd = !odd;
    }
    Ok(out)
}
