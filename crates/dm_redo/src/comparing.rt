//! A file against what was written.

ghost use Rattle.std.specs.Prelude.{◌≡◌, ◌≢◌, ◌+◌, ◌<◌, ◌≤◌, ◌++◌, ◌∷◌, ℕ, Option, IsTrue, IsNone, Ok, Err, IfOk, IfErr, OnOk, option_map, length, drop};
ghost use Rattle.dm_record.specs.Frames.{IsSomeFrame};
ghost use Rattle.dm_redo.specs.Holding.{framed};
ghost use Rattle.dm_redo.specs.Settling.{IsAgreed};
ghost use Rattle.dm_redo.specs.Comparing.{common, begins, is_open, judged, compared, Says, TellsExpected, stood, AreFrames};

use dm_event::{Found, NoMemory};
use dm_record::Frame;
use std::alloc::Global;

/// How a comparison failed.
#[derive(Clone, Copy, Debug, PartialEq, Eq)]
pub enum AgainstFault {
    /// The disk failed.
    Log,
    /// The first byte that isn't as it was written; None past an end.
    Differs {
        place: u64,
        read: Option<u8>,
        written: Option<u8>,
    },
    Memory,
}

/// How many bytes at the front of both are the same.
fn common_front(expected: &[u8], file: &[u8]) -> usize
    ensures same { result ≡ common expected.now file.now }
    ensures within { result ≤ length expected.now }
{
    let mut n = 0;
    while n < expected.len() && n < file.len() && expected[n] == file[n] {
        n += 1;
    }
    n
}

fn begins(expected: &[u8], file: &[u8]) -> bool
    ensures { result ≡ begins expected.now file.now }
{
    common_front(expected, file) == expected.len()
}

/// Whether an open gate stands there.
#[tactic(auto, using(crate::proofs::Compared::open_within))]
pub(crate) fn is_open(file: &[u8], at: usize) -> bool
    ensures same { result ≡ is_open (drop at file.now) }
    ensures within { IsTrue result → at + 1 < length file.now }
{
    let Some(rest) = file.get(at..) else {
        return false;
    };
    let [gate, _next, ..] = rest else {
        return false;
    };
    *gate == 1
}

fn judge(expected: &[u8], found: Found, file: &[u8]) -> Result<Found, AgainstFault>
    ensures { result ≡ judged expected.now found file.now }
{
    let n = common_front(expected, file);
    if n != expected.len() {
        return Err(AgainstFault::Differs {
            place: n as u64,
            read: file.get(n).copied(),
            written: expected.get(n).copied(),
        });
    }
    if is_open(file, n) {
        return Err(AgainstFault::Differs {
            place: n as u64,
            read: Some(1),
            written: None,
        });
    }
    Ok(found)
}

#[tactic(auto, using(crate::proofs::Compared::judged_same, crate::proofs::Compared::judged_err, crate::proofs::Agreeing::judged_apart))]
fn answer(expected: &[u8], found: Found, file: &[u8]) -> Result<(Found, usize), AgainstFault>
    ensures ok { IfOk result (λ r. (judged expected.now found file.now ≡ Ok found) × (r ≡ (found, length expected.now))) }
    ensures err { IfErr result (λ e. Says (Err e) (judged expected.now found file.now) × (e ≡ AgainstFault.Log → ⊥)) }
    ensures apart { IfErr result (λ e. (place : ℕ) (read written : Option ℕ) → e ≡ AgainstFault.Differs place read written → read ≢ written) }
{
    match judge(expected, found, file) {
        Ok(_) => Ok((found, expected.len())),
        Err(fault) => Err(fault),
    }
}

/// What the file shows, and where the log ends.
pub(crate) fn compare(
    alloc: Global,
    written: &[Frame],
    pending: Option<&Frame>,
    file: &[u8],
) -> Result<(Found, usize), AgainstFault>
    ensures ok { IfOk result (λ r. compared (framed written.now) (option_map (λ f. f.now) pending.entry) file.now ≡ Ok r.0) }
    ensures gate { IfOk result (λ r. r.1 ≡ length (framed (stood r.0 written.now (option_map (λ f. f.now) pending.entry)))) }
    ensures err { IfErr result (λ e. Says (Err e) (compared (framed written.now) (option_map (λ f. f.now) pending.entry) file.now)) }
    ensures frames { IfOk result (λ r. AreFrames (stood r.0 written.now (option_map (λ f. f.now) pending.entry))) }
    ensures clean { IfOk result (λ r. (r.0 ≡ Found.Clean → IsNone pending.entry) × (IsNone pending.entry → r.0 ≡ Found.Clean)) }
    ensures apart { IfErr result (λ e. (place : ℕ) (read written : Option ℕ) → e ≡ AgainstFault.Differs place read written → read ≢ written) }
    ensures expected { IfErr result (TellsExpected written.now (option_map (λ f. f.now) pending.entry)) }
    ensures log { IfErr result (λ e. e ≡ AgainstFault.Log → ⊥) }
{
    let Ok(mut expected) = joined(alloc, written) else {
        return Err(AgainstFault::Memory);
    };
    match pending {
        None => answer(&expected, Found::Clean, file),
        Some(frame) => {
            if !(begins(&expected, file) && is_open(file, expected.len())) {
                return answer(&expected, Found::Lost, file);
            }
            let Ok(()) = put(&mut expected, frame) else {
                return Err(AgainstFault::Memory);
            };
            answer(&expected, Found::Kept, file)
        }
    }
}

/// The frames, each after an open gate byte.
fn joined(alloc: Global, frames: &[Frame]) -> Result<Vec<u8>, NoMemory>
    ensures joined { IfOk result (λ v. v.items ≡ framed frames.now) }
    ensures frames { OnOk result (AreFrames frames.now) }
{
    let mut out = Vec::new(alloc);
    for frame in frames {
        put(&mut out, frame)?;
    }
    Ok(out)
}

fn put(out: &mut Vec<u8>, frame: &Frame) -> Result<(), NoMemory>
    ensures put { OnOk result (out.new.items ≡ out.old.items ++ 1 ∷ frame.now) }
    ensures frame { OnOk result (IsSomeFrame frame.now) }
{
    out.push(1)?;
    out.extend_from_slice(frame.bytes())?;
    Ok(())
}

/// A file that holds what was written agrees with it.
#[tactic(auto, using(crate::proofs::Agreeing::agreed))]
pub fn agreement()
    ensures { IsAgreed }
{}
