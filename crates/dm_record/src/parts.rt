//! The parts of a frame.

ghost use Rattle.std.specs.Prelude.{◌≡◌, ◌+◌, ◌-◌, ◌*◌, ◌^◌, ◌<◌, ◌≤◌, ℕ, List, [], true, false, length, IfOk, IfErr, OnOk, slice_index, ◌==◌, ◌∷◌, ◌++◌};
ghost use Rattle.std.specs.Int.{cast_signed, w64};
ghost use Rattle.dm_event.specs.declared.step.Pair.{Pair};
ghost use Rattle.dm_record.specs.Form.{Form, walk};
ghost use Rattle.dm_record.specs.declared.record.Decoded.{Decoded};
ghost use Rattle.dm_record.specs.Stopping.{stopped, Stops};
ghost use Rattle.dm_record.specs.Grammar.{components_form, pairs_form, fits_commit, is_commit_length, is_vector_length, is_length, is_kind, is_commit_vector, commit_form, release_form, grant_form, kind_form, frame_form};

use crate::reading::{Fault, Stop, number};
use crate::record::{MAX_KEY, Record};
use dm_event::{
    MAX_KEYS, MAX_PARTS, MAX_SESSIONS, MAX_SITES, NoMemory, Pair, Pairs, TxnId, Vector,
};
use std::alloc::Global;

#[tactic(auto, using(crate::proofs::Opening::no_vector))]
/// A vector of so many components.
fn vector(bytes: &[u8], at: usize, sites: u8) -> Result<Vector, Stop>
    requires some { (1 ≤ sites) × (sites ≤ MAX_SITES) }
    requires at { at ≤ length bytes.now }
    ensures ok { IfOk result (λ v. (next : List ℕ → Form) → walk (components_form sites [] next) bytes.now at ≡ walk (next v) bytes.now (at + 8 * sites)) }
    ensures within { IfOk result (λ v. at + 8 * sites ≤ length bytes.now) }
    ensures err { IfErr result (λ stop. (next : List ℕ → Form) → walk (components_form sites [] next) bytes.now at ≡ stopped stop) }
{
    let mut vector = Vector::zeros(sites);
    let mut i = 0u8;
    while i < sites {
        match number(bytes, at + 8 * i as usize, 0, u64::MAX, 8) {
            Ok(n) => {
                i += 1;
                vector.set(i, n);
            }
            Err(stop) => return Err(stop),
        }
    }
    Ok(vector)
}

fn put(list: &mut Vec<Pair>, key: u32, bits: u64) -> Result<(), NoMemory>
    ensures { OnOk result (list.new.items ≡ list.old.items ++ record { key = key; value = cast_signed w64 bits } ∷ []) }
{
    list.push(Pair {
        key,
        value: bits.cast_signed(),
    })?;
    Ok(())
}

#[tactic(auto, using(crate::proofs::Opening::no_pairs))]
/// So many pairs.
fn pairs(alloc: Global, bytes: &[u8], at: usize, count: u8) -> Result<Vec<Pair>, Fault>
    requires few { count ≤ MAX_KEYS }
    requires at { at ≤ length bytes.now }
    ensures ok { IfOk result (λ v. (next : List Pair → Form) → walk (pairs_form count 0 [] next) bytes.now at ≡ walk (next v.items) bytes.now (at + 12 * count)) }
    ensures within { IfOk result (λ v. at + 12 * count ≤ length bytes.now) }
    ensures err { IfErr result (λ fault. (next : List Pair → Form) → Stops fault (walk (pairs_form count 0 [] next) bytes.now at)) }
{
    let mut list = Vec::new(alloc);
    let mut least = 0u32;
    let mut i = 0u8;
    while i < count {
        let here = at + 12 * i as usize;
        let key = match number(
            bytes,
            here,
            least as u64,
            MAX_KEY as u64 - (count - 1 - i) as u64,
            4,
        ) {
            Ok(n) => n as u32,
            Err(stop) => return Err(Fault::At(stop)),
        };
        let bits = match number(bytes, here + 4, 0, u64::MAX, 8) {
            Ok(n) => n,
            Err(stop) => return Err(Fault::At(stop)),
        };
        match put(&mut list, key, bits) {
            Ok(()) => {}
            Err(NoMemory) => return Err(Fault::Memory),
        }
        least = key + 1;
        i += 1;
    }
    Ok(list)
}

/// The one byte there.
fn byte(bytes: &[u8], at: usize) -> Result<u8, Stop>
    ensures ok { IfOk result (λ b. (b ≡ slice_index bytes.now at) × (at < length bytes.now)) }
    ensures err { IfErr result (λ stop. (stop ≡ Stop.Short) × (length bytes.now ≤ at)) }
{
    if at < bytes.len() {
        Ok(bytes[at])
    } else {
        Err(Stop::Short)
    }
}

fn fits_commit(n: u64, sites: u64) -> bool
    requires { (n < 512) × (sites ≤ MAX_SITES) }
    ensures { result ≡ fits_commit n sites }
{
    39 + 8 * sites <= n && n <= 411 + 8 * sites && (n - (27 + 8 * sites)).is_multiple_of(12)
}

fn is_commit_length(n: u64) -> bool
    requires { n < 512 }
    ensures { result ≡ is_commit_length n }
{
    fits_commit(n, 1)
        || fits_commit(n, 2)
        || fits_commit(n, 3)
        || fits_commit(n, 4)
        || fits_commit(n, 5)
        || fits_commit(n, 6)
        || fits_commit(n, 7)
        || fits_commit(n, 8)
}

fn is_vector_length(before: u64, n: u64) -> bool
    requires { (n < 512) × (before ≤ 13) }
    ensures { result ≡ is_vector_length before n }
{
    before + 8 <= n && n <= before + 64 && (n - before).is_multiple_of(8)
}

fn is_length(n: u64) -> bool
    requires { n < 512 }
    ensures { result ≡ is_length n }
{
    is_commit_length(n) || is_vector_length(13, n) || is_vector_length(12, n)
}

fn is_kind(n: u64, kind: u8) -> bool
    requires { n < 512 }
    ensures { result ≡ is_kind n kind }
{
    if kind == 1 {
        is_commit_length(n)
    } else if kind == 2 {
        is_vector_length(13, n)
    } else {
        kind == 3 && is_vector_length(12, n)
    }
}

fn is_commit_vector(n: u64, sites: u8) -> bool
    requires { n < 512 }
    ensures exact { result ≡ is_commit_vector n sites }
    ensures some { result ≡ true → (1 ≤ sites) × (sites ≤ MAX_SITES) × (fits_commit n sites ≡ true) }
{
    1 <= sites && sites <= MAX_SITES && fits_commit(n, sites as u64)
}

fn adds_up(n: u64, before: u64, more: u64) -> bool
    requires { (before < 512) × (more < 4096) }
    ensures exact { result ≡ (n == before + more) }
    ensures same { result ≡ true → n ≡ before + more }
{
    n == before + more
}

#[tactic(auto, using(crate::proofs::Walks::walk_more, crate::proofs::Walks::walk_bad, crate::proofs::Walks::walk_short, crate::proofs::Walks::walk_done))]
/// The rest of a commit whose body has that length.
fn commit(alloc: Global, bytes: &[u8], at: usize, n: u64) -> Result<(Record, usize), Fault>
    requires at { at ≤ length bytes.now }
    requires n { n < 512 }
    ensures ok { IfOk result (λ r. walk (commit_form n) bytes.now at ≡ Decoded.Whole r.0 r.1) }
    ensures err { IfErr result (λ fault. Stops fault (walk (commit_form n) bytes.now at)) }
{
    let session = match number(bytes, at, 1, MAX_SESSIONS as u64, 4) {
        Ok(n) => n as u32,
        Err(stop) => return Err(Fault::At(stop)),
    };
    let nth = match number(bytes, at + 4, 1, u32::MAX as u64, 4) {
        Ok(n) => n as u32,
        Err(stop) => return Err(Fault::At(stop)),
    };
    let attempt = match number(bytes, at + 4 + 4, 1, u64::MAX, 8) {
        Ok(n) => n,
        Err(stop) => return Err(Fault::At(stop)),
    };
    let seq = match number(bytes, at + 4 + 4 + 8, 1, u64::MAX, 8) {
        Ok(n) => n,
        Err(stop) => return Err(Fault::At(stop)),
    };
    let at = at + 4 + 4 + 8 + 8;
    let sites = match byte(bytes, at) {
        Ok(b) => b,
        Err(stop) => return Err(Fault::At(stop)),
    };
    if !is_commit_vector(n, sites) {
        return Err(Fault::At(Stop::Bad { place: at }));
    }
    let begin = match vector(bytes, at + 1, sites) {
        Ok(v) => v,
        Err(stop) => return Err(Fault::At(stop)),
    };
    let behind = at + 1 + 8 * sites as usize;
    let count = match byte(bytes, behind) {
        Ok(b) => b,
        Err(stop) => return Err(Fault::At(stop)),
    };
    if !adds_up(n, 27 + 8 * sites as u64, 12 * count as u64) {
        return Err(Fault::At(Stop::Bad { place: behind }));
    }
    let writes = match pairs(alloc, bytes, behind + 1, count) {
        Ok(list) => Pairs::new(list),
        Err(fault) => return Err(fault),
    };
    let txn = TxnId {
        session,
        number: nth,
        attempt,
    };
    Ok((
        Record::Commit {
            txn,
            seq,
            begin,
            writes,
        },
        behind + 1 + 12 * count as usize,
    ))
}

#[tactic(auto, using(crate::proofs::Walks::walk_more, crate::proofs::Walks::walk_bad, crate::proofs::Walks::walk_short, crate::proofs::Walks::walk_done))]
/// The rest of a release.
fn release(bytes: &[u8], at: usize, n: u64) -> Result<(Record, usize), Stop>
    requires at { at ≤ length bytes.now }
    requires n { is_vector_length 13 n ≡ true }
    ensures ok { IfOk result (λ r. walk (release_form n) bytes.now at ≡ Decoded.Whole r.0 r.1) }
    ensures err { IfErr result (λ stop. walk (release_form n) bytes.now at ≡ stopped stop) }
{
    let part = match number(bytes, at, 0, MAX_PARTS as u64 - 1, 2) {
        Ok(n) => n as u16,
        Err(stop) => return Err(stop),
    };
    let epoch = match number(bytes, at + 2, 0, u64::MAX, 8) {
        Ok(n) => n,
        Err(stop) => return Err(stop),
    };
    let to = match number(bytes, at + 10, 1, MAX_SITES as u64, 1) {
        Ok(n) => n as u8,
        Err(stop) => return Err(stop),
    };
    let sites = match byte(bytes, at + 11) {
        Ok(b) => b,
        Err(stop) => return Err(stop),
    };
    if !adds_up(n, 13, 8 * sites as u64) {
        return Err(Stop::Bad { place: at + 11 });
    }
    let vector = match vector(bytes, at + 12, sites) {
        Ok(v) => v,
        Err(stop) => return Err(stop),
    };
    Ok((
        Record::Release {
            part,
            epoch,
            to,
            vector,
        },
        at + 12 + 8 * sites as usize,
    ))
}

#[tactic(auto, using(crate::proofs::Walks::walk_more, crate::proofs::Walks::walk_bad, crate::proofs::Walks::walk_short, crate::proofs::Walks::walk_done))]
/// The rest of a grant.
fn grant(bytes: &[u8], at: usize, n: u64) -> Result<(Record, usize), Stop>
    requires at { at ≤ length bytes.now }
    requires n { is_vector_length 12 n ≡ true }
    ensures ok { IfOk result (λ r. walk (grant_form n) bytes.now at ≡ Decoded.Whole r.0 r.1) }
    ensures err { IfErr result (λ stop. walk (grant_form n) bytes.now at ≡ stopped stop) }
{
    let part = match number(bytes, at, 0, MAX_PARTS as u64 - 1, 2) {
        Ok(n) => n as u16,
        Err(stop) => return Err(stop),
    };
    let epoch = match number(bytes, at + 2, 0, u64::MAX, 8) {
        Ok(n) => n,
        Err(stop) => return Err(stop),
    };
    let sites = match byte(bytes, at + 10) {
        Ok(b) => b,
        Err(stop) => return Err(stop),
    };
    if !adds_up(n, 12, 8 * sites as u64) {
        return Err(Stop::Bad { place: at + 10 });
    }
    let vector = match vector(bytes, at + 11, sites) {
        Ok(v) => v,
        Err(stop) => return Err(stop),
    };
    Ok((
        Record::Grant {
            part,
            epoch,
            vector,
        },
        at + 11 + 8 * sites as usize,
    ))
}

#[tactic(auto, using(crate::proofs::Walks::walk_more, crate::proofs::Walks::walk_bad, crate::proofs::Walks::walk_short, crate::proofs::Walks::walk_done))]
/// The frame at the front.
pub(crate) fn frame(alloc: Global, bytes: &[u8]) -> Result<(Record, usize), Fault>
    ensures ok { IfOk result (λ r. walk frame_form bytes.now 0 ≡ Decoded.Whole r.0 r.1) }
    ensures err { IfErr result (λ fault. Stops fault (walk frame_form bytes.now 0)) }
{
    let high = match number(bytes, 0, 0, 1, 3) {
        Ok(n) => n,
        Err(stop) => return Err(Fault::At(stop)),
    };
    let low = match byte(bytes, 3) {
        Ok(b) => b,
        Err(stop) => return Err(Fault::At(stop)),
    };
    let n = high * 256 + low as u64;
    if !is_length(n) {
        return Err(Fault::At(Stop::Bad { place: 3 }));
    }
    let kind = match byte(bytes, 4) {
        Ok(b) => b,
        Err(stop) => return Err(Fault::At(stop)),
    };
    if !is_kind(n, kind) {
        return Err(Fault::At(Stop::Bad { place: 4 }));
    }
    of_kind(alloc, bytes, n, kind)
}

/// The rest of a record of that kind.
fn of_kind(alloc: Global, bytes: &[u8], n: u64, kind: u8) -> Result<(Record, usize), Fault>
    requires at { 5 ≤ length bytes.now }
    requires n { n < 512 }
    requires kind { is_kind n kind ≡ true }
    ensures ok { IfOk result (λ r. walk (kind_form n kind) bytes.now 5 ≡ Decoded.Whole r.0 r.1) }
    ensures err { IfErr result (λ fault. Stops fault (walk (kind_form n kind) bytes.now 5)) }
{
    if kind == 1 {
        return commit(alloc, bytes, 5, n);
    }
    if kind == 2 {
        match release(bytes, 5, n) {
            Ok(found) => Ok(found),
            Err(stop) => Err(Fault::At(stop)),
        }
    } else {
        match grant(bytes, 5, n) {
            Ok(found) => Ok(found),
            Err(stop) => Err(Fault::At(stop)),
        }
    }
}
