//! The frame of a record.

ghost use Rattle.std.specs.Prelude.{◌≡◌, ◌≤◌, ◌<◌, ◌++◌, ◌∷◌, [], ◌-◌, ℕ, List, FitsSigned, IfOk, OnOk, length, take};
ghost use Rattle.std.specs.Int.{cast_unsigned, w64};
ghost use Rattle.dm_event.specs.declared.step.Pair.{Pair};
ghost use Rattle.dm_record.specs.Form.{span};
ghost use Rattle.dm_record.specs.Bytes.{digits, components, pairs, body, frame_of, AreComponents, AreValues, IsInRange, FitsTypes, HasRanges};
ghost use Rattle.dm_record.specs.Frames.{IsSomeFrame, IsSomeBody};

use crate::reading::span_of;
use crate::record::Record;
use dm_event::{NoMemory, Pair, TxnId, Vector};
use std::alloc::Global;
use std::marker::Model;

/// The bytes of a record: the length of its body, and the body. Seen as the list of these bytes.
#[derive(Debug, Drop)]
pub struct Frame {
    // A closed gate byte stands behind the frame's own bytes.
    closed: Vec<u8>,
}

impl Model for Frame {
    ghost use Rattle.std.specs.Prelude.{◌-◌, take, length, ℕ, List};
    ghost use Rattle.dm_record.specs.Frames.{IsClosed};

    ghost Value = { List ℕ };

    ghost view = { λ f. take (length f.closed.items - 1) f.closed.items };

    ghost invariant = { λ f. IsClosed (take (length f.closed.items - 1) f.closed.items) f.closed.items };
}

impl Frame {
    fn new(mut bytes: Vec<u8>) -> Result<Frame, NoMemory>
        requires { IsSomeFrame bytes.items }
        ensures { IfOk result (λ f. f ≡ bytes.items) }
    {
        bytes.push(0)?;
        Ok(Frame { closed: bytes })
    }

    #[tactic(auto, using(crate::proofs::Framing::some_long))]
    /// How many bytes it has, without a gate byte; at least 25.
    pub fn len(&self) -> usize
        ensures bytes { result ≡ length self.now }
        ensures some { 0 < result }
    {
        self.closed.len() - 1
    }

    pub fn bytes(&self) -> &[u8]
        ensures bytes { result.now ≡ self.now }
        ensures frame { IsSomeFrame self.now }
    {
        &self.closed[..self.closed.len() - 1]
    }

    #[tactic(auto, using(crate::proofs::Framing::some_long))]
    /// The frame and a closed gate byte.
    pub fn closed(&self) -> &[u8]
        ensures bytes { result.now ≡ self.now ++ 0 ∷ [] }
        ensures some { 0 < length self.now }
    {
        &self.closed
    }
}

fn push_number(out: &mut Vec<u8>, n: u64, width: usize) -> Result<(), NoMemory>
    requires width { width ≤ 8 }
    requires fits { n < span width }
    ensures { OnOk result (out.new.items ≡ out.old.items ++ digits width n) }
{
    if width == 0 {
        return Ok(());
    }
    let first = span_of(width - 1) as u64;
    out.push((n / first) as u8)?;
    push_number(out, n % first, width - 1)
}

fn push_vector(out: &mut Vec<u8>, vector: &[u64]) -> Result<(), NoMemory>
    ensures written { OnOk result (out.new.items ≡ out.old.items ++ components vector.now) }
    ensures fits { OnOk result (AreComponents vector.now) }
{
    let [first, rest @ ..] = vector else {
        return Ok(());
    };
    push_number(out, *first, 8)?;
    push_vector(out, rest)
}

fn push_pair(out: &mut Vec<u8>, pair: &Pair) -> Result<(), NoMemory>
    ensures written { OnOk result (out.new.items ≡ out.old.items ++ (digits 4 pair.now.key ++ digits 8 (cast_unsigned w64 pair.now.value))) }
    ensures fits { OnOk result (FitsSigned w64 pair.now.value) }
{
    push_number(out, pair.key as u64, 4)?;
    push_number(out, pair.value.cast_unsigned(), 8)
}

fn push_pairs(out: &mut Vec<u8>, list: &[Pair]) -> Result<(), NoMemory>
    ensures written { OnOk result (out.new.items ≡ out.old.items ++ pairs list.now) }
    ensures fits { OnOk result (AreValues list.now) }
{
    let [first, rest @ ..] = list else {
        return Ok(());
    };
    push_pair(out, first)?;
    push_pairs(out, rest)
}

/// The length of a body, and the body.
#[tactic(auto, using(crate::proofs::Framing::some_body, crate::proofs::Framing::some_short))]
fn framed(alloc: Global, body: Vec<u8>) -> Result<Frame, NoMemory>
    requires { IsSomeBody body.items }
    ensures { IfOk result (λ f. f ≡ digits 4 (length body.items) ++ body.items) }
{
    let mut out = Vec::new(alloc);
    push_number(&mut out, body.len() as u64, 4)?;
    out.extend_from_slice(&body)?;
    Frame::new(out)
}

fn commit_body(
    alloc: Global,
    txn: TxnId,
    seq: u64,
    begin: &Vector,
    writes: &[Pair],
) -> Result<Vec<u8>, NoMemory>
    requires { IsInRange (Record.Commit txn seq begin.now writes.now) }
    ensures bytes { IfOk result (λ v. v.items ≡ body (Record.Commit txn seq begin.now writes.now)) }
    ensures fits { OnOk result (FitsTypes (Record.Commit txn seq begin.now writes.now)) }
{
    let begin = begin.as_slice();
    let mut out = Vec::new(alloc);
    out.push(1)?;
    push_number(&mut out, txn.session as u64, 4)?;
    push_number(&mut out, txn.number as u64, 4)?;
    push_number(&mut out, txn.attempt, 8)?;
    push_number(&mut out, seq, 8)?;
    out.push(begin.len() as u8)?;
    push_vector(&mut out, begin)?;
    out.push(writes.len() as u8)?;
    push_pairs(&mut out, writes)?;
    Ok(out)
}

/// The frame of a commit.
pub fn encode_commit(
    alloc: Global,
    txn: TxnId,
    seq: u64,
    begin: &Vector,
    writes: &[Pair],
) -> Result<Frame, NoMemory>
    requires { IsInRange (Record.Commit txn seq begin.now writes.now) }
    ensures frame { IfOk result (λ f. f ≡ frame_of (Record.Commit txn seq begin.now writes.now)) }
    ensures ranges { OnOk result (HasRanges (Record.Commit txn seq begin.now writes.now)) }
{
    let body = commit_body(alloc, txn, seq, begin, writes)?;
    framed(alloc, body)
}

fn release_body(
    alloc: Global,
    part: u16,
    epoch: u64,
    to: u8,
    vector: &Vector,
) -> Result<Vec<u8>, NoMemory>
    requires { IsInRange (Record.Release part epoch to vector.now) }
    ensures bytes { IfOk result (λ v. v.items ≡ body (Record.Release part epoch to vector.now)) }
    ensures fits { OnOk result (FitsTypes (Record.Release part epoch to vector.now)) }
{
    let vector = vector.as_slice();
    let mut out = Vec::new(alloc);
    out.push(2)?;
    push_number(&mut out, part as u64, 2)?;
    push_number(&mut out, epoch, 8)?;
    out.push(to)?;
    out.push(vector.len() as u8)?;
    push_vector(&mut out, vector)?;
    Ok(out)
}

/// The frame of a release.
pub fn encode_release(
    alloc: Global,
    part: u16,
    epoch: u64,
    to: u8,
    vector: &Vector,
) -> Result<Frame, NoMemory>
    requires { IsInRange (Record.Release part epoch to vector.now) }
    ensures frame { IfOk result (λ f. f ≡ frame_of (Record.Release part epoch to vector.now)) }
    ensures ranges { OnOk result (HasRanges (Record.Release part epoch to vector.now)) }
{
    let body = release_body(alloc, part, epoch, to, vector)?;
    framed(alloc, body)
}

fn grant_body(alloc: Global, part: u16, epoch: u64, vector: &Vector) -> Result<Vec<u8>, NoMemory>
    requires { IsInRange (Record.Grant part epoch vector.now) }
    ensures bytes { IfOk result (λ v. v.items ≡ body (Record.Grant part epoch vector.now)) }
    ensures fits { OnOk result (FitsTypes (Record.Grant part epoch vector.now)) }
{
    let vector = vector.as_slice();
    let mut out = Vec::new(alloc);
    out.push(3)?;
    push_number(&mut out, part as u64, 2)?;
    push_number(&mut out, epoch, 8)?;
    out.push(vector.len() as u8)?;
    push_vector(&mut out, vector)?;
    Ok(out)
}

/// The frame of a grant.
pub fn encode_grant(
    alloc: Global,
    part: u16,
    epoch: u64,
    vector: &Vector,
) -> Result<Frame, NoMemory>
    requires { IsInRange (Record.Grant part epoch vector.now) }
    ensures frame { IfOk result (λ f. f ≡ frame_of (Record.Grant part epoch vector.now)) }
    ensures ranges { OnOk result (HasRanges (Record.Grant part epoch vector.now)) }
{
    let body = grant_body(alloc, part, epoch, vector)?;
    framed(alloc, body)
}

/// The frame of a record.
pub fn encode(alloc: Global, rec: &Record) -> Result<Frame, NoMemory>
    requires { IsInRange rec.now }
    ensures frame { IfOk result (λ f. f ≡ frame_of rec.now) }
    ensures ranges { OnOk result (HasRanges rec.now) }
{
    match rec {
        Record::Commit {
            txn,
            seq,
            begin,
            writes,
        } => encode_commit(alloc, *txn, *seq, begin, writes.as_slice()),
        Record::Release {
            part,
            epoch,
            to,
            vector,
        } => encode_release(alloc, *part, *epoch, *to, vector),
        Record::Grant {
            part,
            epoch,
            vector,
        } => encode_grant(alloc, *part, *epoch, vector),
    }
}
