//! A transaction's body, op by op.

ghost use Rattle.std.specs.Prelude.{◌≡◌, ◌<◌, ◌≤◌, ◌↔◌, length, IfOk};
ghost use Rattle.dm_body.specs.Progress.{nothing_done, turn};
ghost use Rattle.dm_body.specs.Answer.{answer_of};

use crate::View;
use crate::writes::{put, seen};
use dm_event::{MAX_OPS, NoMemory, Op, Ops, Pair, Pairs, Value};
use std::alloc::Global;
use std::marker::Model;

/// What an op answers.
#[derive(Clone, Copy, Debug, PartialEq, Eq)]
pub enum OpResult {
    /// The value read.
    Value(Value),
    /// Written.
    Done,
    /// There are as many ops as there may be, and this one is not done.
    Full,
}

/// A body's ops, what they have read, in their order, and what they have written: ascending by
/// key, the last value of each key.
#[derive(Debug, Drop)]
pub struct Ran {
    pub ops: Ops,
    pub reads: Pairs,
    pub writes: Pairs,
}

/// The ops of a transaction so far, with what they have read and its own writes.
#[derive(Debug, Drop)]
pub struct Overlay {
    ops: Vec<Op>,
    reads: Vec<Pair>,
    writes: Vec<Pair>,
}

impl Model for Overlay {
    ghost use Rattle.dm_body.specs.Progress.{Progress};

    ghost Value = { Progress };

    ghost use Rattle.dm_body.specs.Room.{HasRoom};

    ghost view = { λ o. record {
      ops = o.ops.items;
      ran = record { reads = o.reads.items; writes = o.writes.items };
    } };

    ghost invariant = { HasRoom };
}

impl Overlay {
    /// No op so far. It takes the memory for all ops at once, so that no later call needs any.
    pub fn new(alloc: Global) -> Result<Overlay, NoMemory>
        ensures { IfOk result (λ overlay. overlay ≡ nothing_done) }
    {
        Ok(Overlay {
            ops: Vec::with_capacity(alloc, MAX_OPS)?,
            reads: Vec::with_capacity(alloc, MAX_OPS)?,
            writes: Vec::with_capacity(alloc, MAX_OPS)?,
        })
    }

    /// Does the op: a read answers the own write of the key, else the view's value, and an addition
    /// wraps at 64 bits. It takes no memory.
    pub fn op<V: View>(&mut self, op: &Op, view: &mut V) -> OpResult
        ensures answer { length self.old.ops < MAX_OPS → result ≡ answer_of (V.values view.old) self.old.ran op.now }
        ensures turn { length self.old.ops < MAX_OPS → self.new ≡ turn (V.values view.old) self.old op.now }

        ensures full { (result ≡ OpResult.Full) ↔ (MAX_OPS ≤ length self.old.ops) }
        ensures unchanged { MAX_OPS ≤ length self.old.ops → self.new ≡ self.old }

        ensures values { V.values view.new ≡ V.values view.old }
    {
        if self.ops.len() == MAX_OPS {
            return OpResult::Full;
        }
        self.ops.push_reserved(*op);
        match *op {
            Op::Read { key } => {
                let value = seen(&self.writes, key, view);
                self.reads.push_reserved(Pair { key, value });
                OpResult::Value(value)
            }
            Op::Write { key, value } => {
                put(&mut self.writes, key, value);
                OpResult::Done
            }
            Op::Add { key, by } => {
                let value = seen(&self.writes, key, view).wrapping_add(by);
                put(&mut self.writes, key, value);
                OpResult::Done
            }
        }
    }

    /// The ops so far.
    pub fn ops(&self) -> &[Op]
        ensures same { result.now ≡ self.now.ops }
        ensures few { length result.now ≤ MAX_OPS }
    {
        &self.ops
    }

    /// What the ops have read so far.
    pub fn reads(&self) -> &[Pair]
        ensures { result.now ≡ self.now.ran.reads }
    {
        &self.reads
    }

    /// What the ops have written so far, the last value of each key.
    pub fn writes(&self) -> &[Pair]
        ensures { result.now ≡ self.now.ran.writes }
    {
        &self.writes
    }

    /// A copy of what the ops have read and written so far.
    pub fn to_ran(&self) -> Result<Ran, NoMemory>
        ensures { IfOk result (λ ran. ran ≡ record { ops = self.now.ops; reads = self.now.ran.reads; writes = self.now.ran.writes }) }
    {
        Ok(Ran {
            ops: Ops::new(self.ops.clone()?),
            reads: Pairs::new(self.reads.clone()?),
            writes: Pairs::new(self.writes.clone()?),
        })
    }

    /// What the ops have read and written. It takes no memory.
    pub fn into_ran(self) -> Ran
        ensures { result ≡ record { ops = self.ops; reads = self.ran.reads; writes = self.ran.writes } }
    {
        let Overlay { ops, reads, writes } = self;
        Ran {
            ops: Ops::new(ops),
            reads: Pairs::new(reads),
            writes: Pairs::new(writes),
        }
    }
}
