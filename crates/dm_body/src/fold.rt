//! Whole bodies.

ghost use Rattle.std.specs.Prelude.{◌≡◌, ◌≤◌, length, IfOk};
ghost use Rattle.dm_model.specs.Bodies.{body as body_of, first_undeclared, has_writes, written_key};

use crate::{Overlay, Ran, View};
use dm_event::{Body, Key, MAX_OPS, NoMemory, Op};
use std::alloc::Global;

/// The key of the first write or addition whose key is not declared.
pub fn first_undeclared(body: &Body) -> Option<Key>
    ensures { result ≡ first_undeclared body.now.declared body.now.ops }
{
    undeclared_in(body.declared.as_slice(), body.ops.as_slice())
}

/// The key of the first write or addition whose key is not among these.
pub fn undeclared_in(keys: &[Key], ops: &[Op]) -> Option<Key>
    ensures { result ≡ first_undeclared keys.now ops.now }
{
    ops.iter()
        .filter_map(written_key)
        .find(|key| !keys.contains(key))
}

/// Whether one of the ops writes.
pub fn has_writes(ops: &[Op]) -> bool
    ensures { result ≡ has_writes ops.now }
{
    ops.iter().any(|op| written_key(op).is_some())
}

pub(crate) fn written_key(op: &Op) -> Option<Key>
    ensures { result ≡ written_key op.now }
{
    match op {
        Op::Read { .. } => None,
        Op::Write { key, .. } | Op::Add { key, .. } => Some(*key),
    }
}

/// Does the whole body, op by op.
pub fn run<V: View>(alloc: Global, body: &Body, view: &mut V) -> Result<Ran, NoMemory>
    requires { length body.now.ops ≤ MAX_OPS }
    ensures ops { IfOk result (λ ran. ran.ops ≡ body.now.ops) }
    ensures reads { IfOk result (λ ran. ran.reads ≡ (body_of body.now.ops (V.values view.old)).reads) }
    ensures writes { IfOk result (λ ran. ran.writes ≡ (body_of body.now.ops (V.values view.old)).writes) }
    ensures values { V.values view.new ≡ V.values view.old }
{
    let mut overlay = Overlay::new(alloc)?;
    for op in body.ops.as_slice() {
        overlay.op(op, view);
    }
    Ok(overlay.into_ran())
}
