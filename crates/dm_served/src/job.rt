//! What clients have done.

ghost use Rattle.std.specs.List.{list_all};
ghost use Rattle.std.specs.Prelude.{◌≡◌, ◌≤◌, length, IfSome, IsTrue};
ghost use Rattle.dm_event.specs.declared.limits.TheConstants.{MAX_OPS};
ghost use Rattle.dm_event.specs.declared.step.Want.TheVariants.{Txn};
ghost use Rattle.dm_model.specs.Shape.{is_op, is_want};
ghost use Rattle.dm_served.specs.Clients.{FitsSchema};

use dm_clauses::is_shaped;
use dm_event::{
    Body, Choice, Key, Keys, Op, Ops, Pairs, Part, Schema, SiteNo, Step, TxnId, Vector, Want,
};
use std::alloc::Global;

/// Which client.
#[derive(Clone, Copy, Debug, PartialEq, Eq)]
pub enum Who {
    First,
    Second,
}

/// What it has done.
#[derive(Clone, Copy, Debug, PartialEq, Eq)]
pub enum Job {
    /// Adds 1 to a key.
    Add { key: Key },
    /// Adds 1 to each of two keys, the lesser first.
    AddBoth { one: Key, other: Key },
    /// Reads a key, and declares none.
    Read { key: Key },
    /// Writes a key that it doesn't declare.
    Loose { key: Key },
    Place { part: Part, to: SiteNo },
    Restart { site: SiteNo },
}

fn ops_of(alloc: Global, job: Job) -> Option<Vec<Op>> {
    match job {
        Job::Add { key } => Vec::from_elem(alloc, Op::Add { key, by: 1 }, 1).ok(),
        Job::AddBoth { one, other } => {
            let mut ops = Vec::new(alloc);
            ops.push(Op::Add { key: one, by: 1 }).ok()?;
            ops.push(Op::Add { key: other, by: 1 }).ok()?;
            Some(ops)
        }
        Job::Read { key } => Vec::from_elem(alloc, Op::Read { key }, 1).ok(),
        Job::Loose { key } => Vec::from_elem(alloc, Op::Write { key, value: 1 }, 1).ok(),
        Job::Place { .. } | Job::Restart { .. } => None,
    }
}

fn keys_of(alloc: Global, job: Job) -> Option<Keys> {
    let mut keys = Vec::new(alloc);
    match job {
        Job::Add { key } => keys.push(key).ok()?,
        Job::AddBoth { one, other } => {
            keys.push(one).ok()?;
            keys.push(other).ok()?;
        }
        _ => {}
    }
    Keys::new(keys)
}

/// Whether the body fits the schema.
fn fits(alloc: Global, schema: &Schema, body: &Body) -> Option<bool>
    ensures { IfSome result (λ fits. IsTrue fits → FitsSchema schema.now body.now) }
{
    let txn = TxnId {
        session: 1,
        number: 1,
        attempt: 1,
    };
    let route = Step::Route {
        txn,
        want: Want::Txn(body.declared.try_clone().ok()?),
        min: Vector::zeros(schema.sites()),
        site: 1,
        choice: Choice::Best,
    };
    let end = Step::End {
        site: 1,
        txn,
        ops: body.ops.try_clone().ok()?,
        reads: Pairs::new(Vec::new(alloc)),
    };
    Some(is_shaped(schema, &route) && is_shaped(schema, &end))
}

/// The transaction of the job, if it is one, and fits the schema.
pub(crate) fn body_of(alloc: Global, schema: &Schema, job: Job) -> Option<Body>
    ensures { IfSome result (FitsSchema schema.now) }
{
    let body = Body {
        declared: keys_of(alloc, job)?,
        ops: Ops::new(ops_of(alloc, job)?),
    };
    if fits(alloc, schema, &body)? {
        Some(body)
    } else {
        None
    }
}
