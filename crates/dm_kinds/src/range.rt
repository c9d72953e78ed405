//! The ranges of what stands in a line.

ghost use Rattle.std.specs.Prelude.{◌≡◌};
ghost use Rattle.std.specs.List.{list_all};
ghost use Rattle.dm_event.specs.Layout.{is_key};
ghost use Rattle.dm_fields.specs.Fields.{Gives};
ghost use Rattle.dm_kinds.specs.Ranges.{op_key, fit_ops, fit_pairs, fit_keys, rises, ascends, fits_cause, fits_said};
ghost use Rattle.dm_kinds.specs.Kinds.{declared_of};

use dm_event::{Cause, Key, Keys, LineFault, MAX_KEYS, MAX_OPS, Op, Pair, Said, Schema};
use dm_fields::{LineError, require};

fn op_key(op: &Op) -> Key
    ensures { result ≡ op_key op.now }
{
    match op {
        Op::Read { key } | Op::Write { key, .. } | Op::Add { key, .. } => *key,
    }
}

fn are_ops(schema: &Schema, ops: &[Op]) -> bool
    ensures { result ≡ list_all (λ op. is_key schema.now (op_key op)) ops.now }
{
    ops.iter().all(|op| schema.is_key(op_key(op)))
}

#[tactic(auto, unfolding(crate::specs::Ranges::fit_ops))]
pub(crate) fn fit_ops(schema: &Schema, ops: &[Op]) -> bool
    ensures { result ≡ fit_ops schema.now ops.now }
{
    ops.len() <= MAX_OPS && are_ops(schema, ops)
}

#[tactic(auto, unfolding(crate::specs::Ranges::fit_pairs))]
pub(crate) fn fit_pairs(schema: &Schema, pairs: &[Pair]) -> bool
    ensures { result ≡ fit_pairs schema.now pairs.now }
{
    pairs.iter().all(|pair| schema.is_key(pair.key))
}

fn are_keys(schema: &Schema, keys: &[Key]) -> bool
    ensures { result ≡ list_all (is_key schema.now) keys.now }
{
    keys.iter().all(|key| schema.is_key(*key))
}

#[tactic(auto, unfolding(crate::specs::Ranges::fit_keys))]
fn fit_keys(schema: &Schema, keys: &[Key]) -> bool
    ensures { result ≡ fit_keys schema.now keys.now }
{
    keys.len() <= MAX_KEYS && are_keys(schema, keys)
}

/// Whether the keys go on above one, each above the one before.
#[tactic(auto, unfolding(crate::specs::Ranges::rises))]
fn rises(first: Key, keys: &[Key]) -> bool
    ensures { result ≡ rises first keys.now }
{
    let mut last = first;
    for key in keys {
        if *key <= last {
            return false;
        }
        last = *key;
    }
    true
}

#[tactic(auto, unfolding(crate::specs::Ranges::ascends))]
fn ascends(keys: &[Key]) -> bool
    ensures { result ≡ ascends keys.now }
{
    match keys {
        [] => true,
        [first, rest @ ..] => rises(*first, rest),
    }
}

#[tactic(auto, unfolding(crate::specs::Kinds::declared_of))]
pub(crate) fn declared_of(schema: &Schema, keys: Vec<Key>) -> Result<Keys, LineError>
    ensures { Gives (λ x. x) result (declared_of schema.now keys.items) }
{
    require(LineFault::Range, fit_keys(schema, &keys))?;
    require(LineFault::Repeat, ascends(&keys))?;
    Keys::new(keys).ok_or(LineError::Fault(LineFault::Repeat))
}

#[tactic(auto, unfolding(crate::specs::Ranges::fits_cause))]
fn fits_cause(schema: &Schema, cause: &Cause) -> bool
    ensures { result ≡ fits_cause schema.now cause.now }
{
    match cause {
        Cause::Undeclared { key } => schema.is_key(*key),
        Cause::Log { site } | Cause::Damage { site, .. } => schema.is_site(*site),
        Cause::Memory => true,
    }
}

#[tactic(auto, unfolding(crate::specs::Ranges::fits_said))]
pub(crate) fn fits_said(schema: &Schema, said: &Said) -> bool
    ensures { result ≡ fits_said schema.now said.now }
{
    match said {
        Said::Committed { site, .. }
        | Said::Read { site }
        | Said::InDoubt { site }
        | Said::Restarted { site } => schema.is_site(*site),
        Said::Placed { part, site, .. } => schema.is_part(*part) && schema.is_site(*site),
        Said::Refused(cause) => fits_cause(schema, cause),
    }
}
