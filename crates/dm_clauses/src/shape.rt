//! The ranges of the numbers in a step.

ghost use Rattle.std.specs.Prelude.{◌≡◌, ◌<◌, ◌&&◌, nat_le, length, slice_index, map};
ghost use Rattle.std.specs.List.{list_all};
ghost use Rattle.dm_event.specs.Layout.{is_key, is_session};
ghost use Rattle.dm_event.specs.declared.step.Step.TheVariants.{Doubt};
ghost use Rattle.dm_model.specs.Shape.{is_ascending, is_vector, is_declared, is_op, are_ops, are_pairs, is_entry, is_want, is_cause, is_cause_at, is_said, is_shaped};

use dm_event::{
    Cause, Entry, Key, MAX_KEYS, MAX_OPS, Op, Pair, Pending, Said, Schema, SiteNo, Step, TxnId,
    Vector, Want,
};
use dm_outcomes::same_byte;

fn is_txn(txn: TxnId) -> bool
    ensures { result ≡ (is_session txn.session && (nat_le 1 txn.number && nat_le 1 txn.attempt)) }
{
    Schema::is_session(txn.session) && (1 <= txn.number && 1 <= txn.attempt)
}

fn is_vector(schema: &Schema, vector: &Vector) -> bool
    ensures { result ≡ is_vector schema.now vector.now }
{
    vector.as_slice().len() == schema.sites() as usize
}

fn are_keys(schema: &Schema, keys: &[Key]) -> bool
    ensures { result ≡ list_all (is_key schema.now) keys.now }
{
    keys.iter().all(|key| schema.is_key(*key))
}

fn ascend(keys: &[Key]) -> bool
    ensures { result ≡ is_ascending keys.now }
{
    for i in 0..keys.len().saturating_sub(1) {
        if keys[i + 1] <= keys[i] {
            return false;
        }
    }
    true
}

fn is_declared(schema: &Schema, keys: &[Key]) -> bool
    ensures { result ≡ is_declared schema.now keys.now }
{
    ascend(keys) && (keys.len() <= MAX_KEYS && are_keys(schema, keys))
}

fn is_op(schema: &Schema, op: &Op) -> bool
    ensures { result ≡ is_op schema.now op.now }
{
    match op {
        Op::Read { key } | Op::Write { key, .. } | Op::Add { key, .. } => schema.is_key(*key),
    }
}

fn are_ops(schema: &Schema, ops: &[Op]) -> bool
    ensures { result ≡ are_ops schema.now ops.now }
{
    ops.len() <= MAX_OPS && each_is_op(schema, ops)
}

fn each_is_op(schema: &Schema, ops: &[Op]) -> bool
    ensures { result ≡ list_all (is_op schema.now) ops.now }
{
    ops.iter().all(|op| is_op(schema, op))
}

fn are_pairs(schema: &Schema, pairs: &[Pair]) -> bool
    ensures { result ≡ are_pairs schema.now pairs.now }
{
    pairs.iter().all(|pair| schema.is_key(pair.key))
}

fn pairs_ascend(pairs: &[Pair]) -> bool
    ensures { result ≡ is_ascending (map (λ p. p.key) pairs.now) }
{
    for i in 0..pairs.len().saturating_sub(1) {
        if key_at(pairs, i + 1) <= key_at(pairs, i) {
            return false;
        }
    }
    true
}

fn key_at(pairs: &[Pair], i: usize) -> Key
    requires { i < length pairs.now }
    ensures { result ≡ slice_index (map (λ p. p.key) pairs.now) i }
{
    pairs[i].key
}

fn is_entry(schema: &Schema, entry: &Entry) -> bool
    ensures { result ≡ is_entry schema.now entry.now }
{
    is_txn(entry.txn)
        && (schema.is_site(entry.origin)
            && (is_vector(schema, &entry.begin)
                && (are_ops(schema, entry.ops.as_slice())
                    && (are_pairs(schema, entry.reads.as_slice())
                        && (are_pairs(schema, entry.writes.as_slice())
                            && pairs_ascend(entry.writes.as_slice()))))))
}

fn is_want(schema: &Schema, want: &Want) -> bool
    ensures { result ≡ is_want schema.now want.now }
{
    match want {
        Want::Txn(keys) => is_declared(schema, keys.as_slice()),
        Want::Place(part) => schema.is_part(*part),
        Want::Restart => true,
    }
}

fn is_cause(schema: &Schema, cause: Cause) -> bool
    ensures { result ≡ is_cause schema.now cause }
{
    match cause {
        Cause::Undeclared { key } => schema.is_key(key),
        Cause::Log { site } => schema.is_site(site),
        Cause::Damage {
            site,
            read,
            written,
            ..
        } => schema.is_site(site) && !same_byte(read, written),
        Cause::Memory => true,
    }
}

fn is_cause_at(schema: &Schema, site: SiteNo, cause: Cause) -> bool
    ensures { result ≡ is_cause_at schema.now site cause }
{
    match cause {
        Cause::Undeclared { .. } => false,
        Cause::Log { site: at } | Cause::Damage { site: at, .. } => at == site,
        Cause::Memory => true,
    }
}

fn is_said(schema: &Schema, said: Said) -> bool
    ensures { result ≡ is_said schema.now said }
{
    match said {
        Said::Committed { site, .. }
        | Said::Read { site }
        | Said::InDoubt { site }
        | Said::Restarted { site } => schema.is_site(site),
        Said::Placed { part, site, .. } => schema.is_part(part) && schema.is_site(site),
        Said::Refused(cause) => is_cause(schema, cause),
    }
}

fn is_pending(schema: &Schema, site: SiteNo, pending: &Pending) -> bool
    ensures { result ≡ is_shaped schema.now (Doubt site pending.now) }
{
    match pending {
        Pending::Commit(entry) => {
            schema.is_site(site) && (is_entry(schema, entry) && entry.origin == site)
        }
        Pending::Release {
            part,
            to,
            vector,
            ..
        } => {
            schema.is_site(site)
                && (schema.is_part(*part) && (schema.is_site(*to) && is_vector(schema, vector)))
        }
        Pending::Grant { part, vector, .. } => {
            schema.is_site(site) && (schema.is_part(*part) && is_vector(schema, vector))
        }
    }
}

/// Whether each number of the step is in its range.
pub fn is_shaped(schema: &Schema, step: &Step) -> bool
    ensures { result ≡ is_shaped schema.now step.now }
{
    match step {
        Step::Route {
            txn,
            want,
            min,
            site,
            ..
        } => {
            is_txn(*txn)
                && (is_want(schema, want) && (is_vector(schema, min) && schema.is_site(*site)))
        }
        Step::Reply {
            session,
            number,
            said,
        } => Schema::is_session(*session) && (1 <= *number && is_said(schema, *said)),
        Step::Ask { part, to, txn, .. } => {
            schema.is_part(*part) && (schema.is_site(*to) && is_txn(*txn))
        }
        Step::Settle { part, .. } => schema.is_part(*part),
        Step::Begin { site, txn, begin } => {
            schema.is_site(*site) && (is_txn(*txn) && is_vector(schema, begin))
        }
        Step::Moved { site, txn } => schema.is_site(*site) && is_txn(*txn),
        Step::Commit { entry } => is_entry(schema, entry),
        Step::End {
            site,
            txn,
            ops,
            reads,
        } => {
            schema.is_site(*site)
                && (is_txn(*txn)
                    && (are_ops(schema, ops.as_slice()) && are_pairs(schema, reads.as_slice())))
        }
        Step::Fail { site, txn, cause } => {
            schema.is_site(*site)
                && (is_txn(*txn)
                    && (is_cause(schema, *cause) && is_cause_at(schema, *site, *cause)))
        }
        Step::Refresh { site, origin } => schema.is_site(*site) && schema.is_site(*origin),
        Step::Release {
            site,
            part,
            to,
            vector,
            ..
        } => {
            schema.is_site(*site)
                && (schema.is_part(*part) && (schema.is_site(*to) && is_vector(schema, vector)))
        }
        Step::Grant {
            site,
            part,
            vector,
            ..
        } => schema.is_site(*site) && (schema.is_part(*part) && is_vector(schema, vector)),
        Step::Doubt { site, pending } => is_pending(schema, *site, pending),
        Step::Restart { site, vector, .. } => schema.is_site(*site) && is_vector(schema, vector),
    }
}
