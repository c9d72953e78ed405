//! Whether reads and writes are those of ops, found without memory.
//!
//! One pass over the ops finds the own write of one key, so no map of own writes is kept. That is
//! slow, and needs no bound on the number of ops.

ghost use Rattle.std.specs.Prelude.{◌≡◌, ◌&&◌, nat_lt, filter_map, is_some, unwrap_or, slice_get, false};
ghost use Rattle.std.specs.Option.{option_map_or};
ghost use Rattle.std.specs.List.{list_all, IsAllAdjacentAnswer};
ghost use Rattle.dm_model.specs.Tests.{same_pair, same_pairs};
ghost use Rattle.dm_model.specs.Values.{written};
ghost use Rattle.dm_model.specs.Bodies.{body, written_key};
ghost use Rattle.dm_body.specs.Fitting.{own_after, is_value};

use crate::View;
use crate::fold::written_key;
use dm_event::{Key, Op, Pair, Value};

/// Whether these are the reads and writes of the ops, where the view gives the values.
pub fn body_fits<V: View>(ops: &[Op], reads: &[Pair], writes: &[Pair], view: &mut V) -> bool
    ensures fits { result ≡ (same_pairs reads.now (body ops.now (V.values view.old)).reads
        && same_pairs writes.now (body ops.now (V.values view.old)).writes) }
    ensures values { V.values view.new ≡ V.values view.old }
{
    reads_fit(ops, reads, view) && writes_fit(ops, writes, view)
}

/// Whether these are the reads of the ops, where the view gives the values.
pub fn reads_fit<V: View>(ops: &[Op], reads: &[Pair], view: &mut V) -> bool
    ensures fits { result ≡ same_pairs reads.now (body ops.now (V.values view.old)).reads }
    ensures values { V.values view.new ≡ V.values view.old }
{
    let mut met = 0;
    for (done, op) in ops.iter().enumerate() {
        if let Op::Read { key } = *op {
            let value = seen(&ops[..done], key, view);
            if !is_at(reads, met, &Pair { key, value }) {
                return false;
            }
            met += 1;
        }
    }
    met == reads.len()
}

fn same_pair(a: &Pair, b: &Pair) -> bool
    ensures { result ≡ same_pair a.now b.now }
{
    a.key == b.key && a.value == b.value
}

/// Whether the pair stands at this place.
fn is_at(pairs: &[Pair], place: usize, pair: &Pair) -> bool
    ensures { result ≡ option_map_or (λ found. same_pair found pair.now) (slice_get pairs.now place) false }
{
    pairs.get(place).is_some_and(|found| same_pair(found, pair))
}

/// What a read of the key gives after the ops.
fn seen<V: View>(ops: &[Op], key: Key, view: &mut V) -> Value
    ensures seen { result ≡ unwrap_or (written (body ops.now (V.values view.old)).writes key) (V.values view.old key) }
    ensures values { V.values view.new ≡ V.values view.old }
{
    match own_write(ops, key, view) {
        Some(value) => value,
        None => view.read(key),
    }
}

/// The own write of the key after the ops.
fn own_write<V: View>(ops: &[Op], key: Key, view: &mut V) -> Option<Value>
    ensures own { result ≡ written (body ops.now (V.values view.old)).writes key }
    ensures values { V.values view.new ≡ V.values view.old }
{
    let mut own = None;
    for op in ops {
        own = own_after(own, op, key, view);
    }
    own
}

/// The own write of the key after one more op.
fn own_after<V: View>(own: Option<Value>, op: &Op, key: Key, view: &mut V) -> Option<Value>
    ensures own { result ≡ own_after (V.values view.old) own op.now key }
    ensures values { V.values view.new ≡ V.values view.old }
{
    match *op {
        Op::Write { key: target, value } if target == key => Some(value),
        Op::Add { key: target, by } if target == key => {
            let before = match own {
                Some(value) => value,
                None => view.read(key),
            };
            Some(before.wrapping_add(by))
        }
        _ => own,
    }
}

/// Whether these are the writes of the ops: they ascend, each key that is written has
/// a pair, and each pair is the own write of its key.
fn writes_fit<V: View>(ops: &[Op], writes: &[Pair], view: &mut V) -> bool
    ensures fits { result ≡ same_pairs writes.now (body ops.now (V.values view.old)).writes }
    ensures values { V.values view.new ≡ V.values view.old }
{
    ascends(writes) && has_each_key(ops, writes) && each_is_own(ops, writes, view)
}

fn ascends(writes: &[Pair]) -> bool
    ensures { IsAllAdjacentAnswer (λ x y b. b ≡ nat_lt x.key y.key) writes.now result }
{
    writes.is_sorted_by(|a, b| a.key < b.key)
}

/// Whether each pair has the own write of its key.
fn each_is_own<V: View>(ops: &[Op], writes: &[Pair], view: &mut V) -> bool
    ensures own { result ≡ list_all (λ pair. is_value (written (body ops.now (V.values view.old)).writes pair.key) pair.value) writes.now }
    ensures values { V.values view.new ≡ V.values view.old }
{
    for pair in writes {
        if own_write(ops, pair.key, view) != Some(pair.value) {
            return false;
        }
    }
    true
}

/// Whether each key that an op writes has a pair.
fn has_each_key(ops: &[Op], writes: &[Pair]) -> bool
    ensures { result ≡ list_all (λ key. is_some (written writes.now key)) (filter_map written_key ops.now) }
{
    ops.iter()
        .filter_map(written_key)
        .all(|key| has_key(writes, key))
}

fn has_key(writes: &[Pair], key: Key) -> bool
    ensures { result ≡ is_some (written writes.now key) }
{
    for pair in writes {
        if pair.key == key {
            return true;
        }
    }
    false
}
