//! The own writes of a transaction: pairs, ascending by key, one for each key.

ghost use Rattle.std.specs.Prelude.{◌≡◌, ◌+◌, ◌<◌, ◌≤◌, ◌++◌, ◌∷◌, [], nat_lt, length, vec_len, vec_capacity, unwrap_or};
ghost use Rattle.std.specs.List.{prefix_len};
ghost use Rattle.dm_model.specs.Values.{written};
ghost use Rattle.dm_model.specs.Bodies.{put};

use crate::View;
use dm_event::{Key, Pair, Value};

/// The value that the pairs give the key.
pub fn written(writes: &[Pair], key: Key) -> Option<Value>
    ensures { result ≡ written writes.now key }
{
    for pair in writes {
        if pair.key == key {
            return Some(pair.value);
        }
    }
    None
}

/// What a read of the key gives: the own write, else the view's value.
pub(crate) fn seen<V: View>(writes: &[Pair], key: Key, view: &mut V) -> Value
    ensures value { result ≡ unwrap_or (written writes.now key) (V.values view.old key) }
    ensures same { V.values view.new ≡ V.values view.old }
{
    match written(writes, key) {
        Some(value) => value,
        None => view.read(key),
    }
}

/// Sets the key's value, at the key's place.
pub(crate) fn put(writes: &mut Vec<Pair>, key: Key, value: Value)
    requires { vec_len writes.old < vec_capacity writes.old }
    ensures put { writes.new.items ≡ put writes.old.items key value }
    ensures len { vec_len writes.new ≤ vec_len writes.old + 1 }
    ensures capacity { vec_capacity writes.old ≤ vec_capacity writes.new }
{
    let at = place(writes, key);
    if at < writes.len() && writes[at].key == key {
        writes[at] = Pair { key, value };
    } else if writes.insert(at, Pair { key, value }).is_err() {
        unreachable!()
    }
}

/// How many keys are below the key, from the first on.
fn place(writes: &[Pair], key: Key) -> usize
    ensures place { result ≡ prefix_len (λ pair. nat_lt pair.key key) writes.now }
    ensures bound { result ≤ length writes.now }
{
    writes.iter().take_while(|pair| pair.key < key).count()
}
