//! The value of a key at a vector.

ghost use Rattle.std.specs.Prelude.{◌≡◌, reverse, option_copied};
ghost use Rattle.dm_model.specs.Acts.{entries};
ghost use Rattle.dm_model.specs.Values.{newest, value};
ghost use Rattle.dm_steps.specs.Adding.{written_by};

use crate::acts::entry_of;
use dm_body::written;
use dm_event::{Entry, Key, Schema, Step, Value, Vector};

/// What the last writer of the key inside the vector wrote, else the key's opening value.
pub fn value(schema: &Schema, steps: &[Step], key: Key, at: &Vector) -> Value
    ensures { result ≡ value schema.now (reverse steps.now) key at.now }
{
    match newest(steps, key, at) {
        Some(value) => value,
        None => schema.opening(key),
    }
}

/// What the last writer of the key inside the vector wrote.
fn newest(steps: &[Step], key: Key, at: &Vector) -> Option<Value>
    ensures { result ≡ newest (entries (reverse steps.now)) key at.now }
{
    let mut last = None;
    for i in 0..steps.len() {
        last = written_by(entry_of(&steps[i], &steps[..i]), key, at).or(last);
    }
    last
}

fn written_by(entry: Option<&Entry>, key: Key, at: &Vector) -> Option<Value>
    ensures { result ≡ written_by key at.now (option_copied entry.entry) }
{
    match entry {
        Some(entry) if entry.seq <= at.get(entry.origin) => written(entry.writes.as_slice(), key),
        _ => None,
    }
}
