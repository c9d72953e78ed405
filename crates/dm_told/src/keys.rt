//! Keys and their partitions.

ghost use Rattle.std.specs.Prelude.{◌≡◌, ◌==◌, ◌≤◌, ◌/◌, true, length};
ghost use Rattle.std.specs.List.{list_all, list_any};
ghost use Rattle.dm_event.specs.Layout.{is_between};
ghost use Rattle.dm_model.specs.Choices.{parts_in_order};
ghost use Rattle.dm_model.specs.Tests.{is_among};

use crate::told::Told;
use dm_event::{Key, MAX_PARTS, MAX_SITES, Part, Schema, Weights};

/// The number of sites.
pub fn sites<T: Told>(told: &T) -> u8
    ensures same { result ≡ (T.layout told.now).sites }
    ensures limits { (1 ≤ result) × (result ≤ MAX_SITES) }
{
    told.schema().sites()
}

/// The number of partitions.
pub fn parts<T: Told>(told: &T) -> u16
    ensures same { result ≡ length (T.layout told.now).masters }
    ensures limits { (1 ≤ result) × (result ≤ MAX_PARTS) }
    ensures masters { list_all (is_between 1 (T.layout told.now).sites) (T.layout told.now).masters ≡ true }
{
    told.schema().parts()
}

/// The weights of the scores.
pub fn weights<T: Told>(told: &T) -> Weights
    ensures { result ≡ (T.layout told.now).weights }
{
    told.schema().weights()
}

fn is_of(schema: &Schema, key: Key, part: Part) -> bool
    ensures { result ≡ ((key / schema.now.width) == part) }
{
    key / schema.width() == u32::from(part)
}

fn is_any_of(schema: &Schema, keys: &[Key], part: Part) -> bool
    ensures { result ≡ list_any (λ key. (key / schema.now.width) == part) keys.now }
{
    keys.iter().any(|key| is_of(schema, *key, part))
}

/// Whether one of the keys is of the partition.
#[tactic(auto, using(dm_steps::proofs::Finding::any_part))]
pub fn has_part(schema: &Schema, keys: &[Key], part: Part) -> bool
    ensures { result ≡ is_among (parts_in_order schema.now keys.now) part }
{
    is_any_of(schema, keys, part)
}
