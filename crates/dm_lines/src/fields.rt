//! Lists of numbers in a line.

ghost use Rattle.std.specs.Prelude.{◌≡◌, ◌-◌, ◌^◌, []};
ghost use Rattle.dm_fields.specs.Fields.{Gives, spelled};
ghost use Rattle.dm_lines.specs.Fields.{numbers_from};

use dm_event::{Key, SiteNo};
use dm_fields::{LineError, canonical};
use std::alloc::Global;

/// The keys that the words say.
#[tactic(auto, unfolding(crate::specs::Fields::numbers_from))]
pub(crate) fn keys_of(alloc: Global, words: &[&[u8]]) -> Result<Vec<Key>, LineError>
    ensures { Gives (λ v. v.items) result (numbers_from [] (2 ^ 32 - 1) (spelled words.now)) }
{
    let mut keys = Vec::new(alloc);
    for word in words {
        keys.push(canonical(word, u64::from(u32::MAX))? as u32)?;
    }
    Ok(keys)
}

/// The sites that the words say.
#[tactic(auto, unfolding(crate::specs::Fields::numbers_from))]
pub(crate) fn sites_of(alloc: Global, words: &[&[u8]]) -> Result<Vec<SiteNo>, LineError>
    ensures { Gives (λ v. v.items) result (numbers_from [] (2 ^ 8 - 1) (spelled words.now)) }
{
    let mut sites = Vec::new(alloc);
    for word in words {
        sites.push(canonical(word, u64::from(u8::MAX))? as u8)?;
    }
    Ok(sites)
}
