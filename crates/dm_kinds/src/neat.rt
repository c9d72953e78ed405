//! How many words a line has.

ghost use Rattle.std.specs.Prelude.{◌≡◌};
ghost use Rattle.dm_fields.specs.Fields.{Gives, spelled};
ghost use Rattle.dm_kinds.specs.Kinds.{word_count};

use dm_event::LineFault;
use dm_fields::{LineError, require};

/// A line that isn't neat has a word too few or too many, whatever it has.
#[tactic(auto, unfolding(crate::specs::Kinds::word_count))]
pub(crate) fn word_count(neat: bool, words: &[&[u8]], count: usize) -> Result<(), LineError>
    ensures { Gives (λ x. x) result (word_count neat (spelled words.now) count) }
{
    require(LineFault::Count, words.len() == count && neat)
}
