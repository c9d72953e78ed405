//! Sets of partitions.

ghost use Rattle.std.specs.List.{list_any};
ghost use Rattle.std.specs.Prelude.{◌≡◌, ◌==◌, ◌<◌, []};
ghost use Rattle.dm_event.specs.Parts.{with_part, in_order};

use crate::{MAX_PARTS, Part};
use std::marker::Model;

/// A set of partitions. Contracts see it as the ascending list of them.
#[derive(Clone, Copy, Debug, PartialEq, Eq)]
pub struct PartSet {
    words: [u64; 4],
}

impl Model for PartSet {
    ghost use Rattle.std.specs.Prelude.{ℕ, List};
    ghost use Rattle.dm_event.specs.PartFields.{parts_of, set_of, HasBits, set_of-parts};

    ghost Value = { List ℕ };

    ghost view = { parts_of };

    ghost invariant = { HasBits };

    ghost inverse = { set_of };

    ghost inverse_ok = { set_of-parts };
}

impl PartSet {
    pub fn empty() -> PartSet
        ensures { result ≡ [] }
    {
        PartSet { words: [0; 4] }
    }

    /// Puts the partition in.
    pub fn add(&mut self, part: Part)
        requires { part < MAX_PARTS }
        ensures { self.new ≡ with_part part self.old }
    {
        self.words[(part / 64) as usize] |= 1 << (part % 64);
    }

    pub fn holds(&self, part: Part) -> bool
        requires { part < MAX_PARTS }
        ensures exact { result ≡ list_any (λ p. p == part) self.now }
        ensures ascends { self.now ≡ in_order self.now }
    {
        (self.words[(part / 64) as usize] >> (part % 64)) & 1 == 1
    }
}
