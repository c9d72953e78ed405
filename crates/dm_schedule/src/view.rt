//! The values that an attempt reads.

ghost use Rattle.dm_core.specs.Ledger.{past};
ghost use Rattle.dm_model.specs.Values.{value};

use dm_body::View;
use dm_core::Book;
use dm_event::{Key, Value, Vector};

/// The values of the book's keys at a vector.
#[derive(Drop)]
pub(crate) struct At<'a> {
    pub(crate) book: &'a Book,
    pub(crate) vector: Vector,
}

impl View for At<'_> {
    ghost values = { λ at key. value at.book.now.layout (past at.book.now) key at.vector };

    fn read(&mut self, key: Key) -> Value {
        self.book.value(key, &self.vector)
    }
}
