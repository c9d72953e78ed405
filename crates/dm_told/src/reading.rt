//! The values of the keys at a vector.

ghost use Rattle.dm_model.specs.Values.{value};

use crate::told::Told;
use dm_body::View;
use dm_event::{Key, Value, Vector};

/// The values of the keys at a vector.
#[derive(Drop)]
pub struct Reading<'a, T> {
    pub told: &'a T,
    pub at: &'a Vector,
}

impl<T: Told> View for Reading<'_, T> {
    ghost values = { λ r key. value (T.layout r.told.now) (T.past r.told.now) key r.at.now };

    fn read(&mut self, key: Key) -> Value {
        self.told.value(key, self.at)
    }
}
