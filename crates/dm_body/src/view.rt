//! The values that a transaction reads.

ghost use Rattle.std.specs.Prelude.{◌≡◌, ℕ, ℤ};

use dm_event::{Key, Value};

/// One value for each key.
pub trait View {
    ghost values: { Self → ℕ → ℤ };

    /// The key's value. A read may change what the view keeps for itself, and no value.
    fn read(&mut self, key: Key) -> Value
        ensures value { result ≡ values self.old key }
        ensures same { values self.new ≡ values self.old };
}
