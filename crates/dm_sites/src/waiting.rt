//! Where a call can't go on.

use std::sync::Wait;

/// Waits for ever. It is called where a lock doesn't hold what it was given at the opening, of which no type tells.
pub fn stuck<R: Wait>(rt: &R)
    ensures { ⊥ }
{
    for _ in rt.forever() {}
    unreachable!()
}
