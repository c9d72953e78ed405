//! Maxima of vectors.

ghost use Rattle.std.specs.Prelude.{◌≡◌};
ghost use Rattle.dm_numbers.specs.Told.{told_join, told_commit};

use dm_event::{Entry, Vector};

/// The maximum with one vector more, if there is one for as many sites.
pub(crate) fn joined(mut vector: Vector, more: Option<Vector>) -> Vector
    ensures { result ≡ told_join vector more }
{
    if let Some(more) = more {
        if vector.as_slice().len() == more.as_slice().len() {
            vector.join(&more);
        }
    }
    vector
}

/// The entry's commit vector, if its origin is one of the sites.
pub(crate) fn commit_vector(entry: &Entry) -> Option<Vector>
    ensures { result ≡ told_commit entry.now }
{
    if 1 <= entry.origin && entry.origin as usize <= entry.begin.as_slice().len() {
        Some(entry.commit_vector())
    } else {
        None
    }
}
