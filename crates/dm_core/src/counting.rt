//! How many transactions there are.

ghost use Rattle.std.specs.Prelude.{◌≡◌};
ghost use Rattle.dm_core.specs.Ledger.{past};
ghost use Rattle.dm_model.specs.Progress.{full};

use dm_event::Vector;
use dm_kept::Kept;
use dm_told::{Told, sites};

/// The number of committed update transactions of each origin.
pub(crate) fn full(kept: &Kept) -> Vector
    ensures { result ≡ full kept.now.layout.sites (past kept.now) }
{
    let mut vector = Vector::zeros(sites(kept));
    for origin in 1..sites(kept) + 1 {
        vector.set(origin, kept.entry_count(origin));
    }
    vector
}
