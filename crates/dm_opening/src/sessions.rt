//! The sessions of a run.

ghost use Rattle.std.specs.Prelude.{◌≡◌, ◌≤◌, [], IfOk, length};
ghost use Rattle.dm_chronicle.specs.Standing.{starts};
ghost use Rattle.dm_event.specs.declared.limits.TheConstants.{MAX_SESSIONS};
ghost use Rattle.dm_opening.specs.Dealing.{ids_from, sessions_of};
ghost use Rattle.dm_opening.specs.Opening.{AreNew};

use dm_chronicle::Named;
use dm_core::{Chron, CorePass};
use dm_event::NoMemory;
use dm_session::Session;
use std::alloc::Global;

/// The sessions with these numbers, each with its pass.
pub(crate) fn open_all<N: Named>(
    alloc: Global,
    chron: &Chron,
    sites: u8,
    ids: Vec<u32>,
    passes: Vec<CorePass>,
) -> Result<Vec<Session<N>>, NoMemory>
    requires chron { chron.now.table ≡ N.table }
    requires sites { (1 ≤ sites) × (sites ≤ 8) × (chron.now.fixed.layout.sites ≡ sites) }
    requires count { length chron.now.fixed.items ≡ MAX_SESSIONS }
    requires ids { ids.items ≡ ids_from 1 chron.now.fixed.items }
    requires dealt { passes.items ≡ starts chron.now.table chron.now.fixed [] (sessions_of ids.items) }
    ensures { IfOk result (λ sessions. AreNew N.table chron.now.fixed ids.items sessions.items) }
{
    let mut sessions = Vec::with_capacity(alloc, ids.len())?;
    let mut ids = ids;
    let mut passes = passes;
    while let Some(pass) = passes.pop() {
        let Some(id) = ids.pop() else {
            unreachable!();
        };
        sessions.push(Session::new(id, pass, sites))?;
    }
    sessions.reverse();
    Ok(sessions)
}
