//! The sites of a run.

ghost use Rattle.std.specs.Prelude.{◌≡◌, ◌+◌, ◌≤◌, ◌++◌, [], IfErr, IfOk, map, reverse, vec_capacity, vec_len};
ghost use Rattle.dm_chronicle.specs.Standing.{starts};
ghost use Rattle.dm_opening.specs.Dealing.{sites_from};
ghost use Rattle.dm_opening.specs.Making.{AreNumbered};
ghost use Rattle.dm_opening.specs.Opening.{AllEmpty};

use dm_chronicle::Named;
use dm_core::{Chron, CorePass};
use dm_event::{NoMemory, Schema, SiteNo};
use dm_logdisk::LogDisk;
use dm_redo::RedoLog;
use dm_site::Site;
use std::alloc::Global;

/// Takes sites apart again, the last first, and gives their logs back behind those that are there.
fn unmake<D: LogDisk + Drop, N: Named>(logs: &mut Vec<RedoLog<D>>, sites: Vec<Site<D, N>>)
    requires room { vec_len logs.old + vec_len sites ≤ vec_capacity logs.old }
    ensures { map (λ l. l.disk) logs.new.items ≡ map (λ l. l.disk) logs.old.items ++ map (λ s. s.disk) (reverse sites.items) }
{
    let mut sites = sites;
    while let Some(site) = sites.pop() {
        logs.push_reserved(site.into_parts().1);
    }
}

/// The sites of the schema, each with its pass and its log.
pub(crate) fn make<D: LogDisk + Drop, N: Named>(
    alloc: Global,
    schema: &Schema,
    chron: &Chron,
    passes: Vec<CorePass>,
    logs: Vec<RedoLog<D>>,
) -> Result<Vec<Site<D, N>>, (Vec<RedoLog<D>>, NoMemory)>
    requires chron { chron.now.table ≡ N.table }
    requires schema { chron.now.fixed.layout ≡ schema.now }
    requires dealt { passes.items ≡ starts chron.now.table chron.now.fixed [] (sites_from 1 schema.now.sites) }
    requires count { vec_len logs ≡ schema.now.sites }
    requires empty { AllEmpty D.story logs.items }
    requires faults { N.faults ≡ map (λ l. D.faults l.disk) logs.items }
    ensures count { IfOk result (λ sites. vec_len sites ≡ schema.now.sites) }
    ensures numbers { IfOk result (λ sites. AreNumbered 1 sites.items) }
    ensures back { IfErr result (λ e. map (λ l. l.disk) e.0.items ≡ map (λ l. l.disk) logs.items) }
{
    let mut logs = logs;
    let mut passes = passes;
    let Ok(mut sites) = Vec::with_capacity(alloc, logs.len()) else {
        return Err((logs, NoMemory));
    };
    // a schema has one site at least, and few
    let _count = schema.sites();
    while let Some(log) = logs.pop() {
        let Some(pass) = passes.pop() else {
            unreachable!();
        };
        let number = logs.len() as SiteNo + 1;
        match Site::new(alloc, number, schema, log, pass) {
            Ok(site) => sites.push_reserved(site),
            Err((log, _, _)) => {
                logs.push_reserved(log);
                unmake(&mut logs, sites);
                return Err((logs, NoMemory));
            }
        }
    }
    sites.reverse();
    Ok(sites)
}
