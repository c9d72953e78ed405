//! The store that a site starts again with.

ghost use Rattle.std.specs.List.{AllByRecursion};
ghost use Rattle.std.specs.Prelude.{◌≡◌, ◌≤◌, ◌<◌, ◌^◌, ◌++◌, ◌∷◌, [], ℕ, length, map, option_map, IsTrue, IfOk, OnOk, find};
ghost use Rattle.dm_event.specs.declared.step.Pair.{Pair};
ghost use Rattle.dm_event.specs.declared.limits.TheConstants.{MAX_KEYS};
ghost use Rattle.dm_model.specs.Shape.{is_ascending};
ghost use Rattle.dm_record.specs.Bytes.{HasRanges};
ghost use Rattle.dm_restart.specs.Floors.{floor_of};
ghost use Rattle.dm_restart.specs.Plans.{numbers_of, commits_of, is_numbered_above, completed, ReachesFloor};
ghost use Rattle.dm_store.specs.Known.{AreKnown};
ghost use Rattle.dm_store.specs.Rising.{is_above, may_install};

use crate::floors::floor;
use crate::start::Plan;
use dm_event::{NoMemory, Pairs, Schema, SiteNo};
use dm_record::Record;
use dm_store::{Past, Store};
use std::alloc::Global;

/// How many of the transactions are of the site.
fn count_of(site: SiteNo, past: &[Past]) -> u64
    ensures exact { result ≡ length (numbers_of site past.now) }
    ensures few { result ≤ length past.now }
    ensures memory { length past.now < 2 ^ 63 }
{
    let mut count = 0;
    for transaction in past {
        if transaction.origin == site {
            count += 1;
        }
    }
    count
}

/// The number and the writes of the first commit that is numbered above this.
fn above(own: &[Record], last: u64) -> Option<(u64, &Pairs)>
    ensures { (site : ℕ) → option_map (λ c. record { origin = site; seq = c.0; writes = c.1.now }) result ≡ find (is_numbered_above last) (commits_of site own.now) }
{
    for record in own {
        if let Record::Commit { seq, writes, .. } = record {
            if last < *seq {
                return Some((*seq, writes));
            }
        }
    }
    None
}

/// Installs a transaction of the site behind the others.
fn install(store: &mut Store, site: SiteNo, seq: u64, writes: &Pairs) -> Result<(), NoMemory>
    requires few { length writes.now ≤ MAX_KEYS }
    requires ascending { IsTrue (is_ascending (map (λ (p : Pair). p.key) writes.now)) }
    requires rising { IsTrue (is_above store.old.installed site seq) }
    requires known { AllByRecursion (λ t. AreKnown store.old.known t.writes) store.old.installed }
    ensures installed { OnOk result (store.new.installed ≡ store.old.installed ++ record { origin = site; seq = seq; writes = writes.now } ∷ []) }
    ensures known { OnOk result (AllByRecursion (λ t. AreKnown store.new.known t.writes) store.new.installed) }
    ensures layout { store.new.layout ≡ store.old.layout }
{
    store.know_each(writes.as_slice())?;
    store.reserve(1)?;
    store.install(site, seq, writes);
    Ok(())
}

/// What the site starts again with: the floor of its own records, and the store in which the past is
/// installed, and behind it the commit of its own that the past lacks.
pub fn plan(
    alloc: Global,
    schema: &Schema,
    site: SiteNo,
    own: &[Record],
    past: &[Past],
) -> Result<Plan, NoMemory>
    requires site { 1 ≤ site }
    requires own { AllByRecursion HasRanges own.now }
    requires past { IsTrue (may_install [] past.now) }
    requires whole { ReachesFloor schema.now.sites site own.now past.now }
    ensures vector { IfOk result (λ plan. plan.vector ≡ floor_of schema.now.sites site own.now) }
    ensures installed { IfOk result (λ plan. plan.store.installed ≡ completed site own.now past.now) }
    ensures known { IfOk result (λ plan. AllByRecursion (λ t. AreKnown plan.store.known t.writes) plan.store.installed) }
    ensures layout { IfOk result (λ plan. plan.store.layout ≡ schema.now) }
{
    let vector = floor(schema.sites(), site, own);
    let mut store = Store::rebuild(alloc, schema, past)?;
    if let Some((seq, writes)) = above(own, count_of(site, past)) {
        install(&mut store, site, seq, writes)?;
    }
    Ok(Plan { store, vector })
}
