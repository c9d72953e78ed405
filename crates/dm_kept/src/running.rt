//! Which attempts run where, by what is kept of them.

ghost use Rattle.std.specs.Prelude.{◌≡◌};
ghost use Rattle.dm_kept.specs.Ledger.{past};
ghost use Rattle.dm_kept.specs.Telling.{site_of, site_told, held_by, runs_on};
ghost use Rattle.dm_model.specs.Allowed.{holder, runner};

use crate::kept::Kept;
use dm_event::{Attempt, AttemptState, Key, Part, SiteNo, TxnId};
use dm_plain::common_key;
use dm_runs::Run;
use dm_told::{Told, has_part};

fn site_of(count: u8, state: AttemptState) -> Option<SiteNo>
    ensures { result ≡ site_of count state }
{
    match state {
        AttemptState::Running { site } if 1 <= site && site <= count => Some(site),
        _ => None,
    }
}

/// The site at which the attempt runs, where its session's last attempt stands so.
pub(crate) fn site_told(count: u8, last: Attempt, txn: TxnId) -> Option<SiteNo>
    ensures { result ≡ site_told count last txn }
{
    if txn.same(&last.txn?) {
        site_of(count, last.state)
    } else {
        None
    }
}

/// The attempt with the first of the keys that it declares too, where it runs at the site.
fn held_by(kept: &Kept, run: Run, site: SiteNo, keys: &[Key]) -> Option<(TxnId, Key)>
    ensures { result ≡ held_by run site keys.now (past kept.now) }
{
    if run.site == site {
        let key = common_key(keys, kept.last_keys(run.txn.session))?;
        Some((run.txn, key))
    } else {
        None
    }
}

/// The earliest begun attempt that runs at the site and declares one of the keys, with the first such
/// key.
pub(crate) fn holder(kept: &Kept, site: SiteNo, keys: &[Key]) -> Option<(TxnId, Key)>
    ensures { result ≡ holder site keys.now (past kept.now) }
{
    kept.is_legal();
    let runs = kept.runs();
    for run in runs {
        if let Some(found) = held_by(kept, *run, site, keys) {
            return Some(found);
        }
    }
    None
}

/// The attempt, where it runs at the site and declares a key of the partition.
fn runs_on(kept: &Kept, run: Run, site: SiteNo, part: Part) -> Option<TxnId>
    ensures { result ≡ runs_on kept.now.layout (past kept.now) run site part }
{
    if run.site == site && has_part(kept.schema(), kept.last_keys(run.txn.session), part) {
        Some(run.txn)
    } else {
        None
    }
}

/// The earliest begun attempt that runs at the site and declares a key of the partition.
pub(crate) fn runner(kept: &Kept, site: SiteNo, part: Part) -> Option<TxnId>
    ensures { result ≡ runner kept.now.layout (past kept.now) site part }
{
    kept.is_legal();
    let runs = kept.runs();
    for run in runs {
        if let Some(txn) = runs_on(kept, *run, site, part) {
            return Some(txn);
        }
    }
    None
}
