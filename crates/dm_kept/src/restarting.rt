//! What a site may come back with: its number of transactions, its floor and what isn't closed, with the
//! pending step that its Restart keeps counted.

ghost use Rattle.std.specs.Prelude.{◌≡◌, true, None, length, option_map, reverse, IfSome};
ghost use Rattle.dm_event.specs.Layout.{is_site};
ghost use Rattle.dm_kept.specs.Ledger.{past};
ghost use Rattle.dm_model.specs.Acts.{entries};
ghost use Rattle.dm_model.specs.Allowed.{with_kept};
ghost use Rattle.dm_model.specs.Closed.{unclosed};
ghost use Rattle.dm_model.specs.Doubts.{pending_at};
ghost use Rattle.dm_model.specs.Floors.{floor};
ghost use Rattle.dm_model.specs.Progress.{entry_count};
ghost use Rattle.dm_model.specs.Rows.{found_fits};
ghost use Rattle.dm_steps.specs.Adding.{kept_floor};

use crate::kept::Kept;
use dm_event::{Found, SiteNo, Vector};
use dm_plain::{is_of, join_one, kept_entry, kept_floor};
use dm_told::Told;

/// The number of the site's transactions, with a kept one counted.
pub(crate) fn entry_count_with_kept(kept: &Kept, site: SiteNo, found: Found) -> u64
    requires { is_site kept.now.layout site ≡ true }
    ensures { result ≡ entry_count site (with_kept site found (past kept.now)) }
{
    kept.entry_count(site) + is_of(kept_entry(found, kept.pending(site)), site)
}

/// What the site's pending step adds to its floor where it is kept.
fn pending_floor(kept: &Kept, site: SiteNo, found: Found) -> Option<Vector>
    ensures exact { result ≡ kept_floor site site found (pending_at site (past kept.now)) }
    ensures sites { IfSome result (λ vector. length vector ≡ kept.now.layout.sites) }
{
    kept.is_legal();
    kept_floor(kept.schema(), found, kept.pending(site), site, site)
}

/// The site's floor, with a kept step counted.
pub(crate) fn floor_with_kept(kept: &Kept, site: SiteNo, found: Found) -> Vector
    ensures { result ≡ floor kept.now.layout.sites (with_kept site found (past kept.now)) site }
{
    join_one(kept.floor(site), pending_floor(kept, site, found))
}

/// Whether the log may be found so.
fn found_fits(found: Found, down: bool) -> bool
    ensures { result ≡ found_fits found down }
{
    match found {
        Found::Clean => !down,
        Found::Kept | Found::Lost => down,
    }
}

/// Whether the vector is the site's floor, with a kept step counted, and its log may be found so.
fn is_floor(kept: &Kept, site: SiteNo, vector: &Vector, found: Found) -> bool
    ensures { result ≡ true → unclosed vector.now (reverse (entries (with_kept site found (past kept.now)))) ≡ None }
{
    kept.is_legal();
    found_fits(found, kept.is_down(site)) && vector.same(&floor_with_kept(kept, site, found))
}

/// The first entry for which the vector isn't closed, with a kept one counted. There is none for the
/// floor, at which a site comes back; for another vector all steps are looked at.
pub(crate) fn unclosed_with_kept(
    kept: &Kept,
    site: SiteNo,
    vector: &Vector,
    found: Found,
) -> Option<(SiteNo, u64)>
    ensures { result ≡ option_map (λ e. (e.origin, e.seq)) (unclosed vector.now (reverse (entries (with_kept site found (past kept.now))))) }
{
    if is_floor(kept, site, vector, found) {
        return None;
    }
    dm_plain::unclosed_with_kept(kept.steps(), site, vector, found)
}
