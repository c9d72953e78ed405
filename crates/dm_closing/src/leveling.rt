//! Sites that catch up before the end.

ghost use Rattle.std.specs.Prelude.{◌≡◌, IsTrue};
ghost use Rattle.dm_closing.specs.Closed.{AllLevel, IsLevel};
ghost use Rattle.dm_event.specs.Layout.{is_site};

use dm_chronicle::Named;
use dm_core::Book;
use dm_event::{NoMemory, SiteNo};
use dm_logdisk::LogDisk;
use dm_site::RefreshAnswer;
use dm_sites::{SiteLock, Sites};
use std::sync::Wait;

/// The site takes over all that was committed, as long as it is up.
fn catch_up<D: LogDisk, N: Named, R: Wait>(
    sites: &Sites<D, N>,
    rt: &R,
    at: &SiteLock<D, N>,
) -> Result<(), NoMemory> {
    let mut guard = at.lock.lock(rt);
    for _ in rt.forever() {
        match guard.site.refresh_one(rt, &sites.chron)? {
            RefreshAnswer::Applied { .. } => {}
            RefreshAnswer::Nothing | RefreshAnswer::Down => return Ok(()),
        }
    }
    unreachable!()
}

/// Each site takes over all that was committed.
pub(crate) fn catch_up_all<D: LogDisk, N: Named, R: Wait>(
    sites: &Sites<D, N>,
    rt: &R,
) -> Result<(), NoMemory> {
    for at in sites.locks.iter() {
        catch_up(sites, rt, at)?;
    }
    Ok(())
}

/// Whether the site is down, or has all that was committed.
fn is_level_at(book: &Book, site: SiteNo) -> bool
    requires { IsTrue (is_site book.now.layout site) }
    ensures { IsTrue result → IsLevel book.now.layout book.now.steps site }
{
    book.is_down(site) || book.next_refresh(site).is_none()
}

/// Whether every site that is up has all that was committed.
pub(crate) fn is_level(book: &Book) -> bool
    ensures { IsTrue result → AllLevel book.now.layout book.now.steps }
{
    let sites = book.schema().sites();
    for before in 0..sites {
        if !is_level_at(book, before + 1) {
            return false;
        }
    }
    true
}
