//! Sites, each behind a lock.

ghost use Rattle.std.specs.Prelude.{◌≡◌, vec_len, IsTrue};
ghost use Rattle.dm_event.specs.Layout.{is_site};

use crate::waiting::stuck;
use dm_chronicle::Named;
use dm_core::Chron;
use dm_event::{Schema, SiteNo};
use dm_logdisk::LogDisk;
use dm_site::Site;
use std::alloc::Global;
use std::sync::{Condvar, Mutex, Wait};

/// A site with its number.
#[derive(Drop)]
pub struct Numbered<D: LogDisk, N: Named> {
    pub number: SiteNo,
    pub site: Site<D, N>,
    ghost same: { site.number ≡ number },
}

/// A site behind its lock, with the bell for those who wait there.
#[derive(Drop)]
pub struct SiteLock<D: LogDisk, N: Named> {
    pub lock: Mutex<Numbered<D, N>>,
    pub bell: Condvar,
}

/// All sites, in order, over one chronicle, which N names.
#[derive(Drop)]
pub struct Sites<D: LogDisk, N: Named> {
    pub alloc: Global,
    pub schema: Schema,
    pub chron: Chron,
    pub locks: Vec<SiteLock<D, N>>,
    ghost named: { chron.table ≡ N.table },
    ghost count: { vec_len locks ≡ schema.sites },
}

impl<D: LogDisk, N: Named> Sites<D, N> {
    /// The lock at the site's place.
    pub(crate) fn lock_of<R: Wait>(&self, rt: &R, site: SiteNo) -> &SiteLock<D, N>
        ensures { IsTrue (is_site self.now.schema site) }
    {
        if 1 <= site && usize::from(site) <= self.locks.len() {
            &self.locks[usize::from(site) - 1]
        } else {
            stuck(rt);
            unreachable!()
        }
    }
}
