//! What an applier does.

use crate::sites::Sites;
use dm_chronicle::Named;
use dm_event::{NoMemory, SiteNo};
use dm_logdisk::LogDisk;
use dm_site::RefreshAnswer;
use std::sync::Wait;

impl<D: LogDisk, N: Named> Sites<D, N> {
    /// Has the site take over the next transaction of another one, and wakes who waits there. The answer is a hint.
    pub fn refresh_at<R: Wait>(&self, rt: &R, site: SiteNo) -> Result<RefreshAnswer, NoMemory> {
        let at = self.lock_of(rt, site);
        let mut guard = at.lock.lock(rt);
        let answer = guard.site.refresh_one(rt, &self.chron)?;
        at.bell.notify_all();
        Ok(answer)
    }
}
