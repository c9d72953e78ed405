//! Restarts.

ghost use Rattle.std.specs.Prelude.{◌≡◌, IfErr, IsTrue, OnOk};
ghost use Rattle.dm_event.specs.Layout.{is_site};
ghost use Rattle.dm_event.specs.declared.actor.Actor.TheVariants.{Session};
ghost use Rattle.dm_invariant.specs.Stations.{IsPassOf, Rested, Went, layout_of};
ghost use Rattle.dm_site.specs.Answers.{IsRoutedIn, MayRestart};
ghost use Rattle.dm_sites.specs.Stages.{RestartedFor, RoutedHere, StoppedAs};

use crate::sites::{SiteLock, Sites};
use crate::stop::Stop;
use crate::waiting::stuck;
use dm_chronicle::Named;
use dm_core::CorePass;
use dm_event::{SiteNo, TxnId};
use dm_logdisk::LogDisk;
use dm_site::{RestartAnswer, Site};
use std::sync::Wait;

impl<D: LogDisk, N: Named> Sites<D, N> {
    /// Restarts the site, whose lock is held, and wakes who waits there. A site that was found down is restarted under the lock under which
    /// it was found so.
    pub(crate) fn bring_up<R: Wait>(
        &self,
        rt: &R,
        at: &SiteLock<D, N>,
        site: &mut Site<D, N>,
        own: &mut CorePass,
        on: TxnId,
    ) -> Result<(), Stop>
        requires own { IsPassOf N.table on.session own.old }
        requires schema { layout_of own.old ≡ self.now.schema }
        requires there { IsTrue (is_site self.now.schema site.old.number) }
        requires routed { IsRoutedIn own.old on }
        requires may { MayRestart site.old.number site.old.pass on own.old }
        ensures number { site.new.number ≡ site.old.number }
        ensures went { Went own.old own.new }
        ensures up { OnOk result (RestartedFor on site.old.number own.old own.new) }
        ensures stopped { IfErr result (StoppedAs on own.old own.new) }
    {
        match site.restart(rt, &self.chron, self.alloc, own, on)? {
            RestartAnswer::Restarted { .. } => {
                at.bell.notify_all();
                Ok(())
            }
            RestartAnswer::Failed { cause } => Err(Stop::Failed { cause }),
        }
    }

    /// Restarts the site, for which the attempt is routed.
    pub fn restart_at<R: Wait>(
        &self,
        rt: &R,
        own: &mut CorePass,
        on: TxnId,
        site: SiteNo,
    ) -> Result<(), Stop>
        requires own { IsPassOf N.table on.session own.old }
        requires schema { layout_of own.old ≡ self.now.schema }
        requires routed { RoutedHere on site own.old }
        ensures went { Went own.old own.new }
        ensures restarted { OnOk result (RestartedFor on site own.old own.new) }
        ensures stopped { IfErr result (StoppedAs on own.old own.new) }
    {
        let at = self.lock_of(rt, site);
        let mut guard = at.lock.lock(rt);
        if guard.number != site {
            stuck(rt);
            unreachable!()
        }
        self.bring_up(rt, at, &mut guard.site, own, on)
    }
}
