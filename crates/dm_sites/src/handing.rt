//! What a hand-over does at one of its sites.

ghost use Rattle.std.specs.Prelude.{◌≡◌, IfErr, IfOk, IsTrue};
ghost use Rattle.dm_event.specs.Layout.{is_part};
ghost use Rattle.dm_invariant.specs.Stations.{IsPassOf, Went, layout_of};
ghost use Rattle.dm_site.specs.Answers.{IsRoutedIn};
ghost use Rattle.dm_sites.specs.Stages.{FreedAs, GivenAs, StoppedAs};

use crate::sites::Sites;
use crate::stop::Stop;
use crate::waiting::stuck;
use dm_chronicle::Named;
use dm_core::CorePass;
use dm_event::{Part, Placing, SiteNo, TxnId};
use dm_logdisk::LogDisk;
use dm_site::{GrantAnswer, ReleaseAnswer};
use std::sync::Wait;

/// How a release went.
#[derive(Debug, Drop)]
pub enum Freed {
    Released,
    /// The partition isn't asked away from the site.
    Passed { now: Placing },
}

/// How a grant went.
#[derive(Debug, Drop)]
pub enum Given {
    Granted,
    /// The partition isn't on its way to the site.
    Passed { now: Placing },
}

impl<D: LogDisk, N: Named> Sites<D, N> {
    /// Has the site release the partition, once no attempt runs there that declares a key of it.
    pub fn release_at<R: Wait>(
        &self,
        rt: &R,
        own: &mut CorePass,
        on: TxnId,
        site: SiteNo,
        part: Part,
    ) -> Result<Freed, Stop>
        requires own { IsPassOf N.table on.session own.old }
        requires schema { layout_of own.old ≡ self.now.schema }
        requires routed { IsRoutedIn own.old on }
        requires part { IsTrue (is_part (layout_of own.old) part) }
        ensures went { Went own.old own.new }
        ensures freed { IfOk result (FreedAs on part own.old own.new) }
        ensures stopped { IfErr result (StoppedAs on own.old own.new) }
    {
        let at = self.lock_of(rt, site);
        let mut guard = at.lock.lock(rt);
        for _ in rt.forever() {
            if guard.number != site {
                stuck(rt);
                unreachable!()
            }
            match guard
                .site
                .release(rt, &self.chron, self.alloc, own, on, part)?
            {
                ReleaseAnswer::Released { .. } => {
                    at.bell.notify_all();
                    return Ok(Freed::Released);
                }
                ReleaseAnswer::Running { .. } => guard = at.bell.wait(rt, guard),
                ReleaseAnswer::Passed { now } => return Ok(Freed::Passed { now }),
                ReleaseAnswer::Failed { cause } => return Err(Stop::Failed { cause }),
                ReleaseAnswer::Down | ReleaseAnswer::InDoubt => {
                    self.bring_up(rt, at, &mut guard.site, own, on)?;
                }
            }
        }
        unreachable!()
    }

    /// Has the site take the partition over.
    pub fn grant_at<R: Wait>(
        &self,
        rt: &R,
        own: &mut CorePass,
        on: TxnId,
        site: SiteNo,
        part: Part,
    ) -> Result<Given, Stop>
        requires own { IsPassOf N.table on.session own.old }
        requires schema { layout_of own.old ≡ self.now.schema }
        requires routed { IsRoutedIn own.old on }
        requires part { IsTrue (is_part (layout_of own.old) part) }
        ensures went { Went own.old own.new }
        ensures given { IfOk result (GivenAs on part own.old own.new) }
        ensures stopped { IfErr result (StoppedAs on own.old own.new) }
    {
        let at = self.lock_of(rt, site);
        let mut guard = at.lock.lock(rt);
        for _ in rt.forever() {
            if guard.number != site {
                stuck(rt);
                unreachable!()
            }
            match guard
                .site
                .grant(rt, &self.chron, self.alloc, own, on, part)?
            {
                GrantAnswer::Granted => {
                    at.bell.notify_all();
                    return Ok(Given::Granted);
                }
                GrantAnswer::Passed { now } => return Ok(Given::Passed { now }),
                GrantAnswer::Failed { cause } => return Err(Stop::Failed { cause }),
                GrantAnswer::Down | GrantAnswer::InDoubt => {
                    self.bring_up(rt, at, &mut guard.site, own, on)?;
                }
            }
        }
        unreachable!()
    }
}
