//! What the fields have.

ghost use Rattle.std.specs.Prelude.{◌≡◌, option_copied};
ghost use Rattle.dm_aims.specs.Aiming.{aim_of};
ghost use Rattle.dm_kept.specs.Ledger.{past};
ghost use Rattle.dm_kept.specs.Telling.{last_keys};
ghost use Rattle.dm_model.specs.Doubts.{pending_at};
ghost use Rattle.dm_model.specs.Floors.{floor};
ghost use Rattle.dm_runs.specs.Running.{AreRuns};

use super::Kept;
use crate::reading;
use dm_aims::Aim;
use dm_event::{Key, Pending, SiteNo, Step, Vector};
use dm_plain::wanted_keys;
use dm_runs::Run;

impl Kept {
    /// The steps so far, the earliest first.
    pub fn steps(&self) -> &[Step]
        ensures { result.now ≡ self.now.steps }
    {
        &self.steps
    }

    /// The steps so far, the earliest first.
    pub fn into_steps(self) -> Vec<Step>
        ensures { result.items ≡ self.steps }
    {
        let Kept { steps, .. } = self;
        steps
    }

    /// The attempts that run, the earliest begun first.
    pub(crate) fn runs(&self) -> &[Run]
        ensures { AreRuns (past self.now) result.now }
    {
        self.runs.as_slice()
    }

    /// The keys that the session's last Route declares.
    pub(crate) fn last_keys(&self, session: u32) -> &[Key]
        ensures { result.now ≡ last_keys session (past self.now) }
    {
        match reading::want_at(&self.steps, self.index.route(session), session) {
            Some(want) => wanted_keys(want),
            None => &[],
        }
    }

    /// What the session's last Route is for, and what has come of it.
    pub(crate) fn aim(&self, session: u32) -> Option<Aim>
        ensures { result ≡ aim_of self.now.layout (past self.now) session }
    {
        self.aims.aim(session)
    }

    /// The pending step of the site's last Doubt.
    pub fn pending(&self, site: SiteNo) -> Option<&Pending>
        ensures { option_copied result ≡ pending_at site (past self.now) }
    {
        reading::pending_at(&self.steps, self.index.doubt(site), site)
    }

    /// What the site may not lose.
    pub fn floor(&self, site: SiteNo) -> Vector
        ensures { result ≡ floor self.now.layout.sites (past self.now) site }
    {
        self.numbers.site(site).floor
    }
}
