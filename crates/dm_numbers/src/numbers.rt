//! The numbers of sites and sessions.

ghost use Rattle.std.specs.Prelude.{ℕ, ◌≡◌, ◌<◌, ◌^◌, true, List, [], ◌∷◌, IfOk, length, option_copied};
ghost use Rattle.dm_event.specs.Layout.{Layout, is_between, is_session};
ghost use Rattle.dm_event.specs.declared.step.Step.{Step};
ghost use Rattle.dm_model.specs.Allowed.{Allowed};
ghost use Rattle.dm_model.specs.Legal.{LegalPast};
ghost use Rattle.dm_numbers.specs.Counted.{AreNumbers, site_in, session_in, told_site, told_session};
ghost use Rattle.dm_steps.specs.Naming.{named_in};
ghost use Rattle.dm_steps.specs.Pendings.{kept_of};

use crate::{SessionNumbers, SiteNumbers, session, site};
use dm_event::{Entry, MAX_SESSIONS, NoMemory, Pending, Schema, SiteNo, Step, Vector};
use std::alloc::Global;
use std::marker::Model;

/// How far each site has come, and what each session has seen.
#[derive(Debug, Drop)]
pub struct Numbers {
    sites: Vec<SiteNumbers>,
    sessions: Vec<SessionNumbers>,
}

impl Model for Numbers {
    ghost use Rattle.dm_numbers.specs.Counted.{Counted};
    ghost use Rattle.dm_numbers.specs.NumbersFields.{counted_of, AreFew};

    ghost Value = { Counted };

    ghost view = { counted_of };

    ghost invariant = { AreFew };
}

impl Numbers {
    /// No site has come anywhere, and no session has seen anything. No later call takes memory.
    pub fn new(alloc: Global, schema: &Schema) -> Result<Numbers, NoMemory>
        ensures { IfOk result (λ numbers. AreNumbers schema.now [] numbers) }
    {
        Ok(Numbers {
            sites: site::opening(alloc, schema)?,
            sessions: session::opening(alloc, schema)?,
        })
    }

    /// How far the site has come.
    pub fn site(&self, site: SiteNo) -> SiteNumbers
        ensures { result ≡ site_in self.now site }
    {
        if 1 <= site && site as usize <= self.sites.len() {
            self.sites[site as usize - 1]
        } else {
            let zeros = Vector::zeros(self.sites.len() as u8);
            SiteNumbers {
                vector: zeros,
                floor: zeros,
                down: false,
            }
        }
    }

    /// What the session has seen.
    pub fn session(&self, session: u32) -> SessionNumbers
        ensures { result ≡ session_in self.now session }
    {
        if 1 <= session && session <= MAX_SESSIONS {
            self.sessions[session as usize - 1]
        } else {
            SessionNumbers {
                seen: Vector::zeros(self.sites.len() as u8),
                begin: None,
                routes: 0,
            }
        }
    }

    /// Brings the numbers to what they are after the step. `pending` is the pending step that a Restart
    /// keeps, and `entry` the entry that a Reply names; each is None with any other step.
    pub fn apply(&mut self, step: &Step, pending: Option<&Pending>, entry: Option<&Entry>)
        ensures sites { (site : ℕ) → is_between 1 (length self.old.sites) site ≡ true
            → site_in self.new site ≡ told_site site step.now (option_copied pending.entry) (site_in self.old site) }
        ensures sessions { (session : ℕ) → is_session session ≡ true
            → session_in self.new session ≡ told_session session step.now (option_copied entry.entry) (session_in self.old session) }
        ensures many { length self.new.sites ≡ length self.old.sites }
        ensures follows { (layout : Layout) (past : List Step) → LegalPast layout past → Allowed layout past step.now → length past < 2 ^ 63
            → option_copied pending.entry ≡ kept_of step.now past → option_copied entry.entry ≡ named_in step.now past
            → AreNumbers layout past self.old → AreNumbers layout (step.now ∷ past) self.new }
    {
        site::advance(&mut self.sites, step, pending);
        session::advance(&mut self.sessions, step, entry);
    }
}
