//! The states of sessions and partitions.

ghost use Rattle.std.specs.Prelude.{ℕ, ◌≡◌, ◌<◌, true, List, [], ◌∷◌, length, IfOk, option_copied};
ghost use Rattle.dm_event.specs.Layout.{Layout, is_session};
ghost use Rattle.dm_event.specs.declared.step.Step.{Step};
ghost use Rattle.dm_model.specs.Allowed.{Allowed};
ghost use Rattle.dm_model.specs.Legal.{LegalPast};
ghost use Rattle.dm_model.specs.Placings.{masters_now, may_begin_now, home_now};
ghost use Rattle.dm_state.specs.Standings.{attempt_in, replies_in, placing_in, told_replies, AreStates};
ghost use Rattle.dm_steps.specs.Next.{next_attempt, next_placing};
ghost use Rattle.dm_steps.specs.Pendings.{kept_of};

use crate::{attempts, placings, replies};
use dm_event::{Attempt, MAX_SESSIONS, NoMemory, Part, Pending, Placing, Schema, SiteNo, Step};
use std::alloc::Global;
use std::marker::Model;

/// The attempt and the number of Replies of each session, and the placing of each partition.
#[derive(Debug, Drop)]
pub struct States {
    attempts: Vec<Attempt>,
    replies: Vec<u32>,
    placings: Vec<Placing>,
}

impl Model for States {
    ghost use Rattle.dm_state.specs.Standings.{Standings};
    ghost use Rattle.dm_state.specs.StatesFields.{standings_of, HasSessions};

    ghost Value = { Standings };

    ghost view = { standings_of };

    ghost invariant = { HasSessions };
}

impl States {
    /// Every session unrouted, and every partition settled at its opening master. No later call takes
    /// memory.
    pub fn new(alloc: Global, schema: &Schema) -> Result<States, NoMemory>
        ensures { IfOk result (λ states. AreStates schema.now [] states) }
    {
        Ok(States {
            attempts: attempts::opening(alloc)?,
            replies: replies::opening(alloc)?,
            placings: placings::opening(alloc, schema)?,
        })
    }

    /// The last attempt at the session's current item.
    pub fn attempt(&self, session: u32) -> Attempt
        ensures { result ≡ attempt_in self.now session }
    {
        if 1 <= session && session <= MAX_SESSIONS {
            self.attempts[session as usize - 1]
        } else {
            attempts::idle()
        }
    }

    /// The number of the session's Replies.
    pub fn replies(&self, session: u32) -> u32
        ensures { result ≡ replies_in self.now session }
    {
        if 1 <= session && session <= MAX_SESSIONS {
            self.replies[session as usize - 1]
        } else {
            0
        }
    }

    /// Where the partition is mastered, and how far its hand-over has come.
    pub fn placing(&self, part: Part) -> Placing
        ensures { result ≡ placing_in self.now part }
    {
        let part = part as usize;
        if part < self.placings.len() {
            self.placings[part]
        } else {
            Placing::Settled { site: 0, epoch: 0 }
        }
    }

    /// Whether the site masters the partition.
    pub fn masters(&self, site: SiteNo, part: Part) -> bool
        ensures { result ≡ masters_now (placing_in self.now part) site }
    {
        match self.placing(part) {
            Placing::Settled { site: master, .. }
            | Placing::Asked { site: master, .. }
            | Placing::Granted { site: master, .. } => master == site,
            Placing::Between { .. } => false,
        }
    }

    /// Whether the site may begin a transaction on the partition.
    pub fn may_begin(&self, site: SiteNo, part: Part) -> bool
        ensures { result ≡ may_begin_now (placing_in self.now part) site }
    {
        match self.placing(part) {
            Placing::Settled { site: master, .. } | Placing::Granted { site: master, .. } => {
                master == site
            }
            Placing::Asked { .. } | Placing::Between { .. } => false,
        }
    }

    /// The partition's master, or where it has none the site that is to be.
    pub fn home(&self, part: Part) -> SiteNo
        ensures { result ≡ home_now (placing_in self.now part) }
    {
        match self.placing(part) {
            Placing::Settled { site, .. }
            | Placing::Asked { site, .. }
            | Placing::Granted { site, .. } => site,
            Placing::Between { to, .. } => to,
        }
    }

    /// Brings the states to what they are after the step. `pending` is the pending step that a Restart
    /// keeps, and None with any other step.
    pub fn apply(&mut self, step: &Step, pending: Option<&Pending>)
        ensures attempts { (session : ℕ) → is_session session ≡ true → attempt_in self.new session ≡ next_attempt session step.now (attempt_in self.old session) }
        ensures replies { (session : ℕ) → is_session session ≡ true → replies_in self.new session ≡ told_replies session step.now (replies_in self.old session) }
        ensures placings { (part : ℕ) → part < length self.old.placings → placing_in self.new part ≡ next_placing part step.now (option_copied pending.entry) (placing_in self.old part) }
        ensures parts { length self.new.placings ≡ length self.old.placings }
        ensures follows { (layout : Layout) (past : List Step) → LegalPast layout past → Allowed layout past step.now → option_copied pending.entry ≡ kept_of step.now past
            → AreStates layout past self.old → AreStates layout (step.now ∷ past) self.new }
    {
        attempts::advance(&mut self.attempts, step);
        replies::advance(&mut self.replies, step);
        placings::advance(&mut self.placings, step, pending);
    }
}
