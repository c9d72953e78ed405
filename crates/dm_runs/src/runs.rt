//! The attempts that run at the sites.

ghost use Rattle.std.specs.Prelude.{ℕ, ◌≡◌, ◌+◌, ◌<◌, ◌≤◌, ◌∷◌, [], List, true, OnOk, vec_len, vec_capacity};
ghost use Rattle.dm_event.specs.Layout.{Layout};
ghost use Rattle.dm_event.specs.declared.step.Step.{Step};
ghost use Rattle.dm_model.specs.Legal.{LegalPast};
ghost use Rattle.dm_runs.specs.Next.{but, elsewhere, is_begin, next_runs};
ghost use Rattle.dm_runs.specs.Running.{AreRuns};

use crate::run::Run;
use dm_event::{NoMemory, SiteNo, Step, TxnId};
use std::alloc::Global;
use std::marker::Model;

/// The attempts that run, the earliest begun first.
#[derive(Drop)]
pub struct Runs {
    list: Vec<Run>,
}

impl Model for Runs {
    ghost use Rattle.dm_runs.specs.Shown.{Shown};
    ghost use Rattle.dm_runs.specs.RunsFields.{shown};

    ghost Value = { Shown };

    ghost view = { shown };
}

impl Runs {
    /// None runs.
    pub fn new(alloc: Global) -> Runs
        ensures none { result.runs ≡ [] }
        ensures opening { AreRuns [] result.runs }
    {
        Runs {
            list: Vec::new(alloc),
        }
    }

    /// Those that run, the earliest begun first.
    pub fn as_slice(&self) -> &[Run]
        ensures { result.now ≡ self.now.runs }
    {
        &self.list
    }

    /// Makes room for one more to begin.
    pub fn reserve(&mut self) -> Result<(), NoMemory>
        ensures room { OnOk result (1 ≤ self.new.room) }
        ensures runs { self.new.runs ≡ self.old.runs }
    {
        self.list.reserve(1)?;
        Ok(())
    }

    /// Brings the list to what it is after the step. It takes no memory.
    pub fn apply(&mut self, step: &Step)
        requires { is_begin step.now ≡ true → 1 ≤ self.old.room }
        ensures runs { self.new.runs ≡ next_runs step.now self.old.runs }
        ensures follows { (layout : Layout) (past : List Step) → LegalPast layout (step.now ∷ past) → AreRuns past self.old.runs → AreRuns (step.now ∷ past) self.new.runs }
    {
        advance(&mut self.list, step);
    }
}

fn advance(list: &mut Vec<Run>, step: &Step)
    requires { is_begin step.now ≡ true → vec_len list.old < vec_capacity list.old }
    ensures { list.new.items ≡ next_runs step.now list.old.items }
{
    match step {
        Step::Begin { site, txn, .. } => list.push_reserved(Run {
            site: *site,
            txn: *txn,
        }),
        Step::Commit { entry } => drop_attempt(list, entry.txn),
        Step::End { txn, .. } | Step::Fail { txn, .. } => drop_attempt(list, *txn),
        Step::Doubt { site, .. } | Step::Restart { site, .. } => drop_site(list, *site),
        _ => {}
    }
}

/// The attempt runs no more.
fn drop_attempt(list: &mut Vec<Run>, txn: TxnId)
    ensures { list.new.items ≡ but txn list.old.items }
{
    list.retain(|run| !run.txn.same(&txn));
}

/// Nothing runs at the site any more.
fn drop_site(list: &mut Vec<Run>, site: SiteNo)
    ensures { list.new.items ≡ elsewhere site list.old.items }
{
    list.retain(|run| !(run.site == site));
}
