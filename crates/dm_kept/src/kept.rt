//! A history with what is kept of it.

ghost use Rattle.std.specs.Prelude.{◌≡◌, ◌++◌, ◌∷◌, [], length, IfOk, IsOk, OnOk};
ghost use Rattle.dm_event.specs.declared.limits.TheConstants.{MAX_SESSIONS};
ghost use Rattle.dm_kept.specs.Roomy.{HasRoom};
ghost use Rattle.dm_kept.specs.Ledger.{past};
ghost use Rattle.dm_model.specs.Allowed.{Allowed};
ghost use Rattle.dm_room.specs.Room.{need};

mod looking;
mod telling;

use crate::noting::note;
use crate::pushing::{install, kept_of, last_want, named_in};
use crate::room::{all_items, comes_off, comes_on, reserve_begin};
use dm_aims::Aims;
use dm_event::{NoMemory, Schema, Step};
use dm_index::{Index, entry_by};
use dm_numbers::Numbers;
use dm_placement::Window;
use dm_runs::Runs;
use dm_state::States;
use dm_store::Store;
use std::alloc::Global;
use std::marker::Model;

/// A legal history, and what is kept of it.
#[derive(Drop)]
pub struct Kept {
    schema: Schema,
    /// The number of scripted items of each session.
    items: Vec<u32>,
    steps: Vec<Step>,
    states: States,
    numbers: Numbers,
    index: Index,
    aims: Aims,
    runs: Runs,
    /// All committed transactions.
    store: Store,
    /// What the last Routes with declared keys wanted.
    window: Window,
    /// For how many further steps room is kept.
    kept: usize,
}

impl Model for Kept {
    ghost use Rattle.dm_kept.specs.Ledger.{Ledger};
    ghost use Rattle.dm_kept.specs.KeptFields.{shown, IsKept};

    ghost Value = { Ledger };

    ghost view = { shown };

    ghost invariant = { IsKept };
}

impl Kept {
    /// No steps so far. `items` has the number of scripted items of each session.
    pub fn new(alloc: Global, schema: &Schema, items: &[u32]) -> Result<Kept, NoMemory>
        requires { length items.now ≡ MAX_SESSIONS }
        ensures schema { IfOk result (λ kept. kept.layout ≡ schema.now) }
        ensures items { IfOk result (λ kept. kept.items ≡ items.now) }
        ensures empty { IfOk result (λ kept. kept.steps ≡ []) }
    {
        let kept = all_items(items) + schema.sites() as usize;
        Ok(Kept {
            schema: schema.try_clone()?,
            items: Vec::from_slice(alloc, items)?,
            steps: Vec::with_capacity(alloc, kept)?,
            states: States::new(alloc, schema)?,
            numbers: Numbers::new(alloc, schema)?,
            index: Index::new(alloc, schema)?,
            aims: Aims::new(alloc)?,
            runs: Runs::new(alloc),
            store: Store::new(alloc, schema)?,
            window: Window::new(alloc)?,
            kept,
        })
    }

    /// The room that the step needs beside what is kept. A step by which something comes to its end needs
    /// none.
    pub fn need(&self, step: &Step) -> usize
        requires { Allowed self.now.layout (past self.now) step.now }
        ensures { result ≡ need self.now.layout self.now.items (past self.now) step.now }
    {
        let pending = kept_of(&self.steps, &self.index, step);
        let on = comes_on(step, &self.numbers);
        (1 + on).saturating_sub(comes_off(step, &self.items, &self.states, pending))
    }

    /// Where the step needs none, and so isn't a Begin, there is room for it.
    pub fn keeps_room(&self, step: &Step)
        requires allowed { Allowed self.now.layout (past self.now) step.now }
        requires none { need self.now.layout self.now.items (past self.now) step.now ≡ 0 }
        ensures { HasRoom self.now step.now }
    {
        // A length brings in what the fields say.
        let _steps = self.steps.len();
    }

    /// Makes room for the step. It can't fail for one that needs none.
    pub fn reserve(&mut self, step: &Step) -> Result<(), NoMemory>
        requires { Allowed self.old.layout (past self.old) step.now }
        ensures room { OnOk result (HasRoom self.new step.now) }
        ensures free { need self.old.layout self.old.items (past self.old) step.now ≡ 0 → IsOk result }
        ensures history { self.new.steps ≡ self.old.steps }
        ensures schema { self.new.layout ≡ self.old.layout }
        ensures items { self.new.items ≡ self.old.items }
    {
        let more = self.kept.checked_add(self.need(step)).ok_or(NoMemory)?;
        self.steps.reserve(more)?;
        match step {
            Step::Begin { txn, .. } => {
                let want = last_want(&self.steps, &self.index, txn.session);
                reserve_begin(
                    &mut self.runs,
                    &mut self.index,
                    &mut self.store,
                    self.schema.sites(),
                    want,
                )
            }
            _ => Ok(()),
        }
    }

    /// Adds the step to the history. It takes no memory.
    pub fn push(&mut self, step: Step)
        requires allowed { Allowed self.old.layout (past self.old) step }
        requires room { HasRoom self.old step }
        ensures pushed { self.new.steps ≡ self.old.steps ++ step ∷ [] }
        ensures schema { self.new.layout ≡ self.old.layout }
        ensures items { self.new.items ≡ self.old.items }
    {
        let place = self.steps.len();
        let pending = kept_of(&self.steps, &self.index, &step);
        let named = named_in(&self.steps, &self.index, &step);
        let off = comes_off(&step, &self.items, &self.states, pending);
        self.kept = self.kept + comes_on(&step, &self.numbers) - off;
        install(&mut self.store, entry_by(&step, pending));
        self.index.apply(&step, pending, place);
        self.runs.apply(&step);
        self.states.apply(&step, pending);
        self.numbers.apply(&step, pending, named);
        self.aims.apply(&step, &self.states);
        note(&self.schema, &mut self.window, &step);
        self.steps.push_reserved(step);
    }
}
