//! A history that command lines drive, with what its attempts have done so far.

ghost use Rattle.std.specs.Prelude.{◌≡◌, ◌==◌, ◌<◌, ◌≤◌, ◌++◌, ◌∷◌, [], length, Some, None, IfOk, true, false};
ghost use Rattle.dm_body.specs.Answer.{answer_of};
ghost use Rattle.dm_event.specs.declared.step.Step.TheVariants as steps;
ghost use Rattle.dm_model.specs.Bodies.{has_writes, ran_at};
ghost use Rattle.dm_model.specs.Shape.{is_shaped};
ghost use Rattle.dm_model.specs.Values.{value};
ghost use Rattle.dm_schedule.specs.Drive.{start, past, refusal_of, pushed, extended, with_ops, ops_of, routed_of, running_of, placing_of};
ghost use Rattle.dm_schedule.specs.Drivers.{is_begin, unless};
ghost use Rattle.dm_clauses.specs.Judging.{epoch_now};
ghost use Rattle.dm_lines.specs.Ranges.{IsPart, IsSession};

use crate::view::At;
use dm_body::{OpResult, Overlay, Ran, has_writes};
use dm_core::Book;
use dm_event::{
    MAX_OPS, MAX_SESSIONS, NoMemory, Op, Part, Placing, Schema, SiteNo, Step, TxnId, Vector, Why,
};
use std::alloc::Global;
use std::marker::Model;

/// An attempt that runs.
#[derive(Clone, Copy, Debug)]
pub(crate) struct Run {
    pub(crate) txn: TxnId,
    pub(crate) site: SiteNo,
    pub(crate) begin: Vector,
}

/// A history that command lines drive.
#[derive(Drop)]
pub(crate) struct Driver {
    book: Book,
    // What each session's attempt has done, that of session 1 first.
    overlays: Vec<Overlay>,
}

impl Model for Driver {
    ghost use Rattle.dm_schedule.specs.Drive.{Drive};

    ghost Value = { Drive };

    ghost use Rattle.dm_schedule.specs.Drivers.{drive_in, IsDriver};

    ghost view = { drive_in };

    ghost invariant = { IsDriver };
}

impl Driver {
    pub(crate) fn new(alloc: Global, schema: &Schema) -> Result<Driver, NoMemory>
        ensures { IfOk result (λ driver. driver ≡ start schema.now) }
    {
        let mut overlays = Vec::new(alloc);
        for _session in 0..MAX_SESSIONS {
            overlays.push(Overlay::new(alloc)?)?;
        }
        Ok(Driver {
            book: Book::new(alloc, schema, &[0; MAX_SESSIONS as usize])?,
            overlays,
        })
    }

    pub(crate) fn book(&self) -> &Book
        ensures layout { result.now.layout ≡ self.now.layout }
        ensures history { result.now.steps ≡ self.now.history }
    {
        &self.book
    }

    pub(crate) fn into_book(self) -> Book
        ensures layout { result.layout ≡ self.layout }
        ensures history { result.steps ≡ self.history }
    {
        let Driver { book, overlays: _ } = self;
        book
    }

    /// Adds a step to the history where it is allowed; else says why it isn't.
    #[tactic(auto, unfolding(crate::specs::Drive::refusal_of))]
    pub(crate) fn push(&mut self, step: Step) -> Result<Option<Why>, NoMemory>
        requires { is_begin step ≡ false }
        ensures why { IfOk result (λ why. why ≡ refusal_of self.old step) }
        ensures does { IfOk result (λ why. self.new ≡ pushed why self.old step) }
        ensures shaped { IfOk result (λ why. why ≡ None → is_shaped self.old.layout step ≡ true) }
    {
        match self.book.enabled(&step) {
            Ok(()) => {
                self.book.reserve(&step)?;
                self.book.push(step);
                Ok(None)
            }
            Err(why) => Ok(Some(why)),
        }
    }

    /// The same of the Begin of the session's attempt, which has done nothing yet.
    #[tactic(auto, unfolding(crate::specs::Drive::refusal_of))]
    pub(crate) fn begin(
        &mut self,
        alloc: Global,
        session: u32,
        site: SiteNo,
        txn: TxnId,
        begin: Vector,
    ) -> Result<Option<Why>, NoMemory>
        requires session { IsSession session }
        requires routed { routed_of self.old session ≡ Some (txn, site) }
        ensures why { IfOk result (λ why. why ≡ refusal_of self.old (steps.Begin site txn begin)) }
        ensures does { IfOk result (λ why. self.new ≡ unless why self.old (with_ops (extended self.old (steps.Begin site txn begin)) session [])) }
    {
        let overlay = Overlay::new(alloc)?;
        let step = Step::Begin { site, txn, begin };
        match self.book.enabled(&step) {
            Ok(()) => {
                self.book.reserve(&step)?;
                self.book.push(step);
                self.overlays[session as usize - 1] = overlay;
                Ok(None)
            }
            Err(why) => Ok(Some(why)),
        }
    }

    /// The partition's placing. It has seen no more epochs than there are steps.
    #[tactic(auto, unfolding(crate::specs::Drive::placing_of))]
    pub(crate) fn placing(&self, part: Part) -> Placing
        requires { IsPart self.now.layout part }
        ensures exact { result ≡ placing_of self.now part }
        ensures few { epoch_now result ≤ length self.now.history }
    {
        self.book.placing(part)
    }

    /// Whether the session's attempt has done as many ops as one may.
    pub(crate) fn is_full(&self, session: u32) -> bool
        requires { IsSession session }
        ensures full { result ≡ (length (ops_of self.now session) == MAX_OPS) }
        ensures few { length (ops_of self.now session) ≤ MAX_OPS }
    {
        self.overlays[session as usize - 1].ops().len() == MAX_OPS
    }

    pub(crate) fn has_writes(&self, session: u32) -> bool
        requires { IsSession session }
        ensures { result ≡ has_writes (ops_of self.now session) }
    {
        has_writes(self.overlays[session as usize - 1].ops())
    }

    /// Does an op of the session's running attempt.
    pub(crate) fn op(&mut self, session: u32, run: &Run, op: &Op) -> OpResult
        requires session { IsSession session }
        requires running { running_of self.old session ≡ Some run.now }
        requires room { length (ops_of self.old session) < MAX_OPS }
        ensures answer { result ≡ answer_of (λ key. value self.old.layout (past self.old) key run.now.begin) (ran_at self.old.layout (past self.old) run.now.begin (ops_of self.old session)) op.now }
        ensures does { self.new ≡ with_ops self.old session (ops_of self.old session ++ op.now ∷ []) }
    {
        let mut view = At {
            book: &self.book,
            vector: run.begin,
        };
        self.overlays[session as usize - 1].op(op, &mut view)
    }

    /// What the session's running attempt has read and written.
    pub(crate) fn ran(&self, session: u32, run: &Run) -> Result<Ran, NoMemory>
        requires session { IsSession session }
        requires running { running_of self.now session ≡ Some run.now }
        ensures ops { IfOk result (λ ran. ran.ops ≡ ops_of self.now session) }
        ensures reads { IfOk result (λ ran. ran.reads ≡ (ran_at self.now.layout (past self.now) run.now.begin (ops_of self.now session)).reads) }
        ensures writes { IfOk result (λ ran. ran.writes ≡ (ran_at self.now.layout (past self.now) run.now.begin (ops_of self.now session)).writes) }
    {
        self.overlays[session as usize - 1].to_ran()
    }
}
