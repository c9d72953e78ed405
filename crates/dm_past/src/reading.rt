//! A history, line by line.

ghost use Rattle.std.specs.Prelude.{◌≡◌, ◌≤◌, ◌<◌, ◌++◌, ◌∷◌, [], IfOk, IfErr, IfSome, OnErr, None, Ok, length, true, List, ℕ};
ghost use Rattle.std.specs.List.{list_all, flat_map};
ghost use Rattle.dm_event.specs.Layout.{Layout, is_layout};
ghost use Rattle.dm_event.specs.declared.step.Step.{Step};
ghost use Rattle.dm_fields.specs.Fields.{Gives};
ghost use Rattle.dm_fields.specs.Faults.{Reads, Stops};
ghost use Rattle.dm_history.specs.Steps.{step_text};
ghost use Rattle.dm_past.specs.Histories.{line_step, history_of, read_on};
ghost use Rattle.dm_past.specs.Fits.{step_fits};

use crate::cutting::{first_line, is_spaced};
use dm_event::{Schema, Step};
use dm_fields::{HistoryError, LineError};
use dm_kinds::step_of;
use dm_text::words;
use std::alloc::Global;
use std::marker::Model;

#[tactic(auto, unfolding(crate::specs::Histories::line_step))]
fn line_step(alloc: Global, schema: &Schema, line: &[u8], ended: bool) -> Result<Step, LineError>
    ensures { Gives (λ x. x) result (line_step schema.now (line.now, ended)) }
{
    let words = words(alloc, line)?;
    let neat = ended && is_spaced(alloc, line)?;
    step_of(alloc, schema, neat, &words)
}

/// What is still to be read of a history.
#[derive(Drop)]
pub struct Reader<'a> {
    rest: &'a [u8],
    /// How many lines were read.
    lines: u64,
}

impl<'a> Model for Reader<'a> {
    ghost use Rattle.std.specs.Prelude.{◌+◌, ◌<◌, ◌^◌, length};
    ghost use Rattle.dm_past.specs.Histories.{Unread};

    ghost Value = { Unread };

    ghost view = { λ r. record { text = r.rest.now; lines = r.lines } };

    ghost invariant = { λ r. r.lines + length r.rest.now < 2 ^ 64 };
}

impl<'a> Reader<'a> {
    /// The whole text is still to be read.
    pub fn new(bytes: &'a [u8]) -> Reader<'a>
        ensures { result ≡ record { text = bytes.now; lines = 0 } }
    {
        Reader {
            rest: bytes,
            lines: 0,
        }
    }

    /// The step of the next line, where one is left.
    pub fn next(&mut self, alloc: Global, schema: &Schema) -> Result<Option<Step>, HistoryError>
        ensures some { IfOk result (λ found. IfSome found (λ step. (so_far : List Step) → read_on schema.now so_far self.old ≡ read_on schema.now (so_far ++ step ∷ []) self.new)) }
        ensures none { IfOk result (λ found. found ≡ None → (so_far : List Step) → read_on schema.now so_far self.old ≡ Ok so_far) }
        ensures err { IfErr result (λ error. (so_far : List Step) → Stops error (read_on schema.now so_far self.old)) }
        ensures same { OnErr result (self.new ≡ self.old) }
        ensures shorter { IfOk result (λ found. IfSome found (λ step. length self.new.text < length self.old.text)) }
    {
        if self.rest.is_empty() {
            return Ok(None);
        }
        let (line, ended, after) = first_line(self.rest);
        let step = match line_step(alloc, schema, line, ended) {
            Ok(step) => step,
            Err(error) => return Err(error.at(self.lines + 1)),
        };
        self.rest = after;
        self.lines += 1;
        Ok(Some(step))
    }
}

/// The steps that the bytes of a history say.
#[tactic(auto, unfolding(crate::specs::Histories::history_of))]
pub fn read(alloc: Global, schema: &Schema, bytes: &[u8]) -> Result<Vec<Step>, HistoryError>
    ensures exact { Reads (λ v. v.items) result (history_of schema.now bytes.now) }
    ensures fit { IfOk result (λ v. list_all (step_fits schema.now) v.items ≡ true) }
    ensures few { IfOk result (λ v. length v.items ≤ length bytes.now) }
{
    let mut reader = Reader::new(bytes);
    let mut steps = Vec::new(alloc);
    while let Some(step) = reader.next(alloc, schema)? {
        steps.push(step)?;
    }
    Ok(steps)
}

/// One history has one text: what is read and printed again is the same bytes, and what is printed
/// of steps that fit a layout is read as the same steps.
pub fn histories_both_ways()
    ensures printed { (layout : Layout) (text : List ℕ) (steps : List Step) → history_of layout text ≡ Ok steps → (text ≡ flat_map step_text steps) × (list_all (step_fits layout) steps ≡ true) }
    ensures again { (layout : Layout) (steps : List Step) → is_layout layout ≡ true → list_all (step_fits layout) steps ≡ true → history_of layout (flat_map step_text steps) ≡ Ok steps }
{}
