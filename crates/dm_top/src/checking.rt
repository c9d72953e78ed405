//! The command `check`.

ghost use Rattle.std.specs.Prelude.{◌≡◌, [], IfOk, IfErr, OnOk};
ghost use Rattle.dm_check.specs.Judged.{HasJudged};
ghost use Rattle.dm_fields.specs.Faults.{Stops};
ghost use Rattle.dm_past.specs.Histories.{history_of};
ghost use Rattle.dm_top.specs.Check.{EndsLegal};
ghost use Rattle.dm_top.specs.Parts.{HasJudgedText, IsFoundOf, JudgesTextAs, JudgesFileAs, ChecksByAs, CheckEndsAs};

use crate::fetching::{MAX_HISTORY, fetch};
use crate::ran::{Ran, ended};
use crate::status::Status;
use crate::texts::LegalText;
use dm_check::{Checked, Judge};
use dm_disk::{Sink, Source, Written, write_all};
use dm_event::{MAX_FILE, Schema};
use dm_past::{HistoryError, Reader};
use dm_schema::SchemaError;
use std::alloc::Global;

/// Writes that so many steps are legal.
fn say_legal<W: Sink>(alloc: Global, steps: usize, sink: &mut W) -> Status
    ensures { EndsLegal steps (record {
      had = W.written sink.old;
      has = W.written sink.new;
      before = W.faults sink.old;
      after = W.faults sink.new;
    }) result }
{
    match LegalText(steps).to_string(alloc) {
        Err(_) => Status::Memory,
        Ok(text) => match write_all(sink, text.as_bytes()) {
            Written::Whole => Status::Done,
            Written::Fault => Status::WriteFault,
        },
    }
}

/// Judges the steps that the bytes of a history say, each as soon as it is read, so that no more of them are held than those before the
/// first that may not stand.
fn judge_all(
    alloc: Global,
    schema: &Schema,
    bytes: &[u8],
    judge: &mut Judge,
) -> Result<(), HistoryError>
    requires none { HasJudged [] judge.old }
    ensures all { OnOk result (HasJudgedText schema.now bytes.now judge.new) }
    ensures fault { IfErr result (λ error. Stops error (history_of schema.now bytes.now)) }
    ensures schema { judge.new.book.layout ≡ judge.old.book.layout }
{
    let mut reader = Reader::new(bytes);
    while let Some(step) = reader.next(alloc, schema)? {
        judge.add(step)?;
    }
    Ok(())
}

/// What is found of the steps that the bytes of a history say.
fn judged(alloc: Global, schema: &Schema, bytes: &[u8]) -> Result<Checked, HistoryError>
    ensures found { IfOk result (λ checked. IsFoundOf schema.now bytes.now checked) }
    ensures fault { IfErr result (λ error. Stops error (history_of schema.now bytes.now)) }
{
    let mut judge = Judge::new(alloc, schema)?;
    match judge_all(alloc, schema, bytes, &mut judge) {
        Ok(()) => Ok(judge.into_checked()),
        Err(error) => Err(error),
    }
}

/// Judges the history that the bytes say.
fn judge_text<W: Sink>(alloc: Global, schema: &Schema, bytes: &[u8], sink: &mut W) -> Ran
    ensures { JudgesTextAs schema.now bytes.now (record {
      had = W.written sink.old;
      has = W.written sink.new;
      before = W.faults sink.old;
      after = W.faults sink.new;
    }) result }
{
    match judged(alloc, schema, bytes) {
        Err(HistoryError::Memory) => ended(alloc, Status::Memory),
        Err(HistoryError::Fault { line, kind }) => ended(alloc, Status::StepFault { line, kind }),
        Ok(Checked::Yes(book)) => {
            let history = book.into_steps();
            let status = say_legal(alloc, history.len(), sink);
            Ran::Did { status, history }
        }
        Ok(Checked::No { step, why, legal }) => Ran::Did {
            status: Status::CheckedNo { step, why },
            history: legal.into_steps(),
        },
    }
}

/// Judges the history file of this name.
fn judge_file<S: Source, W: Sink>(
    alloc: Global,
    schema: &Schema,
    name: &str,
    source: &mut S,
    sink: &mut W,
) -> Ran
    ensures { JudgesFileAs (record { State = S; files = S.files; faults = S.faults; finds = S.finds }) source.old source.new schema.now name.now (record {
      had = W.written sink.old;
      has = W.written sink.new;
      before = W.faults sink.old;
      after = W.faults sink.new;
    }) result }
{
    match fetch(alloc, source, name, MAX_HISTORY) {
        Ok(bytes) => judge_text(alloc, schema, &bytes, sink),
        Err(status) => ended(alloc, status),
    }
}

/// Judges the history file of this name by the schema that the bytes say.
fn check_by<S: Source, W: Sink>(
    alloc: Global,
    bytes: &[u8],
    name: &str,
    source: &mut S,
    sink: &mut W,
) -> Ran
    ensures { ChecksByAs (record { State = S; files = S.files; faults = S.faults; finds = S.finds }) source.old source.new bytes.now name.now (record {
      had = W.written sink.old;
      has = W.written sink.new;
      before = W.faults sink.old;
      after = W.faults sink.new;
    }) result }
{
    match dm_schema::read(alloc, bytes) {
        Ok(schema) => judge_file(alloc, &schema, name, source, sink),
        Err(SchemaError::Memory) => ended(alloc, Status::Memory),
        Err(SchemaError::Fault { flaw }) => ended(alloc, Status::SchemaFault { flaw }),
    }
}

/// Does `check` with the schema and the history of these names.
pub(crate) fn check<S: Source, W: Sink>(
    alloc: Global,
    schema: &str,
    history: &str,
    source: &mut S,
    sink: &mut W,
) -> Ran
    ensures { CheckEndsAs (record { State = S; files = S.files; faults = S.faults; finds = S.finds }) source.old source.new schema.now history.now (record {
      had = W.written sink.old;
      has = W.written sink.new;
      before = W.faults sink.old;
      after = W.faults sink.new;
    }) result }
{
    match fetch(alloc, source, schema, MAX_FILE) {
        Ok(bytes) => check_by(alloc, &bytes, history, source, sink),
        Err(status) => ended(alloc, status),
    }
}
