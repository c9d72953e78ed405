//! A step file, line by line.

ghost use Rattle.std.specs.Prelude.{◌≡◌, ◌≤◌, ◌+◌, Ok, All, IfOk, length, IsTrue};
ghost use Rattle.dm_event.specs.Layout.{is_layout};
ghost use Rattle.dm_fields.specs.Fields.{Gives, spelled};
ghost use Rattle.dm_fields.specs.Faults.{Reads};
ghost use Rattle.dm_lines.specs.Ranges.{Fits};
ghost use Rattle.dm_lines.specs.File.{is_skipped, after_header, after_line, ended, schedule_of, so_far, commands, told, AllFit};

use crate::line::Line;
use crate::opening::{Opening, header_of};
use crate::reading::line_of;
use dm_event::{LineFault, Schema};
use dm_fields::{HistoryError, LineError, is, word};
use dm_text::{lines_of, words};
use std::alloc::Global;

/// What a step file says.
#[derive(Debug, Drop)]
pub struct Schedule {
    /// What the header says, and the lines of values and weights behind it.
    pub schema: Schema,
    /// The command lines, in the order of the file.
    pub lines: Vec<Line>,
}

// What the lines so far say.
#[derive(Drop)]
enum Begun {
    Nothing,
    Header(Opening),
    Commands { schema: Schema, lines: Vec<Line> },
}

#[tactic(auto, unfolding(crate::specs::File::is_skipped))]
fn is_skipped(words: &[&[u8]]) -> bool
    ensures { result ≡ is_skipped (spelled words.now) }
{
    match word(words, 0) {
        [] => true,
        [first, ..] => *first == b'#',
    }
}

/// Takes a line behind the header. The first command line closes the opening.
#[tactic(auto, unfolding(crate::specs::File::after_header))]
fn after_header(alloc: Global, opening: Opening, words: &[&[u8]]) -> Result<Begun, LineError>
    ensures exact { Gives so_far result (after_header opening (spelled words.now)) }
    ensures fit { IfOk result (λ next. AllFit (so_far next)) }
    ensures few { IfOk result (λ next. length (commands (so_far next)) ≤ 1) }
{
    let first = word(words, 0);
    if is(first, b"value") {
        Ok(Begun::Header(opening.take_value(words)?))
    } else if is(first, b"weights") {
        Ok(Begun::Header(opening.take_weights(words)?))
    } else {
        let schema = opening.into_schema();
        let line = line_of(alloc, &schema, words)?;
        let mut lines = Vec::new(alloc);
        lines.push(line)?;
        Ok(Begun::Commands { schema, lines })
    }
}

impl Begun {
    #[tactic(auto, unfolding(crate::specs::File::after_line))]
    fn take(self, alloc: Global, line: &[u8]) -> Result<Begun, LineError>
        ensures exact { Gives so_far result (after_line (so_far self) line.now) }
        ensures fit { AllFit (so_far self) → IfOk result (λ next. AllFit (so_far next)) }
        ensures few { IfOk result (λ next. length (commands (so_far next)) ≤ length (commands (so_far self)) + 1) }
    {
        let words = words(alloc, line)?;
        if is_skipped(&words) {
            return Ok(self);
        }
        match self {
            Begun::Nothing => Ok(Begun::Header(header_of(alloc, &words)?)),
            Begun::Header(opening) => after_header(alloc, opening, &words),
            Begun::Commands { schema, mut lines } => {
                let line = line_of(alloc, &schema, &words)?;
                lines.push(line)?;
                Ok(Begun::Commands { schema, lines })
            }
        }
    }

    fn finish(self, alloc: Global) -> Result<Schedule, HistoryError>
        ensures exact { Reads told result (ended (so_far self)) }
        ensures fit { AllFit (so_far self) → IfOk result (λ s. IsTrue (is_layout s.schema) × All (λ line. Fits s.schema line) s.lines.items) }
        ensures few { IfOk result (λ s. s.lines.items ≡ commands (so_far self)) }
    {
        match self {
            Begun::Nothing => Err(HistoryError::Fault {
                line: 1,
                kind: LineFault::Unfinished,
            }),
            Begun::Header(opening) => Ok(Schedule {
                schema: opening.into_schema(),
                lines: Vec::new(alloc),
            }),
            Begun::Commands { schema, lines } => Ok(Schedule { schema, lines }),
        }
    }
}

/// What the bytes of a step file say.
#[tactic(auto, unfolding(crate::specs::File::schedule_of))]
pub fn read(alloc: Global, bytes: &[u8]) -> Result<Schedule, HistoryError>
    ensures exact { Reads told result (schedule_of bytes.now) }
    ensures layout { IfOk result (λ s. IsTrue (is_layout s.schema)) }
    ensures fit { IfOk result (λ s. All (λ line. Fits s.schema line) s.lines.items) }
    ensures few { IfOk result (λ s. length s.lines.items ≤ length bytes.now) }
{
    let lines = lines_of(alloc, bytes)?;
    let mut begun = Begun::Nothing;
    let mut number = 0;
    for line in &lines {
        number += 1;
        begun = match begun.take(alloc, line) {
            Ok(next) => next,
            Err(error) => return Err(error.at(number)),
        };
    }
    begun.finish(alloc)
}
