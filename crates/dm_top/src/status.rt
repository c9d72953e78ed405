//! How a command ended.

ghost use Rattle.std.specs.Prelude.{◌≡◌, Some, IfOk};
ghost use Rattle.dm_top.specs.Texts.{status_text};

use crate::texts::{FaultText, FlawText, LimitText};
use dm_event::{LineFault, NoMemory, Why};
use dm_history::WhyText;
use dm_schema::{Name, SchemaFlaw};
use std::alloc::Global;
use std::fmt;

/// How a command ended.
#[derive(Debug, Drop)]
pub enum Status {
    Done,
    /// The words are no command.
    BadWords,
    /// There is no file of that name.
    Absent { name: Name },
    /// The file has more bytes than the limit.
    TooLong { name: Name, limit: u64 },
    /// The first thing that is wrong with the schema file.
    SchemaFault { flaw: SchemaFlaw },
    /// The first faulty line of the step file or of the history, with its first fault. Lines count from 1.
    StepFault { line: u64, kind: LineFault },
    /// The first step of the history that may not stand, counted from 1, and the first rule that it breaks.
    CheckedNo { step: u64, why: Why },
    /// A file could not be read.
    ReadFault,
    /// The text could not be written whole.
    WriteFault,
    /// There was no memory.
    Memory,
}

#[derive(Drop)]
struct StatusText<'a>(&'a Status);

impl fmt::Display for StatusText<'_> {
    ghost output = { λ s. Some (status_text s.0.now) };

    #[tactic(auto, unfolding(crate::specs::Texts::status_text))]
    fn fmt<W: fmt::Write>(&self, f: &mut fmt::Formatter<W>) -> fmt::Result {
        match self.0 {
            Status::Done => write!(f, "done"),
            Status::BadWords => write!(f, "bad words"),
            Status::Absent { name } => {
                let name = name.as_str();
                write!(f, "{name}: absent")
            }
            Status::TooLong { name, limit } => {
                let name = name.as_str();
                let over = LimitText(*limit);
                write!(f, "{name}{over}")
            }
            Status::SchemaFault { flaw } => {
                let flaw = FlawText(flaw);
                write!(f, "schema: {flaw}")
            }
            Status::StepFault { line, kind } => {
                let kind = FaultText(*kind);
                write!(f, "line {line}: {kind}")
            }
            Status::CheckedNo { step, why } => {
                let why = WhyText(why);
                write!(f, "step {step}: {why}")
            }
            Status::ReadFault => write!(f, "read fault"),
            Status::WriteFault => write!(f, "write fault"),
            Status::Memory => write!(f, "no memory"),
        }
    }
}

/// The text that a user reads on standard error.
pub fn status_text(alloc: Global, status: &Status) -> Result<Vec<u8>, NoMemory>
    ensures { IfOk result (λ text. text.items ≡ status_text status.now) }
{
    let text = StatusText(status).to_string(alloc)?;
    Ok(text.into_bytes())
}
