//! The parts of what a command says.

ghost use Rattle.std.specs.Prelude.{Some};
ghost use Rattle.dm_top.specs.Texts.{fault_text, flaw_text, legal_text, limit_text};

use dm_event::LineFault;
use dm_schema::SchemaFlaw;
use std::fmt;

#[derive(Drop)]
pub(crate) struct FaultText(pub(crate) LineFault);

impl fmt::Display for FaultText {
    ghost output = { λ f. Some (fault_text f.0) };

    #[tactic(auto, unfolding(crate::specs::Texts::fault_text))]
    fn fmt<W: fmt::Write>(&self, f: &mut fmt::Formatter<W>) -> fmt::Result {
        match self.0 {
            LineFault::Word => write!(f, "word"),
            LineFault::Count => write!(f, "count"),
            LineFault::Number => write!(f, "number"),
            LineFault::Range => write!(f, "range"),
            LineFault::Repeat => write!(f, "repeat"),
            LineFault::Unfinished => write!(f, "unfinished"),
        }
    }
}

#[derive(Drop)]
pub(crate) struct FlawText<'a>(pub(crate) &'a SchemaFlaw);

impl fmt::Display for FlawText<'_> {
    ghost output = { λ f. Some (flaw_text f.0.now) };

    #[tactic(auto, unfolding(crate::specs::Texts::flaw_text))]
    fn fmt<W: fmt::Write>(&self, f: &mut fmt::Formatter<W>) -> fmt::Result {
        match self.0 {
            SchemaFlaw::NotToml => write!(f, "not toml"),
            SchemaFlaw::Unknown { name } => {
                let name = name.as_str();
                write!(f, "unknown {name}")
            }
            SchemaFlaw::Missing { name } => {
                let name = name.as_str();
                write!(f, "missing {name}")
            }
            SchemaFlaw::WrongType { name } => {
                let name = name.as_str();
                write!(f, "wrong type {name}")
            }
            SchemaFlaw::Range { name } => {
                let name = name.as_str();
                write!(f, "out of range {name}")
            }
        }
    }
}

#[derive(Drop)]
pub(crate) struct LimitText(pub(crate) u64);

impl fmt::Display for LimitText {
    ghost output = { λ l. Some (limit_text l.0) };

    #[tactic(auto, unfolding(crate::specs::Texts::limit_text))]
    fn fmt<W: fmt::Write>(&self, f: &mut fmt::Formatter<W>) -> fmt::Result {
        let limit = self.0;
        write!(f, ": longer than {limit} bytes")
    }
}

/// That so many steps are legal, with the line feed.
#[derive(Drop)]
pub(crate) struct LegalText(pub(crate) usize);

impl fmt::Display for LegalText {
    ghost output = { λ l. Some (legal_text l.0) };

    #[tactic(auto, unfolding(crate::specs::Texts::legal_text))]
    fn fmt<W: fmt::Write>(&self, f: &mut fmt::Formatter<W>) -> fmt::Result {
        let steps = self.0;
        write!(f, "legal {steps}\n")
    }
}
