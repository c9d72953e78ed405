//! The parts of a line: keys, ops, and the words of choices, findings, causes and outcomes.

ghost use Rattle.std.specs.Prelude.{Some};
ghost use Rattle.dm_history.specs.Parts.{keys_text, op_text, ops_text, want_text, choice_text, found_text, byte_text, cause_text, refusal_text, said_text};

use dm_event::{Cause, Choice, Found, Keys, Op, Ops, Said, Want};
use std::fmt;

#[derive(Drop)]
pub(crate) struct KeysText<'a>(pub(crate) &'a Keys);

impl fmt::Display for KeysText<'_> {
    ghost output = { λ t. Some (keys_text t.0.now) };

    #[tactic(auto, unfolding(crate::specs::Parts::keys_text))]
    fn fmt<W: fmt::Write>(&self, f: &mut fmt::Formatter<W>) -> fmt::Result {
        match self.0.as_slice() {
            [] => write!(f, "-"),
            [first, rest @ ..] => {
                write!(f, "{first}")?;
                for key in rest {
                    write!(f, ",{key}")?;
                }
                Ok(())
            }
        }
    }
}

#[derive(Drop)]
struct OpText<'a>(&'a Op);

impl fmt::Display for OpText<'_> {
    ghost output = { λ t. Some (op_text t.0.now) };

    #[tactic(auto, unfolding(crate::specs::Parts::op_text))]
    fn fmt<W: fmt::Write>(&self, f: &mut fmt::Formatter<W>) -> fmt::Result {
        match self.0 {
            Op::Read { key } => write!(f, "g{key}"),
            Op::Write { key, value } => write!(f, "p{key}:{value}"),
            Op::Add { key, by } => write!(f, "a{key}:{by}"),
        }
    }
}

#[derive(Drop)]
pub(crate) struct OpsText<'a>(pub(crate) &'a Ops);

impl fmt::Display for OpsText<'_> {
    ghost output = { λ t. Some (ops_text t.0.now) };

    #[tactic(auto, unfolding(crate::specs::Parts::ops_text))]
    fn fmt<W: fmt::Write>(&self, f: &mut fmt::Formatter<W>) -> fmt::Result {
        match self.0.as_slice() {
            [] => write!(f, "-"),
            [first, rest @ ..] => {
                let first = OpText(first);
                write!(f, "{first}")?;
                for op in rest {
                    let op = OpText(op);
                    write!(f, ",{op}")?;
                }
                Ok(())
            }
        }
    }
}

#[derive(Drop)]
pub(crate) struct WantText<'a>(pub(crate) &'a Want);

impl fmt::Display for WantText<'_> {
    ghost output = { λ t. Some (want_text t.0.now) };

    #[tactic(auto, unfolding(crate::specs::Parts::want_text))]
    fn fmt<W: fmt::Write>(&self, f: &mut fmt::Formatter<W>) -> fmt::Result {
        match self.0 {
            Want::Txn(keys) => {
                let keys = KeysText(keys);
                write!(f, "txn {keys}")
            }
            Want::Place(part) => write!(f, "place {part}"),
            Want::Restart => write!(f, "restart"),
        }
    }
}

/// Displays how a site was chosen.
#[derive(Drop)]
pub struct ChoiceText(pub Choice);

impl fmt::Display for ChoiceText {
    ghost output = { λ t. Some (choice_text t.0) };

    #[tactic(auto, unfolding(crate::specs::Parts::choice_text))]
    fn fmt<W: fmt::Write>(&self, f: &mut fmt::Formatter<W>) -> fmt::Result {
        match self.0 {
            Choice::Master => write!(f, "master"),
            Choice::Best => write!(f, "best"),
            Choice::Reader => write!(f, "reader"),
            Choice::Hand => write!(f, "hand"),
        }
    }
}

#[derive(Drop)]
pub(crate) struct FoundText(pub(crate) Found);

impl fmt::Display for FoundText {
    ghost output = { λ t. Some (found_text t.0) };

    #[tactic(auto, unfolding(crate::specs::Parts::found_text))]
    fn fmt<W: fmt::Write>(&self, f: &mut fmt::Formatter<W>) -> fmt::Result {
        match self.0 {
            Found::Clean => write!(f, "clean"),
            Found::Kept => write!(f, "kept"),
            Found::Lost => write!(f, "lost"),
        }
    }
}

/// Displays a byte of a log, which may be past its end.
#[derive(Drop)]
pub struct ByteText(pub Option<u8>);

impl fmt::Display for ByteText {
    ghost output = { λ t. Some (byte_text t.0) };

    #[tactic(auto, unfolding(crate::specs::Parts::byte_text))]
    fn fmt<W: fmt::Write>(&self, f: &mut fmt::Formatter<W>) -> fmt::Result {
        match self.0 {
            Some(byte) => write!(f, "{byte}"),
            None => write!(f, "-"),
        }
    }
}

// Why an attempt failed, behind its site, which is the site of a log too.
#[derive(Drop)]
pub(crate) struct CauseText<'a>(pub(crate) &'a Cause);

impl fmt::Display for CauseText<'_> {
    ghost output = { λ t. Some (cause_text t.0.now) };

    #[tactic(auto, unfolding(crate::specs::Parts::cause_text))]
    fn fmt<W: fmt::Write>(&self, f: &mut fmt::Formatter<W>) -> fmt::Result {
        match self.0 {
            Cause::Undeclared { key } => write!(f, "undeclared {key}"),
            Cause::Log { .. } => write!(f, "log"),
            Cause::Damage {
                place,
                read,
                written,
                ..
            } => {
                let read = ByteText(*read);
                let written = ByteText(*written);
                write!(f, "damage {place} {read} {written}")
            }
            Cause::Memory => write!(f, "memory"),
        }
    }
}

// Why an item was refused, with the site.
#[derive(Drop)]
struct RefusalText<'a>(&'a Cause);

impl fmt::Display for RefusalText<'_> {
    ghost output = { λ t. Some (refusal_text t.0.now) };

    #[tactic(auto, unfolding(crate::specs::Parts::refusal_text))]
    fn fmt<W: fmt::Write>(&self, f: &mut fmt::Formatter<W>) -> fmt::Result {
        match self.0 {
            Cause::Undeclared { key } => write!(f, "undeclared {key}"),
            Cause::Log { site } => write!(f, "log {site}"),
            Cause::Damage {
                site,
                place,
                read,
                written,
            } => {
                let read = ByteText(*read);
                let written = ByteText(*written);
                write!(f, "damage {site} {place} {read} {written}")
            }
            Cause::Memory => write!(f, "memory"),
        }
    }
}

#[derive(Drop)]
pub(crate) struct SaidText<'a>(pub(crate) &'a Said);

impl fmt::Display for SaidText<'_> {
    ghost output = { λ t. Some (said_text t.0.now) };

    #[tactic(auto, unfolding(crate::specs::Parts::said_text))]
    fn fmt<W: fmt::Write>(&self, f: &mut fmt::Formatter<W>) -> fmt::Result {
        match self.0 {
            Said::Committed { site, seq } => write!(f, "committed {site} {seq}"),
            Said::Read { site } => write!(f, "read {site}"),
            Said::InDoubt { site } => write!(f, "doubt {site}"),
            Said::Placed { part, site, epoch } => write!(f, "placed {part} {site} {epoch}"),
            Said::Restarted { site } => write!(f, "restarted {site}"),
            Said::Refused(cause) => {
                let cause = RefusalText(cause);
                write!(f, "refused {cause}")
            }
        }
    }
}
