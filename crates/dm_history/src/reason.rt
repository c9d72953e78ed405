//! The text of why a step may not come.

ghost use Rattle.std.specs.Prelude.{Some};
ghost use Rattle.dm_history.specs.Whys.{why_text};

use crate::part::ChoiceText;
use dm_event::Why;
use dm_text::{TxnText, VectorText};
use std::fmt;

/// Displays why a step may not come, with no line feed.
#[derive(Drop)]
pub struct WhyText<'a>(pub &'a Why);

impl fmt::Display for WhyText<'_> {
    ghost output = { λ t. Some (why_text t.0.now) };

    #[tactic(auto, unfolding(crate::specs::Whys::why_text))]
    fn fmt<W: fmt::Write>(&self, f: &mut fmt::Formatter<W>) -> fmt::Result {
        match self.0 {
            Why::Shape => write!(f, "shape"),
            Why::NotDue { due } => write!(f, "due {due}"),
            Why::Unfinished { txn } => {
                let txn = TxnText(txn);
                write!(f, "unfinished {txn}")
            }
            Why::WrongVector { due } => {
                let due = VectorText(due);
                write!(f, "vector {due}")
            }
            Why::WrongChoice { site, choice } => {
                let choice = ChoiceText(*choice);
                write!(f, "choice {site} {choice}")
            }
            Why::Unsettled { part } => write!(f, "unsettled {part}"),
            Why::NotRouted => write!(f, "not routed"),
            Why::WrongSite { due } => write!(f, "site {due}"),
            Why::Down { site } => write!(f, "down {site}"),
            Why::Elsewhere { part } => write!(f, "elsewhere {part}"),
            Why::AllHere => write!(f, "all here"),
            Why::Behind { component } => write!(f, "behind {component}"),
            Why::Ahead { component } => write!(f, "ahead {component}"),
            Why::Held { by, key } => {
                let by = TxnText(by);
                write!(f, "held {by} key {key}")
            }
            Why::NotClosed { origin, seq } => write!(f, "not closed {origin}.{seq}"),
            Why::NotRunning => write!(f, "not running"),
            Why::Undeclared { key } => write!(f, "undeclared {key}"),
            Why::WrongBody => write!(f, "body"),
            Why::NoWrites => write!(f, "no writes"),
            Why::HasWrites => write!(f, "writes"),
            Why::Own => write!(f, "own"),
            Why::Missing => write!(f, "missing"),
            Why::WrongWant => write!(f, "want"),
            Why::Home { site } => write!(f, "home {site}"),
            Why::NotAsked => write!(f, "not asked"),
            Why::Running { txn } => {
                let txn = TxnText(txn);
                write!(f, "running {txn}")
            }
            Why::NotReleased => write!(f, "not released"),
            Why::NotGranted => write!(f, "not granted"),
            Why::WrongFound => write!(f, "found"),
            Why::WrongSaid => write!(f, "said"),
        }
    }
}
