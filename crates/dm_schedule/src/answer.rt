//! What a command line is answered.

ghost use Rattle.dm_core.specs.Ledger.{past};
ghost use Rattle.dm_schedule.specs.Answers.{answer_text, line_of};
ghost use Rattle.dm_text.specs.Text.{Appends};

use dm_core::Book;
use dm_event::{Choice, NoMemory, Part, Said, SiteNo, TxnId, Value, Vector, Why};
use dm_history::{ChoiceText, WhyText};
use dm_report::put_reply;
use dm_text::{TxnText, VectorText, put_text};
use std::alloc::Global;
use std::fmt;

/// What a command line is answered.
#[derive(Clone, Copy, Debug, PartialEq, Eq)]
pub(crate) enum Answer {
    Routed {
        txn: TxnId,
        site: SiteNo,
        choice: Choice,
    },
    Begun {
        txn: TxnId,
        site: SiteNo,
        begin: Vector,
    },
    Moved {
        txn: TxnId,
    },
    Value {
        value: Value,
    },
    Put,
    Added,
    Committed {
        site: SiteNo,
        seq: u64,
        /// The commit vector.
        vector: Vector,
    },
    Ended {
        begin: Vector,
    },
    Replied {
        session: u32,
        number: u32,
        said: Said,
    },
    Failed,
    Refreshed {
        site: SiteNo,
        /// The site's vector with the transaction.
        vector: Vector,
    },
    Asked {
        part: Part,
        epoch: u64,
        to: SiteNo,
    },
    Released {
        part: Part,
        epoch: u64,
        vector: Vector,
    },
    Granted {
        part: Part,
        /// The new epoch.
        epoch: u64,
        to: SiteNo,
    },
    Settled {
        part: Part,
        epoch: u64,
    },
    Doubted {
        site: SiteNo,
    },
    Restarted {
        site: SiteNo,
        vector: Vector,
    },
    /// Why the line's step may not come.
    Refused(Why),
    /// The attempt has done 64 ops.
    RefusedOps,
}

/// Displays the line of an answer for which no look at the history is needed: of each but a reply.
#[derive(Drop)]
struct AnswerText(Answer);

impl fmt::Display for AnswerText {
    ghost output = { λ a. line_of a.0 };

    #[tactic(auto, unfolding(crate::specs::Answers::line_of))]
    fn fmt<W: fmt::Write>(&self, f: &mut fmt::Formatter<W>) -> fmt::Result {
        match &self.0 {
            Answer::Routed { txn, site, choice } => {
                let txn = TxnText(txn);
                let choice = ChoiceText(*choice);
                write!(f, "routed {txn} to {site} {choice}\n")
            }
            Answer::Begun { txn, site, begin } => {
                let txn = TxnText(txn);
                let begin = VectorText(begin);
                write!(f, "begun {txn} at {site} {begin}\n")
            }
            Answer::Moved { txn } => {
                let txn = TxnText(txn);
                write!(f, "moved {txn}\n")
            }
            Answer::Value { value } => write!(f, "value {value}\n"),
            Answer::Put => write!(f, "put\n"),
            Answer::Added => write!(f, "added\n"),
            Answer::Committed { site, seq, vector } => {
                let vector = VectorText(vector);
                write!(f, "committed {site}.{seq} {vector}\n")
            }
            Answer::Ended { begin } => {
                let begin = VectorText(begin);
                write!(f, "ended {begin}\n")
            }
            // Its line tells what the history says.
            Answer::Replied { .. } => Ok(()),
            Answer::Failed => write!(f, "failed\n"),
            Answer::Refreshed { site, vector } => {
                let vector = VectorText(vector);
                write!(f, "refreshed {site} {vector}\n")
            }
            Answer::Asked { part, epoch, to } => write!(f, "asked {part} epoch {epoch} to {to}\n"),
            Answer::Released {
                part,
                epoch,
                vector,
            } => {
                let vector = VectorText(vector);
                write!(f, "released {part} epoch {epoch} {vector}\n")
            }
            Answer::Granted { part, epoch, to } => {
                write!(f, "granted {part} epoch {epoch} to {to}\n")
            }
            Answer::Settled { part, epoch } => write!(f, "settled {part} epoch {epoch}\n"),
            Answer::Doubted { site } => write!(f, "doubt at {site}\n"),
            Answer::Restarted { site, vector } => {
                let vector = VectorText(vector);
                write!(f, "restarted {site} {vector}\n")
            }
            Answer::Refused(why) => {
                let why = WhyText(why);
                write!(f, "refused {why}\n")
            }
            Answer::RefusedOps => write!(f, "refused ops\n"),
        }
    }
}

/// Appends the line of an answer. The book has the step that the command line has brought.
pub(crate) fn put_answer(
    alloc: Global,
    out: &mut Vec<u8>,
    book: &Book,
    answer: Answer,
) -> Result<(), NoMemory>
    ensures { Appends result out.old.items out.new.items (answer_text (past book.now) answer) }
{
    match answer {
        Answer::Replied {
            session,
            number,
            said,
        } => put_reply(alloc, out, book, session, number, &said),
        answer => put_text(out, &AnswerText(answer).to_string(alloc)?),
    }
}
