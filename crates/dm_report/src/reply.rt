//! The line of a Reply.

ghost use Rattle.std.specs.Prelude.{◌≡◌, Some, option_map, option_copied, reverse};
ghost use Rattle.dm_core.specs.Ledger.{past};
ghost use Rattle.dm_model.specs.Acts.{entry_at};
ghost use Rattle.dm_model.specs.Runs.{begin_of};
ghost use Rattle.dm_report.specs.Replies.{is_of_item, end_reads, item_begin, item_reads, both, saw_commit, saw, shown, saw_text, reason_text, outcome_text, reply_text};
ghost use Rattle.dm_text.specs.Text.{Appends};

use dm_core::Book;
use dm_event::{Cause, NoMemory, Pairs, Said, SiteNo, Step, TxnId, Vector};
use dm_history::ByteText;
use dm_text::{PairsText, VectorText, put_text};
use std::alloc::Global;
use std::fmt;

/// What an item's transaction saw: a vector, and its reads.
type Saw<'a> = Option<(Vector, &'a Pairs)>;

fn is_of_item(txn: TxnId, session: u32, number: u32) -> bool
    ensures { result ≡ is_of_item session number txn }
{
    txn.session == session && txn.number == number
}

fn begin_of(step: &Step, session: u32, number: u32) -> Option<Vector>
    ensures { result ≡ begin_of (is_of_item session number) step.now }
{
    match step {
        Step::Begin { txn, begin, .. } if is_of_item(*txn, session, number) => Some(*begin),
        _ => None,
    }
}

fn end_reads(step: &Step, session: u32, number: u32) -> Option<&Pairs>
    ensures { option_copied result ≡ end_reads session number step.now }
{
    match step {
        Step::End { txn, reads, .. } if is_of_item(*txn, session, number) => Some(reads),
        _ => None,
    }
}

/// The begin vector of the last attempt at the item that began.
fn item_begin(steps: &[Step], session: u32, number: u32) -> Option<Vector>
    ensures { result ≡ item_begin session number (reverse steps.now) }
{
    let mut place = steps.len();
    while place > 0 {
        place -= 1;
        if let Some(begin) = begin_of(&steps[place], session, number) {
            return Some(begin);
        }
    }
    None
}

/// What the item's transaction read, which ended without a write.
fn item_reads(steps: &[Step], session: u32, number: u32) -> Option<&Pairs>
    ensures { option_copied result ≡ item_reads session number (reverse steps.now) }
{
    let mut place = steps.len();
    while place > 0 {
        place -= 1;
        if let Some(reads) = end_reads(&steps[place], session, number) {
            return Some(reads);
        }
    }
    None
}

fn saw_commit(book: &Book, site: SiteNo, seq: u64) -> Saw<'_>
    ensures { shown result ≡ option_map saw_commit (entry_at site seq (past book.now)) }
{
    let entry = book.entry(site, seq)?;
    Some((entry.commit_vector(), &entry.reads))
}

fn saw_end(book: &Book, session: u32, number: u32) -> Saw<'_>
    ensures { shown result ≡ both (item_begin session number (past book.now)) (item_reads session number (past book.now)) }
{
    let begin = item_begin(book.steps(), session, number)?;
    let reads = item_reads(book.steps(), session, number)?;
    Some((begin, reads))
}

fn saw(book: &Book, session: u32, number: u32, said: Said) -> Saw<'_>
    ensures { shown result ≡ saw (past book.now) session number said }
{
    match said {
        Said::Committed { site, seq } => saw_commit(book, site, seq),
        Said::Read { .. } => saw_end(book, session, number),
        Said::InDoubt { .. } | Said::Placed { .. } | Said::Restarted { .. } | Said::Refused(_) =>
            None,
    }
}

#[derive(Drop)]
struct SawText<'a>(Saw<'a>);

impl fmt::Display for SawText<'_> {
    ghost output = { λ t. Some (saw_text (shown t.0)) };

    #[tactic(auto, unfolding(crate::specs::Replies::saw_text))]
    fn fmt<W: fmt::Write>(&self, f: &mut fmt::Formatter<W>) -> fmt::Result {
        match &self.0 {
            Some((vector, reads)) => {
                let vector = VectorText(vector);
                let reads = PairsText(reads);
                write!(f, " {vector} reads {reads}")
            }
            None => Ok(()),
        }
    }
}

#[derive(Drop)]
struct ReasonText<'a>(&'a Cause);

impl fmt::Display for ReasonText<'_> {
    ghost output = { λ t. Some (reason_text t.0.now) };

    #[tactic(auto, unfolding(crate::specs::Replies::reason_text))]
    fn fmt<W: fmt::Write>(&self, f: &mut fmt::Formatter<W>) -> fmt::Result {
        match self.0 {
            Cause::Undeclared { key } => write!(f, "undeclared {key}"),
            Cause::Log { site } => write!(f, "log {site}"),
            Cause::Damage {
                site,
                place,
                read,
                written,
            } => {
                let read = ByteText(*read);
                let written = ByteText(*written);
                write!(f, "damage {site} at {place} read {read} written {written}")
            }
            Cause::Memory => write!(f, "memory"),
        }
    }
}

#[derive(Drop)]
struct OutcomeText<'a>(&'a Said);

impl fmt::Display for OutcomeText<'_> {
    ghost output = { λ t. Some (outcome_text t.0.now) };

    #[tactic(auto, unfolding(crate::specs::Replies::outcome_text))]
    fn fmt<W: fmt::Write>(&self, f: &mut fmt::Formatter<W>) -> fmt::Result {
        match self.0 {
            Said::Committed { site, seq } => write!(f, "committed {site}.{seq}"),
            Said::Read { site } => write!(f, "read at {site}"),
            Said::InDoubt { site } => write!(f, "in doubt at {site}"),
            Said::Placed { part, site, epoch } => write!(
                f,
                "placed {part} at {site} epoch {epoch}"
            ),
            Said::Restarted { site } => write!(f, "restarted {site}"),
            Said::Refused(cause) => {
                let cause = ReasonText(cause);
                write!(f, "refused {cause}")
            }
        }
    }
}

/// Appends the line of the session's Reply with this number. The book's steps are those before the
/// Reply, or more.
#[tactic(auto, unfolding(crate::specs::Replies::reply_text))]
pub fn put_reply(
    alloc: Global,
    out: &mut Vec<u8>,
    book: &Book,
    session: u32,
    number: u32,
    said: &Said,
) -> Result<(), NoMemory>
    ensures { Appends result out.old.items out.new.items (reply_text (past book.now) session number said.now) }
{
    let seen = SawText(saw(book, session, number, *said));
    let outcome = OutcomeText(said);
    let line = format!(in alloc; "reply {session} {number} {outcome}{seen}\n")?;
    put_text(out, &line)
}
