//! The moves of partitions from site to site.

ghost use Rattle.std.specs.List.{cons_option};
ghost use Rattle.std.specs.Prelude.{◌≡◌, ◌≤◌, ◌∷◌, length, reverse, take, Some, IfOk, option_copied};
ghost use Rattle.dm_core.specs.Ledger.{past};
ghost use Rattle.dm_model.specs.Acts.{acts, acts_of};
ghost use Rattle.dm_model.specs.Doubts.{pending_at};
ghost use Rattle.dm_model.specs.Words.{latest};
ghost use Rattle.dm_report.specs.Moves.{released_by, giver, moved, moves_by};
ghost use Rattle.dm_report.specs.Keeping.{kept_release, kept_move, where_kept};
ghost use Rattle.dm_report.specs.Rest.{move_text};

use dm_core::Book;
use dm_event::{Found, NoMemory, Part, Pending, SiteNo, Step};
use std::alloc::Global;
use std::fmt;

/// A partition that one site released and another took over.
#[derive(Clone, Copy)]
pub(crate) struct Move {
    part: Part,
    /// The new one.
    epoch: u64,
    from: SiteNo,
    to: SiteNo,
}

impl fmt::Display for Move {
    ghost output = { λ m. Some (move_text m) };

    #[tactic(auto, unfolding(crate::specs::Rest::move_text))]
    fn fmt<W: fmt::Write>(&self, f: &mut fmt::Formatter<W>) -> fmt::Result {
        let Move {
            part,
            epoch,
            from,
            to,
        } = self;
        write!(f, "move {part} epoch {epoch} from {from} to {to}\n")
    }
}

/// The pending step of the site's last doubt before this place, where it was kept.
fn doubted(book: &Book, place: usize, site: SiteNo, found: Found) -> Option<&Pending>
    requires { place ≤ length book.now.steps }
    ensures { option_copied result ≡ where_kept found (pending_at site (reverse (take place book.now.steps))) }
{
    match found {
        Found::Kept => book.pending_before(place, site),
        Found::Clean | Found::Lost => None,
    }
}

/// The site, if the pending step that it kept releases the partition.
fn kept_release(found: Found, pending: Option<&Pending>, site: SiteNo, part: Part) -> Option<SiteNo>
    ensures { result ≡ kept_release part site found (option_copied pending.entry) }
{
    match (found, pending) {
        (Found::Kept, Some(Pending::Release { part: of, .. })) if *of == part => Some(site),
        _ => None,
    }
}

/// The site that the step releases the partition from, which has this place in the book's history.
fn released(step: &Step, book: &Book, place: usize, part: Part) -> Option<SiteNo>
    requires { place ≤ length book.now.steps }
    ensures { result ≡ latest (released_by part) (acts_of step.now (reverse (take place book.now.steps))) }
{
    match step {
        Step::Release { site, part: of, .. } if *of == part => Some(*site),
        Step::Restart { site, found, .. } => {
            kept_release(*found, doubted(book, place, *site, *found), *site, part)
        }
        _ => None,
    }
}

/// The site that released the partition last, before this place. The steps from there to that release are
/// looked at.
fn giver(book: &Book, place: usize, part: Part) -> SiteNo
    requires { place ≤ length book.now.steps }
    ensures { result ≡ giver part (acts (reverse (take place book.now.steps))) }
{
    let steps = book.steps();
    let mut before = place;
    while before > 0 {
        before -= 1;
        if let Some(site) = released(&steps[before], book, before, part) {
            return site;
        }
    }
    0
}

/// The move that a grant at this place makes.
fn taken(book: &Book, place: usize, site: SiteNo, part: Part, epoch: u64) -> Move
    requires { place ≤ length book.now.steps }
    ensures { result ≡ moved (acts (reverse (take place book.now.steps))) site part epoch }
{
    Move {
        part,
        epoch,
        from: giver(book, place, part),
        to: site,
    }
}

/// The move that the site's pending step makes at this place, where it was kept.
fn kept_move(
    book: &Book,
    place: usize,
    found: Found,
    pending: Option<&Pending>,
    site: SiteNo,
) -> Option<Move>
    requires { place ≤ length book.now.steps }
    ensures { result ≡ kept_move (acts (reverse (take place book.now.steps))) site found (option_copied pending.entry) }
{
    match (found, pending) {
        (Found::Kept, Some(Pending::Grant { part, epoch, .. })) => {
            Some(taken(book, place, site, *part, *epoch))
        }
        _ => None,
    }
}

/// The move that the step makes, which has this place in the book's history.
fn move_by(step: &Step, book: &Book, place: usize) -> Option<Move>
    requires { place ≤ length book.now.steps }
    ensures { moves_by (acts (step.now ∷ reverse (take place book.now.steps))) ≡ cons_option result (moves_by (acts (reverse (take place book.now.steps)))) }
{
    match step {
        Step::Grant {
            site,
            part,
            epoch,
            ..
        } => Some(taken(book, place, *site, *part, *epoch)),
        Step::Restart { site, found, .. } => {
            let pending = doubted(book, place, *site, *found);
            kept_move(book, place, *found, pending, *site)
        }
        _ => None,
    }
}

/// The moves, the earliest first.
pub(crate) fn moves_of(alloc: Global, book: &Book) -> Result<Vec<Move>, NoMemory>
    ensures { IfOk result (λ moves. moves.items ≡ reverse (moves_by (acts (past book.now)))) }
{
    let steps = book.steps();
    let mut moves = Vec::new(alloc);
    for place in 0..steps.len() {
        if let Some(made) = move_by(&steps[place], book, place) {
            moves.push(made)?;
        }
    }
    Ok(moves)
}
