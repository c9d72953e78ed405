//! What a report says after the replies.

ghost use Rattle.std.specs.Fmt.{decimal};
ghost use Rattle.std.specs.List.{flat_map, range_with_len};
ghost use Rattle.std.specs.Prelude.{◌≡◌, ◌<◌, Some, length, reverse};
ghost use Rattle.dm_core.specs.Ledger.{past};
ghost use Rattle.dm_event.specs.Vectors.{sites_to};
ghost use Rattle.dm_history.specs.Steps.{step_text};
ghost use Rattle.dm_model.specs.Acts.{acts};
ghost use Rattle.dm_report.specs.Moves.{moves_by};
ghost use Rattle.dm_report.specs.Rest.{move_text, moves_text, site_text, sites_text, placing_text, part_text, parts_text, steps_text, rest_text};
ghost use Rattle.dm_text.specs.Text.{Appends};

use crate::moves::{Move, moves_of};
use crate::totals::count_replies;
use dm_core::Book;
use dm_event::{NoMemory, Part, Placing, SiteNo, Step};
use dm_history::put_step;
use dm_text::{VectorText, put_text};
use std::alloc::Global;
use std::fmt;

/// Appends the number of moves and a line for each.
#[tactic(auto, unfolding(crate::specs::Rest::moves_text))]
pub(crate) fn put_moves(alloc: Global, out: &mut Vec<u8>, moves: &[Move]) -> Result<(), NoMemory>
    ensures { Appends result out.old.items out.new.items (moves_text moves.now) }
{
    let count = moves.len();
    put_text(out, &format!(in alloc; "moves {count}\n")?)?;
    for made in moves {
        put_text(out, &made.to_string(alloc)?)?;
    }
    Ok(())
}

/// Appends the line of a site.
#[tactic(auto, unfolding(crate::specs::Rest::site_text, crate::specs::Rest::down_text))]
fn put_site(alloc: Global, out: &mut Vec<u8>, book: &Book, site: SiteNo) -> Result<(), NoMemory>
    ensures { Appends result out.old.items out.new.items (site_text book.now.layout (past book.now) site) }
{
    let vector = book.vector(site);
    let vector = VectorText(&vector);
    if book.is_down(site) {
        put_text(out, &format!(in alloc; "site {site} {vector} down\n")?)
    } else {
        put_text(out, &format!(in alloc; "site {site} {vector}\n")?)
    }
}

/// Appends the line of each site.
#[tactic(auto, using(crate::proofs::LinesOf::sites_more), unfolding(crate::specs::Rest::sites_text),)]
fn put_sites(alloc: Global, out: &mut Vec<u8>, book: &Book) -> Result<(), NoMemory>
    ensures { Appends result out.old.items out.new.items (sites_text book.now.layout (past book.now) book.now.layout.sites) }
{
    for site in 1..book.schema().sites() + 1 {
        put_site(alloc, out, book, site)?;
    }
    Ok(())
}

/// Displays where a partition stands.
#[derive(Drop)]
pub(crate) struct PlacingText<'a>(pub(crate) &'a Placing);

impl fmt::Display for PlacingText<'_> {
    ghost output = { λ p. Some (placing_text p.0.now) };

    #[tactic(auto, unfolding(crate::specs::Rest::placing_text))]
    fn fmt<W: fmt::Write>(&self, f: &mut fmt::Formatter<W>) -> fmt::Result {
        match self.0 {
            Placing::Settled { site, epoch }
            | Placing::Asked { site, epoch, .. }
            | Placing::Granted { site, epoch } => write!(f, " at {site} epoch {epoch}"),
            Placing::Between {
                site,
                epoch,
                to,
                ..
            } => write!(f, " between {site} and {to} epoch {epoch}"),
        }
    }
}

/// Appends the line of a partition.
#[tactic(auto, unfolding(crate::specs::Rest::part_text))]
fn put_part(alloc: Global, out: &mut Vec<u8>, book: &Book, part: Part) -> Result<(), NoMemory>
    requires { part < length book.now.layout.masters }
    ensures { Appends result out.old.items out.new.items (part_text book.now.layout (past book.now) part) }
{
    let stands = book.placing(part);
    let stands = PlacingText(&stands);
    put_text(out, &format!(in alloc; "part {part}{stands}\n")?)
}

/// Appends the line of each partition.
#[tactic(auto, using(crate::proofs::LinesOf::parts_more), unfolding(crate::specs::Rest::parts_text),)]
fn put_parts(alloc: Global, out: &mut Vec<u8>, book: &Book) -> Result<(), NoMemory>
    ensures { Appends result out.old.items out.new.items (parts_text book.now.layout (past book.now) (length book.now.layout.masters)) }
{
    for part in 0..book.schema().parts() {
        put_part(alloc, out, book, part)?;
    }
    Ok(())
}

/// Appends the number of steps and the line of each.
#[tactic(auto, unfolding(crate::specs::Rest::steps_text))]
fn put_steps(alloc: Global, out: &mut Vec<u8>, steps: &[Step]) -> Result<(), NoMemory>
    ensures { Appends result out.old.items out.new.items (steps_text steps.now) }
{
    let count = steps.len();
    put_text(out, &format!(in alloc; "steps {count}\n")?)?;
    for step in steps {
        put_step(alloc, out, step)?;
    }
    Ok(())
}

/// Appends what a report says after the replies: the moves of partitions, where each site and each
/// partition stands, how the sessions were answered, and the history.
#[tactic(auto, unfolding(crate::specs::Rest::rest_text))]
pub fn write_rest(alloc: Global, book: &Book, out: &mut Vec<u8>) -> Result<(), NoMemory>
    ensures { Appends result out.old.items out.new.items (rest_text book.now.layout book.now.steps) }
{
    let steps = book.steps();
    let moves = moves_of(alloc, book)?;
    put_moves(alloc, out, &moves)?;
    put_sites(alloc, out, book)?;
    put_parts(alloc, out, book)?;
    put_text(out, &count_replies(steps).to_string(alloc)?)?;
    put_steps(alloc, out, steps)
}
