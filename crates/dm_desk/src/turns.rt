//! Turns that a session and a site take together, and what they show.

ghost use Rattle.std.specs.List.{list_all};
ghost use Rattle.std.specs.Prelude.{◌≡◌, ◌+◌, ◌<◌, ◌≤◌, is_some, ◌++◌, [], ◌∷◌, ℕ, List, Some, IsTrue, IsSomeAnd, OnOk, length, reverse};
ghost use Rattle.dm_chronicle.specs.Standing.{Covers, standing};
ghost use Rattle.dm_core.specs.Lawful.{may_follow};
ghost use Rattle.dm_event.specs.Actors.{actors};
ghost use Rattle.dm_event.specs.Layout.{is_key, is_part};
ghost use Rattle.dm_event.specs.declared.limits.TheConstants.{MAX_PARTS, MAX_SITES, MAX_WIDTH};
ghost use Rattle.dm_kept.specs.Roomy.{HasRoom};
ghost use Rattle.dm_model.specs.Allowed.{elsewhere, next_refresh, runner};
ghost use Rattle.dm_model.specs.Doubts.{is_down};
ghost use Rattle.dm_model.specs.Placings.{placing};
ghost use Rattle.dm_model.specs.Progress.{entry_count, site_vector};
ghost use Rattle.dm_invariant.specs.Stations.{layout_of};
ghost use Rattle.dm_invariant.specs.Turning.{Turned, is_ending};

use dm_chronicle::Turn;
use dm_core::{Book, Chron, CorePass};
use dm_event::{Key, NoMemory, Part, Placing, SiteNo, Step, TxnId, Vector};
use std::sync::Wait;

/// Takes the turn with one pass, which the other has met.
pub fn enter_both<'c, R: Wait>(
    rt: &R,
    chron: &'c Chron,
    own: &mut CorePass,
    other: &mut CorePass,
) -> Turn<'c, Book>
    requires own { own.old.table ≡ chron.now.table }
    requires actor { 0 < length own.old.actors }
    requires other { other.old.table ≡ chron.now.table }
    ensures table { result.table ≡ chron.now.table }
    ensures actors { result.actors ≡ own.old.actors }
    ensures turned { Turned own.old result.seen result.fixed }
    ensures met { Turned other.old result.seen result.fixed }
    ensures own { own.new ≡ record own.old { actors = [] } }
    ensures other { other.new ≡ record other.old { seen = result.seen } }
{
    let mut turn = chron.enter(rt, own);
    turn.meet(other);
    turn
}

/// Takes the turn with one pass.
pub fn enter_alone<'c, R: Wait>(rt: &R, chron: &'c Chron, own: &mut CorePass) -> Turn<'c, Book>
    requires own { own.old.table ≡ chron.now.table }
    requires actor { 0 < length own.old.actors }
    ensures table { result.table ≡ chron.now.table }
    ensures actors { result.actors ≡ own.old.actors }
    ensures turned { Turned own.old result.seen result.fixed }
    ensures own { own.new ≡ record own.old { actors = [] } }
{
    chron.enter(rt, own)
}

/// Leaves the turn with the pass that took it.
pub fn leave(turn: Turn<'_, Book>, own: &mut CorePass)
    requires table { own.old.table ≡ turn.table }
    requires lent { own.old.actors ≡ [] }
    ensures own { own.new ≡ record own.old { actors = turn.entry.actors; seen = turn.entry.seen } }
{
    turn.leave(own);
}

/// Pushes a step of both passes, for which there is room, and leaves the turn.
pub fn push_roomy(turn: Turn<'_, Book>, own: &mut CorePass, other: &mut CorePass, step: Step)
    requires tables { (own.old.table ≡ turn.table) × (other.old.table ≡ turn.table) }
    requires lent { own.old.actors ≡ [] }
    requires follows { IsSomeAnd turn.fixed (λ f. may_follow f turn.seen step) }
    requires room { IsSomeAnd turn.kept (λ book. HasRoom book step) }
    requires covers { Covers actors (turn.actors ++ other.old.actors) step }
    ensures own { own.new ≡ record own.old { actors = turn.entry.actors; seen = turn.entry.seen ++ step ∷ [] } }
    ensures other { other.new ≡ record other.old { seen = turn.entry.seen ++ step ∷ [] } }
{
    let mut turn = turn;
    turn.push_with(other, step);
    turn.leave(own);
}

/// Pushes a step of the pass that took the turn, for which there is room, and leaves the turn.
pub fn push_alone(turn: Turn<'_, Book>, own: &mut CorePass, step: Step)
    requires table { own.old.table ≡ turn.table }
    requires lent { own.old.actors ≡ [] }
    requires follows { IsSomeAnd turn.fixed (λ f. may_follow f turn.seen step) }
    requires room { IsSomeAnd turn.kept (λ book. HasRoom book step) }
    requires covers { Covers actors turn.actors step }
    ensures own { own.new ≡ record own.old { actors = turn.entry.actors; seen = turn.entry.seen ++ step ∷ [] } }
{
    let mut turn = turn;
    turn.push(step);
    turn.leave(own);
}

/// There is room for a step by which something comes to its end.
fn has_room(turn: &Turn<'_, Book>, step: &Step)
    requires follows { IsSomeAnd turn.now.fixed (λ f. may_follow f turn.now.seen step.now) }
    requires ending { IsTrue (is_ending step.now) }
    ensures { IsSomeAnd turn.now.kept (λ book. HasRoom book step.now) }
{
    let book = turn.kept();
    // the history so far is legal
    let _steps = book.steps();
    book.keeps_room(step);
}

/// Pushes a step of both passes by which something comes to its end, and leaves the turn. It takes no
/// memory.
pub fn push_ending(turn: Turn<'_, Book>, own: &mut CorePass, other: &mut CorePass, step: Step)
    requires tables { (own.old.table ≡ turn.table) × (other.old.table ≡ turn.table) }
    requires lent { own.old.actors ≡ [] }
    requires follows { IsSomeAnd turn.fixed (λ f. may_follow f turn.seen step) }
    requires ending { IsTrue (is_ending step) }
    requires covers { Covers actors (turn.actors ++ other.old.actors) step }
    ensures own { own.new ≡ record own.old { actors = turn.entry.actors; seen = turn.entry.seen ++ step ∷ [] } }
    ensures other { other.new ≡ record other.old { seen = turn.entry.seen ++ step ∷ [] } }
{
    has_room(&turn, &step);
    push_roomy(turn, own, other, step);
}

/// The schema keeps its limits.
pub fn keeps_limits(turn: &Turn<'_, Book>)
    ensures sites { (layout_of (standing turn.now)).sites ≤ MAX_SITES }
    ensures parts { length (layout_of (standing turn.now)).masters ≤ MAX_PARTS }
    ensures width { (layout_of (standing turn.now)).width ≤ MAX_WIDTH }
{
    // The schema brings them in.
    let schema = turn.kept().schema();
    let _sites = schema.sites();
    let _parts = schema.parts();
    let _width = schema.width();
}

/// Makes room for the step, where it may come.
pub fn reserve(turn: &mut Turn<'_, Book>, step: &Step) -> Result<(), NoMemory>
    ensures same { standing turn.new ≡ standing turn.old }
    ensures room { OnOk result (IsSomeAnd turn.old.fixed (λ f. may_follow f turn.old.seen step.now) → IsSomeAnd turn.new.kept (λ book. HasRoom book step.now)) }
{
    if turn.kept().enabled(step).is_ok() {
        return turn.reserve(step);
    }
    Ok(())
}

pub fn is_down(turn: &Turn<'_, Book>, site: SiteNo) -> bool
    ensures { result ≡ is_down site (reverse turn.now.seen) }
{
    turn.kept().is_down(site)
}

pub fn vector(turn: &Turn<'_, Book>, site: SiteNo) -> Vector
    ensures { result ≡ site_vector (layout_of (standing turn.now)).sites (reverse turn.now.seen) site }
{
    turn.kept().vector(site)
}

/// The number of the site's next transaction.
pub fn next_seq(turn: &Turn<'_, Book>, site: SiteNo) -> u64
    ensures { result ≡ entry_count site (reverse turn.now.seen) + 1 }
{
    turn.kept().entry_count(site) + 1
}

pub fn is_elsewhere(turn: &Turn<'_, Book>, site: SiteNo, keys: &[Key]) -> bool
    requires { IsTrue (list_all (is_key (layout_of (standing turn.now))) keys.now) }
    ensures { result ≡ is_some (elsewhere (layout_of (standing turn.now)) (reverse turn.now.seen) site keys.now) }
{
    turn.kept().elsewhere(site, keys).is_some()
}

pub fn placing(turn: &Turn<'_, Book>, part: Part) -> Placing
    requires { IsTrue (is_part (layout_of (standing turn.now)) part) }
    ensures { result ≡ placing (layout_of (standing turn.now)) (reverse turn.now.seen) part }
{
    turn.kept().placing(part)
}

pub fn runner(turn: &Turn<'_, Book>, site: SiteNo, part: Part) -> Option<TxnId>
    ensures { result ≡ runner (layout_of (standing turn.now)) (reverse turn.now.seen) site part }
{
    turn.kept().runner(site, part)
}

pub fn next_refresh(turn: &Turn<'_, Book>, site: SiteNo) -> Option<SiteNo>
    ensures { result ≡ next_refresh (layout_of (standing turn.now)) (reverse turn.now.seen) site }
{
    turn.kept().next_refresh(site)
}
