//! What a turn tells of a Route and a Reply.

ghost use Rattle.std.specs.Prelude.{◌≡◌, ◌≤◌, ◌+◌, ◌++◌, [], ◌∷◌, IsFalse, IsSomeAnd, IsTrue, length, reverse};
ghost use Rattle.dm_chronicle.specs.Standing.{Covers, standing};
ghost use Rattle.dm_core.specs.Lawful.{may_follow};
ghost use Rattle.dm_core.specs.Ledger.{past};
ghost use Rattle.dm_event.specs.Actors.{actors};
ghost use Rattle.dm_event.specs.Layout.{is_site};
ghost use Rattle.dm_invariant.specs.Stations.{layout_of};
ghost use Rattle.dm_kept.specs.Roomy.{HasRoom};
ghost use Rattle.dm_model.specs.Attempts.{wants_txn};
ghost use Rattle.dm_model.specs.Choices.{due_for};
ghost use Rattle.dm_model.specs.Sessions.{session_vector};
ghost use Rattle.dm_model.specs.Shape.{is_want};
ghost use Rattle.dm_session.specs.Sitting.{IsAnswer};

use dm_chronicle::Turn;
use dm_core::{Book, CorePass};
use dm_event::{Choice, SiteNo, Step, Vector, Want};

/// The site and the choice that are due for a Route to the site.
pub(crate) fn due(book: &Book, session: u32, want: &Want, site: SiteNo) -> (SiteNo, Choice)
    requires session { (1 ≤ session) × (session ≤ 32) }
    requires fits { IsTrue (is_want book.now.layout want.now) }
    requires there { IsFalse (wants_txn want.now) → IsTrue (is_site book.now.layout site) }
    ensures due { result ≡ due_for book.now.layout (past book.now) session want.now site }
    ensures there { IsTrue (is_site book.now.layout result.0) }
{
    // a schema has one site at least
    let _sites = book.schema().sites();
    match want {
        Want::Txn(_) => book.choice_for(session, want),
        Want::Place(_) | Want::Restart => (site, Choice::Hand),
    }
}

/// One more than a count of steps.
pub(crate) fn one_more(book: &Book, count: u64) -> u64
    requires { count ≤ length book.now.steps }
    ensures { result ≡ count + 1 }
{
    let steps: &[Step] = book.steps();
    let most = steps.len() as u64 + 1;
    if count < most { count + 1 } else { most }
}

/// There is room for the Reply to a counted item.
fn has_room(turn: &Turn<'_, Book>, step: &Step)
    requires follows { IsSomeAnd turn.now.fixed (λ f. may_follow f turn.now.seen step.now) }
    requires answer { IsSomeAnd turn.now.fixed (λ f. IsAnswer f turn.now.seen step.now) }
    ensures { IsSomeAnd turn.now.kept (λ book. HasRoom book step.now) }
{
    let book = turn.kept();
    // the history so far is legal
    let _steps = book.steps();
    book.keeps_room(step);
}

/// Pushes the Reply to a counted item, which takes no memory, and leaves the turn. It gives what the session has then seen.
pub(crate) fn push_answer(
    turn: Turn<'_, Book>,
    own: &mut CorePass,
    session: u32,
    step: Step,
) -> Vector
    requires table { own.old.table ≡ turn.table }
    requires lent { own.old.actors ≡ [] }
    requires follows { IsSomeAnd turn.fixed (λ f. may_follow f turn.seen step) }
    requires answer { IsSomeAnd turn.fixed (λ f. IsAnswer f turn.seen step) }
    requires covers { Covers actors turn.actors step }
    ensures own { own.new ≡ record own.old { actors = turn.entry.actors; seen = turn.entry.seen ++ step ∷ [] } }
    ensures vector { result ≡ session_vector (layout_of (standing turn.entry)).sites (reverse (turn.entry.seen ++ step ∷ [])) session }
{
    has_room(&turn, &step);
    let mut turn = turn;
    turn.push(step);
    let vector = turn.kept().session_vector(session);
    turn.leave(own);
    vector
}
