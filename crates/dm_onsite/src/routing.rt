//! Steps that a session or a partition pushes by itself.

ghost use Rattle.std.specs.Prelude.{◌≡◌, ◌∷◌, [], Some, None, IsTrue, IsSomeAnd, IfSome};
ghost use Rattle.dm_chronicle.specs.Standing.{standing};
ghost use Rattle.dm_core.specs.Lawful.{may_follow};
ghost use Rattle.dm_event.specs.Actors.{actors};
ghost use Rattle.dm_event.specs.declared.actor.Actor.TheVariants.{Partition};
ghost use Rattle.dm_invariant.specs.Running.{RoutedFor};
ghost use Rattle.dm_invariant.specs.Stations.{IsPassOf, Went};
ghost use Rattle.dm_kept.specs.Roomy.{HasRoom};

use dm_chronicle::Turn;
use dm_core::{Book, Chron, CorePass};
use dm_desk::{enter_alone, leave, push_alone, reserve};
use dm_event::{Choice, Part, Placing, SiteNo, Step, TxnId, Vector, Want};
use std::sync::Wait;

/// Whether the step may come.
fn may_come(turn: &Turn<'_, Book>, step: &Step) -> bool
    ensures { IsTrue result → IsSomeAnd turn.now.fixed (λ f. may_follow f turn.now.seen step.now) }
{
    turn.kept().enabled(step).is_ok()
}

/// Whether the step may come, and there is room for it.
fn has_room(turn: &mut Turn<'_, Book>, step: &Step) -> bool
    ensures same { standing turn.new ≡ standing turn.old }
    ensures follows { IsTrue result → IsSomeAnd turn.old.fixed (λ f. may_follow f turn.old.seen step.now) }
    ensures room { IsTrue result → IsSomeAnd turn.new.kept (λ book. HasRoom book step.now) }
{
    may_come(turn, step) && reserve(turn, step).is_ok()
}

/// Routes the attempt to the site by hand, where that may be. Its minimum is the session's vector.
pub(crate) fn route<R: Wait>(
    rt: &R,
    chron: &Chron,
    own: &mut CorePass,
    txn: TxnId,
    want: Want,
    site: SiteNo,
) -> Option<Vector>
    requires own { IsPassOf chron.now.table txn.session own.old }
    ensures went { Went own.old own.new }
    ensures routed { IfSome result (λ min. RoutedFor txn want min site own.new) }
{
    let mut turn = enter_alone(rt, chron, own);
    let min = turn.kept().session_vector(txn.session);
    let choice = Choice::Hand;
    let step = Step::Route {
        txn,
        want,
        min,
        site,
        choice,
    };
    if has_room(&mut turn, &step) {
        push_alone(turn, own, step);
        return Some(min);
    }
    leave(turn, own);
    None
}

/// Answers the session's item, where that may be.
pub(crate) fn reply<R: Wait>(
    rt: &R,
    chron: &Chron,
    own: &mut CorePass,
    session: u32,
    number: u32,
) -> bool
    requires own { IsPassOf chron.now.table session own.old }
    ensures went { Went own.old own.new }
{
    let mut turn = enter_alone(rt, chron, own);
    let Some(said) = turn.kept().said_for(session) else {
        leave(turn, own);
        return false;
    };
    let step = Step::Reply {
        session,
        number,
        said,
    };
    if has_room(&mut turn, &step) {
        push_alone(turn, own, step);
        return true;
    }
    leave(turn, own);
    false
}

/// Asks the partition away from its master, where that may be.
pub(crate) fn ask<R: Wait>(
    rt: &R,
    chron: &Chron,
    entry: &mut CorePass,
    part: Part,
    to: SiteNo,
    txn: TxnId,
) -> bool
    requires table { entry.old.table ≡ chron.now.table }
    requires actor { entry.old.actors ≡ Partition part ∷ [] }
    ensures went { Went entry.old entry.new }
{
    let mut turn = enter_alone(rt, chron, entry);
    let book = turn.kept();
    if !book.schema().is_part(part) {
        leave(turn, entry);
        return false;
    }
    let Placing::Settled { epoch, .. } = book.placing(part) else {
        leave(turn, entry);
        return false;
    };
    let step = Step::Ask {
        part,
        epoch,
        to,
        txn,
    };
    if has_room(&mut turn, &step) {
        push_alone(turn, entry, step);
        return true;
    }
    leave(turn, entry);
    false
}

/// Settles the partition at the site that it is granted to, where that may be.
pub(crate) fn settle<R: Wait>(rt: &R, chron: &Chron, entry: &mut CorePass, part: Part) -> bool
    requires table { entry.old.table ≡ chron.now.table }
    requires actor { entry.old.actors ≡ Partition part ∷ [] }
    ensures went { Went entry.old entry.new }
{
    let mut turn = enter_alone(rt, chron, entry);
    let book = turn.kept();
    if !book.schema().is_part(part) {
        leave(turn, entry);
        return false;
    }
    let Placing::Granted { epoch, .. } = book.placing(part) else {
        leave(turn, entry);
        return false;
    };
    let step = Step::Settle { part, epoch };
    if has_room(&mut turn, &step) {
        push_alone(turn, entry, step);
        return true;
    }
    leave(turn, entry);
    false
}
