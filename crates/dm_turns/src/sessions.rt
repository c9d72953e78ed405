//! Sessions that share the history of a book.

ghost use Rattle.std.specs.Prelude.{◌≡◌, ◌≤◌, ◌+◌, [], ◌∷◌, None, IfOk};
ghost use Rattle.std.specs.Option.{IsSomeAnd};
ghost use Rattle.dm_chronicle.specs.Standing.{Covers, IsOf};
ghost use Rattle.dm_core.specs.Lawful.{may_follow};
ghost use Rattle.dm_event.specs.Actors.{actors};
ghost use Rattle.dm_event.specs.declared.actor.Actor.TheVariants.{Session};

use dm_chronicle::{Chronicle, Turn};
use dm_core::{Book, Chron, CorePass};
use dm_event::{Actor, Cause, Choice, Keys, NoMemory, Said, Schema, Step, TxnId, Want, Weights};
use std::alloc::Global;
use std::sync::Wait;
use std::thread;
use std::thread::Threads;

/// The Route by hand to site 1 of an item that declares no key.
fn route(alloc: Global, book: &Book, session: u32, number: u32) -> Result<Step, NoMemory>
    ensures { IfOk result (λ step. actors step ≡ (Session session, None)) }
{
    let keys = Keys::new(Vec::new(alloc)).ok_or(NoMemory)?;
    Ok(Step::Route {
        txn: TxnId {
            session,
            number,
            attempt: 1,
        },
        want: Want::Txn(keys),
        min: book.session_vector(session),
        site: 1,
        choice: Choice::Hand,
    })
}

/// Pushes the step, where there is room for it.
fn push_if_room(turn: &mut Turn<'_, Book>, step: Step)
    requires follows { IsSomeAnd turn.old.fixed (λ terms. may_follow terms turn.old.seen step) }
    requires actors { Covers actors turn.old.actors step }
    ensures table { turn.new.table ≡ turn.old.table }
    ensures actors { turn.new.actors ≡ turn.old.actors }
{
    if turn.reserve(&step).is_ok() {
        turn.push(step);
    }
}

/// Pushes the step, where it is allowed and there is room for it.
fn push_if_allowed(turn: &mut Turn<'_, Book>, step: Step)
    requires actors { Covers actors turn.old.actors step }
    ensures table { turn.new.table ≡ turn.old.table }
    ensures actors { turn.new.actors ≡ turn.old.actors }
{
    if turn.kept().enabled(&step).is_ok() {
        push_if_room(turn, step);
    }
}

/// Routes the item, where that is allowed.
fn route_item<R: Wait>(
    rt: &R,
    alloc: Global,
    chron: &Chron,
    pass: &mut CorePass,
    session: u32,
    number: u32,
)
    requires own { IsOf chron.now pass.old }
    requires actor { pass.old.actors ≡ Session session ∷ [] }
    ensures actors { pass.new.actors ≡ pass.old.actors }
    ensures own { IsOf chron.now pass.new }
{
    let mut turn = chron.enter(rt, pass);
    if let Ok(step) = route(alloc, turn.kept(), session, number) {
        push_if_allowed(&mut turn, step);
    }
    turn.leave(pass);
}

/// Answers the item, where that is allowed: it is refused for want of memory.
fn answer_item<R: Wait>(rt: &R, chron: &Chron, pass: &mut CorePass, session: u32, number: u32)
    requires own { IsOf chron.now pass.old }
    requires actor { pass.old.actors ≡ Session session ∷ [] }
    ensures actors { pass.new.actors ≡ pass.old.actors }
    ensures own { IsOf chron.now pass.new }
{
    let said = Said::Refused(Cause::Memory);
    let step = Step::Reply {
        session,
        number,
        said,
    };
    let mut turn = chron.enter(rt, pass);
    push_if_allowed(&mut turn, step);
    turn.leave(pass);
}

/// Serves the session's first items, so many as `count` says, each routed in one turn and answered in a later one.
fn serve<R: Wait>(
    rt: &R,
    alloc: Global,
    chron: &Chron,
    mut pass: CorePass,
    session: u32,
    count: u32,
) -> CorePass
    requires own { IsOf chron.now pass }
    requires actor { pass.actors ≡ Session session ∷ [] }
    requires few { count ≤ 1000 }
    ensures actors { result.actors ≡ pass.actors }
    ensures own { IsOf chron.now result }
{
    for number in 1..count + 1 {
        route_item(rt, alloc, chron, &mut pass, session, number);
        answer_item(rt, chron, &mut pass, session, number);
    }
    pass
}

/// A book of two sites and two partitions, without steps and scripts.
fn new_book(alloc: Global) -> Result<Book, NoMemory>
    ensures { IfOk result (λ book. book.steps ≡ []) }
{
    let even = Weights {
        balance: 1,
        delay: 1,
        together: 1,
    };
    let masters = Vec::from_slice(alloc, &[1, 2])?;
    let schema = Schema::new(2, 10, masters, even, Vec::new(alloc)).ok_or(NoMemory)?;
    Book::new(alloc, &schema, &[0; 32])
}

/// Two sessions are served by threads of their own, through one chronicle.
pub(crate) fn two_sessions<R: Threads + Wait + Sync>(
    rt: &R,
    alloc: Global,
    count: u32,
) -> Result<Book, NoMemory>
    requires { count ≤ 1000 }
{
    let book = new_book(alloc)?;
    let made = Chronicle::new(alloc, book, &[Actor::Session(1), Actor::Session(2)]);
    let Ok((chron, mut passes)) = made else {
        return Err(NoMemory);
    };
    let (Some(two), Some(one)) = (passes.pop(), passes.pop()) else {
        return Err(NoMemory);
    };
    let lent = &chron;
    let (one, two) = thread::join(
        rt,
        move || serve(rt, alloc, lent, one, 1, count),
        move || serve(rt, alloc, lent, two, 2, count),
    );
    let pass = chron.join(one, two);
    Ok(chron.close(pass))
}
