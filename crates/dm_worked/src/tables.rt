//! What is answered to each kind of step: in each state of an attempt, and in each placing of a partition.

use crate::acts::{Act, book_after, step};
use dm_core::Book;
use dm_event::{Cause, Choice, Said, Step};
use dm_history::put_why;
use std::alloc::Global;
use std::test::Fail;

/// Appends what the book answers to the step: `may`, or why not.
fn put_answer(alloc: Global, out: &mut Vec<u8>, book: &Book, step: &Step) -> Result<(), Fail> {
    match book.enabled(step).err() {
        None => out.extend_from_slice(b"may; ")?,
        Some(why) => {
            put_why(alloc, out, &why)?;
            out.extend_from_slice(b"; ")?;
        }
    }
    Ok(())
}

/// What the book answers to each of the steps.
fn answered(alloc: Global, book: &Book, asked: &[Act]) -> Result<Vec<u8>, Fail> {
    let mut out = Vec::new(alloc);
    for act in asked {
        put_answer(alloc, &mut out, book, &step(alloc, act))?;
    }
    Ok(out)
}

/// The answer to each of the steps in a book where the others have come.
fn answers(alloc: Global, come: &[Act], asked: &[Act]) -> Result<Vec<u8>, Fail> {
    let book = book_after(alloc, come)?;
    answered(alloc, &book, asked)
}

/// Session 1's attempt is sent to site 1.
const SEND: Act = Act::Send(1, 1, Choice::Hand);

const LOG: Cause = Cause::Log { site: 1 };

// ---- attempts

const UNROUTED: &[Act] = &[];

const ROUTED: &[Act] = &[SEND];

/// Partition 0 is asked for by session 3.
const MOVED: &[Act] = &[Act::Place, Act::Ask(3, 2), SEND, Act::Moved(1)];

const RUNNING: &[Act] = &[SEND, Act::Begin(1)];

const COMMITTED: &[Act] = &[SEND, Act::Begin(1), Act::Commit];

const ENDED: &[Act] = &[SEND, Act::Begin(1), Act::End];

const WITHOUT_LOG: &[Act] = &[SEND, Act::Begin(1), Act::Fail(LOG)];

const WITHOUT_MEMORY: &[Act] = &[SEND, Act::Begin(1), Act::Fail(Cause::Memory)];

const DOUBTED: &[Act] = &[SEND, Act::Begin(1), Act::Doubt];

const DROPPED: &[Act] = &[SEND, Act::Begin(1), Act::Restart];

/// A step of each kind but the Reply, as session 1's attempt, site 1 or partition 0 might make it.
const STEPS: &[Act] = &[
    SEND,
    Act::Begin(1),
    Act::Moved(1),
    Act::Commit,
    Act::End,
    Act::Fail(Cause::Memory),
    Act::Doubt,
    Act::Restart,
    Act::Refresh(1, 2),
    Act::Ask(1, 1),
    Act::Release,
    Act::Grant,
    Act::Settle,
];

const STEPS_ANSWERED: &[(&[Act], &str)] = &[
    (
        UNROUTED,
        "may; not routed; not routed; not running; not running; not running; not running; may; missing; not routed; not asked; not released; not granted; ",
    ),
    (
        ROUTED,
        "unfinished 1.1.1; may; all here; not running; not running; may; not running; may; missing; home 1; not asked; not released; not granted; ",
    ),
    (
        MOVED,
        "due 2; not routed; not routed; not running; not running; not running; not running; may; missing; not routed; may; not released; not granted; ",
    ),
    (
        RUNNING,
        "unfinished 1.1.1; not routed; not routed; may; may; may; may; may; missing; not routed; not asked; not released; not granted; ",
    ),
    (
        COMMITTED,
        "unfinished 1.1.1; not routed; not routed; not running; not running; not running; not running; due 1; missing; not routed; not asked; not released; not granted; ",
    ),
    (
        ENDED,
        "unfinished 1.1.1; not routed; not routed; not running; not running; not running; not running; may; missing; not routed; not asked; not released; not granted; ",
    ),
    (
        WITHOUT_LOG,
        "unfinished 1.1.1; not routed; not routed; not running; not running; not running; not running; may; missing; not routed; not asked; not released; not granted; ",
    ),
    (
        WITHOUT_MEMORY,
        "unfinished 1.1.1; not routed; not routed; not running; not running; not running; not running; may; missing; not routed; not asked; not released; not granted; ",
    ),
    (
        DOUBTED,
        "unfinished 1.1.1; not routed; not routed; not running; not running; not running; not running; found; down 1; not routed; not asked; not released; not granted; ",
    ),
    (
        DROPPED,
        "due 2; not routed; not routed; not running; not running; not running; not running; may; missing; not routed; not asked; not released; not granted; ",
    ),
];

#[test]
fn each_kind_of_step_in_each_state_of_an_attempt(rt: HostRuntime) -> Result<(), Fail> {
    for (come, due) in STEPS_ANSWERED {
        assert_eq!(rt;
            answers(rt.alloc(), come, STEPS)?.as_slice(),
            due.as_bytes()
        );
    }
    Ok(())
}

// ---- outcomes

const COMMITTED_ONE: Said = Said::Committed { site: 1, seq: 1 };

const READ: Said = Said::Read { site: 1 };

const IN_DOUBT: Said = Said::InDoubt { site: 1 };

const NO_LOG: Said = Said::Refused(LOG);

const NO_MEMORY: Said = Said::Refused(Cause::Memory);

const REPLIES: &[Act] = &[
    Act::Say(COMMITTED_ONE),
    Act::Say(READ),
    Act::Say(IN_DOUBT),
    Act::Say(Said::Placed {
        part: 0,
        site: 1,
        epoch: 0,
    }),
    Act::Say(Said::Restarted { site: 1 }),
    Act::Say(NO_LOG),
    Act::Say(NO_MEMORY),
    Act::Say(Said::Refused(Cause::Undeclared { key: 7 })),
];

/// What may be said, and what is due.
const REPLIES_ANSWERED: &[(&[Act], &str, Option<Said>)] = &[
    (
        UNROUTED,
        "said; said; said; said; said; said; may; may; ",
        None,
    ),
    (
        ROUTED,
        "said; said; said; said; said; said; may; said; ",
        None,
    ),
    (
        MOVED,
        "said; said; said; said; said; said; may; said; ",
        None,
    ),
    (
        RUNNING,
        "said; said; said; said; said; said; said; said; ",
        None,
    ),
    (
        COMMITTED,
        "may; said; said; said; said; said; said; said; ",
        Some(COMMITTED_ONE),
    ),
    (
        ENDED,
        "said; may; said; said; said; said; said; said; ",
        Some(READ),
    ),
    (
        WITHOUT_LOG,
        "said; said; said; said; said; may; said; said; ",
        Some(NO_LOG),
    ),
    (
        WITHOUT_MEMORY,
        "said; said; said; said; said; said; may; said; ",
        Some(NO_MEMORY),
    ),
    (
        DOUBTED,
        "said; said; may; said; said; said; said; said; ",
        Some(IN_DOUBT),
    ),
    (
        DROPPED,
        "said; said; said; said; said; said; may; said; ",
        None,
    ),
];

/// What session 1 is to be answered where these steps have come.
fn due_after(alloc: Global, come: &[Act]) -> Result<Option<Said>, Fail> {
    let book = book_after(alloc, come)?;
    Ok(book.said_for(1))
}

#[test]
fn each_outcome_in_each_state_of_an_attempt(rt: HostRuntime) -> Result<(), Fail> {
    for (come, may, due) in REPLIES_ANSWERED {
        assert_eq!(rt;
            answers(rt.alloc(), come, REPLIES)?.as_slice(),
            may.as_bytes()
        );
        assert_eq!(rt; due_after(rt.alloc(), come)?, *due);
    }
    Ok(())
}

// ---- placings

/// Attempts at partition 0 stand routed to both sites, session 1's to site 1 and session 2's to site 2, and session 3 wants the
/// partition at site 2.
const OPENING: &[Act] = &[SEND, OTHER, Act::Place];

const OTHER: Act = Act::Send(2, 2, Choice::Hand);

const ASKED: &[Act] = &[SEND, OTHER, Act::Place, Act::Ask(3, 2)];

const BETWEEN: &[Act] = &[SEND, OTHER, Act::Place, Act::Ask(3, 2), Act::Release];

const GRANTED: &[Act] = &[
    SEND,
    OTHER,
    Act::Place,
    Act::Ask(3, 2),
    Act::Release,
    Act::Grant,
];

const OVER: &[Act] = &[
    SEND,
    OTHER,
    Act::Place,
    Act::Ask(3, 2),
    Act::Release,
    Act::Grant,
    Act::Settle,
];

/// A step of each kind, those that differ by the site for both.
const KINDS: &[Act] = &[
    Act::Send(4, 1, Choice::Master),
    Act::Begin(1),
    Act::Begin(2),
    Act::Moved(1),
    Act::Moved(2),
    Act::Commit,
    Act::End,
    Act::Fail(Cause::Memory),
    Act::Restart,
    Act::Refresh(2, 1),
    Act::Ask(3, 2),
    Act::Release,
    Act::Grant,
    Act::Settle,
    Act::DoubtRelease,
    Act::DoubtGrant,
    Act::SayPlaced,
];

/// While the partition has no agreed master both sites have the score 0.
const KINDS_ANSWERED: &[(&[Act], &str)] = &[
    (
        OPENING,
        "may; may; elsewhere 0; all here; may; not running; not running; may; may; missing; may; not asked; not released; not granted; not asked; not released; said; ",
    ),
    (
        ASKED,
        "choice 1 best; elsewhere 0; elsewhere 0; may; may; not running; not running; may; may; missing; unsettled 0; may; not released; not granted; may; not released; said; ",
    ),
    (
        BETWEEN,
        "choice 1 best; elsewhere 0; elsewhere 0; may; may; not running; not running; may; may; missing; unsettled 0; not asked; may; not granted; not asked; may; said; ",
    ),
    (
        GRANTED,
        "choice 1 best; elsewhere 0; may; may; all here; not running; not running; may; may; missing; unsettled 0; not asked; not released; may; not asked; not released; said; ",
    ),
    (
        OVER,
        "choice 2 master; elsewhere 0; may; may; all here; not running; not running; may; may; missing; due 1; not asked; not released; not granted; not asked; not released; may; ",
    ),
];

#[test]
fn each_kind_of_step_in_each_placing_of_a_partition(rt: HostRuntime) -> Result<(), Fail> {
    for (come, due) in KINDS_ANSWERED {
        assert_eq!(rt;
            answers(rt.alloc(), come, KINDS)?.as_slice(),
            due.as_bytes()
        );
    }
    Ok(())
}
