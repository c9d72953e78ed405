//! The steps of the histories by short names, and books that they have led to.

use dm_core::Book;
use dm_event::{
    Cause, Choice, Entry, Found, Keys, Op, Ops, Pair, Pairs, Pending, Said, Schema, SiteNo, Step,
    TxnId, Vector, Want, Weights,
};
use std::alloc::Global;
use std::test::Fail;

/// A step of the first attempt at the first item of a session: of session 1 where none is named, at site 1 where none is named. No
/// site has done anything yet.
pub(crate) enum Act {
    /// The session's attempt declares key 3 and is sent to the site.
    Send(u32, SiteNo, Choice),
    /// Session 3 wants partition 0 at site 2.
    Place,
    /// The attempt of the session with the site's number begins there.
    Begin(SiteNo),
    /// It finds a partition gone there.
    Moved(SiteNo),
    /// It writes 5 to key 3.
    Commit,
    /// It reads 0 of key 3.
    End,
    Fail(Cause),
    /// Site 1 doesn't know whether its log has the commit.
    Doubt,
    Restart,
    /// The first site takes over what the second one committed.
    Refresh(SiteNo, SiteNo),
    /// The session asks for partition 0 to be at the site.
    Ask(u32, SiteNo),
    /// Site 1 gives partition 0 to site 2.
    Release,
    Grant,
    Settle,
    DoubtRelease,
    DoubtGrant,
    /// Session 1 is answered so.
    Say(Said),
    /// Session 3 is told that partition 0 is at site 2.
    SayPlaced,
}

const fn first(session: u32) -> TxnId {
    TxnId {
        session,
        number: 1,
        attempt: 1,
    }
}

/// The list, or none where there is no memory for it.
fn list<T: Copy>(alloc: Global, items: &[T]) -> Vec<T> {
    match Vec::from_slice(alloc, items) {
        Ok(list) => list,
        Err(_) => Vec::new(alloc),
    }
}

fn send(alloc: Global, session: u32, site: SiteNo, choice: Choice) -> Step {
    let want = match Keys::new(list(alloc, &[3])) {
        Some(keys) => Want::Txn(keys),
        None => Want::Restart,
    };
    Step::Route {
        txn: first(session),
        want,
        min: Vector::zeros(2),
        site,
        choice,
    }
}

fn entry(alloc: Global) -> Entry {
    Entry {
        txn: first(1),
        origin: 1,
        seq: 1,
        begin: Vector::zeros(2),
        ops: Ops::new(list(alloc, &[Op::Write { key: 3, value: 5 }])),
        reads: Pairs::new(Vec::new(alloc)),
        writes: Pairs::new(list(alloc, &[Pair { key: 3, value: 5 }])),
    }
}

fn end(alloc: Global) -> Step {
    Step::End {
        site: 1,
        txn: first(1),
        ops: Ops::new(list(alloc, &[Op::Read { key: 3 }])),
        reads: Pairs::new(list(alloc, &[Pair { key: 3, value: 0 }])),
    }
}

/// The steps of sites, and those of session 3.
fn placing(act: &Act) -> Step {
    let vector = Vector::zeros(2);
    match act {
        Act::Place => Step::Route {
            txn: first(3),
            want: Want::Place(0),
            min: vector,
            site: 2,
            choice: Choice::Hand,
        },
        Act::Release => Step::Release {
            site: 1,
            part: 0,
            epoch: 0,
            to: 2,
            vector,
        },
        Act::Grant => Step::Grant {
            site: 2,
            part: 0,
            epoch: 1,
            vector,
        },
        Act::DoubtRelease => Step::Doubt {
            site: 1,
            pending: Pending::Release {
                part: 0,
                epoch: 0,
                to: 2,
                vector,
            },
        },
        Act::DoubtGrant => Step::Doubt {
            site: 2,
            pending: Pending::Grant {
                part: 0,
                epoch: 1,
                vector,
            },
        },
        Act::SayPlaced => Step::Reply {
            session: 3,
            number: 1,
            said: Said::Placed {
                part: 0,
                site: 2,
                epoch: 1,
            },
        },
        _ => Step::Settle { part: 0, epoch: 1 },
    }
}

pub(crate) fn step(alloc: Global, act: &Act) -> Step {
    match act {
        Act::Send(session, site, choice) => send(alloc, *session, *site, *choice),
        Act::Begin(site) => Step::Begin {
            site: *site,
            txn: first(u32::from(*site)),
            begin: Vector::zeros(2),
        },
        Act::Moved(site) => Step::Moved {
            site: *site,
            txn: first(u32::from(*site)),
        },
        Act::Commit => Step::Commit {
            entry: entry(alloc),
        },
        Act::End => end(alloc),
        Act::Fail(cause) => Step::Fail {
            site: 1,
            txn: first(1),
            cause: *cause,
        },
        Act::Doubt => Step::Doubt {
            site: 1,
            pending: Pending::Commit(entry(alloc)),
        },
        Act::Restart => Step::Restart {
            site: 1,
            vector: Vector::zeros(2),
            found: Found::Clean,
        },
        Act::Refresh(site, origin) => Step::Refresh {
            site: *site,
            origin: *origin,
        },
        Act::Ask(session, to) => Step::Ask {
            part: 0,
            epoch: 0,
            to: *to,
            txn: first(*session),
        },
        Act::Say(said) => Step::Reply {
            session: 1,
            number: 1,
            said: *said,
        },
        _ => placing(act),
    }
}

fn schema(alloc: Global) -> Option<Schema> {
    let even = Weights {
        balance: 1,
        delay: 1,
        together: 1,
    };
    Schema::new(2, 10, list(alloc, &[1, 2]), even, Vec::new(alloc))
}

/// Pushes a step that is allowed.
fn push(book: &mut Book, step: Step) -> Result<(), Fail> {
    if book.enabled(&step).is_err() {
        return Err("refused".into());
    }
    book.reserve(&step)?;
    book.push(step);
    Ok(())
}

/// A book without scripts in which these steps have come.
pub(crate) fn book_after(alloc: Global, acts: &[Act]) -> Result<Book, Fail> {
    let schema = schema(alloc).ok_or("limits")?;
    let mut book = Book::new(alloc, &schema, &[0; 32])?;
    for act in acts {
        push(&mut book, step(alloc, act))?;
    }
    Ok(book)
}
