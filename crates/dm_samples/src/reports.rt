//! The report of a hand-over of which both records were in doubt.

use dm_core::Book;
use dm_event::{Choice, Found, Pending, Said, Schema, Step, TxnId, Vector, Want, Weights};
use dm_report::write_rest;
use std::alloc::Global;
use std::test::Fail;

const TXN: TxnId = TxnId {
    session: 3,
    number: 1,
    attempt: 1,
};

/// A book of two sites with two partitions of ten keys.
pub(crate) fn empty_book(alloc: Global) -> Result<Book, Fail> {
    let even = Weights {
        balance: 1,
        delay: 1,
        together: 1,
    };
    let masters = Vec::from_slice(alloc, &[1, 2])?;
    let schema = Schema::new(2, 10, masters, even, Vec::new(alloc)).ok_or("limits")?;
    Ok(Book::new(alloc, &schema, &[0; 32])?)
}

/// Session 3 has partition 0 placed at site 2. Site 1 goes down as it releases, site 2 as it takes over, and both find their record.
fn step(number: u32) -> Step {
    let vector = Vector::zeros(2);
    match number {
        0 => Step::Route {
            txn: TXN,
            want: Want::Place(0),
            min: vector,
            site: 2,
            choice: Choice::Hand,
        },
        1 => Step::Ask {
            part: 0,
            epoch: 0,
            to: 2,
            txn: TXN,
        },
        2 => Step::Doubt {
            site: 1,
            pending: Pending::Release {
                part: 0,
                epoch: 0,
                to: 2,
                vector,
            },
        },
        3 => Step::Restart {
            site: 1,
            vector,
            found: Found::Kept,
        },
        4 => Step::Doubt {
            site: 2,
            pending: Pending::Grant {
                part: 0,
                epoch: 1,
                vector,
            },
        },
        5 => Step::Restart {
            site: 2,
            vector,
            found: Found::Kept,
        },
        6 => Step::Settle { part: 0, epoch: 1 },
        _ => Step::Reply {
            session: 3,
            number: 1,
            said: Said::Placed {
                part: 0,
                site: 2,
                epoch: 1,
            },
        },
    }
}

fn add(book: &mut Book, step: Step) -> Result<(), Fail> {
    match book.enabled(&step) {
        Ok(()) => {
            book.reserve(&step)?;
            book.push(step);
            Ok(())
        }
        Err(_) => Err("refused".into()),
    }
}

const IN_DOUBT: &str = "moves 0
site 1 [0 0]
site 2 [0 0] down
part 0 between 1 and 2 epoch 0
part 1 at 2 epoch 0
total committed 0 read 0 placed 0 restarted 0 in doubt 0 refused 0
steps 5
route 3.1.1 place 0 min [0 0] to 2 hand
ask 0 0 2 3.1.1
doubt release 1 0 0 to 2 [0 0]
restart 1 [0 0] kept
doubt grant 2 0 1 [0 0]
";

const SETTLED: &str = "moves 1
move 0 epoch 1 from 1 to 2
site 1 [0 0]
site 2 [0 0]
part 0 at 2 epoch 1
part 1 at 2 epoch 0
total committed 0 read 0 placed 1 restarted 0 in doubt 0 refused 0
steps 8
route 3.1.1 place 0 min [0 0] to 2 hand
ask 0 0 2 3.1.1
doubt release 1 0 0 to 2 [0 0]
restart 1 [0 0] kept
doubt grant 2 0 1 [0 0]
restart 2 [0 0] kept
settle 0 1
reply 3 1 placed 0 2 1
";

/// A book in which the first so many of these steps have come.
fn book_after(alloc: Global, count: u32) -> Result<Book, Fail> {
    let mut book = empty_book(alloc)?;
    for number in 0..count {
        add(&mut book, step(number))?;
    }
    Ok(book)
}

fn report(alloc: Global, book: &Book) -> Result<Vec<u8>, Fail> {
    let mut out = Vec::new(alloc);
    write_rest(alloc, book, &mut out)?;
    Ok(out)
}

fn report_after(alloc: Global, count: u32) -> Result<Vec<u8>, Fail> {
    let book = book_after(alloc, count)?;
    report(alloc, &book)
}

#[test]
fn a_hand_over_in_doubt_and_settled(rt: HostRuntime) -> Result<(), Fail> {
    for (count, text) in [(5, IN_DOUBT), (8, SETTLED)] {
        assert_eq!(rt;
            report_after(rt.alloc(), count)?.as_slice(),
            text.as_bytes()
        );
    }
    Ok(())
}
