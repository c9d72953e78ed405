//! The text of each reason.

use dm_event::{Choice, TxnId, Vector, Why};
use dm_history::{print_why, put_why};
use std::test::Fail;

const TXN: TxnId = TxnId {
    session: 1,
    number: 20,
    attempt: 3,
};

fn reason(number: u32) -> Why {
    match number {
        0 => Why::Shape,
        1 => Why::NotDue { due: 9 },
        2 => Why::Unfinished { txn: TXN },
        3 => Why::WrongChoice {
            site: 2,
            choice: Choice::Master,
        },
        4 => Why::WrongChoice {
            site: 2,
            choice: Choice::Best,
        },
        5 => Why::WrongChoice {
            site: 2,
            choice: Choice::Reader,
        },
        6 => Why::WrongChoice {
            site: 2,
            choice: Choice::Hand,
        },
        7 => Why::Unsettled { part: 5 },
        8 => Why::NotRouted,
        9 => Why::WrongSite { due: 2 },
        10 => Why::Down { site: 2 },
        11 => Why::Elsewhere { part: 5 },
        12 => Why::AllHere,
        13 => Why::Behind { component: 3 },
        14 => Why::Ahead { component: 3 },
        15 => Why::Held { by: TXN, key: 15 },
        16 => Why::NotClosed { origin: 3, seq: 7 },
        17 => Why::NotRunning,
        18 => Why::Undeclared { key: 15 },
        19 => Why::WrongBody,
        20 => Why::NoWrites,
        21 => Why::HasWrites,
        22 => Why::Own,
        23 => Why::Missing,
        24 => Why::WrongWant,
        25 => Why::Home { site: 2 },
        26 => Why::NotAsked,
        27 => Why::Running { txn: TXN },
        28 => Why::NotReleased,
        29 => Why::NotGranted,
        30 => Why::WrongFound,
        _ => Why::WrongSaid,
    }
}

const TEXTS: &str = "shape
due 9
unfinished 1.20.3
choice 2 master
choice 2 best
choice 2 reader
choice 2 hand
unsettled 5
not routed
site 2
down 2
elsewhere 5
all here
behind 3
ahead 3
held 1.20.3 key 15
not closed 3.7
not running
undeclared 15
body
no writes
writes
own
missing
want
home 2
not asked
running 1.20.3
not released
not granted
found
said
";

#[test]
fn each_reason_has_its_text(rt: HostRuntime) -> Result<(), Fail> {
    let alloc = rt.alloc();
    let mut out = Vec::new(alloc);
    for number in 0..32 {
        put_why(alloc, &mut out, &reason(number))?;
        out.push(b'\n')?;
    }
    assert_eq!(rt; out.as_slice(), TEXTS.as_bytes());
    Ok(())
}

#[test]
fn a_vector_that_is_due(rt: HostRuntime) -> Result<(), Fail> {
    let due = Vector::zeros(2);
    let text = print_why(rt.alloc(), &Why::WrongVector { due })?;
    assert_eq!(rt; text.as_slice(), b"vector [0 0]".as_slice());
    Ok(())
}
