//! The line of each kind of step.

use dm_event::{
    Cause, Choice, Entry, Found, Keys, NoMemory, Op, Ops, Pair, Pairs, Pending, Said, Step, TxnId,
    Vector, Want,
};
use dm_history::{print_step, put_step};
use std::alloc::Global;
use std::test::Fail;

const TXN: TxnId = TxnId {
    session: 1,
    number: 20,
    attempt: 3,
};

/// The steps that hold no list.
fn plain(number: u32) -> Step {
    let vector = Vector::zeros(2);
    match number {
        0 => Step::Begin {
            site: 1,
            txn: TXN,
            begin: vector,
        },
        1 => Step::Moved { site: 2, txn: TXN },
        2 => Step::Fail {
            site: 2,
            txn: TXN,
            cause: Cause::Log { site: 2 },
        },
        3 => Step::Fail {
            site: 2,
            txn: TXN,
            cause: Cause::Memory,
        },
        4 => Step::Fail {
            site: 2,
            txn: TXN,
            cause: Cause::Damage {
                site: 2,
                place: 40,
                read: None,
                written: Some(55),
            },
        },
        5 => Step::Refresh { site: 2, origin: 1 },
        6 => Step::Ask {
            part: 5,
            epoch: 4,
            to: 2,
            txn: TXN,
        },
        7 => Step::Release {
            site: 1,
            part: 5,
            epoch: 4,
            to: 2,
            vector,
        },
        8 => Step::Grant {
            site: 2,
            part: 5,
            epoch: 6,
            vector,
        },
        9 => Step::Settle { part: 5, epoch: 6 },
        10 => Step::Doubt {
            site: 1,
            pending: Pending::Release {
                part: 5,
                epoch: 4,
                to: 2,
                vector,
            },
        },
        11 => Step::Doubt {
            site: 2,
            pending: Pending::Grant {
                part: 5,
                epoch: 6,
                vector,
            },
        },
        12 => Step::Restart {
            site: 2,
            vector,
            found: Found::Clean,
        },
        13 => Step::Restart {
            site: 2,
            vector,
            found: Found::Kept,
        },
        _ => Step::Restart {
            site: 2,
            vector,
            found: Found::Lost,
        },
    }
}

const PLAIN: &str = "begin 1 1.20.3 [0 0]
moved 2 1.20.3
fail 2 1.20.3 log
fail 2 1.20.3 memory
fail 2 1.20.3 damage 40 - 55
refresh 2 1
ask 5 4 2 1.20.3
release 1 5 4 to 2 [0 0]
grant 2 5 6 [0 0]
settle 5 6
doubt release 1 5 4 to 2 [0 0]
doubt grant 2 5 6 [0 0]
restart 2 [0 0] clean
restart 2 [0 0] kept
restart 2 [0 0] lost
";

fn put(alloc: Global, out: &mut Vec<u8>, step: Step) -> Result<(), NoMemory> {
    put_step(alloc, out, &step)
}

#[test]
fn steps_without_lists(rt: HostRuntime) -> Result<(), Fail> {
    let alloc = rt.alloc();
    let mut out = Vec::new(alloc);
    for number in 0..15 {
        put(alloc, &mut out, plain(number))?;
    }
    assert_eq!(rt; out.as_slice(), PLAIN.as_bytes());
    Ok(())
}

fn outcome(number: u32) -> Said {
    match number {
        0 => Said::Committed { site: 1, seq: 7 },
        1 => Said::Read { site: 1 },
        2 => Said::InDoubt { site: 1 },
        3 => Said::Placed {
            part: 5,
            site: 2,
            epoch: 6,
        },
        4 => Said::Restarted { site: 2 },
        5 => Said::Refused(Cause::Undeclared { key: 7 }),
        6 => Said::Refused(Cause::Log { site: 1 }),
        7 => Said::Refused(Cause::Damage {
            site: 1,
            place: 4,
            read: Some(0),
            written: None,
        }),
        _ => Said::Refused(Cause::Memory),
    }
}

const REPLIES: &str = "reply 1 20 committed 1 7
reply 1 20 read 1
reply 1 20 doubt 1
reply 1 20 placed 5 2 6
reply 1 20 restarted 2
reply 1 20 refused undeclared 7
reply 1 20 refused log 1
reply 1 20 refused damage 1 4 0 -
reply 1 20 refused memory
";

#[test]
fn replies(rt: HostRuntime) -> Result<(), Fail> {
    let alloc = rt.alloc();
    let mut out = Vec::new(alloc);
    for number in 0..9 {
        let said = outcome(number);
        let reply = Step::Reply {
            session: 1,
            number: 20,
            said,
        };
        put(alloc, &mut out, reply)?;
    }
    assert_eq!(rt; out.as_slice(), REPLIES.as_bytes());
    Ok(())
}

fn entry(alloc: Global) -> Result<Entry, Fail> {
    let ops = vec![in alloc;
        Op::Read { key: 3 },
        Op::Write { key: 3, value: 5 },
        Op::Add { key: 15, by: -2 },
    ]?;
    let writes = vec![in alloc; Pair { key: 3, value: 5 }, Pair { key: 15, value: -2 }]?;
    Ok(Entry {
        txn: TXN,
        origin: 1,
        seq: 7,
        begin: Vector::zeros(2),
        ops: Ops::new(ops),
        reads: Pairs::new(Vec::new(alloc)),
        writes: Pairs::new(writes),
    })
}

fn route(want: Want) -> Step {
    Step::Route {
        txn: TXN,
        want,
        min: Vector::zeros(2),
        site: 2,
        choice: Choice::Best,
    }
}

fn with_list(alloc: Global, number: u32) -> Result<Step, Fail> {
    Ok(match number {
        0 => route(Want::Txn(Keys::new(vec![in alloc; 15, 3]?).ok_or("keys")?)),
        1 => route(Want::Txn(Keys::new(Vec::new(alloc)).ok_or("keys")?)),
        2 => route(Want::Place(255)),
        3 => route(Want::Restart),
        4 => Step::Doubt {
            site: 1,
            pending: Pending::Commit(entry(alloc)?),
        },
        _ => Step::End {
            site: 1,
            txn: TXN,
            ops: Ops::new(Vec::new(alloc)),
            reads: Pairs::new(Vec::new(alloc)),
        },
    })
}

const WITH_LISTS: &str = "route 1.20.3 txn 3,15 min [0 0] to 2 best
route 1.20.3 txn - min [0 0] to 2 best
route 1.20.3 place 255 min [0 0] to 2 best
route 1.20.3 restart min [0 0] to 2 best
doubt commit 1 1.20.3 7 [0 0] ops g3,p3:5,a15:-2 reads - writes 3:5,15:-2
end 1 1.20.3 ops - reads -
";

#[test]
fn steps_with_lists(rt: HostRuntime) -> Result<(), Fail> {
    let alloc = rt.alloc();
    let mut out = Vec::new(alloc);
    for number in 0..6 {
        put(alloc, &mut out, with_list(alloc, number)?)?;
    }
    assert_eq!(rt; out.as_slice(), WITH_LISTS.as_bytes());
    Ok(())
}

#[test]
fn a_line_alone(rt: HostRuntime) -> Result<(), Fail> {
    let alloc = rt.alloc();
    let entry = entry(alloc)?;
    let line = print_step(alloc, &Step::Commit { entry })?;
    let want = "commit 1 1.20.3 7 [0 0] ops g3,p3:5,a15:-2 reads - writes 3:5,15:-2\n";
    assert_eq!(rt; line.as_slice(), want.as_bytes());
    Ok(())
}
