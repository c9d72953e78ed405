//! Transactions, and restarts after a commit that the disk didn't take.
use crate::act::{Act, Outcome, Who};
use crate::samples::{COMMITTED, EACH_CALL, NONE, ONE, comes_so, failing, vector};
use dm_event::{Cause, Found, TxnId};
use dm_logdisk::Call;
use std::test::Fail;

const FIRST: TxnId = TxnId {
    session: 1,
    number: 1,
    attempt: 1,
};

const LOG: Outcome = Outcome::Failed {
    cause: Cause::Log { site: 1 },
};

fn committed() -> Outcome {
    let vector = vector(1, 0);
    Outcome::Committed { seq: 1, vector }
}

fn restarted(one: u64, found: Found) -> Outcome {
    let vector = vector(one, 0);
    Outcome::Restarted { vector, found }
}

#[test]
fn a_commit_is_logged_and_answered(rt: HostRuntime) -> Result<(), Fail> {
    let wants = [Outcome::Begun, Outcome::Done, committed()];
    assert!(rt; comes_so(&rt, rt.alloc(), &[], &ONE, &wants, &COMMITTED));
    Ok(())
}

/// A record that isn't in the log takes no number.
#[test]
fn a_failed_commit_leaves_its_number(rt: HostRuntime) -> Result<(), Fail> {
    let fails = [failing(Call::Write, 2, false)];
    let acts = [
        ONE[0],
        ONE[1],
        ONE[2],
        ONE[0],
        ONE[1],
        ONE[2],
        (Who::First, Act::Begin { key: 3 }),
        (Who::First, Act::Read { key: 3 }),
        (Who::First, Act::Commit),
    ];
    let wants = [
        Outcome::Begun,
        Outcome::Done,
        LOG,
        Outcome::Begun,
        Outcome::Done,
        committed(),
        Outcome::Begun,
        Outcome::Value(5),
        Outcome::Ended,
    ];
    let mut bytes = COMMITTED;
    bytes[13] = 2;
    assert!(rt; comes_so(&rt, rt.alloc(), &fails, &acts, &wants, &bytes));
    Ok(())
}

#[test]
fn a_commit_in_doubt_is_found_kept(rt: HostRuntime) -> Result<(), Fail> {
    let fails = [failing(Call::Write, 3, true)];
    let acts = [
        ONE[0],
        ONE[1],
        ONE[2],
        (Who::First, Act::Restart { site: 1 }),
    ];
    let wants = [
        Outcome::Begun,
        Outcome::Done,
        Outcome::InDoubt,
        restarted(1, Found::Kept),
    ];
    assert!(rt; comes_so(&rt, rt.alloc(), &fails, &acts, &wants, &COMMITTED));
    Ok(())
}

#[test]
fn a_commit_in_doubt_is_found_lost(rt: HostRuntime) -> Result<(), Fail> {
    let fails = [failing(Call::Write, 3, false)];
    let acts = [
        ONE[0],
        ONE[1],
        ONE[2],
        (Who::First, Act::Restart { site: 1 }),
        ONE[0],
        ONE[1],
        ONE[2],
    ];
    let wants = [
        Outcome::Begun,
        Outcome::Done,
        Outcome::InDoubt,
        restarted(0, Found::Lost),
        Outcome::Begun,
        Outcome::Done,
        committed(),
    ];
    let mut bytes = COMMITTED;
    bytes[13] = 3;
    assert!(rt; comes_so(&rt, rt.alloc(), &fails, &acts, &wants, &bytes));
    Ok(())
}

/// Who waits is told for whom, and once it is taken out it holds nobody up.
#[test]
fn a_key_is_held_until_its_attempt_ends(rt: HostRuntime) -> Result<(), Fail> {
    let acts = [
        ONE[0],
        (Who::Second, Act::Begin { key: 3 }),
        (Who::Second, Act::Withdraw),
        ONE[1],
        ONE[2],
        ONE[0],
    ];
    let wants = [
        Outcome::Begun,
        Outcome::Held { by: FIRST, key: 3 },
        Outcome::Withdrawn,
        Outcome::Done,
        committed(),
        Outcome::Begun,
    ];
    assert!(rt; comes_so(&rt, rt.alloc(), &[], &acts, &wants, &COMMITTED));
    Ok(())
}

/// A Doubt drops what runs at the site, and a restart leaves nobody's locks.
#[test]
fn a_doubt_drops_the_others(rt: HostRuntime) -> Result<(), Fail> {
    let fails = [failing(Call::Write, 3, true)];
    let acts = [
        (Who::Second, Act::Begin { key: 4 }),
        ONE[0],
        ONE[1],
        ONE[2],
        (Who::Second, Act::Write { key: 4, value: 7 }),
        (Who::Second, Act::Commit),
        (Who::First, Act::Restart { site: 1 }),
        (Who::First, Act::Begin { key: 4 }),
        (Who::First, Act::Fail),
    ];
    let wants = [
        Outcome::Begun,
        Outcome::Begun,
        Outcome::Done,
        Outcome::InDoubt,
        Outcome::Dropped,
        Outcome::Dropped,
        restarted(1, Found::Kept),
        Outcome::Begun,
        Outcome::Done,
    ];
    assert!(rt; comes_so(&rt, rt.alloc(), &fails, &acts, &wants, &COMMITTED));
    Ok(())
}

/// Each changing call of a commit fails once, and then the site is restarted.
#[test]
fn each_call_of_a_commit_fails_once(rt: HostRuntime) -> Result<(), Fail> {
    let acts = [
        ONE[0],
        ONE[1],
        ONE[2],
        (Who::First, Act::Restart { site: 1 }),
    ];
    for (fail, found) in EACH_CALL {
        let (told, kept, bytes): (Outcome, u64, &[u8]) = match found {
            Found::Clean => (LOG, 0, &NONE),
            Found::Lost => (Outcome::InDoubt, 0, &NONE),
            Found::Kept => (Outcome::InDoubt, 1, &COMMITTED),
        };
        let wants = [Outcome::Begun, Outcome::Done, told, restarted(kept, found)];
        assert!(rt; comes_so(&rt, rt.alloc(), &[fail], &acts, &wants, bytes));
    }
    Ok(())
}
