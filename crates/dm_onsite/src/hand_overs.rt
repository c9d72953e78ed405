//! Releases and grants.
use crate::act::{Act, Outcome, Who};
use crate::samples::{EACH_CALL, GRANTED, NONE, ONE, RELEASED, comes_so, comes_there, vector};
use dm_event::{Cause, Found, Placing, TxnId};
use std::test::Fail;

/// The first session has partition 0 asked away to site 2.
const ASK: (Who, Act) = (Who::First, Act::Ask { to: 2 });

const RELEASE: (Who, Act) = (Who::First, Act::Release { site: 1 });

const GRANT: (Who, Act) = (Who::First, Act::Grant { site: 2 });

const RESTART: (Who, Act) = (Who::Second, Act::Restart { site: 1 });

const RESTART_THERE: (Who, Act) = (Who::Second, Act::Restart { site: 2 });

const LOG: Outcome = Outcome::Failed {
    cause: Cause::Log { site: 1 },
};

const LOG_THERE: Outcome = Outcome::Failed {
    cause: Cause::Log { site: 2 },
};

fn released(one: u64) -> Outcome {
    let vector = vector(one, 0);
    Outcome::Released { vector }
}

fn restarted(found: Found) -> Outcome {
    let vector = vector(0, 0);
    Outcome::Restarted { vector, found }
}

/// Where the partition stands once it is released, and once it is granted.
fn between() -> Outcome {
    let vector = vector(0, 0);
    let now = Placing::Between {
        site: 1,
        epoch: 0,
        to: 2,
        vector,
    };
    Outcome::Passed { now }
}

fn granted() -> Outcome {
    let now = Placing::Granted { site: 2, epoch: 1 };
    Outcome::Passed { now }
}

/// A release waits for the attempt that runs on the partition, and the grant for the release's vector: site 2 takes the commit over first.
#[test]
fn a_partition_moves_behind_its_writer(rt: HostRuntime) -> Result<(), Fail> {
    let ask = (Who::Second, Act::Ask { to: 2 });
    let release = (Who::Second, Act::Release { site: 1 });
    let grant = (Who::Second, Act::Grant { site: 2 });
    let acts = [
        ONE[0],
        ONE[1],
        ask,
        release,
        ONE[2],
        release,
        grant,
        grant,
        (Who::Second, Act::Refresh { site: 2 }),
    ];
    let txn = TxnId {
        session: 1,
        number: 1,
        attempt: 1,
    };
    let wants = [
        Outcome::Begun,
        Outcome::Done,
        Outcome::Asked,
        Outcome::Running { txn },
        Outcome::Committed {
            seq: 1,
            vector: vector(1, 0),
        },
        released(1),
        Outcome::Granted,
        granted(),
        Outcome::Nothing,
    ];
    let mut bytes = GRANTED;
    bytes[24] = 1;
    assert!(rt; comes_there(&rt, rt.alloc(), &[], &acts, &wants, &bytes));
    Ok(())
}

/// Each changing call of a release fails once. Then the site is restarted, and asked to release once more.
#[test]
fn each_call_of_a_release_fails_once(rt: HostRuntime) -> Result<(), Fail> {
    let acts = [ASK, RELEASE, RESTART, RELEASE];
    for (fail, found) in EACH_CALL {
        let (told, again, bytes): (Outcome, Outcome, &[u8]) = match found {
            Found::Clean => (LOG, Outcome::Idle, &NONE),
            Found::Lost => (Outcome::InDoubt, released(0), &RELEASED),
            Found::Kept => (Outcome::InDoubt, between(), &RELEASED),
        };
        let wants = [Outcome::Asked, told, restarted(found), again];
        assert!(rt; comes_so(&rt, rt.alloc(), &[fail], &acts, &wants, bytes));
    }
    Ok(())
}

/// The same of a grant.
#[test]
fn each_call_of_a_grant_fails_once(rt: HostRuntime) -> Result<(), Fail> {
    let acts = [ASK, RELEASE, GRANT, RESTART_THERE, GRANT];
    for (fail, found) in EACH_CALL {
        let (told, again, bytes): (Outcome, Outcome, &[u8]) = match found {
            Found::Clean => (LOG_THERE, Outcome::Idle, &NONE),
            Found::Lost => (Outcome::InDoubt, Outcome::Granted, &GRANTED),
            Found::Kept => (Outcome::InDoubt, granted(), &GRANTED),
        };
        let wants = [Outcome::Asked, released(0), told, restarted(found), again];
        assert!(rt; comes_there(&rt, rt.alloc(), &[fail], &acts, &wants, bytes));
    }
    Ok(())
}
