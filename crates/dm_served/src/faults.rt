//! What clients are told where a disk fails.
use crate::job::{Job, Who};
use crate::samples::comes_so;
use dm_event::{Cause, Said};
use dm_logdisk::{Call, Fail as DiskFail};
use std::test::Fail;

const BOTH: Job = Job::AddBoth { one: 3, other: 15 };

/// How an append ends one of whose calls fails: nothing of it stands, or the site is in doubt, and finds then that the record is lost or kept.
#[derive(Clone, Copy, Debug, PartialEq, Eq)]
enum Append {
    Undone,
    Lost,
    Kept,
}

/// The first write and the first sync are those of the opening load.
const fn fault(call: Call, nth: u64, effect: bool) -> DiskFail {
    DiskFail { call, nth, effect }
}

/// Each changing call of the first append, and how the append ends where that call fails, without effect or with it.
const EACH_CALL: [(Call, u64, bool, Append); 8] = [
    (Call::Write, 2, false, Append::Undone),
    (Call::Write, 2, true, Append::Undone),
    (Call::Sync, 2, false, Append::Undone),
    (Call::Sync, 2, true, Append::Undone),
    (Call::Write, 3, false, Append::Lost),
    (Call::Write, 3, true, Append::Kept),
    (Call::Sync, 3, false, Append::Kept),
    (Call::Sync, 3, true, Append::Kept),
];

/// The commit is in doubt, and the next client who meets the site restarts it, once.
#[test]
fn a_site_in_doubt_is_restarted_by_who_meets_it(rt: HostRuntime) -> Result<(), Fail> {
    let jobs = [
        (Who::First, Job::Add { key: 3 }),
        (Who::Second, Job::Add { key: 3 }),
        (Who::First, Job::Add { key: 4 }),
    ];
    for (call, nth, effect, ends) in EACH_CALL {
        let first = match ends {
            Append::Undone => Said::Refused(Cause::Log { site: 1 }),
            Append::Lost | Append::Kept => Said::InDoubt { site: 1 },
        };
        let (seq, restarts) = match ends {
            Append::Undone => (1, 0),
            Append::Lost => (1, 1),
            Append::Kept => (2, 1),
        };
        let wants = [
            first,
            Said::Committed { site: 1, seq },
            Said::Committed {
                site: 1,
                seq: seq + 1,
            },
        ];
        let fails = [fault(call, nth, effect)];
        assert_eq!(rt;
            comes_so(&rt, rt.alloc(), &fails, &[], &jobs, &wants, restarts),
            true
        );
    }
    Ok(())
}

/// A hand-over that is in doubt goes on behind a restart. One that stopped at its release or its grant is ended by the next client, once.
#[test]
fn a_hand_over_is_gone_on_with(rt: HostRuntime) -> Result<(), Fail> {
    let jobs = [(Who::First, BOTH), (Who::Second, BOTH)];
    for (call, nth, effect, ends) in EACH_CALL {
        let fails = [fault(call, nth, effect)];
        let stopped = [
            Said::Refused(Cause::Log { site: 2 }),
            Said::Committed { site: 1, seq: 1 },
        ];
        let gone_on = [
            Said::Committed { site: 1, seq: 1 },
            Said::Committed { site: 1, seq: 2 },
        ];
        let (wants, restarts) = match ends {
            Append::Undone => (stopped, 0),
            Append::Lost | Append::Kept => (gone_on, 1),
        };
        assert_eq!(rt;
            comes_so(&rt, rt.alloc(), &[], &fails, &jobs, &wants, restarts),
            true
        );

        let stopped = [
            Said::Refused(Cause::Log { site: 1 }),
            Said::Committed { site: 1, seq: 1 },
        ];
        let wants = match ends {
            Append::Undone => stopped,
            Append::Lost | Append::Kept => gone_on,
        };
        assert_eq!(rt;
            comes_so(&rt, rt.alloc(), &fails, &[], &jobs, &wants, restarts),
            true
        );
    }
    Ok(())
}
