//! What clients are told.
use crate::job::{Job, Who};
use crate::samples::{comes_so, ends_so, served, vector};
use dm_event::{Cause, Said};
use std::alloc::Global;
use std::sync::Wait;
use std::test::Fail;

const BOTH: Job = Job::AddBoth { one: 3, other: 15 };

/// The first and second partition are mastered at site 1 and 2. Site 1 is chosen for both of them.
#[test]
fn partitions_come_to_the_site_of_a_transaction(rt: HostRuntime) -> Result<(), Fail> {
    let placed = [
        (Who::First, Job::Place { part: 0, to: 2 }),
        (Who::First, BOTH),
    ];
    let wants = [
        Said::Placed {
            part: 0,
            site: 2,
            epoch: 1,
        },
        Said::Committed { site: 2, seq: 1 },
    ];
    assert_eq!(rt;
        comes_so(&rt, rt.alloc(), &[], &[], &placed, &wants, 0),
        true
    );
    assert_eq!(rt;
        ends_so(&rt, rt.alloc(), &placed, wants[1], Some(vector(0, 1)), &[]),
        Some(true)
    );

    let moved = [(Who::First, BOTH), (Who::Second, Job::Add { key: 15 })];
    let wants = [
        Said::Committed { site: 1, seq: 1 },
        Said::Committed { site: 1, seq: 2 },
    ];
    assert_eq!(rt;
        comes_so(&rt, rt.alloc(), &[], &[], &moved, &wants, 0),
        true
    );

    let restarted = [(Who::Second, Job::Restart { site: 2 })];
    let wants = [Said::Restarted { site: 2 }];
    assert_eq!(rt;
        comes_so(&rt, rt.alloc(), &[], &[], &restarted, &wants, 1),
        true
    );
    Ok(())
}

/// What is said of a write of an undeclared key, whether there was an attempt, and how many steps there are.
fn loose<R: Wait>(rt: &R, alloc: Global) -> Option<(Said, bool, usize)> {
    let served = served(rt, alloc, &[], &[], &[(Who::First, Job::Loose { key: 7 })])?;
    let told = served.told.last()?;
    Some((
        told.said,
        told.txn.is_some(),
        served.left.book.steps().len(),
    ))
}

#[test]
fn an_undeclared_write_is_refused_without_a_route(rt: HostRuntime) -> Result<(), Fail> {
    let said = Said::Refused(Cause::Undeclared { key: 7 });
    assert_eq!(rt; loose(&rt, rt.alloc()), Some((said, false, 1)));
    Ok(())
}

/// A session reads at its own site of the circle, the first at site 1 and the second at site 2, unless that site lacks what the session
/// has seen.
#[test]
fn readers_never_go_back(rt: HostRuntime) -> Result<(), Fail> {
    let write = (Who::First, Job::Add { key: 3 });
    let own = [write, (Who::First, Job::Read { key: 3 })];
    let said = Said::Read { site: 1 };
    assert_eq!(rt;
        ends_so(&rt, rt.alloc(), &own, said, Some(vector(1, 0)), &[1]),
        Some(true)
    );

    let stale = [write, (Who::Second, Job::Read { key: 3 })];
    let said = Said::Read { site: 2 };
    assert_eq!(rt;
        ends_so(&rt, rt.alloc(), &stale, said, Some(vector(0, 0)), &[0]),
        Some(true)
    );

    let again = [
        write,
        (Who::Second, Job::Add { key: 3 }),
        (Who::Second, Job::Read { key: 3 }),
    ];
    let said = Said::Read { site: 1 };
    assert_eq!(rt;
        ends_so(&rt, rt.alloc(), &again, said, Some(vector(2, 0)), &[2]),
        Some(true)
    );
    Ok(())
}
