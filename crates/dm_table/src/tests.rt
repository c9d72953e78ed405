//! Verdicts on entries.

use crate::looks::verdict_on;
use crate::{Glance, Verdict};
use dm_event::{Part, SiteNo};
use std::test::Fail;

fn glance(part: Part, site: SiteNo, asked: Option<SiteNo>) -> Glance {
    Glance { part, site, asked }
}

#[test]
fn who_is_asked_comes_first_then_two_masters_then_the_one(rt: HostRuntime) -> Result<(), Fail> {
    let agreed = [glance(0, 1, None), glance(4, 1, None)];
    assert_eq!(rt; verdict_on(&agreed), Verdict::Agreed(1));
    let mixed = [glance(0, 1, None), glance(4, 2, None)];
    assert_eq!(rt; verdict_on(&mixed), Verdict::Mixed { one: 1, other: 2 });
    let unsettled = [
        glance(4, 2, Some(1)),
        glance(0, 1, None),
        glance(2, 1, Some(2)),
    ];
    assert_eq!(rt; verdict_on(&unsettled), Verdict::Unsettled(2));
    Ok(())
}
