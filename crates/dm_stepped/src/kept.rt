//! What each kept thing says of these steps.

use crate::steps::{TXN, grant, schema, step};
use dm_aims::Aims;
use dm_event::{AttemptState, Choice, Pending, Placing, Step, Vector};
use dm_index::Index;
use dm_numbers::Numbers;
use dm_runs::Runs;
use dm_state::States;
use std::test::Fail;

#[test]
fn placings_follow_the_steps(rt: HostRuntime) -> Result<(), Fail> {
    let mut states = States::new(rt.alloc(), &schema(rt.alloc())?)?;
    let asked = Placing::Asked {
        site: 1,
        epoch: 0,
        to: 2,
    };
    let between = Placing::Between {
        site: 1,
        epoch: 0,
        to: 2,
        vector: Vector::zeros(2),
    };
    let due = [
        Placing::Settled { site: 1, epoch: 0 },
        asked,
        between,
        between,
        Placing::Granted { site: 2, epoch: 1 },
        Placing::Settled { site: 2, epoch: 1 },
    ];
    for (place, placing) in due.into_iter().enumerate() {
        let pending = if place == 4 { Some(grant()) } else { None };
        states.apply(&step(place), pending.as_ref());
        assert_eq!(rt; states.placing(0), placing);
    }
    let routed = AttemptState::Routed {
        site: 2,
        choice: Choice::Hand,
    };
    assert_eq!(rt; states.attempt(1).state, routed);
    Ok(())
}

#[test]
fn a_site_in_doubt_is_down(rt: HostRuntime) -> Result<(), Fail> {
    let mut numbers = Numbers::new(rt.alloc(), &schema(rt.alloc())?)?;
    for place in 0..4 {
        numbers.apply(&step(place), None, None);
    }
    assert!(rt; numbers.site(2).down && !numbers.site(1).down);
    assert_eq!(rt; numbers.session(1).routes, 1);
    Ok(())
}

#[test]
fn a_place_is_aimed_at(rt: HostRuntime) -> Result<(), Fail> {
    let states = States::new(rt.alloc(), &schema(rt.alloc())?)?;
    let mut aims = Aims::new(rt.alloc())?;
    aims.apply(&step(0), &states);
    let aim = aims.aim(1).ok_or("no aim")?;
    assert_eq!(rt;
        (aim.site, aim.part, aim.settled, aim.restarted),
        (2, Some(0), None, false)
    );
    assert!(rt; aims.aim(2).is_none());
    Ok(())
}

#[test]
fn steps_have_their_places(rt: HostRuntime) -> Result<(), Fail> {
    let mut index = Index::new(rt.alloc(), &schema(rt.alloc())?)?;
    index.reserve(1)?;
    let doubt = Step::Doubt {
        site: 2,
        pending: Pending::Grant {
            part: 0,
            epoch: 1,
            vector: Vector::zeros(2),
        },
    };
    index.apply(&doubt, None, 3);
    assert_eq!(rt; index.route(1), None);
    assert_eq!(rt; index.doubt(2), Some(3));
    assert_eq!(rt; index.entry(1, 1), None);
    Ok(())
}

#[test]
fn an_attempt_runs_from_its_begin_on(rt: HostRuntime) -> Result<(), Fail> {
    let mut runs = Runs::new(rt.alloc());
    runs.reserve()?;
    runs.apply(&Step::Begin {
        site: 1,
        txn: TXN,
        begin: Vector::zeros(2),
    });
    assert_eq!(rt; runs.as_slice().len(), 1);
    assert_eq!(rt; runs.as_slice()[0].txn, TXN);
    Ok(())
}
