use crate::numbers::two_threads;
use crate::sessions::two_sessions;
use dm_event::Step;
use std::test::Fail;

/// Whether the actor's numbers are the first 200, in order.
fn is_in_order(list: &[u64], actor: u64) -> bool {
    let own = list.iter().filter(|number| **number % 8 == actor);
    own.map(|number| *number / 8).eq(0..200)
}

#[test]
fn each_actor_s_numbers_stand_in_its_order(rt: HostRuntime) -> Result<(), Fail> {
    let list = two_threads(&rt, rt.alloc()).ok_or("memory")?;
    assert_eq!(rt; list.len(), 400);
    assert!(rt; is_in_order(&list, 1));
    assert!(rt; is_in_order(&list, 2));
    Ok(())
}

/// The place of the step among those of the session, if it is one: each item has its Route, and then its Reply.
fn place_of(step: &Step, session: u32) -> Option<u64> {
    match step {
        Step::Route { txn, .. } if txn.session == session => Some(u64::from(txn.number) * 2),
        Step::Reply {
            session: of,
            number,
            ..
        } if *of == session => Some(u64::from(*number) * 2 + 1),
        _ => None,
    }
}

/// Whether the session's steps are those of its first 20 items, in order.
fn has_twenty_items(steps: &[Step], session: u32) -> bool {
    let places = steps.iter().filter_map(|step| place_of(step, session));
    places.eq(2..42)
}

#[test]
fn each_session_s_steps_stand_in_its_order(rt: HostRuntime) -> Result<(), Fail> {
    let steps = two_sessions(&rt, rt.alloc(), 20)?.into_steps();
    assert_eq!(rt; steps.len(), 80);
    assert!(rt; has_twenty_items(&steps, 1));
    assert!(rt; has_twenty_items(&steps, 2));
    Ok(())
}
