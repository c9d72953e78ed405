//! A hand-over step by step, and lists that differ from it.

use crate::{Checked, check};
use dm_event::{Choice, NoMemory, Said, Schema, Step, TxnId, Vector, Want, Weights, Why};
use std::alloc::Global;
use std::test::Fail;

/// The steps by which partition 0 goes from site 1 to site 2, for the first item of session 3.
#[derive(Clone, Copy, Debug, PartialEq, Eq)]
enum Act {
    Place,
    Ask,
    Release,
    Grant,
    Settle,
    Say,
}

const PLACE: TxnId = TxnId {
    session: 3,
    number: 1,
    attempt: 1,
};

fn step(act: Act) -> Step {
    let vector = Vector::zeros(2);
    match act {
        Act::Place => Step::Route {
            txn: PLACE,
            want: Want::Place(0),
            min: vector,
            site: 2,
            choice: Choice::Hand,
        },
        Act::Ask => Step::Ask {
            part: 0,
            epoch: 0,
            to: 2,
            txn: PLACE,
        },
        Act::Release => Step::Release {
            site: 1,
            part: 0,
            epoch: 0,
            to: 2,
            vector,
        },
        Act::Grant => Step::Grant {
            site: 2,
            part: 0,
            epoch: 1,
            vector,
        },
        Act::Settle => Step::Settle { part: 0, epoch: 1 },
        Act::Say => Step::Reply {
            session: 3,
            number: 1,
            said: Said::Placed {
                part: 0,
                site: 2,
                epoch: 1,
            },
        },
    }
}

fn schema(alloc: Global) -> Result<Schema, Fail> {
    let even = Weights {
        balance: 1,
        delay: 1,
        together: 1,
    };
    let masters = Vec::from_slice(alloc, &[1, 2])?;
    Ok(Schema::new(2, 10, masters, even, Vec::new(alloc)).ok_or("limits")?)
}

/// The place and the reason of the first step that may not stand, and how many steps the book has.
fn told(checked: &Checked) -> (Option<(u64, Why)>, usize) {
    match checked {
        Checked::Yes(book) => (None, book.steps().len()),
        Checked::No { step, why, legal } => (Some((*step, *why)), legal.steps().len()),
    }
}

fn steps(alloc: Global, acts: &[Act]) -> Result<Vec<Step>, NoMemory> {
    let mut steps = Vec::new(alloc);
    for act in acts {
        steps.push(step(*act))?;
    }
    Ok(steps)
}

/// What is told of the list of these steps.
fn judged(alloc: Global, acts: &[Act]) -> Result<(Option<(u64, Why)>, usize), Fail> {
    let steps = steps(alloc, acts)?;
    let schema = schema(alloc)?;
    let checked = check(alloc, &schema, steps)?;
    Ok(told(&checked))
}

#[test]
fn lists_are_judged(rt: HostRuntime) -> Result<(), Fail> {
    let alloc = rt.alloc();
    let place = Act::Place;
    let (ask, release, grant, settle, say) = (
        Act::Ask,
        Act::Release,
        Act::Grant,
        Act::Settle,
        Act::Say,
    );
    for (acts, refused, legal) in [
        ([].as_slice(), None, 0),
        ([place].as_slice(), None, 1),
        (
            [place, ask, release, grant, settle, say].as_slice(),
            None,
            6,
        ),
        // The first step may not stand.
        ([ask, place].as_slice(), Some((1, Why::NotRouted)), 0),
        // One in the middle may not, though the list would be legal without it.
        (
            [place, ask, grant, release, settle].as_slice(),
            Some((3, Why::NotReleased)),
            2,
        ),
        // The last may not.
        (
            [place, ask, release, settle].as_slice(),
            Some((4, Why::NotGranted)),
            3,
        ),
        // Two may not, of which the first is named.
        (
            [place, say, ask, ask].as_slice(),
            Some((2, Why::WrongSaid)),
            1,
        ),
    ] {
        assert_eq!(rt; judged(alloc, acts)?, (refused, legal), "after {acts:?}");
    }
    Ok(())
}
