//! Session 1 has partition 0 placed at site 2, which goes down as it takes it over and finds its record.

use dm_event::{Choice, Found, Pending, Schema, Step, TxnId, Vector, Want, Weights};
use std::alloc::Global;
use std::test::Fail;

const NONE: Weights = Weights {
    balance: 0,
    delay: 0,
    together: 0,
};

/// Two sites and two partitions, of which site 1 masters the first.
pub(crate) fn schema(alloc: Global) -> Result<Schema, Fail> {
    let masters = Vec::from_slice(alloc, &[1, 2])?;
    Ok(Schema::new(2, 10, masters, NONE, Vec::new(alloc)).ok_or("schema")?)
}

pub(crate) const TXN: TxnId = TxnId {
    session: 1,
    number: 1,
    attempt: 1,
};

pub(crate) fn grant() -> Pending {
    Pending::Grant {
        part: 0,
        epoch: 1,
        vector: Vector::zeros(2),
    }
}

/// The step at the place.
pub(crate) fn step(place: usize) -> Step {
    let vector = Vector::zeros(2);
    match place {
        0 => Step::Route {
            txn: TXN,
            want: Want::Place(0),
            min: vector,
            site: 2,
            choice: Choice::Hand,
        },
        1 => Step::Ask {
            part: 0,
            epoch: 0,
            to: 2,
            txn: TXN,
        },
        2 => Step::Release {
            site: 1,
            part: 0,
            epoch: 0,
            to: 2,
            vector,
        },
        3 => Step::Doubt {
            site: 2,
            pending: grant(),
        },
        4 => Step::Restart {
            site: 2,
            vector,
            found: Found::Kept,
        },
        _ => Step::Settle { part: 0, epoch: 1 },
    }
}
