//! Stores whose answers are known.

ghost use Rattle.std.specs.Prelude.{◌≡◌, IfOk, length, replicate};

use dm_event::{Key, Pair, Pairs, Schema, SiteNo, ValueRange, Vector, Weights};
use dm_store::{Past, Store};
use std::alloc::Global;
use std::test::Fail;

/// The greatest key of any schema.
const LAST: Key = 16777215;

const EVEN: Weights = Weights {
    balance: 1,
    delay: 1,
    together: 1,
};

const OPENING: &[ValueRange] = &[
    ValueRange {
        first: 10,
        last: 19,
        value: 100,
    },
    ValueRange {
        first: 12,
        last: LAST,
        value: 7,
    },
];

/// Three sites, all keys that there can be. Keys 10 and 11 are 100 at first, and those from 12 on 7.
fn schema(alloc: Global) -> Result<Schema, Fail> {
    let masters = Vec::from_slice(alloc, &[1; 256])?;
    let values = Vec::from_slice(alloc, OPENING)?;
    let made = Schema::new(3, 65536, masters, EVEN, values).ok_or("schema")?;
    Ok(made.try_clone()?)
}

fn vector([a, b, c]: [u64; 3]) -> Vector {
    let mut vector = Vector::zeros(3);
    vector.set(1, a);
    vector.set(2, b);
    vector.set(3, c);
    vector
}

fn transaction(alloc: Global, origin: SiteNo, seq: u64, writes: &[Pair]) -> Result<Past, Fail>
    ensures { IfOk result (λ t. t ≡ record { origin = origin; seq = seq; writes = writes.now }) }
{
    Ok(Past {
        origin,
        seq,
        writes: Pairs::new(Vec::from_slice(alloc, writes)?),
    })
}

const BOTH: &[Pair] = &[Pair { key: 3, value: 31 }, Pair { key: 12, value: 32 }];

const SECOND: &[Pair] = &[Pair { key: 3, value: 33 }];

const THIRD: &[Pair] = &[Pair { key: 3, value: 36 }];

#[test]
fn chains_of_several_origins_interleave(rt: HostRuntime) -> Result<(), Fail> {
    let alloc = rt.alloc();
    let schema = schema(alloc)?;
    let past = [
        transaction(alloc, 1, 1, BOTH)?,
        transaction(alloc, 2, 1, SECOND)?,
        transaction(alloc, 1, 2, THIRD)?,
    ];
    let store = Store::rebuild(alloc, &schema, &past)?;
    for (key, begin, value) in [
        (3, [0, 0, 0], 0),
        (3, [1, 0, 0], 31),
        (3, [1, 1, 0], 33),
        (3, [0, 1, 9], 33),
        (3, [2, 0, 0], 36),
        (3, [2, 1, 0], 36),
        (10, [2, 1, 0], 100),
        (12, [0, 1, 0], 7),
        (12, [1, 0, 0], 32),
        (LAST, [9, 9, 9], 7),
    ] {
        assert_eq!(rt; store.read(key, &vector(begin)), value);
    }
    Ok(())
}

const EARLY: &[Pair] = &[Pair {
    key: LAST,
    value: 33,
}];

const LATE: &[Pair] = &[Pair {
    key: LAST,
    value: 36,
}];

#[test]
fn between_two_writes_of_one_origin_there_is_a_gap(rt: HostRuntime) -> Result<(), Fail> {
    let alloc = rt.alloc();
    let early = Pairs::new(Vec::from_slice(alloc, EARLY)?);
    let late = Pairs::new(Vec::from_slice(alloc, LATE)?);
    let mut store = Store::new(alloc, &schema(alloc)?)?;
    store.know(LAST)?;
    store.reserve(2)?;
    store.install(1, 2, &early);
    store.install(1, 7, &late);
    for (seq, value) in [(1, 7), (2, 33), (3, 33), (6, 33), (7, 36), (8, 36)] {
        assert_eq!(rt; store.read(LAST, &vector([seq, 9, 9])), value);
    }
    Ok(())
}
