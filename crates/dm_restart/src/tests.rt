//! Floors and a plan that were worked out by hand.

ghost use Rattle.std.specs.Prelude.{◌≡◌, ◌≤◌, [], ◌∷◌, length, IfOk};

use crate::{Plan, floor, plan};
use dm_event::{Key, NoMemory, Pair, Pairs, Schema, SiteNo, TxnId, Vector, Weights};
use dm_record::Record;
use dm_store::Past;
use std::alloc::Global;
use std::test::Fail;

const TXN: TxnId = TxnId {
    session: 1,
    number: 1,
    attempt: 1,
};

fn vector(at: [u64; 2]) -> Vector
    ensures { result ≡ at }
{
    let [a, b] = at;
    let mut vector = Vector::zeros(2);
    vector.set(1, a);
    vector.set(2, b);
    vector
}

/// What a record of a site says that counts here.
#[derive(Clone, Copy, Debug, PartialEq, Eq)]
enum Line {
    Commit(u64, [u64; 2]),
    Release([u64; 2]),
    Grant([u64; 2]),
}

fn record(alloc: Global, line: Line) -> Record {
    match line {
        Line::Commit(seq, begin) => Record::Commit {
            txn: TXN,
            seq,
            begin: vector(begin),
            writes: Pairs::new(Vec::new(alloc)),
        },
        Line::Release(at) => Record::Release {
            part: 0,
            epoch: 0,
            to: 2,
            vector: vector(at),
        },
        Line::Grant(at) => Record::Grant {
            part: 0,
            epoch: 1,
            vector: vector(at),
        },
    }
}

fn floor_after(alloc: Global, site: SiteNo, lines: &[Line]) -> Result<[u64; 2], NoMemory>
    requires { 1 ≤ site }
{
    let mut own = Vec::new(alloc);
    for line in lines {
        own.push(record(alloc, *line))?;
    }
    let floor = floor(2, site, &own);
    Ok([floor.get(1), floor.get(2)])
}

#[test]
fn floors_have_commits_and_grants(rt: HostRuntime) -> Result<(), Fail> {
    let alloc = rt.alloc();
    for (site, lines, floor) in [
        (1, [].as_slice(), [0, 0]),
        (1, [Line::Commit(1, [0, 0])].as_slice(), [1, 0]),
        // A commit has what it saw.
        (
            1,
            [Line::Commit(1, [0, 4]), Line::Commit(2, [1, 3])].as_slice(),
            [2, 4],
        ),
        (2, [Line::Grant([4, 0])].as_slice(), [4, 0]),
        // A release doesn't count.
        (
            2,
            [
                Line::Release([9, 9]),
                Line::Grant([1, 0]),
                Line::Commit(1, [2, 0]),
            ]
            .as_slice(),
            [2, 1],
        ),
    ] {
        assert_eq!(rt; floor_after(alloc, site, lines)?, floor, "{lines:?}");
    }
    Ok(())
}

const FIRST: &[Pair] = &[Pair { key: 3, value: 5 }];

const OTHER: &[Pair] = &[Pair { key: 13, value: 9 }];

const LAST: &[Pair] = &[Pair { key: 3, value: 7 }];

fn commit(alloc: Global, seq: u64, begin: [u64; 2], writes: &[Pair]) -> Result<Record, NoMemory>
    ensures { IfOk result (λ r. r ≡ Record.Commit TXN seq begin writes.now) }
{
    Ok(Record::Commit {
        txn: TXN,
        seq,
        begin: vector(begin),
        writes: Pairs::new(Vec::from_slice(alloc, writes)?),
    })
}

fn transaction(alloc: Global, origin: SiteNo, seq: u64, writes: &[Pair]) -> Result<Past, NoMemory>
    ensures { IfOk result (λ t. t ≡ record { origin = origin; seq = seq; writes = writes.now }) }
{
    Ok(Past {
        origin,
        seq,
        writes: Pairs::new(Vec::from_slice(alloc, writes)?),
    })
}

/// The log of site 1, whose second commit saw the first one of site 2.
fn own(alloc: Global) -> Result<[Record; 2], NoMemory>
    ensures { IfOk result (λ own. own ≡ Record.Commit TXN 1 (0 ∷ 0 ∷ []) FIRST.now ∷ Record.Commit TXN 2 (1 ∷ 1 ∷ []) LAST.now ∷ []) }
{
    let first = commit(alloc, 1, [0, 0], FIRST)?;
    let last = commit(alloc, 2, [1, 1], LAST)?;
    Ok([first, last])
}

/// What the history has but for the last of them.
fn past(alloc: Global) -> Result<[Past; 2], NoMemory>
    ensures { IfOk result (λ past. past ≡ record { origin = 2; seq = 1; writes = OTHER.now } ∷ record { origin = 1; seq = 1; writes = FIRST.now } ∷ []) }
{
    let other = transaction(alloc, 2, 1, OTHER)?;
    let first = transaction(alloc, 1, 1, FIRST)?;
    Ok([other, first])
}

fn schema(alloc: Global) -> Result<Schema, Fail>
    ensures { IfOk result (λ schema. schema.sites ≡ 2) }
{
    let even = Weights {
        balance: 1,
        delay: 1,
        together: 1,
    };
    let masters = Vec::from_slice(alloc, &[1, 2])?;
    Ok(Schema::new(2, 10, masters, even, Vec::new(alloc)).ok_or("limits")?)
}

fn planned(alloc: Global) -> Result<Plan, Fail> {
    let schema = schema(alloc)?;
    let own = own(alloc)?;
    let past = past(alloc)?;
    Ok(plan(alloc, &schema, 1, &own, &past)?)
}

/// Where the plan starts, and the values of these keys at these vectors.
fn told(alloc: Global, asked: &[(Key, [u64; 2])]) -> Result<([u64; 2], Vec<i64>), Fail> {
    let plan = planned(alloc)?;
    let mut values = Vec::new(alloc);
    for (key, at) in asked {
        values.push(plan.store.read(*key, &vector(*at)))?;
    }
    Ok(([plan.vector.get(1), plan.vector.get(2)], values))
}

#[test]
fn a_commit_that_the_past_lacks_is_installed_last(rt: HostRuntime) -> Result<(), Fail> {
    let asked = [
        (3, [0, 0]),
        (3, [1, 1]),
        (3, [2, 0]),
        (3, [2, 1]),
        (13, [2, 0]),
        (13, [0, 1]),
    ];
    let (vector, values) = told(rt.alloc(), &asked)?;
    assert_eq!(rt; vector, [2, 1]);
    assert_eq!(rt; values.as_slice(), [0, 5, 7, 7, 0, 9].as_slice());
    Ok(())
}
