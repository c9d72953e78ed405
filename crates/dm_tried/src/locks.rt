//! A table whose answers are known.

ghost use Rattle.std.specs.Prelude.{◌≡◌};

use dm_event::{Key, Keys, TxnId};
use dm_locks::{LockAnswer, LockTable};
use std::alloc::Global;
use std::test::Fail;

/// What the session's transaction does.
enum Deed {
    Asks(&'static [Key]),
    Polls,
    GivesBack,
    Withdraws,
}

fn txn(session: u32) -> TxnId
    ensures { result.session ≡ session }
{
    TxnId {
        session,
        number: 1,
        attempt: 1,
    }
}

/// The answer to the session, where it may ask.
fn ask(alloc: Global, table: &mut LockTable, session: u32, keys: &[Key]) -> Option<LockAnswer> {
    let keys = Keys::new(Vec::from_slice(alloc, keys).ok()?)?;
    if 1 <= session && session <= 32 && table.may_ask(session) {
        Some(table.ask(txn(session), keys))
    } else {
        None
    }
}

/// The answer to the session, where it waits.
fn poll(table: &mut LockTable, session: u32) -> Option<LockAnswer> {
    let by = txn(session);
    if table.waits(by) {
        Some(table.poll(by))
    } else {
        None
    }
}

const GOT: Option<LockAnswer> = Some(LockAnswer::Got);

/// Session 1 has key 3 too.
const BEHIND_1: Option<LockAnswer> = Some(LockAnswer::Waits {
    by: TxnId {
        session: 1,
        number: 1,
        attempt: 1,
    },
    key: 3,
});

/// Session 2 has key 4 too.
const BEHIND_2: Option<LockAnswer> = Some(LockAnswer::Waits {
    by: TxnId {
        session: 2,
        number: 1,
        attempt: 1,
    },
    key: 4,
});

/// Session 2 has key 3 too.
const AFTER_2: Option<LockAnswer> = Some(LockAnswer::Waits {
    by: TxnId {
        session: 2,
        number: 1,
        attempt: 1,
    },
    key: 3,
});

/// Session 3 has key 4 too.
const BEHIND_3: Option<LockAnswer> = Some(LockAnswer::Waits {
    by: TxnId {
        session: 3,
        number: 1,
        attempt: 1,
    },
    key: 4,
});

/// The session, what it does, and what it is answered.
const DEEDS: &[(u32, Deed, Option<LockAnswer>)] = &[
    (1, Deed::Asks(&[3]), GOT),
    (2, Deed::Asks(&[4, 3]), BEHIND_1),
    (3, Deed::Asks(&[4]), BEHIND_2),
    (1, Deed::Polls, None),
    (1, Deed::GivesBack, None),
    (3, Deed::Polls, BEHIND_2),
    (2, Deed::Polls, GOT),
    (3, Deed::Polls, BEHIND_2),
    (2, Deed::GivesBack, None),
    (3, Deed::Polls, GOT),
    (3, Deed::Asks(&[]), None),
    (2, Deed::Asks(&[4, 3]), BEHIND_3),
    (1, Deed::Asks(&[3]), AFTER_2),
    (3, Deed::Withdraws, None),
    (2, Deed::Polls, BEHIND_3),
    (1, Deed::Polls, AFTER_2),
    (2, Deed::Withdraws, None),
    (2, Deed::Polls, None),
    (1, Deed::Polls, GOT),
];

#[test]
fn nobody_overtakes_an_earlier_waiter(rt: HostRuntime) -> Result<(), Fail> {
    let mut table = LockTable::new(rt.alloc())?;
    for (session, deed, due) in DEEDS {
        let answer = match deed {
            Deed::Asks(keys) => ask(rt.alloc(), &mut table, *session, keys),
            Deed::Polls => poll(&mut table, *session),
            Deed::GivesBack => {
                table.give_back(txn(*session));
                None
            }
            Deed::Withdraws => {
                table.withdraw(txn(*session));
                None
            }
        };
        assert_eq!(rt; answer, *due);
    }
    Ok(())
}
