//! Claims on keys, and what stands in the way of one who asks.

ghost use Rattle.std.specs.Prelude.{◌≡◌, ◌++◌};
ghost use Rattle.std.specs.List.Sorted.{IsStrictlyIncreasing};
ghost use Rattle.dm_model.specs.Allowed.{common_key};
ghost use Rattle.dm_locks.specs.Claims.{answer};

use crate::LockAnswer;
use dm_event::{Key, Keys, TxnId};
use std::cmp::Ordering;

/// The keys that a transaction holds or waits for.
#[derive(Debug, Drop)]
pub struct Claim {
    pub txn: TxnId,
    pub keys: Keys,
}

/// The least key of both lists, found in one pass over both.
fn common_key(keys: &[Key], others: &[Key]) -> Option<Key>
    requires keys { IsStrictlyIncreasing keys.now }
    requires others { IsStrictlyIncreasing others.now }
    ensures { result ≡ common_key keys.now others.now }
{
    let mut i = 0;
    let mut j = 0;
    while i < keys.len() && j < others.len() {
        match keys[i].cmp(&others[j]) {
            Ordering::Less => i += 1,
            Ordering::Greater => j += 1,
            Ordering::Equal => return Some(keys[i]),
        }
    }
    None
}

/// The first of the claims that shares a key with the keys, and the least such key.
fn answer(keys: &Keys, claims: &[Claim]) -> LockAnswer
    ensures { result ≡ answer keys.now claims.now }
{
    for claim in claims {
        if let Some(key) = common_key(keys.as_slice(), claim.keys.as_slice()) {
            return LockAnswer::Waits { by: claim.txn, key };
        }
    }
    LockAnswer::Got
}

/// The same over the holders and then the waiters.
pub(crate) fn answer_beside(keys: &Keys, holders: &[Claim], waiters: &[Claim]) -> LockAnswer
    ensures { result ≡ answer keys.now (holders.now ++ waiters.now) }
{
    match answer(keys, holders) {
        LockAnswer::Got => answer(keys, waiters),
        waits => waits,
    }
}
