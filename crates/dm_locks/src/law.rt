//! What holds of every run of calls.

ghost use Rattle.std.specs.Prelude.{ℕ, ◌≡◌, ◌≤◌, ◌↔◌, List, [], ◌∷◌, ◌++◌, Contains, length, map};
ghost use Rattle.std.specs.List.Sorted.{IsStrictlyIncreasing};
ghost use Rattle.dm_event.specs.declared.limits.TheConstants.{MAX_SESSIONS};
ghost use Rattle.dm_event.specs.declared.step.TxnId.{TxnId};
ghost use Rattle.dm_model.specs.Words.{count_of};
ghost use Rattle.dm_locks.specs.Calls.{Call, GiveBack, after_all, Reached, Share, IsWaiting, WaitsOn};
ghost use Rattle.dm_locks.specs.Claims.{IsCommon, IsFirst, answer, before, has_key, is_of_session};
ghost use Rattle.dm_locks.specs.Locks.{Locks, ahead, answer_at_poll, everyone};
ghost use Rattle.dm_locks.specs.declared.claim.Claim.{Claim};
ghost use Rattle.dm_locks.specs.declared.table.LockAnswer.TheVariants.{Got, Waits};

/// What an answer says: Got, that nobody in the way shares a key, and Waits, who is the first that
/// shares one, and the least key that both have.
pub fn answers_tell_the_first()
    ensures got { (keys : List ℕ) (claims : List Claim)
        → (answer keys claims ≡ Got) ↔ ((claim : Claim) → Contains claims claim → (key : ℕ) → ¬ IsCommon keys claim key) }
    ensures waits { (keys : List ℕ) (claims : List Claim) (by : TxnId) (key : ℕ) → IsStrictlyIncreasing keys → answer keys claims ≡ Waits by key
        → (claim : Claim) × (claim.txn ≡ by) × IsFirst keys claims claim key }
{}

/// At each moment a key has one holder at most, a session has one claim at most, and so there are at
/// most as many claims as there are sessions.
pub fn one_holder_a_key()
    ensures one_holder { (locks : Locks) → Reached locks → (key : ℕ) → count_of (has_key key) locks.holders ≤ 1 }
    ensures one_claim { (locks : Locks) → Reached locks → (session : ℕ) → count_of (is_of_session session) (everyone locks) ≤ 1 }
    ensures few { (locks : Locks) → Reached locks → length (everyone locks) ≤ MAX_SESSIONS }
{}

/// As long as a claim waits, whatever calls are made: whoever holds a key of it was ahead of it from the
/// start. So a waiter never gets its keys before an earlier waiter that shares one.
pub fn nobody_overtakes()
    ensures ahead { (locks : Locks) (claim : Claim) (calls : List Call) → WaitsOn locks calls claim
        → (holder : Claim) → Contains (after_all locks calls).holders holder → Share claim holder → Contains (ahead claim.txn locks) holder }
    ensures in_order { (locks : Locks) → Reached locks → (earlier later : Claim)
        → IsWaiting locks earlier → IsWaiting locks later → Contains (before later.txn locks.waiters) earlier → Share earlier later
        → (calls : List Call) → WaitsOn locks calls earlier → ¬ Contains (after_all locks calls).holders later }
{}

/// The first waiter gets its keys at its next poll once those who held when it was the first have given
/// theirs back, whatever calls are made between. To give back the keys of all holders makes no holder,
/// and leaves the waiters.
pub fn first_waiter_is_served()
    ensures served { (locks : Locks) (first : Claim) (rest : List Claim) → locks.waiters ≡ first ∷ rest
        → (calls : List Call) → WaitsOn locks calls first
        → ((holder : Claim) → Contains locks.holders holder → ¬ Contains (after_all locks calls).holders holder)
        → answer_at_poll (after_all locks calls) first.txn ≡ Got }
    ensures emptied { (locks : Locks) → Reached locks
        → after_all locks (map (λ holder. GiveBack holder.txn) locks.holders) ≡ record { holders = []; waiters = locks.waiters } }
    ensures alone { (first : Claim) (rest : List Claim) → answer_at_poll (record { holders = []; waiters = first ∷ rest }) first.txn ≡ Got }
{}
