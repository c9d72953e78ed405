//! The table: its two lists, and the calls on them.

ghost use Rattle.std.specs.Prelude.{◌≡◌, ◌==◌, ◌≤◌, ◌<◌, ◌++◌, ◌∷◌, [], IfOk, IfSome, IsSome, is_some, option_map, find, length, vec_len, vec_capacity};
ghost use Rattle.std.specs.List.{list_any, position_or_len};
ghost use Rattle.dm_model.specs.Words.{count_of};
ghost use Rattle.dm_locks.specs.Claims.{answer, claim_of, is_of, is_of_session, of_others, without};
ghost use Rattle.dm_locks.specs.Line.{Taken};
ghost use Rattle.dm_locks.specs.Locks.{no_locks, everyone, ahead, asked, answer_at_poll, polled, given_back, withdrawn, left_line, in_line, taken};
ghost use Rattle.dm_locks.specs.Sound.{Sound};

use crate::claim::{Claim, answer_beside};
use dm_event::{Key, Keys, MAX_SESSIONS, NoMemory, TxnId};
use std::alloc::Global;
use std::marker::Model;

/// What one who asks for keys is answered.
#[derive(Clone, Copy, Debug, PartialEq, Eq)]
pub enum LockAnswer {
    /// It holds its keys.
    Got,
    /// It waits: this transaction, which holds or waits before it, has the key too.
    Waits { by: TxnId, key: Key },
}

/// Who holds keys at a site, and who waits for them.
#[derive(Debug, Drop)]
pub struct LockTable {
    holders: Vec<Claim>,
    waiters: Vec<Claim>,
}

impl Model for LockTable {
    ghost use Rattle.dm_locks.specs.Locks.{Locks};

    ghost Value = { Locks };

    ghost use Rattle.dm_locks.specs.Room.{locks_of, HasRoom};

    ghost view = { locks_of };

    ghost invariant = { HasRoom };
}

impl LockTable {
    /// Nobody holds, and nobody waits. A session holds or waits once at most: the memory for all of
    /// them is taken at once, so that no later call needs any.
    pub fn new(alloc: Global) -> Result<LockTable, NoMemory>
        ensures { IfOk result (λ table. table ≡ no_locks) }
    {
        Ok(LockTable {
            holders: Vec::with_capacity(alloc, MAX_SESSIONS as usize)?,
            waiters: Vec::with_capacity(alloc, MAX_SESSIONS as usize)?,
        })
    }

    /// Whether the session may ask: it neither holds nor waits.
    pub fn may_ask(&self, session: u32) -> bool
        ensures { result ≡ (count_of (is_of_session session) (everyone self.now) == 0) }
    {
        !is_of_any(&self.holders, session) && !is_of_any(&self.waiters, session)
    }

    /// Asks for the keys: the transaction holds them from now on, or is the last waiter.
    pub fn ask(&mut self, txn: TxnId, keys: Keys) -> LockAnswer
        requires session { (1 ≤ txn.session) × (txn.session ≤ MAX_SESSIONS) }
        requires no_claim { count_of (is_of_session txn.session) (everyone self.old) ≡ 0 }
        ensures answer { result ≡ answer keys (everyone self.old) }
        ensures locks { self.new ≡ asked self.old (record { txn = txn; keys = keys }) }
    {
        let answer = answer_beside(&keys, &self.holders, &self.waiters);
        let claim = Claim { txn, keys };
        match answer {
            LockAnswer::Got => self.holders.push_reserved(claim),
            LockAnswer::Waits { .. } => self.waiters.push_reserved(claim),
        }
        answer
    }

    /// Asks again for the keys of a waiter.
    pub fn poll(&mut self, txn: TxnId) -> LockAnswer
        requires waits { IsSome (claim_of txn self.old.waiters) }
        ensures answer { result ≡ answer_at_poll self.old txn }
        ensures locks { self.new ≡ polled self.old txn }
    {
        let (at, answer) = answer_in_line(&self.holders, &self.waiters, txn);
        match answer {
            LockAnswer::Got => self.holders.push_reserved(self.waiters.remove(at)),
            LockAnswer::Waits { .. } => {}
        }
        answer
    }

    /// The transaction neither holds nor waits any more.
    pub fn give_back(&mut self, txn: TxnId)
        ensures { self.new ≡ given_back self.old txn }
    {
        self.withdraw(txn);
        take_out(&mut self.holders, txn);
    }

    /// The transaction doesn't wait any more. What it holds it goes on holding.
    pub fn withdraw(&mut self, txn: TxnId)
        ensures { self.new ≡ withdrawn self.old txn }
    {
        take_out(&mut self.waiters, txn);
    }

    /// The session waits for nothing any more.
    pub fn leave_line(&mut self, session: u32)
        ensures { self.new ≡ left_line self.old session }
    {
        leave_others(&mut self.waiters, session);
    }

    /// Asks for the keys, again where the transaction waits already. Whatever else its session waits for
    /// is withdrawn.
    pub fn take(&mut self, txn: TxnId, keys: Keys) -> LockAnswer
        requires session { (1 ≤ txn.session) × (txn.session ≤ MAX_SESSIONS) }
        requires free { count_of (is_of_session txn.session) self.old.holders ≡ 0 }
        requires keys { IfSome (claim_of txn self.old.waiters) (λ waiting. waiting.keys ≡ keys) }
        ensures answer { result ≡ answer keys (ahead txn (in_line self.old (record { txn = txn; keys = keys }))) }
        ensures locks { self.new ≡ taken self.old (record { txn = txn; keys = keys }) }
        ensures tells { Taken (record { txn = txn; keys = keys }) self.old self.new result }
    {
        self.is_sound();
        if self.waits(txn) {
            return self.poll(txn);
        }
        self.leave_line(txn.session);
        self.ask(txn, keys)
    }

    /// What holds of every table: a session has one claim at most, and a key has one holder at most.
    pub fn is_sound(&self)
        ensures { Sound self.now }
    {
        let _holders = self.holders.len();
    }

    pub fn clear(&mut self)
        ensures { self.new ≡ no_locks }
    {
        self.holders.clear();
        self.waiters.clear();
    }

    /// Whether the transaction is a holder.
    pub fn holds(&self, txn: TxnId) -> bool
        ensures { result ≡ list_any (is_of txn) self.now.holders }
    {
        has_claim(&self.holders, txn)
    }

    /// Whether the transaction is a waiter.
    pub fn waits(&self, txn: TxnId) -> bool
        ensures { result ≡ is_some (claim_of txn self.now.waiters) }
    {
        has_claim(&self.waiters, txn)
    }

    /// The transaction of the session that waits.
    pub fn waiter(&self, session: u32) -> Option<TxnId>
        ensures { result ≡ option_map (λ claim. claim.txn) (find (is_of_session session) self.now.waiters) }
    {
        self.waiters
            .iter()
            .find(|claim| claim.txn.session == session)
            .map(|claim| claim.txn)
    }
}

/// Whether one of the claims is the transaction's.
fn has_claim(claims: &[Claim], txn: TxnId) -> bool
    ensures { result ≡ list_any (is_of txn) claims.now }
{
    claims.iter().any(|claim| claim.txn.same(&txn))
}

/// Whether one of the claims is the session's.
fn is_of_any(claims: &[Claim], session: u32) -> bool
    ensures { result ≡ list_any (is_of_session session) claims.now }
{
    claims.iter().any(|claim| claim.txn.session == session)
}

/// Where the waiter stands, and what it is answered for those ahead of it.
fn answer_in_line(holders: &[Claim], waiters: &[Claim], txn: TxnId) -> (usize, LockAnswer)
    requires { IsSome (claim_of txn waiters.now) }
    ensures place { result.0 ≡ position_or_len (is_of txn) waiters.now }
    ensures within { result.0 < length waiters.now }
    ensures answer { result.1 ≡ answer_at_poll (record { holders = holders.now; waiters = waiters.now }) txn }
{
    let at = place(waiters, txn);
    let answer = answer_beside(&waiters[at].keys, holders, &waiters[..at]);
    (at, answer)
}

/// Where the transaction's claim stands.
fn place(claims: &[Claim], txn: TxnId) -> usize
    ensures place { result ≡ position_or_len (is_of txn) claims.now }
    ensures bound { result ≤ length claims.now }
{
    claims
        .iter()
        .take_while(|claim| !claim.txn.same(&txn))
        .count()
}

/// Leaves the claims but for the transaction's.
fn take_out(claims: &mut Vec<Claim>, txn: TxnId)
    ensures items { claims.new.items ≡ without txn claims.old.items }
    ensures capacity { vec_capacity claims.new ≡ vec_capacity claims.old }
{
    claims.retain(|claim| !claim.txn.same(&txn));
}

/// Leaves the claims of other sessions.
fn leave_others(claims: &mut Vec<Claim>, session: u32)
    ensures items { claims.new.items ≡ of_others session claims.old.items }
    ensures capacity { vec_capacity claims.new ≡ vec_capacity claims.old }
{
    claims.retain(|claim| claim.txn.session != session);
}
