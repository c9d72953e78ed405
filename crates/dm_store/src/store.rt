//! Stores of versions.

ghost use Rattle.std.specs.List.{AllByRecursion};
ghost use Rattle.std.specs.Prelude.{◌≡◌, ◌+◌, ◌<◌, ◌≤◌, ◌++◌, ◌∷◌, [], ℕ, length, map, IsOk, IsTrue, IfOk, OnOk, OnErr, vec_len, vec_capacity};
ghost use Rattle.dm_event.specs.declared.step.Pair.{Pair};
ghost use Rattle.dm_model.specs.Shape.{is_ascending};
ghost use Rattle.dm_model.specs.Tests.{is_among};
ghost use Rattle.dm_store.specs.Known.{with_known, AreKnown};
ghost use Rattle.dm_store.specs.Reads.{value_of};
ghost use Rattle.dm_store.specs.Rising.{is_above, may_install};

use crate::Past;
use crate::chains::Chains;
use crate::version::Installed;
use dm_event::{Key, MAX_KEYS, NoMemory, Pair, Pairs, Schema, SiteNo, Value, Vector};
use std::alloc::Global;
use std::marker::Model;

/// The versions of the known keys, and the transactions that they came with.
#[derive(Drop)]
pub struct Store {
    schema: Schema,
    chains: Chains,
    /// The earliest first.
    installed: Vec<Installed>,
    /// The installs for which there is room.
    spare: usize,
}

impl Model for Store {
    ghost use Rattle.dm_store.specs.Contents.{Contents};

    ghost Value = { Contents };

    ghost use Rattle.dm_store.specs.Stores.{contents, IsStore};

    ghost view = { contents };

    ghost invariant = { IsStore };
}

impl Store {
    /// No transaction is installed and no key known.
    pub fn new(alloc: Global, schema: &Schema) -> Result<Store, NoMemory>
        ensures layout { IfOk result (λ store. store.layout ≡ schema.now) }
        ensures known { IfOk result (λ store. store.known ≡ []) }
        ensures installed { IfOk result (λ store. store.installed ≡ []) }
        ensures spare { IfOk result (λ store. store.spare ≡ 0) }
    {
        let schema = schema.try_clone()?;
        Ok(Store {
            schema,
            chains: Chains::new(alloc),
            installed: Vec::new(alloc),
            spare: 0,
        })
    }

    /// The store that installing these transactions in order gives.
    pub fn rebuild(alloc: Global, schema: &Schema, past: &[Past]) -> Result<Store, NoMemory>
        requires { IsTrue (may_install [] past.now) }
        ensures installed { IfOk result (λ store. store.installed ≡ past.now) }
        ensures layout { IfOk result (λ store. store.layout ≡ schema.now) }
        ensures known { IfOk result (λ store. AllByRecursion (λ t. AreKnown store.known t.writes) past.now) }
    {
        let mut store = Store::new(alloc, schema)?;
        for transaction in past {
            store.know_each(transaction.writes.as_slice())?;
            store.reserve(1)?;
            store.install(transaction.origin, transaction.seq, &transaction.writes);
        }
        Ok(store)
    }

    /// Makes the key a known one.
    pub fn know(&mut self, key: Key) -> Result<(), NoMemory>
        ensures known { OnOk result (self.new.known ≡ with_known self.old.known key) }
        ensures now_known { OnOk result (IsTrue (is_among self.new.known key)) }
        ensures stay { (k : ℕ) → IsTrue (is_among self.old.known k) → IsTrue (is_among self.new.known k) }
        ensures layout { self.new.layout ≡ self.old.layout }
        ensures installed { self.new.installed ≡ self.old.installed }
        ensures spare { self.new.spare ≡ self.old.spare }
        ensures unchanged { OnErr result (self.new ≡ self.old) }
        ensures again { IsTrue (is_among self.old.known key) → IsOk result }
    {
        self.chains.know(key)
    }

    /// Makes the keys of the pairs known ones. Where memory runs out, some of them may be known.
    pub fn know_each(&mut self, pairs: &[Pair]) -> Result<(), NoMemory>
        ensures all { OnOk result (AreKnown self.new.known pairs.now) }
        ensures stay { (key : ℕ) → IsTrue (is_among self.old.known key) → IsTrue (is_among self.new.known key) }
        ensures layout { self.new.layout ≡ self.old.layout }
        ensures installed { self.new.installed ≡ self.old.installed }
        ensures spare { self.new.spare ≡ self.old.spare }
    {
        for pair in pairs {
            self.know(pair.key)?;
        }
        Ok(())
    }

    /// Makes room for so many installs.
    pub fn reserve(&mut self, installs: usize) -> Result<(), NoMemory>
        ensures room { OnOk result (installs ≤ self.new.spare) }
        ensures kept { self.old.spare ≤ self.new.spare }
        ensures layout { self.new.layout ≡ self.old.layout }
        ensures known { self.new.known ≡ self.old.known }
        ensures installed { self.new.installed ≡ self.old.installed }
        ensures unchanged { OnErr result (self.new ≡ self.old) }
        ensures enough { installs ≤ self.old.spare → IsOk result }
    {
        if self.spare < installs {
            // A transaction writes no more keys than it declares.
            let versions = installs.checked_mul(MAX_KEYS).ok_or(NoMemory)?;
            self.chains.reserve(versions)?;
            self.installed.reserve(installs)?;
            self.spare = installs;
        }
        Ok(())
    }

    /// Installs a transaction behind those that are installed. It takes no memory.
    pub fn install(&mut self, origin: SiteNo, seq: u64, writes: &Pairs)
        requires few { length writes.now ≤ MAX_KEYS }
        requires ascending { IsTrue (is_ascending (map (λ (p : Pair). p.key) writes.now)) }
        requires known { AreKnown self.old.known writes.now }
        requires room { 1 ≤ self.old.spare }
        requires rising { IsTrue (is_above self.old.installed origin seq) }
        ensures installed { self.new.installed ≡ self.old.installed ++ record { origin = origin; seq = seq; writes = writes.now } ∷ [] }
        ensures spare { self.new.spare + 1 ≡ self.old.spare }
        ensures layout { self.new.layout ≡ self.old.layout }
        ensures known { self.new.known ≡ self.old.known }
    {
        let pairs = writes.as_slice();
        self.chains.put_all(origin, seq, pairs);
        self.installed.push_reserved(Installed {
            origin,
            seq,
            writes: pairs.len(),
        });
        self.spare -= 1;
    }

    /// The key's value at the vector: what the last installed writer of the key wrote of those whose
    /// number is at most the vector's component of their origin, else the key's opening value. It
    /// takes no memory.
    pub fn read(&self, key: Key, begin: &Vector) -> Value
        ensures { result ≡ value_of self.now.layout self.now.installed key begin.now }
    {
        match self.chains.value(key, begin) {
            Some(value) => value,
            None => self.schema.opening(key),
        }
    }
}
