//! All versions in one vector, those of a key chained from the newest on.

ghost use Rattle.std.specs.Prelude.{◌≡◌, ◌+◌, ◌<◌, ◌≤◌, ◌++◌, ◌∷◌, [], ℕ, length, map, IsOk, IsTrue, OnOk, OnErr, vec_len, vec_capacity};
ghost use Rattle.dm_model.specs.Tests.{is_among};
ghost use Rattle.dm_store.specs.Known.{with_known, AreKnown};
ghost use Rattle.dm_store.specs.Versions.{latest_version, version_by};

use crate::version::{Link, Version};
use dm_event::{Key, NoMemory, Pair, SiteNo, Value, Vector};
use indexmap::IndexMap;
use std::alloc::Global;
use std::marker::Model;

/// The versions of the known keys.
#[derive(Drop)]
pub(crate) struct Chains {
    /// The place of the newest version of each known key that has one.
    newest: IndexMap<Key, Option<usize>>,
    /// The earliest first.
    links: Vec<Link>,
}

impl Model for Chains {
    ghost use Rattle.dm_store.specs.Chained.{Chained};

    ghost Value = { Chained };

    ghost use Rattle.dm_store.specs.Chains.{chained, IsChained};

    ghost view = { chained };

    ghost invariant = { IsChained };
}

impl Chains {
    pub(crate) fn new(alloc: Global) -> Chains
        ensures known { result.known ≡ [] }
        ensures versions { result.versions ≡ [] }
    {
        Chains {
            newest: IndexMap::new(alloc),
            links: Vec::new(alloc),
        }
    }

    /// Makes the key a known one.
    pub(crate) fn know(&mut self, key: Key) -> Result<(), NoMemory>
        ensures known { OnOk result (self.new.known ≡ with_known self.old.known key) }
        ensures unchanged { OnErr result (self.new.known ≡ self.old.known) }
        ensures again { IsTrue (is_among self.old.known key) → IsOk result }
        ensures versions { self.new.versions ≡ self.old.versions }
        ensures room { self.new.room ≡ self.old.room }
    {
        if !self.newest.contains_key(&key) {
            self.newest.insert(key, None)?;
        }
        Ok(())
    }

    /// Makes room for so many more versions.
    pub(crate) fn reserve(&mut self, versions: usize) -> Result<(), NoMemory>
        ensures known { self.new.known ≡ self.old.known }
        ensures versions { self.new.versions ≡ self.old.versions }
        ensures kept { self.old.room ≤ self.new.room }
        ensures room { OnOk result (versions ≤ self.new.room) }
    {
        self.links.reserve(versions)?;
        Ok(())
    }

    /// Adds a version of a known key.
    fn put(&mut self, version: Version)
        requires known { IsTrue (is_among self.old.known version.key) }
        requires room { 1 ≤ self.old.room }
        ensures known { self.new.known ≡ self.old.known }
        ensures versions { self.new.versions ≡ version ∷ self.old.versions }
        ensures room { self.old.room ≤ self.new.room + 1 }
    {
        let place = self.links.len();
        match self.newest.insert(version.key, Some(place)) {
            Ok(older) => self.links.push_reserved(Link {
                version,
                older: older.flatten(),
            }),
            Err(_) => unreachable!(),
        }
    }

    /// Adds the versions of a transaction, from its last write to its first.
    pub(crate) fn put_all(&mut self, origin: SiteNo, seq: u64, writes: &[Pair])
        requires known { AreKnown self.old.known writes.now }
        requires room { length writes.now ≤ self.old.room }
        ensures known { self.new.known ≡ self.old.known }
        ensures versions { self.new.versions ≡ map (version_by origin seq) writes.now ++ self.old.versions }
        ensures room { self.old.room ≤ self.new.room + length writes.now }
    {
        let mut left = writes.len();
        while left > 0 {
            left -= 1;
            let Pair { key, value } = writes[left];
            self.put(Version {
                origin,
                key,
                seq,
                value,
            });
        }
    }

    /// What the newest version of the key within the vector says.
    pub(crate) fn value(&self, key: Key, begin: &Vector) -> Option<Value>
        ensures { result ≡ latest_version self.now.versions key begin.now }
    {
        let mut next = self.newest.get(&key).copied().flatten();
        while let Some(place) = next {
            let link = &self.links[place];
            let version = link.version;
            if version.seq <= begin.get(version.origin) {
                return Some(version.value);
            }
            next = link.older;
        }
        None
    }
}
