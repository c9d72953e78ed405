//! Lists of keys, pairs and ops.

ghost use Rattle.std.specs.Prelude.{◌≡◌, ◌↔◌, IsTrue, IfOk, IfSome};
ghost use Rattle.std.specs.List.Sorted.{IsStrictlyIncreasing};
ghost use Rattle.dm_event.specs.Ascending.{ascending};

use crate::step::{Op, Pair};
use crate::{Key, NoMemory};
use std::marker::Model;

/// Keys, each above the one before.
#[derive(Debug, Drop)]
pub struct Keys {
    list: Vec<Key>,
}

impl Model for Keys {
    ghost use Rattle.std.specs.Prelude.{ℕ, List};
    ghost use Rattle.std.specs.List.Sorted.{IsStrictlyIncreasing};

    ghost Value = { List ℕ };

    ghost view = { λ k. k.list.items };

    ghost invariant = { λ k. IsStrictlyIncreasing k.list.items };
}

impl Keys {
    /// Sorts the list.
    pub fn new(mut list: Vec<Key>) -> Option<Keys>
        ensures exact { result ≡ ascending list.items }
        ensures ascends { IfSome result (λ keys. IsStrictlyIncreasing keys) }
    {
        list.sort_unstable();
        if ascends(&list) {
            Some(Keys { list })
        } else {
            None
        }
    }

    pub fn as_slice(&self) -> &[Key]
        ensures same { result.now ≡ self.now }
        ensures ascends { IsStrictlyIncreasing result.now }
    {
        self.list.as_slice()
    }

    /// A copy.
    pub fn try_clone(&self) -> Result<Keys, NoMemory>
        ensures { IfOk result (λ copy. copy ≡ self.now) }
    {
        let list = self.list.clone()?;
        Ok(Keys { list })
    }
}

/// Pairs of a key and a value.
#[derive(Debug, Drop)]
pub struct Pairs {
    list: Vec<Pair>,
}

impl Model for Pairs {
    ghost use Rattle.std.specs.Prelude.{List};
    ghost use Rattle.dm_event.specs.declared.step.Pair.{Pair};

    ghost Value = { List Pair };

    ghost view = { λ k. k.list.items };
}

impl Pairs {
    pub fn new(list: Vec<Pair>) -> Pairs
        ensures { result ≡ list.items }
    {
        Pairs { list }
    }

    pub fn as_slice(&self) -> &[Pair]
        ensures { result.now ≡ self.now }
    {
        self.list.as_slice()
    }

    /// A copy.
    pub fn try_clone(&self) -> Result<Pairs, NoMemory>
        ensures { IfOk result (λ copy. copy ≡ self.now) }
    {
        let list = self.list.clone()?;
        Ok(Pairs { list })
    }
}

/// The ops of a transaction, in order.
#[derive(Debug, Drop)]
pub struct Ops {
    list: Vec<Op>,
}

impl Model for Ops {
    ghost use Rattle.std.specs.Prelude.{List};
    ghost use Rattle.dm_event.specs.declared.step.Op.{Op};

    ghost Value = { List Op };

    ghost view = { λ k. k.list.items };
}

impl Ops {
    pub fn new(list: Vec<Op>) -> Ops
        ensures { result ≡ list.items }
    {
        Ops { list }
    }

    pub fn as_slice(&self) -> &[Op]
        ensures { result.now ≡ self.now }
    {
        self.list.as_slice()
    }

    /// A copy.
    pub fn try_clone(&self) -> Result<Ops, NoMemory>
        ensures { IfOk result (λ copy. copy ≡ self.now) }
    {
        let list = self.list.clone()?;
        Ok(Ops { list })
    }
}

/// Whether each key is above the one before.
fn ascends(keys: &[Key]) -> bool
    ensures { IsTrue result ↔ IsStrictlyIncreasing keys.now }
{
    for i in 1..keys.len() {
        if keys[i] <= keys[i - 1] {
            return false;
        }
    }
    true
}
