//! A session of the play.

ghost use Rattle.std.specs.Prelude.{◌≡◌, ◌<◌, ◌≤◌, IfSome, IsSome, IsTrue, None, length};
ghost use Rattle.dm_event.specs.declared.limits.TheConstants.{MAX_OPS};
ghost use Rattle.dm_invariant.specs.Stations.{IsPassOf, layout_of};
ghost use Rattle.dm_model.specs.Bodies.{written_key};
ghost use Rattle.dm_model.specs.Shape.{is_op};
ghost use Rattle.dm_model.specs.Tests.{is_among};

use crate::routing::reply;
use dm_chronicle::Named;
use dm_core::{Chron, CorePass};
use dm_event::{Key, Keys, Op, Schema, TxnId};
use dm_site::Run;
use std::marker::{Model, PhantomData};
use std::sync::Wait;

/// A running attempt, with the keys that it declares and how many ops it was to do.
#[derive(Drop)]
pub(crate) struct Running {
    pub(crate) run: Run,
    pub(crate) keys: Keys,
    pub(crate) asked: u8,
    ghost keys_are: { run.declared ≡ keys },
    ghost few: { length run.ops ≤ asked },
}

impl Running {
    /// Whether the op is one of the schema, and writes no key that isn't declared.
    pub(crate) fn may_do(&self, schema: &Schema, op: &Op) -> bool
        ensures few { IsTrue result → self.now.asked < MAX_OPS }
        ensures fits { IsTrue result → IsTrue (is_op schema.now op.now) }
        ensures declared { IsTrue result → IfSome (written_key op.now) (λ key. IsTrue (is_among self.now.run.declared key)) }
    {
        match *op {
            Op::Read { key } => self.asked < 64 && schema.is_key(key),
            Op::Write { key, .. } | Op::Add { key, .. } => {
                self.asked < 64 && schema.is_key(key) && declares(&self.keys, key)
            }
        }
    }
}

fn declares(keys: &Keys, key: Key) -> bool
    ensures { result ≡ is_among keys.now key }
{
    keys.as_slice().contains(&key)
}

/// A session, with what it runs at site 1, or what it has routed.
#[derive(Drop)]
pub(crate) struct Player<N: Named> {
    pub(crate) session: u32,
    /// The number of its last item.
    pub(crate) number: u32,
    pub(crate) schema: Schema,
    pub(crate) pass: CorePass,
    pub(crate) running: Option<Running>,
    pub(crate) routed: Option<TxnId>,
    pub(crate) of: PhantomData<N>,
}

impl<N: Named> Model for Player<N> {
    ghost use Rattle.std.specs.Prelude.{option_map};
    ghost use Rattle.dm_onsite.specs.Seats.{Seat, IsSeated};

    ghost Value = { Seat };

    ghost view = { λ p. record {
      session = p.session;
      schema = p.schema;
      pass = p.pass;
      going = option_map (λ r. r.run) p.running;
      routed = p.routed;
    } };

    ghost invariant = { λ p. IsSeated N.table (record {
      session = p.session;
      schema = p.schema;
      pass = p.pass;
      going = option_map (λ r. r.run) p.running;
      routed = p.routed;
    }) };
}

impl<N: Named> Player<N> {
    /// A session that has no item yet.
    pub(crate) fn new(session: u32, schema: &Schema, pass: CorePass) -> Option<Player<N>>
        requires own { IsPassOf N.table session pass }
        requires layout { layout_of pass ≡ schema.now }
    {
        Some(Player {
            session,
            number: 0,
            schema: schema.try_clone().ok()?,
            pass,
            running: None,
            routed: None,
            of: PhantomData,
        })
    }

    /// The first attempt at the last item.
    pub(crate) fn last(&self) -> TxnId
        ensures { result.session ≡ self.now.session }
    {
        TxnId {
            session: self.session,
            number: self.number,
            attempt: 1,
        }
    }

    /// The first attempt at the next item, where none is open.
    pub(crate) fn next(&mut self) -> Option<TxnId>
        ensures same { self.new ≡ self.old }
        ensures session { IfSome result (λ txn. txn.session ≡ self.new.session) }
        ensures none { IsSome result → (self.new.going ≡ None) × (self.new.routed ≡ None) }
    {
        if self.running.is_some() || self.routed.is_some() {
            return None;
        }
        self.number = self.number.checked_add(1)?;
        Some(self.last())
    }

    /// The session's item is answered, where it may be.
    pub(crate) fn answered<R: Wait>(&mut self, rt: &R, chron: &Chron)
        requires chron { chron.now.table ≡ N.table }
        requires none { (self.old.going ≡ None) × (self.old.routed ≡ None) }
    {
        reply(rt, chron, &mut self.pass, self.session, self.number);
    }
}
