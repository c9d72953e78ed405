//! Attempts that run at a site.

ghost use Rattle.std.specs.Prelude.{◌≡◌, ◌≢◌, ◌<◌, length};
ghost use Rattle.dm_body.specs.Answer.{answer_of};
ghost use Rattle.dm_body.specs.Progress.{turn};
ghost use Rattle.dm_event.specs.declared.limits.TheConstants.{MAX_OPS};
ghost use Rattle.dm_store.specs.Reads.{value_of};

use dm_body::{OpResult, Overlay, View};
use dm_core::CorePass;
use dm_event::{Key, Keys, Op, SiteNo, TxnId, Value, Vector};
use dm_store::Store;
use std::marker::Model;
use std::snapshot::Snapshot;

/// An attempt that runs, in its caller's hands.
#[derive(Drop)]
pub struct Run {
    pub(crate) txn: TxnId,
    pub(crate) site: SiteNo,
    pub(crate) begin: Vector,
    pub(crate) declared: Keys,
    pub(crate) overlay: Overlay,
    pub(crate) was: Snapshot<CorePass>,
}

impl Model for Run {
    ghost use Rattle.dm_invariant.specs.Running.{Going, IsRun};

    ghost Value = { Going };

    ghost view = { λ r. record {
      txn = r.txn;
      site = r.site;
      begin = r.begin;
      declared = r.declared;
      ops = r.overlay.ops;
      was = r.was.value;
    } };

    ghost invariant = { λ r. IsRun r.txn r.begin r.declared r.overlay r.was.value };
}

impl Run {
    pub fn txn(&self) -> TxnId
        ensures { result ≡ self.now.txn }
    {
        self.txn
    }

    /// The vector from which it reads.
    pub fn begin(&self) -> Vector
        ensures { result ≡ self.now.begin }
    {
        self.begin
    }
}

/// A store, read at a vector.
#[derive(Drop)]
struct At<'a> {
    store: &'a Store,
    begin: &'a Vector,
}

impl<'a> View for At<'a> {
    ghost use Rattle.dm_store.specs.Reads.{value_of};

    ghost values = { λ v key. value_of v.store.now.layout v.store.now.installed key v.begin.now };

    fn read(&mut self, key: Key) -> Value {
        self.store.read(key, self.begin)
    }
}

/// Does one op on the store's values at the vector.
pub(crate) fn op_at(store: &Store, begin: &Vector, overlay: &mut Overlay, op: &Op) -> OpResult
    requires { length overlay.old.ops < MAX_OPS }
    ensures answer { result ≡ answer_of (λ key. value_of store.now.layout store.now.installed key begin.now) overlay.old.ran op.now }
    ensures turn { overlay.new ≡ turn (λ key. value_of store.now.layout store.now.installed key begin.now) overlay.old op.now }
    ensures full { result ≢ OpResult.Full }
{
    let mut view = At { store, begin };
    overlay.op(op, &mut view)
}
