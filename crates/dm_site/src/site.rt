//! A site, which stands behind a lock.

ghost use Rattle.std.specs.Prelude.{◌≡◌, [], ◌∷◌, IfOk, IfErr, IfSome, IsTrue, ◌≤◌, true};
ghost use Rattle.dm_event.specs.Layout.{is_site};
ghost use Rattle.dm_event.specs.Vectors.{at};
ghost use Rattle.dm_event.specs.declared.actor.Actor.TheVariants.{Site as SiteActor};
ghost use Rattle.dm_locks.specs.Locks.{no_locks, withdrawn};
ghost use Rattle.dm_locks.specs.Sound.{Sound};
ghost use Rattle.dm_redo.specs.Holding.{IsAt, IsFirm};
ghost use Rattle.dm_invariant.specs.Stations.{layout_of};
ghost use Rattle.dm_site.specs.Leaving.{Leaves};

use dm_chronicle::Named;
use dm_core::CorePass;
use dm_desk::Desk;
use dm_event::{NoMemory, Schema, SiteNo, TxnId};
use dm_locks::LockTable;
use dm_logdisk::LogDisk;
use dm_redo::RedoLog;
use dm_store::Store;
use std::alloc::Global;
use std::marker::Model;

/// A data site. Each call is made under its lock.
#[derive(Drop)]
pub struct Site<D: LogDisk, N: Named> {
    pub(crate) number: SiteNo,
    pub(crate) desk: Desk<D, N>,
    pub(crate) pass: CorePass,
}

impl<D: LogDisk, N: Named> Model for Site<D, N> {
    ghost use Rattle.dm_invariant.specs.Keeping.{IsSite, parts_of};
    ghost use Rattle.dm_invariant.specs.Stations.{Station};

    ghost Value = { Station D };

    ghost view = { λ s. record {
      number = s.number;
      installed = s.desk.store.installed;
      locks = s.desk.locks;
      live = s.desk.log.live;
      pass = s.pass;
      disk = s.desk.log.disk;
    } };

    ghost invariant = { λ s. IsSite N.table N.faults s.number s.pass (parts_of D.story D.faults s.desk.store s.desk.locks s.desk.log) };
}

impl<D: LogDisk, N: Named> Site<D, N> {
    /// A site that has nothing yet, over a log without records.
    pub fn new(
        alloc: Global,
        number: SiteNo,
        schema: &Schema,
        log: RedoLog<D>,
        pass: CorePass,
    ) -> Result<Site<D, N>, (RedoLog<D>, CorePass, NoMemory)>
        requires table { pass.table ≡ N.table }
        requires actors { pass.actors ≡ SiteActor number ∷ [] }
        requires opening { pass.seen ≡ [] }
        requires schema { layout_of pass ≡ schema.now }
        requires there { IsTrue (is_site schema.now number) }
        requires live { IsTrue log.live }
        requires empty { IfSome (D.story log.disk) (λ s. IsAt [] log.gate s × IsFirm [] s) }
        requires faults { at N.faults number ≤ D.faults log.disk }
        ensures ok { IfOk result (λ site. site ≡ record { number = number; installed = []; locks = no_locks; live = true; pass = pass; disk = log.disk }) }
        ensures back { IfErr result (λ e. (e.0 ≡ log) × (e.1 ≡ pass)) }
    {
        let Ok(store) = Store::new(alloc, schema) else {
            return Err((log, pass, NoMemory));
        };
        let Ok(locks) = LockTable::new(alloc) else {
            return Err((log, pass, NoMemory));
        };
        Ok(Site {
            number,
            desk: Desk::new(store, locks, log),
            pass,
        })
    }

    /// Its pass and its log. It takes no memory.
    pub fn into_parts(self) -> (CorePass, RedoLog<D>)
        ensures pass { result.0 ≡ self.pass }
        ensures disk { result.1.disk ≡ self.disk }
        ensures live { result.1.live ≡ self.live }
        ensures leaves { Leaves N.table N.faults self.number self.pass (D.story self.disk) (D.faults self.disk) }
    {
        let Site { desk, pass, .. } = self;
        (pass, desk.log)
    }

    /// The attempt doesn't wait at the site any more.
    pub fn withdraw(&mut self, txn: TxnId)
        ensures { self.new ≡ record self.old { locks = withdrawn self.old.locks txn } }
    {
        self.desk.locks.withdraw(txn);
    }

    /// What holds of each table of locks: a session has one claim at most, and a key has one holder at most.
    pub fn is_sound(&self)
        ensures { Sound self.now.locks }
    {
        self.desk.locks.is_sound();
    }
}
