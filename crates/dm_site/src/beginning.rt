//! Begins.

ghost use Rattle.std.specs.Prelude.{◌≡◌, IfOk, IsSomeAnd, OnErr, OnOk};
ghost use Rattle.dm_body.specs.Progress.{nothing_done};
ghost use Rattle.dm_chronicle.specs.Standing.{standing};
ghost use Rattle.dm_core.specs.Lawful.{may_follow};
ghost use Rattle.dm_event.specs.declared.actor.Actor.TheVariants.{Session};
ghost use Rattle.dm_event.specs.declared.step.Step.TheVariants as step;
ghost use Rattle.dm_event.specs.declared.step.Want.TheVariants as want;
ghost use Rattle.dm_kept.specs.Roomy.{HasRoom};
ghost use Rattle.dm_locks.specs.Locks.{left_line};
ghost use Rattle.dm_site.specs.Answers.{BeganAs, HasReached};
ghost use Rattle.dm_site.specs.Begins.{Begins, Lined};
ghost use Rattle.dm_invariant.specs.Running.{RoutedFor};
ghost use Rattle.dm_invariant.specs.Stations.{IsPassOf, Rested, Went};

use crate::answers::BeginAnswer;
use crate::run::Run;
use crate::site::Site;
use dm_body::Overlay;
use dm_chronicle::{Named, Turn};
use dm_core::{Book, Chron, CorePass};
use dm_desk::{
    CatchAnswer, enter_both, is_elsewhere, leave, push_ending, push_roomy, reserve, vector,
};
use dm_event::{Keys, NoMemory, SiteNo, Step, TxnId, Vector};
use dm_locks::LockAnswer;
use dm_logdisk::LogDisk;
use std::alloc::Global;
use std::snapshot::Snapshot;
use std::sync::Wait;

/// Makes room for the Begin, where it may come.
fn reserve_begin(
    turn: &mut Turn<'_, Book>,
    site: SiteNo,
    txn: TxnId,
    begin: Vector,
) -> Result<(), NoMemory>
    ensures same { standing turn.new ≡ standing turn.old }
    ensures room { OnOk result (IsSomeAnd turn.old.fixed (λ f. may_follow f turn.old.seen (step.Begin site txn begin))
        → IsSomeAnd turn.new.kept (λ book. HasRoom book (step.Begin site txn begin))) }
{
    reserve(turn, &Step::Begin { site, txn, begin })
}

impl<D: LogDisk, N: Named> Site<D, N> {
    /// The session waits for nothing here any more.
    fn leave_line(&mut self, session: u32)
        ensures { self.new ≡ record self.old { locks = left_line self.old.locks session } }
    {
        self.desk.locks.leave_line(session);
    }

    /// Begins a routed attempt, at the site's vector, once that is at least the Route's minimum and the
    /// attempt has its keys.
    pub fn begin<R: Wait>(
        &mut self,
        rt: &R,
        chron: &Chron,
        alloc: Global,
        own: &mut CorePass,
        txn: TxnId,
        keys: Keys,
        min: &Vector,
    ) -> Result<BeginAnswer, NoMemory>
        requires chron { chron.now.table ≡ N.table }
        requires own { IsPassOf N.table txn.session own.old }
        requires routed { RoutedFor txn (want.Txn keys) min.now self.old.number own.old }
        ensures same { Begins self.old self.new }
        ensures own { Went own.old own.new }
        ensures ok { IfOk result (BeganAs self.old.number self.new.pass txn keys min.now own.old own.new) }
        ensures line { IfOk result (Lined (record { txn = txn; keys = keys }) self.old.locks self.new.locks) }
        ensures err { OnErr result (Rested (Session txn.session) own.old own.new) }
        ensures unchanged { OnErr result (self.new.locks ≡ self.old.locks) }
    {
        let overlay = Overlay::new(alloc)?;
        let declared = keys.try_clone()?;
        // the history so far is legal, and so the minimum counts entries that there are
        self.meet_own(chron, own);
        let _number = self.number;
        match self.catch_up(rt, chron, own, min) {
            Ok(CatchAnswer::Reached) => {
                self.begin_here(rt, chron, own, txn, keys, declared, min, overlay)
            }
            Ok(CatchAnswer::Down) => {
                self.leave_line(txn.session);
                Ok(BeginAnswer::Down)
            }
            Err(e) => Err(e),
        }
    }

    /// Begins a routed attempt at a site that has its minimum, in one turn.
    fn begin_here<R: Wait>(
        &mut self,
        rt: &R,
        chron: &Chron,
        own: &mut CorePass,
        txn: TxnId,
        keys: Keys,
        declared: Keys,
        min: &Vector,
        overlay: Overlay,
    ) -> Result<BeginAnswer, NoMemory>
        requires chron { chron.now.table ≡ N.table }
        requires own { IsPassOf N.table txn.session own.old }
        requires routed { RoutedFor txn (want.Txn keys) min.now self.old.number own.old }
        requires reached { HasReached self.old.number min.now self.old.pass }
        requires overlay { overlay ≡ nothing_done }
        requires declared { declared ≡ keys }
        ensures same { Begins self.old self.new }
        ensures own { Went own.old own.new }
        ensures ok { IfOk result (BeganAs self.old.number self.new.pass txn keys min.now own.old own.new) }
        ensures line { IfOk result (Lined (record { txn = txn; keys = keys }) self.old.locks self.new.locks) }
        ensures err { OnErr result (Rested (Session txn.session) own.old own.new) }
        ensures unchanged { OnErr result (self.new.locks ≡ self.old.locks) }
    {
        let site = self.number;
        let mut turn = enter_both(rt, chron, own, &mut self.pass);
        if is_elsewhere(&turn, site, keys.as_slice()) {
            self.desk.locks.leave_line(txn.session);
            push_ending(turn, own, &mut self.pass, Step::Moved { site, txn });
            return Ok(BeginAnswer::Moved);
        }
        let begin = vector(&turn, site);
        if let Err(e) = reserve_begin(&mut turn, site, txn, begin) {
            leave(turn, own);
            return Err(e);
        }
        match self.desk.locks.take(txn, keys) {
            LockAnswer::Got => {
                push_roomy(turn, own, &mut self.pass, Step::Begin { site, txn, begin });
                let was = Snapshot::of(own);
                Ok(BeginAnswer::Begun {
                    run: Run {
                        txn,
                        site,
                        begin,
                        declared,
                        overlay,
                        was,
                    },
                })
            }
            LockAnswer::Waits { by, key } => {
                leave(turn, own);
                Ok(BeginAnswer::Held { by, key })
            }
        }
    }
}
