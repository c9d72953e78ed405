//! The acts of a session, each at a site.

ghost use Rattle.std.specs.Prelude.{◌≡◌, ◌∷◌, []};
ghost use Rattle.dm_event.specs.declared.actor.Actor.TheVariants.{Partition};

use crate::act::Outcome;
use crate::player::{Player, Running};
use crate::routing::{ask, route, settle};
use dm_chronicle::Named;
use dm_core::{Chron, CorePass};
use dm_event::{Key, Keys, Op, SiteNo, Want};
use dm_logdisk::LogDisk;
use dm_site::{BeginAnswer, GrantAnswer, ReleaseAnswer, Site};
use std::alloc::Global;
use std::sync::Wait;

fn keys(alloc: Global, key: Key) -> Option<Keys> {
    Keys::new(Vec::from_slice(alloc, &[key]).ok()?)
}

impl<N: Named> Player<N> {
    /// Routes its next item, which declares the key, to site 1, and begins it.
    pub(crate) fn begin<D: LogDisk, R: Wait>(
        &mut self,
        rt: &R,
        chron: &Chron,
        alloc: Global,
        site: &mut Site<D, N>,
        key: Key,
    ) -> Outcome
        requires chron { chron.now.table ≡ N.table }
        requires site { site.old.number ≡ 1 }
        ensures { site.new.number ≡ site.old.number }
    {
        let Some(keys) = keys(alloc, key) else {
            return Outcome::NoMemory;
        };
        let (Ok(declared), Ok(wanted)) = (keys.try_clone(), keys.try_clone()) else {
            return Outcome::NoMemory;
        };
        let Some(txn) = self.next() else {
            return Outcome::Idle;
        };
        let Some(min) = route(rt, chron, &mut self.pass, txn, Want::Txn(wanted), 1) else {
            return Outcome::Idle;
        };
        match site.begin(rt, chron, alloc, &mut self.pass, txn, keys, &min) {
            Ok(BeginAnswer::Begun { run }) => {
                self.running = Some(Running {
                    run,
                    keys: declared,
                    asked: 0,
                });
                Outcome::Begun
            }
            Ok(BeginAnswer::Moved) => Outcome::Moved,
            Ok(BeginAnswer::Held { by, key }) => Outcome::Held { by, key },
            Ok(BeginAnswer::Down) => Outcome::Down,
            Err(_) => Outcome::NoMemory,
        }
    }

    /// Does an op of its attempt.
    pub(crate) fn op<D: LogDisk>(
        &mut self,
        chron: &Chron,
        site: &mut Site<D, N>,
        op: &Op,
    ) -> Outcome
        requires chron { chron.now.table ≡ N.table }
        requires site { site.old.number ≡ 1 }
        ensures { site.new.number ≡ site.old.number }
    {
        let Some(mut running) = self.running.take() else {
            return Outcome::Idle;
        };
        if !running.may_do(&self.schema, op) {
            self.running = Some(running);
            return Outcome::Idle;
        }
        let answer = site.body_op(chron, &mut self.pass, &mut running.run, op);
        running.asked += 1;
        self.running = Some(running);
        Outcome::from(answer)
    }

    pub(crate) fn commit<D: LogDisk, R: Wait>(
        &mut self,
        rt: &R,
        chron: &Chron,
        alloc: Global,
        site: &mut Site<D, N>,
    ) -> Outcome
        requires chron { chron.now.table ≡ N.table }
        requires site { site.old.number ≡ 1 }
        ensures { site.new.number ≡ site.old.number }
    {
        let Some(Running { run, keys, asked }) = self.running.take() else {
            return Outcome::Idle;
        };
        match site.commit(rt, chron, alloc, &mut self.pass, run) {
            Ok(answer) => {
                self.answered(rt, chron);
                Outcome::from(answer)
            }
            Err((run, _)) => {
                self.running = Some(Running { run, keys, asked });
                Outcome::NoMemory
            }
        }
    }

    pub(crate) fn fail<D: LogDisk, R: Wait>(
        &mut self,
        rt: &R,
        chron: &Chron,
        site: &mut Site<D, N>,
    ) -> Outcome
        requires chron { chron.now.table ≡ N.table }
        requires site { site.old.number ≡ 1 }
        ensures { site.new.number ≡ site.old.number }
    {
        let Some(Running { run, .. }) = self.running.take() else {
            return Outcome::Idle;
        };
        site.fail(rt, chron, &mut self.pass, run);
        self.answered(rt, chron);
        Outcome::Done
    }

    /// Routes a hand-over of the first partition to the site, and asks it away from its master.
    pub(crate) fn ask<R: Wait>(
        &mut self,
        rt: &R,
        chron: &Chron,
        entry: &mut CorePass,
        to: SiteNo,
    ) -> Outcome
        requires chron { chron.now.table ≡ N.table }
        requires entry { (entry.old.table ≡ N.table) × (entry.old.actors ≡ Partition 0 ∷ []) }
        ensures { (entry.new.table ≡ N.table) × (entry.new.actors ≡ Partition 0 ∷ []) }
    {
        let Some(txn) = self.next() else {
            return Outcome::Idle;
        };
        if route(rt, chron, &mut self.pass, txn, Want::Place(0), to).is_none() {
            return Outcome::Idle;
        }
        self.routed = Some(txn);
        if ask(rt, chron, entry, 0, to, txn) {
            Outcome::Asked
        } else {
            Outcome::Idle
        }
    }

    /// Releases the first partition from the site.
    pub(crate) fn release<D: LogDisk, R: Wait>(
        &mut self,
        rt: &R,
        chron: &Chron,
        alloc: Global,
        site: &mut Site<D, N>,
    ) -> Outcome
        requires chron { chron.now.table ≡ N.table }
        ensures { site.new.number ≡ site.old.number }
    {
        let Some(on) = self.routed.take() else {
            return Outcome::Idle;
        };
        // a schema has one partition at least
        let _parts = self.schema.parts();
        match site.release(rt, chron, alloc, &mut self.pass, on, 0) {
            Ok(ReleaseAnswer::Failed { cause }) => {
                self.answered(rt, chron);
                Outcome::Failed { cause }
            }
            Ok(answer) => {
                self.routed = Some(on);
                Outcome::from(answer)
            }
            Err(_) => {
                self.routed = Some(on);
                Outcome::NoMemory
            }
        }
    }

    /// Grants the first partition to the site.
    pub(crate) fn grant<D: LogDisk, R: Wait>(
        &mut self,
        rt: &R,
        chron: &Chron,
        alloc: Global,
        site: &mut Site<D, N>,
    ) -> Outcome
        requires chron { chron.now.table ≡ N.table }
        ensures { site.new.number ≡ site.old.number }
    {
        let Some(on) = self.routed.take() else {
            return Outcome::Idle;
        };
        // a schema has one partition at least
        let _parts = self.schema.parts();
        match site.grant(rt, chron, alloc, &mut self.pass, on, 0) {
            Ok(GrantAnswer::Failed { cause }) => {
                self.answered(rt, chron);
                Outcome::Failed { cause }
            }
            Ok(answer) => {
                self.routed = Some(on);
                Outcome::from(answer)
            }
            Err(_) => {
                self.routed = Some(on);
                Outcome::NoMemory
            }
        }
    }

    /// Settles the first partition, and its hand-over is answered.
    pub(crate) fn settle<R: Wait>(&mut self, rt: &R, chron: &Chron, entry: &mut CorePass) -> Outcome
        requires chron { chron.now.table ≡ N.table }
        requires entry { (entry.old.table ≡ N.table) × (entry.old.actors ≡ Partition 0 ∷ []) }
        ensures { (entry.new.table ≡ N.table) × (entry.new.actors ≡ Partition 0 ∷ []) }
    {
        let Some(on) = self.routed.take() else {
            return Outcome::Idle;
        };
        if !settle(rt, chron, entry, 0) {
            self.routed = Some(on);
            return Outcome::Idle;
        }
        self.answered(rt, chron);
        Outcome::Settled
    }

    /// Routes a restart of the site, which has this number, and restarts it.
    pub(crate) fn restart<D: LogDisk, R: Wait>(
        &mut self,
        rt: &R,
        chron: &Chron,
        alloc: Global,
        site: &mut Site<D, N>,
        number: SiteNo,
    ) -> Outcome
        requires chron { chron.now.table ≡ N.table }
        requires site { site.old.number ≡ number }
        ensures { site.new.number ≡ site.old.number }
    {
        let Some(on) = self.next() else {
            return Outcome::Idle;
        };
        if route(rt, chron, &mut self.pass, on, Want::Restart, number).is_none() {
            return Outcome::Idle;
        }
        let done = site.restart(rt, chron, alloc, &mut self.pass, on);
        self.answered(rt, chron);
        done.map_or(Outcome::NoMemory, Outcome::from)
    }
}
