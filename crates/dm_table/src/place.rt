//! The entry of one partition, with the partition's pass. Who has it alone asks and settles the partition.

ghost use Rattle.std.specs.Prelude.{◌≡◌, ◌≢◌, ◌⊎◌, ◌+◌, [], ◌∷◌, None, Some, OnOk, OnErr, IsTrue, IsSomeAnd, slice_index};
ghost use Rattle.dm_core.specs.Lawful.{may_follow};
ghost use Rattle.dm_event.specs.Layout.{is_part};
ghost use Rattle.dm_event.specs.declared.actor.Actor.TheVariants.{Partition};
ghost use Rattle.dm_event.specs.declared.step.Step.TheVariants.{Ask, Settle};
ghost use Rattle.dm_invariant.specs.Stations.{IsPassOf, Went, Rested, Did, layout_of};
ghost use Rattle.dm_kept.specs.Roomy.{HasRoom};
ghost use Rattle.dm_table.specs.Places.{IsSettle, Stayed, Knows, IsSettledAt, IsSettledUnasked, IsGranted, IsGrantedNext, WantsPart};
ghost use Rattle.dm_table.specs.Starts.{IsPassOfPart};

use dm_chronicle::{Named, Turn};
use dm_core::{Book, Chron, CorePass};
use dm_desk::{enter_both, leave, placing, push_roomy};
use dm_event::{NoMemory, Part, Placing, SiteNo, Step, TxnId};
use std::marker::{Model, PhantomData};
use std::sync::Wait;

/// The entry of a partition. N names the chronicle.
#[derive(Drop)]
pub struct Place<N: Named> {
    part: Part,
    site: SiteNo,
    epoch: u64,
    asked: Option<SiteNo>,
    pass: CorePass,
    of: PhantomData<N>,
}

impl<N: Named> Model for Place<N> {
    ghost use Rattle.dm_table.specs.Places.{Placed, IsPlace};

    ghost Value = { Placed };

    ghost view = { λ p. record { part = p.part; site = p.site; epoch = p.epoch; asked = p.asked; pass = p.pass } };

    ghost invariant = { λ p. IsPlace N.table (record { part = p.part; site = p.site; epoch = p.epoch; asked = p.asked; pass = p.pass }) };
}

/// There is room for a Settle, which ends a hand-over.
fn has_room(turn: &Turn<'_, Book>, step: &Step)
    requires follows { IsSomeAnd turn.now.fixed (λ f. may_follow f turn.now.seen step.now) }
    requires settle { IsSettle step.now }
    ensures { IsSomeAnd turn.now.kept (λ book. HasRoom book step.now) }
{
    let book = turn.kept();
    // the history so far is legal
    let _steps = book.steps();
    book.keeps_room(step);
}

impl<N: Named> Place<N> {
    /// The entry of a partition of which no step stands.
    pub(crate) fn new(part: Part, master: SiteNo, pass: CorePass) -> Place<N>
        requires own { IsPassOfPart N.table part pass }
        requires there { IsTrue (is_part (layout_of pass) part) }
        requires master { master ≡ slice_index (layout_of pass).masters part }
        requires empty { pass.seen ≡ [] }
        ensures { result ≡ record { part = part; site = master; epoch = 0; asked = None; pass = pass } }
    {
        Place {
            part,
            site: master,
            epoch: 0,
            asked: None,
            pass,
            of: PhantomData,
        }
    }

    pub fn part(&self) -> Part
        ensures { result ≡ self.now.part }
    {
        self.part
    }

    /// The site that masters the partition, or did so until the hand-over that is under way.
    pub fn site(&self) -> SiteNo
        ensures { result ≡ self.now.site }
    {
        self.site
    }

    pub fn epoch(&self) -> u64
        ensures { result ≡ self.now.epoch }
    {
        self.epoch
    }

    /// The site that the partition was asked for, as long as that hand-over isn't settled.
    pub fn asked(&self) -> Option<SiteNo>
        ensures { result ≡ self.now.asked }
    {
        self.asked
    }

    pub(crate) fn into_pass(self) -> CorePass
        ensures pass { result ≡ self.pass }
        ensures own { IsPassOfPart N.table self.part result }
    {
        let Place { pass, .. } = self;
        pass
    }

    /// The pass has seen the partition's own steps afterwards.
    pub fn meet(&mut self, chron: &Chron, own: &mut CorePass)
        requires chron { chron.now.table ≡ N.table }
        requires own { own.old.table ≡ N.table }
        ensures same { self.new ≡ record self.old { pass = self.new.pass } }
        ensures pass { Went self.old.pass self.new.pass × Rested (Partition self.old.part) self.old.pass self.new.pass }
        ensures own { Stayed own.old own.new }
        ensures knows { Knows self.new own.new }
        ensures settled { IsSettledUnasked self.new own.new }
    {
        chron.meet(&mut self.pass, own);
    }

    /// Asks the partition away from its master, on behalf of the session's routed attempt.
    pub fn ask<R: Wait>(
        &mut self,
        rt: &R,
        chron: &Chron,
        own: &mut CorePass,
        to: SiteNo,
        txn: TxnId,
    ) -> Result<(), NoMemory>
        requires chron { chron.now.table ≡ N.table }
        requires own { IsPassOf N.table txn.session own.old }
        requires free { self.old.asked ≡ None }
        requires away { self.old.site ≢ to }
        requires wanted { WantsPart txn self.old.part to own.old }
        ensures ok { OnOk result (self.new ≡ record self.old { asked = Some to; pass = self.new.pass }) }
        ensures err { OnErr result (self.new ≡ record self.old { pass = self.new.pass }) }
        ensures pass { Went self.old.pass self.new.pass }
        ensures did { OnOk result (Did (Partition self.old.part) self.old.pass self.new.pass (Ask self.old.part self.old.epoch to txn)) }
        ensures rested { OnErr result (Rested (Partition self.old.part) self.old.pass self.new.pass) }
        ensures own { Stayed own.old own.new }
        ensures knows { Knows self.new own.new }
    {
        let step = Step::Ask {
            part: self.part,
            epoch: self.epoch,
            to,
            txn,
        };
        let mut turn = enter_both(rt, chron, &mut self.pass, own);
        if turn.reserve(&step).is_err() {
            leave(turn, &mut self.pass);
            return Err(NoMemory);
        }
        push_roomy(turn, &mut self.pass, own, step);
        self.asked = Some(to);
        Ok(())
    }

    /// Settles the partition at the site that it is granted to in what the pass has seen: with all of the
    /// partition's own steps, or under the next epoch, so that nobody has settled it since. It takes no memory.
    pub fn settle<R: Wait>(&mut self, rt: &R, chron: &Chron, own: &mut CorePass)
        requires chron { chron.now.table ≡ N.table }
        requires own { own.old.table ≡ N.table }
        requires knows { Knows self.old own.old ⊎ IsGrantedNext self.old own.old }
        requires granted { IsGranted self.old.part own.old }
        ensures part { self.new.part ≡ self.old.part }
        ensures site { self.old.asked ≡ Some self.new.site }
        ensures epoch { self.new.epoch ≡ self.old.epoch + 1 }
        ensures free { self.new.asked ≡ None }
        ensures pass { Went self.old.pass self.new.pass }
        ensures did { Did (Partition self.old.part) self.old.pass self.new.pass (Settle self.old.part self.new.epoch) }
        ensures own { Stayed own.old own.new }
        ensures knows { Knows self.new own.new }
        ensures settled { IsSettledAt self.new.part self.new.site self.new.epoch own.new }
    {
        let part = self.part;
        let turn = enter_both(rt, chron, &mut self.pass, own);
        let Placing::Granted { site, epoch } = placing(&turn, part) else {
            unreachable!()
        };
        let step = Step::Settle { part, epoch };
        has_room(&turn, &step);
        push_roomy(turn, &mut self.pass, own, step);
        self.site = site;
        self.epoch = epoch;
        self.asked = None;
    }
}
