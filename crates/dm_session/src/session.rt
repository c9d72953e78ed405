//! A session, with its pass.

ghost use Rattle.std.specs.Prelude.{◌≡◌, ◌≤◌, ◌+◌, ◌↔◌, [], IfOk, IsFalse, IsTrue, OnErr, reverse};
ghost use Rattle.dm_event.specs.Layout.{is_site};
ghost use Rattle.dm_event.specs.Vectors.{AtMost};
ghost use Rattle.dm_event.specs.declared.actor.Actor.TheVariants.{Session as SessionActor};
ghost use Rattle.dm_event.specs.declared.step.Step.TheVariants.{Reply};
ghost use Rattle.dm_invariant.specs.Stations.{Did, IsPassOf, Rested, Went, layout_of, own};
ghost use Rattle.dm_model.specs.Attempts.{state, wants_txn};
ghost use Rattle.dm_model.specs.Outcomes.{may_say};
ghost use Rattle.dm_model.specs.Rows.{may_route};
ghost use Rattle.dm_model.specs.Shape.{is_said, is_want};
ghost use Rattle.dm_session.specs.Sitting.{Between, IsCounted, Same, Sent};

use crate::routes::{due, one_more, push_answer};
use dm_chronicle::Named;
use dm_core::{Chron, CorePass};
use dm_desk::{enter_alone, leave, push_alone, reserve};
use dm_event::{Choice, NoMemory, Said, SiteNo, Step, TxnId, Vector, Want};
use std::marker::{Model, PhantomData};
use std::snapshot::Snapshot;
use std::sync::Wait;

/// A client's session, with its own pass of the chronicle.
#[derive(Drop)]
pub struct Session<N: Named> {
    id: u32,
    count: u32,
    /// How many Routes its current item has.
    tries: u64,
    to: SiteNo,
    by: Choice,
    vector: Vector,
    pass: CorePass,
    of: PhantomData<N>,
}

impl<N: Named> Model for Session<N> {
    ghost use Rattle.dm_session.specs.Sitting.{IsSession, Sitting};

    ghost Value = { Sitting };

    ghost view = { λ s. record {
      id = s.id;
      count = s.count;
      tries = s.tries;
      to = s.to;
      by = s.by;
      vector = s.vector;
      pass = s.pass;
    } };

    ghost invariant = { λ s. IsSession N.table (record {
      id = s.id;
      count = s.count;
      tries = s.tries;
      to = s.to;
      by = s.by;
      vector = s.vector;
      pass = s.pass;
    }) };
}

/// A session whose pass is elsewhere.
#[derive(Drop)]
pub struct Rest<N: Named> {
    id: u32,
    count: u32,
    tries: u64,
    to: SiteNo,
    by: Choice,
    vector: Vector,
    was: Snapshot<CorePass>,
    of: PhantomData<N>,
}

impl<N: Named> Model for Rest<N> {
    ghost use Rattle.dm_session.specs.Sitting.{IsSession, Sitting};

    ghost Value = { Sitting };

    ghost view = { λ s. record {
      id = s.id;
      count = s.count;
      tries = s.tries;
      to = s.to;
      by = s.by;
      vector = s.vector;
      pass = s.was.value;
    } };

    ghost invariant = { λ s. IsSession N.table (record {
      id = s.id;
      count = s.count;
      tries = s.tries;
      to = s.to;
      by = s.by;
      vector = s.vector;
      pass = s.was.value;
    }) };
}

impl<N: Named> Session<N> {
    /// A session of which no step stands in what its pass has seen.
    pub fn new(id: u32, pass: CorePass, sites: u8) -> Session<N>
        requires id { (1 ≤ id) × (id ≤ 32) }
        requires pass { IsPassOf N.table id pass }
        requires empty { own (SessionActor id) pass.seen ≡ [] }
        requires sites { (1 ≤ sites) × (sites ≤ 8) × ((layout_of pass).sites ≡ sites) }
        ensures id { result.id ≡ id }
        ensures none { result.count ≡ 0 }
        ensures pass { result.pass ≡ pass }
    {
        Session {
            id,
            count: 0,
            tries: 0,
            to: 0,
            by: Choice::Hand,
            vector: Vector::zeros(sites),
            pass,
            of: PhantomData,
        }
    }

    pub fn id(&self) -> u32
        ensures { result ≡ self.now.id }
    {
        self.id
    }

    /// What the session has seen: the maximum of the commit vectors and begin vectors that it was answered.
    pub fn vector(&self) -> Vector
        ensures { result ≡ self.now.vector }
    {
        self.vector
    }

    /// How many items it was answered.
    pub fn replies(&self) -> u32
        ensures { result ≡ self.now.count }
    {
        self.count
    }

    /// Whether a site with this vector has all that the session has seen.
    pub fn covers(&self, site: &Vector) -> bool
        ensures { IsTrue result ↔ AtMost self.now.vector site.now }
    {
        self.vector.leq(site)
    }

    /// Where its last Route went, and why there.
    pub fn sent(&self) -> (SiteNo, Choice)
        ensures { result ≡ (self.now.to, self.now.by) }
    {
        (self.to, self.by)
    }

    pub fn into_pass(self) -> CorePass
        ensures { result ≡ self.pass }
    {
        self.pass
    }

    /// Pushes a Route of the next item. A partition is placed, and a site restarted, at the given site by
    /// hand. For a transaction the given pair is what the caller expects, and the Route has the one that is
    /// due in its turn.
    pub fn route<R: Wait>(
        &mut self,
        rt: &R,
        chron: &Chron,
        want: Want,
        site: SiteNo,
        _choice: Choice,
    ) -> Result<TxnId, NoMemory>
        requires chron { chron.now.table ≡ N.table }
        requires counted { IsCounted self.old }
        requires may { IsTrue (may_route (state self.old.id (reverse self.old.pass.seen))) }
        requires fits { IsTrue (is_want (layout_of self.old.pass) want) }
        requires there { IsFalse (wants_txn want) → IsTrue (is_site (layout_of self.old.pass) site) }
        ensures same { Same self.old self.new }
        ensures ok { IfOk result (λ txn. Sent self.old want site txn self.new) }
        ensures err { OnErr result (Rested (SessionActor self.old.id) self.old.pass self.new.pass) }
    {
        let mut turn = enter_alone(rt, chron, &mut self.pass);
        let book = turn.kept();
        let (to, by) = due(book, self.id, &want, site);
        let txn = TxnId {
            session: self.id,
            number: self.count + 1,
            attempt: one_more(book, self.tries),
        };
        let step = Step::Route {
            txn,
            want,
            min: self.vector,
            site: to,
            choice: by,
        };
        if reserve(&mut turn, &step).is_err() {
            leave(turn, &mut self.pass);
            return Err(NoMemory);
        }
        push_alone(turn, &mut self.pass, step);
        self.tries = txn.attempt;
        self.to = to;
        self.by = by;
        Ok(txn)
    }

    /// Pushes the Reply to the next item. It takes no memory, since the item is counted.
    pub fn reply<R: Wait>(&mut self, rt: &R, chron: &Chron, said: Said)
        requires chron { chron.now.table ≡ N.table }
        requires counted { IsCounted self.old }
        requires fits { IsTrue (is_said (layout_of self.old.pass) said) }
        requires allowed { IsTrue (may_say (layout_of self.old.pass) (reverse self.old.pass.seen) self.old.id said) }
        ensures id { self.new.id ≡ self.old.id }
        ensures count { self.new.count ≡ self.old.count + 1 }
        ensures went { Went self.old.pass self.new.pass }
        ensures reply { Did (SessionActor self.old.id) self.old.pass self.new.pass (Reply self.old.id (self.old.count + 1) said) }
    {
        let number = self.count + 1;
        let step = Step::Reply {
            session: self.id,
            number,
            said,
        };
        let turn = enter_alone(rt, chron, &mut self.pass);
        let vector = push_answer(turn, &mut self.pass, self.id, step);
        self.vector = vector;
        self.count = number;
        self.tries = 0;
    }

    /// Gives the pass out.
    pub fn part(self) -> (Rest<N>, CorePass)
        ensures rest { result.0 ≡ self }
        ensures pass { result.1 ≡ self.pass }
        ensures own { IsPassOf N.table self.id self.pass }
    {
        let Session {
            id,
            count,
            tries,
            to,
            by,
            vector,
            pass,
            of: _,
        } = self;
        let was = Snapshot::of(&pass);
        let rest = Rest {
            id,
            count,
            tries,
            to,
            by,
            vector,
            was,
            of: PhantomData,
        };
        (rest, pass)
    }
}

impl<N: Named> Rest<N> {
    /// Takes the pass in again, with which the session neither routed nor answered an item meanwhile.
    pub fn back(self, pass: CorePass) -> Session<N>
        requires went { Went self.pass pass }
        requires between { Between self.id self.pass.seen pass.seen }
        ensures { result ≡ record self { pass = pass } }
    {
        let Rest {
            id,
            count,
            tries,
            to,
            by,
            vector,
            was: _,
            of: _,
        } = self;
        Session {
            id,
            count,
            tries,
            to,
            by,
            vector,
            pass,
            of: PhantomData,
        }
    }
}
