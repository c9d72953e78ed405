//! One list of steps, its turn, and the passes of those who push.

ghost use Rattle.std.specs.Prelude.{◌≡◌, List, [], ◌∷◌, ◌++◌, OnOk, IfOk, IfErr, length, ◌<◌, ◌≤◌, ◌⊎◌, vec_capacity, ◌≢◌, Some, IsSomeAnd};
ghost use mathlib.Core.List.{IsPrefix};
ghost use Rattle.dm_chronicle.specs.Belongs.{belongs};
ghost use Rattle.dm_chronicle.specs.Rule.{In, Holding, gathered, note, Shows, Legal, names, first_view, Apart, Ready, Appended};
ghost use Rattle.dm_chronicle.specs.Standing.{IsOf, SameSteps, Sees, Covers, SameFixed, standing, starts};

use crate::law::Law;
use crate::rule::{Actors, Back, Both, First, Gives, Keeps, Looks, Note, Opens, Pushes, Tries};
use crate::view::{About, View};
use atomic_table::{Seat, Table};
use crossbeam_utils::Backoff;
use dm_event::{Actor, NoMemory};
use std::alloc::Global;
use std::marker::Model;
use std::mem::replace;
use std::sync::Wait;

type Place<L> = Seat<Option<L>, View<<L as Law>::Item, <L as Law>::Fixed>>;

/// One list of steps that threads share. The object that has the list is lent to one turn at a time.
#[derive(Drop)]
pub struct Chronicle<L: Law> {
    table: Table<Option<L>, View<L::Item, L::Fixed>, About<L>, Keeps<L>, Global>,
}

impl<L: Law> Model for Chronicle<L> {
    ghost use Rattle.std.specs.Prelude.{◌≡◌};
    ghost use Rattle.dm_chronicle.specs.Standing.{Ground};

    ghost Value = { Ground L.Fixed };

    ghost view = { λ c. record { table = c.table.shared.table_id; fixed = L.fixed c.table.shared.key.kept; actors = c.table.shared.key.actors.items } };

    ghost invariant = { λ c. record {
      words : c.table.shared.table_id.words ≡ 2;
      slots : c.table.shared.table_id.slots ≡ 1;
    } };
}

/// What one holder may do, and what it has seen: the steps of its actors, and no others, are pushed with it. No two passes
/// of a chronicle have one actor.
#[derive(Drop)]
pub struct Pass<L: Law> {
    seat: Place<L>,
}

impl<L: Law> Model for Pass<L> {
    ghost use Rattle.dm_chronicle.specs.Belongs.{belongs};
    ghost use Rattle.dm_chronicle.specs.Rule.{Rests, names};
    ghost use Rattle.dm_chronicle.specs.Standing.{Standing};

    ghost Value = { Standing L.Item L.Fixed };

    ghost view = { λ p. record { table = p.seat.table_id; fixed = p.seat.me.0.fixed; actors = names p.seat.me.0.held; seen = p.seat.me.0.seen } };

    ghost invariant = { λ p. Rests L.list L.fixed (belongs L.actors) L.may_follow p.seat.me };
}

/// The object in hand: nobody else pushes until the turn is left. It must be left; it can't be let go.
pub struct Turn<'a, L: Law> {
    chron: &'a Chronicle<L>,
    seat: Place<L>,
    kept: Option<L>,
}

impl<'a, L: Law> Model for Turn<'a, L> {
    ghost use Rattle.std.specs.Prelude.{◌≡◌, Some};
    ghost use Rattle.dm_chronicle.specs.Belongs.{belongs};
    ghost use Rattle.dm_chronicle.specs.Rule.{Acts, names};
    ghost use Rattle.dm_chronicle.specs.Standing.{Moving};

    ghost Value = { Moving L L.Item L.Fixed };

    ghost view = { λ t. record { table = t.seat.table_id; fixed = t.seat.me.0.fixed; actors = names t.seat.me.0.held; seen = t.seat.me.0.seen; kept = t.kept } };

    ghost invariant = { λ t. record {
      own : t.seat.table_id ≡ t.chron.now.table;
      object : L;
      in_hand : t.kept ≡ Some object;
      acts : Acts L.list L.fixed (belongs L.actors) L.may_follow t.seat.me object;
    } };
}

impl<L: Law> Chronicle<L> {
    /// Keeps the object, whose list opens the chronicle, and gives a pass to each actor, in order. Where there is no memory
    /// the object comes back.
    pub fn new(
        alloc: Global,
        kept: L,
        actors: &[Actor],
    ) -> Result<(Chronicle<L>, Vec<Pass<L>>), (L, NoMemory)>
        requires some { 0 < length actors.now }
        requires apart { Apart actors.now }
        requires lawful { Legal L.may_follow (L.fixed kept) [] (L.list kept) }
        ensures fixed { IfOk result (λ r. r.0.fixed ≡ L.fixed kept) }
        ensures actors { IfOk result (λ r. r.0.actors ≡ actors.now) }
        ensures passes { IfOk result (λ r. r.1.items ≡ starts r.0.table (L.fixed kept) (L.list kept) actors.now) }
        ensures back { IfErr result (λ e. e.0 ≡ kept) }
    {
        let Ok(mut passes) = Vec::with_capacity(alloc, actors.len()) else {
            return Err((kept, NoMemory));
        };
        let mut names = Vec::new(alloc);
        if names.extend_from_slice(actors).is_err() {
            return Err((kept, NoMemory));
        }
        match Chronicle::open(alloc, kept, names) {
            Ok((chron, seat)) => {
                chron.deal(seat, actors, &mut passes);
                Ok((chron, passes))
            }
            Err(e) => Err(e),
        }
    }

    // The first seat has all actors and no mark.
    fn open(
        alloc: Global,
        kept: L,
        actors: Vec<Actor>,
    ) -> Result<(Chronicle<L>, Place<L>), (L, NoMemory)>
        requires some { 0 < length actors.items }
        requires apart { Apart actors.items }
        requires lawful { Legal L.may_follow (L.fixed kept) [] (L.list kept) }
        ensures fixed { IfOk result (λ r. r.0.fixed ≡ L.fixed kept) }
        ensures actors { IfOk result (λ r. r.0.actors ≡ actors.items) }
        ensures table { IfOk result (λ r. r.1.table_id ≡ r.0.table) }
        ensures view { IfOk result (λ r. r.1.me ≡ (record (first_view L.list L.fixed (belongs L.actors) L.may_follow kept actors.items) { mark = 0 }, [])) }
        ensures back { IfErr result (λ e. e.0 ≡ kept) }
    {
        let about = About { kept, actors };
        let made = Table::vacant(alloc, &[2, 0], 1, &about);
        let About { kept, actors: _ } = about;
        let Ok((table, mut seat)) = made else {
            return Err((kept, NoMemory));
        };
        table.shared.store::<Opens>(&mut seat, 0, 1);
        let empty = table.shared.exchange(&mut seat, 0, Some(kept));
        let None = empty else { unreachable!() };
        table.shared.store::<Gives>(&mut seat, 0, 0);
        Ok((Chronicle { table }, seat))
    }

    fn deal(&self, mut seat: Place<L>, actors: &[Actor], passes: &mut Vec<Pass<L>>)
        requires none { passes.old.items ≡ [] }
        requires room { length actors.now ≤ vec_capacity passes.old }
        requires table { seat.table_id ≡ self.now.table }
        requires hands { seat.me.1 ≡ [] }
        requires mark { seat.me.0.mark ≡ 0 }
        requires olds { seat.me.0.older ≡ [] }
        requires fixed { seat.me.0.fixed ≡ Some self.now.fixed }
        requires names { names seat.me.0.held ≡ actors.now }
        requires shows { Shows L.list L.fixed (belongs L.actors) L.may_follow seat.me.0 }
        ensures { passes.new.items ≡ starts self.now.table self.now.fixed seat.me.0.seen actors.now }
    {
        for _ in 0..actors.len() {
            let first = self.table.shared.split_seat::<First>(&mut seat);
            if passes.push(Pass { seat: first }).is_err() {
                unreachable!()
            }
        }
    }

    /// Ends the chronicle and gives back the object, whose list is the whole history. The pass has every actor, so nobody
    /// can be in a turn.
    pub fn close(self, pass: Pass<L>) -> L
        requires own { IsOf self pass }
        requires all { (a : _) → In a self.actors → In a pass.actors }
        ensures begins { IsPrefix pass.seen (L.list result) }
        ensures own { SameSteps (belongs L.actors) pass.actors pass.seen (L.list result) }
        ensures fixed { L.fixed result ≡ self.fixed }
        ensures lawful { Legal L.may_follow (L.fixed result) [] (L.list result) }
    {
        let Chronicle { table } = self;
        let Pass { seat } = pass;
        let mut closed = table.close_with(seat);
        let kept = closed.take(0);
        closed.free();
        let Some(kept) = kept else { unreachable!() };
        kept
    }

    /// Both passes have seen one list afterwards, which goes on from what each had seen.
    pub fn meet(&self, one: &mut Pass<L>, two: &mut Pass<L>)
        requires one { IsOf self.now one.old }
        requires two { IsOf self.now two.old }
        ensures one { Sees (belongs L.actors) one.old one.new }
        ensures two { Sees (belongs L.actors) two.old two.new }
        ensures same { two.new.seen ≡ one.new.seen }
        ensures fixed { one.old.fixed ≡ two.old.fixed }
        ensures lawful { IsSomeAnd one.new.fixed (λ f. Legal L.may_follow f [] one.new.seen) }
    {
        self.tell(&mut one.seat, &mut two.seat);
        self.tell(&mut two.seat, &mut one.seat);
    }

    /// A pass with the actors of both, which has seen the longer of the two lists.
    pub fn join(&self, one: Pass<L>, two: Pass<L>) -> Pass<L>
        requires one { IsOf self.now one }
        requires two { IsOf self.now two }
        ensures same { result ≡ record one { actors = one.actors ++ two.actors; seen = result.seen } }
        ensures either { (result.seen ≡ one.seen) ⊎ (result.seen ≡ two.seen) }
        ensures begins_one { IsPrefix one.seen result.seen }
        ensures begins_two { IsPrefix two.seen result.seen }
        ensures own_one { SameSteps (belongs L.actors) one.actors one.seen result.seen }
        ensures own_two { SameSteps (belongs L.actors) two.actors two.seen result.seen }
        ensures lawful { IsSomeAnd result.fixed (λ f. Legal L.may_follow f [] result.seen) }
    {
        let Pass { mut seat } = one;
        let Pass { seat: other } = two;
        self.gather(&mut seat, other);
        Pass { seat }
    }

    // The other seat is spent. A load shows what the one has then.
    fn gather(&self, into: &mut Place<L>, other: Place<L>)
        requires into { into.old.table_id ≡ self.now.table }
        requires other { other.table_id ≡ self.now.table }
        requires hands { other.me.1 ≡ [] }
        requires mark { other.me.0.mark ≡ 0 }
        ensures table { into.new.table_id ≡ into.old.table_id }
        ensures view { into.new.me ≡ (gathered into.old.me.0 other.me.0, into.old.me.1) }
        ensures begins_into { IsPrefix into.old.me.0.seen into.new.me.0.seen }
        ensures begins_other { IsPrefix other.me.0.seen into.new.me.0.seen }
        ensures shows { Shows L.list L.fixed (belongs L.actors) L.may_follow into.new.me.0 }
        ensures fixed { SameFixed other.me.0.fixed into.old.me.0.fixed }
    {
        self.table.shared.join_seat::<Both>(into, other);
        self.table.shared.load::<Looks>(into, 0);
    }

    // From now on the one has seen no less than the other.
    fn tell(&self, from: &mut Place<L>, into: &mut Place<L>)
        requires from { from.old.table_id ≡ self.now.table }
        requires into { into.old.table_id ≡ self.now.table }
        requires mark { from.old.me.0.mark ≢ 0 → (a : _) × Holding a from.old.me.0.held }
        ensures table_into { into.new.table_id ≡ into.old.table_id }
        ensures table_from { from.new.table_id ≡ from.old.table_id }
        ensures from { from.new.me ≡ from.old.me }
        ensures view { into.new.me ≡ (gathered into.old.me.0 (note from.old.me.0), into.old.me.1) }
        ensures begins_into { IsPrefix into.old.me.0.seen into.new.me.0.seen }
        ensures begins_from { IsPrefix from.old.me.0.seen into.new.me.0.seen }
        ensures shows { Shows L.list L.fixed (belongs L.actors) L.may_follow into.new.me.0 }
        ensures fixed { SameFixed from.old.me.0.fixed into.old.me.0.fixed }
    {
        let note = self.table.shared.split_seat::<Note>(from);
        self.gather(into, note);
    }

    // One step is added by a seat that has the turn and the step's actors.
    fn append(&self, seat: &mut Place<L>, kept: &mut Option<L>, step: L::Item)
        requires table { seat.old.table_id ≡ self.now.table }
        requires acts { Ready L.list L.fixed (belongs L.actors) L.may_follow L.has_room seat.old.me kept.old step }
        requires covers { Covers L.actors (names seat.old.me.0.held) step }
        ensures table { seat.new.table_id ≡ seat.old.table_id }
        ensures acts { Appended L.list L.fixed (belongs L.actors) L.may_follow seat.old.me seat.new.me kept.new step }
    {
        let Some(mut object) = kept.take() else {
            unreachable!()
        };
        object.push(step);
        let empty = self.table.shared.exchange(seat, 0, Some(object));
        let None = empty else { unreachable!() };
        self.table.shared.fetch_add::<Pushes>(seat, 1, 1);
        let object = self.table.shared.exchange(seat, 0, None);
        let empty = replace(kept, object);
        let None = empty else { unreachable!() };
    }

    /// Takes the turn, with the actors of the pass, once nobody else has it. The turn has seen the whole list of that
    /// moment; until it is left the pass holds no actor.
    pub fn enter<R: Wait>(&self, rt: &R, pass: &mut Pass<L>) -> Turn<'_, L>
        requires own { IsOf self.now pass.old }
        requires actor { 0 < length pass.old.actors }
        ensures turn { Sees (belongs L.actors) pass.old (standing result) }
        ensures lawful { IsSomeAnd result.fixed (λ f. Legal L.may_follow f [] result.seen) }
        ensures pass { pass.new ≡ record pass.old { actors = [] } }
    {
        let mut seat = self.table.shared.split_seat::<Actors>(&mut pass.seat);
        let backoff = Backoff::new();
        for _ in rt.forever() {
            if self
                .table
                .shared
                .compare_exchange::<Tries>(&mut seat, 0, 0, 1)
                == 0
            {
                let kept = self.table.shared.exchange(&mut seat, 0, None);
                return Turn {
                    chron: self,
                    seat,
                    kept,
                };
            }
            backoff.snooze();
        }
        unreachable!()
    }
}

impl<'a, L: Law> Turn<'a, L> {
    /// The object, whose list is the turn's.
    pub fn kept(&self) -> &L
        ensures object { self.now.kept ≡ Some result.now }
        ensures list { L.list result.now ≡ self.now.seen }
        ensures fixed { self.now.fixed ≡ Some (L.fixed result.now) }
    {
        let Some(kept) = &self.kept else {
            unreachable!()
        };
        kept
    }

    /// Makes room for the step. Where there is no memory the turn is as before.
    pub fn reserve(&mut self, step: &L::Item) -> Result<(), NoMemory>
        requires { IsSomeAnd self.old.fixed (λ f. L.may_follow f self.old.seen step.now) }
        ensures same { standing self.new ≡ standing self.old }
        ensures room { OnOk result (IsSomeAnd self.new.kept (λ k. L.has_room k step.now)) }
    {
        let Some(kept) = &mut self.kept else {
            unreachable!()
        };
        kept.reserve(step)
    }

    /// Appends the step, whose actors the turn has. It takes no memory.
    pub fn push(&mut self, step: L::Item)
        requires follows { IsSomeAnd self.old.fixed (λ f. L.may_follow f self.old.seen step) }
        requires room { IsSomeAnd self.old.kept (λ k. L.has_room k step) }
        requires actors { Covers L.actors self.old.actors step }
        ensures { standing self.new ≡ record (standing self.old) { seen = self.old.seen ++ step ∷ [] } }
    {
        let chron = self.chron;
        chron.append(&mut self.seat, &mut self.kept, step);
    }

    /// Appends a step whose actors are of the turn or of the other pass, which has seen the turn's list afterwards.
    pub fn push_with(&mut self, other: &mut Pass<L>, step: L::Item)
        requires own { other.old.table ≡ self.old.table }
        requires follows { IsSomeAnd self.old.fixed (λ f. L.may_follow f self.old.seen step) }
        requires room { IsSomeAnd self.old.kept (λ k. L.has_room k step) }
        requires actors { Covers L.actors (self.old.actors ++ other.old.actors) step }
        ensures turn { standing self.new ≡ record (standing self.old) { seen = self.old.seen ++ step ∷ [] } }
        ensures other { other.new ≡ record other.old { seen = self.old.seen ++ step ∷ [] } }
        ensures begins { IsPrefix other.old.seen self.old.seen }
        ensures own { SameSteps (belongs L.actors) other.old.actors other.old.seen self.old.seen }
        ensures fixed { other.old.fixed ≡ self.old.fixed }
    {
        let chron = self.chron;
        let lent = chron.table.shared.split_seat::<Actors>(&mut other.seat);
        chron.gather(&mut self.seat, lent);
        chron.append(&mut self.seat, &mut self.kept, step);
        let back = chron.table.shared.split_seat::<Back>(&mut self.seat);
        chron.gather(&mut other.seat, back);
    }

    /// The other pass has seen the turn's list afterwards, in which there is no further step of its actors.
    pub fn meet(&mut self, other: &mut Pass<L>)
        requires own { other.old.table ≡ self.old.table }
        ensures turn { standing self.new ≡ standing self.old }
        ensures kept { self.new.kept ≡ self.old.kept }
        ensures other { other.new ≡ record other.old { seen = self.old.seen } }
        ensures begins { IsPrefix other.old.seen self.old.seen }
        ensures own { SameSteps (belongs L.actors) other.old.actors other.old.seen self.old.seen }
        ensures fixed { other.old.fixed ≡ self.old.fixed }
    {
        let chron = self.chron;
        chron.tell(&mut other.seat, &mut self.seat);
        chron.tell(&mut self.seat, &mut other.seat);
    }

    /// Gives the turn back. The pass has the turn's actors beside its own, and the turn's list.
    pub fn leave(self, pass: &mut Pass<L>)
        requires { pass.old.table ≡ self.table }
        ensures table { pass.new.table ≡ pass.old.table }
        ensures still { pass.new.fixed ≡ pass.old.fixed }
        ensures seen { pass.new.seen ≡ self.entry.seen }
        ensures actors { pass.new.actors ≡ pass.old.actors ++ self.entry.actors }
        ensures begins { IsPrefix pass.old.seen self.entry.seen }
        ensures own { SameSteps (belongs L.actors) pass.old.actors pass.old.seen self.entry.seen }
        ensures fixed { pass.old.fixed ≡ self.entry.fixed }
        ensures lawful { IsSomeAnd pass.new.fixed (λ f. Legal L.may_follow f [] pass.new.seen) }
    {
        let Turn {
            chron,
            mut seat,
            kept,
        } = self;
        chron.tell(&mut pass.seat, &mut seat);
        let empty = chron.table.shared.exchange(&mut seat, 0, kept);
        let None = empty else { unreachable!() };
        chron.table.shared.store::<Gives>(&mut seat, 0, 0);
        chron.gather(&mut pass.seat, seat);
    }
}

fn is_sync<T: Sync>() {}

fn is_send<T: Send>() {}

// A chronicle is shared between threads, and passes move between them.
fn crosses<L: Law + Send>() {
    is_sync::<Chronicle<L>>();
    is_send::<Pass<L>>();
}
