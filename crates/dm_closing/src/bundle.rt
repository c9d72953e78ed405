//! Passes that come in one after the other.

ghost use Rattle.std.specs.Prelude.{◌≡◌, [], ◌∷◌, ◌++◌, IsTrue};
ghost use mathlib.Core.List.{IsPrefix};
ghost use Rattle.dm_chronicle.specs.Belongs.{belongs};
ghost use Rattle.dm_chronicle.specs.Standing.{SameSteps};
ghost use Rattle.dm_closing.specs.Joining.{CameIn, Grew};
ghost use Rattle.dm_event.specs.Actors.{actors};
ghost use Rattle.dm_model.specs.Legal.{Legal};

use dm_core::{Book, Chron, CorePass};
use dm_event::Actor;
use dm_sites::stuck;
use std::sync::Wait;

/// A pass, and the actors that it hasn't yet.
#[derive(Drop)]
pub(crate) struct Bundle<'a> {
    pub(crate) pass: CorePass,
    pub(crate) rest: &'a [Actor],
}

fn is_same(one: Actor, other: Actor) -> bool
    ensures { IsTrue result → one ≡ other }
{
    match (one, other) {
        (Actor::Session(i), Actor::Session(j)) => i == j,
        (Actor::Partition(i), Actor::Partition(j)) => i == j,
        (Actor::Site(i), Actor::Site(j)) => i == j,
        _ => false,
    }
}

/// The actors behind the first, which is this one.
fn behind<'a, R: Wait>(rt: &R, rest: &'a [Actor], name: Actor) -> &'a [Actor]
    ensures { rest.now ≡ name ∷ result.now }
{
    if let Some((next, others)) = rest.split_first() {
        if is_same(*next, name) {
            return others;
        }
    }
    stuck(rt);
    unreachable!()
}

impl<'a> Bundle<'a> {
    /// The pass of the first actor.
    pub(crate) fn new<R: Wait>(rt: &R, pass: CorePass, name: Actor, all: &'a [Actor]) -> Bundle<'a>
        requires own { pass.actors ≡ name ∷ [] }
        ensures pass { result.pass ≡ pass }
        ensures came { CameIn name pass result.pass }
        ensures rest { result.pass.actors ++ result.rest.now ≡ all.now }
    {
        let rest = behind(rt, all, name);
        Bundle { pass, rest }
    }

    /// The next actor's pass comes in.
    pub(crate) fn join<R: Wait>(
        self,
        rt: &R,
        chron: &Chron,
        other: CorePass,
        name: Actor,
    ) -> Bundle<'a>
        requires table { self.pass.table ≡ chron.now.table }
        requires other { (other.table ≡ chron.now.table) × (other.actors ≡ name ∷ []) }
        ensures grew { Grew self.entry.pass result.pass }
        ensures rest { result.pass.actors ++ result.rest.now ≡ self.entry.pass.actors ++ self.entry.rest.now }
        ensures came { CameIn name other result.pass }
    {
        let Bundle { pass, rest } = self;
        let rest = behind(rt, rest, name);
        let pass = chron.join(pass, other);
        Bundle { pass, rest }
    }

    /// Every actor is in, and the chronicle is closed.
    pub(crate) fn close<R: Wait>(self, rt: &R, chron: Chron) -> Book
        requires table { self.pass.table ≡ chron.table }
        requires all { self.pass.actors ++ self.rest.now ≡ chron.actors }
        ensures begins { IsPrefix self.entry.pass.seen result.steps }
        ensures steps { SameSteps (belongs actors) self.entry.pass.actors self.entry.pass.seen result.steps }
        ensures schema { result.layout ≡ chron.fixed.layout }
        ensures items { result.items ≡ chron.fixed.items }
        ensures legal { Legal result.layout result.steps }
    {
        let Bundle { pass, rest } = self;
        if !rest.is_empty() {
            stuck(rt);
            unreachable!()
        }
        chron.close(pass)
    }
}
