//! The book as the law of a chronicle: a step may follow exactly where it is allowed.

ghost use Rattle.std.specs.Prelude.{◌≡◌, ◌++◌, ◌∷◌, [], List, OnOk};
ghost use Rattle.dm_chronicle.specs.Rule.{Legal as Follows};
ghost use Rattle.dm_core.specs.Lawful.{Terms, may_follow};
ghost use Rattle.dm_event.specs.declared.step.Step.{Step};
ghost use Rattle.dm_model.specs.Legal.{Legal};

use crate::book::Book;
use dm_chronicle::{Chronicle, Law, Pass};
use dm_event::{NoMemory, Schema, Step};
use std::marker::Model;

/// What no step changes of a book. No value of it is made: it gives contracts of a chronicle a type.
#[derive(Drop)]
pub struct Setting {
    schema: Schema,
    items: Vec<u32>,
}

impl Model for Setting {
    ghost use Rattle.dm_core.specs.Lawful.{Terms};

    ghost Value = { Terms };

    ghost view = { λ s. record { layout = s.schema; items = s.items.items } };
}

impl Law for Book {
    ghost use Rattle.dm_event.specs.Actors.{actors};
    ghost use Rattle.dm_core.specs.Lawful.{may_follow};
    ghost use Rattle.dm_kept.specs.Roomy.{HasRoom};

    type Item = Step;

    type Fixed = Setting;

    ghost list = { λ b. b.steps };

    ghost fixed = { λ b. record { layout = b.layout; items = b.items } };

    ghost actors = { actors };

    ghost may_follow = { may_follow };

    ghost has_room = { HasRoom };

    fn reserve(&mut self, step: &Step) -> Result<(), NoMemory> {
        Book::reserve(self, step)
    }

    fn push(&mut self, step: Step) {
        Book::push(self, step);
    }
}

/// The chronicle of a database.
pub type Chron = Chronicle<Book>;

/// A pass of it.
pub type CorePass = Pass<Book>;

/// The lists that a chronicle of a book shows are the legal histories.
pub fn lists_are_legal()
    ensures legal { (terms : Terms) (steps : List Step) → Follows may_follow terms [] steps → Legal terms.layout steps }
    ensures back { (terms : Terms) (steps : List Step) → Legal terms.layout steps → Follows may_follow terms [] steps }
{}

fn is_send<T: Send>() {}

// A chronicle hands the book from thread to thread.
fn crosses() {
    is_send::<Book>();
}
