//! A list of steps, judged one step at a time.

ghost use Rattle.std.specs.Prelude.{◌≡◌, ◌↔◌, List, [], ◌∷◌, ◌++◌, IfOk, OnOk, OnErr};
ghost use Rattle.dm_event.specs.declared.step.Step.{Step};
ghost use Rattle.dm_model.specs.Legal.{Legal};
ghost use Rattle.dm_check.specs.Judged.{IsYes, IfYes, IfNo, HasJudged, book_of, refused_next, added, IsFirstRefused};

use dm_core::Book;
use dm_event::{MAX_SESSIONS, NoMemory, Schema, Step, Why};
use std::alloc::Global;
use std::marker::Model;

/// What was found of a list of steps.
#[derive(Drop)]
pub enum Checked {
    /// It is legal, and this is its book.
    Yes(Book),
    /// The first step that may not stand, counted from 1, with the first rule that it breaks, and the book of those before it.
    No { step: u64, why: Why, legal: Book },
}

/// Adds the step, where it may stand; else it tells why not.
#[tactic(auto, unfolding(crate::specs::Judged::refused_next))]
fn add(book: &mut Book, step: Step) -> Result<Option<Why>, NoMemory>
    ensures refused { IfOk result (λ refused. refused ≡ refused_next book.old.layout book.old.steps step) }
    ensures steps { IfOk result (λ refused. book.new.steps ≡ added refused book.old.steps step) }
    ensures same { OnErr result (book.new.steps ≡ book.old.steps) }
    ensures schema { book.new.layout ≡ book.old.layout }
{
    match book.enabled(&step) {
        Ok(()) => {
            book.reserve(&step)?;
            book.push(step);
            Ok(None)
        }
        Err(why) => Ok(Some(why)),
    }
}

/// Judges steps as they come, each by those before it, up to the first that may not stand. It holds the steps before that one, and
/// no later one.
#[derive(Drop)]
pub struct Judge {
    book: Book,
    /// Why the first step that may not stand is refused, where one was.
    refused: Option<Why>,
}

impl Model for Judge {
    ghost use Rattle.dm_check.specs.Judged.{Judging};

    ghost Value = { Judging };

    ghost view = { λ j. record { book = j.book; refused = j.refused } };
}

impl Judge {
    /// It has judged no step.
    pub fn new(alloc: Global, schema: &Schema) -> Result<Judge, NoMemory>
        ensures none { IfOk result (λ judge. HasJudged [] judge) }
        ensures schema { IfOk result (λ judge. judge.book.layout ≡ schema.now) }
    {
        Ok(Judge {
            book: Book::new(alloc, schema, &[0; MAX_SESSIONS as usize])?,
            refused: None,
        })
    }

    /// Judges the next step, or leaves it unjudged for want of memory. A step costs the same however many came before it, but for those of
    /// which `Book` says otherwise.
    pub fn add(&mut self, step: Step) -> Result<(), NoMemory>
        ensures step { OnOk result ((steps : List Step) → HasJudged steps self.old → HasJudged (steps ++ step ∷ []) self.new) }
        ensures unjudged { OnErr result ((steps : List Step) → HasJudged steps self.old → HasJudged steps self.new) }
        ensures schema { self.new.book.layout ≡ self.old.book.layout }
    {
        if self.refused.is_none() {
            self.refused = add(&mut self.book, step)?;
        }
        Ok(())
    }

    /// What was found of the steps.
    pub fn into_checked(self) -> Checked
        ensures yes { (steps : List Step) → HasJudged steps self → IsYes result ↔ Legal self.book.layout steps }
        ensures whole { (steps : List Step) → HasJudged steps self → IfYes result (λ book. book.steps ≡ steps) }
        ensures first { (steps : List Step) → HasJudged steps self → IfNo result (λ place why legal. IsFirstRefused self.book.layout steps place why legal.steps) }
        ensures schema { (book_of result).layout ≡ self.book.layout }
    {
        let Judge { book, refused } = self;
        match refused {
            None => Checked::Yes(book),
            Some(why) => {
                let step = book.steps().len() as u64 + 1;
                Checked::No {
                    step,
                    why,
                    legal: book,
                }
            }
        }
    }
}

/// Judges each step by those before it.
pub fn check(alloc: Global, schema: &Schema, steps: Vec<Step>) -> Result<Checked, NoMemory>
    ensures yes { IfOk result (λ checked. IsYes checked ↔ Legal schema.now steps.items) }
    ensures whole { IfOk result (λ checked. IfYes checked (λ book. book.steps ≡ steps.items)) }
    ensures first { IfOk result (λ checked. IfNo checked (λ place why legal. IsFirstRefused schema.now steps.items place why legal.steps)) }
    ensures schema { IfOk result (λ checked. (book_of checked).layout ≡ schema.now) }
{
    let mut judge = Judge::new(alloc, schema)?;
    for step in steps {
        judge.add(step)?;
    }
    Ok(judge.into_checked())
}
