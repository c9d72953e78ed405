//! Items, and what it is for a session's steps to answer them: each by one Reply, in order, which fits the item and what was done for
//! it. The definitions stand in `specs`; the functions are laws.
#![tactic(auto)]

ghost use Rattle.std.specs.Prelude.{ℕ, ◌+◌, ◌≡◌, List, [], ◌∷◌, ◌++◌, length};
ghost use Rattle.dm_answers.specs.Answers.{Answered, Answers, Told, numbers_told, upward};
ghost use Rattle.dm_answers.specs.declared.item.Item.{Item};
ghost use Rattle.dm_chronicle.specs.Belongs.{belongs};
ghost use Rattle.dm_chronicle.specs.Rule.{mine};
ghost use Rattle.dm_event.specs.Actors.{actors};
ghost use Rattle.dm_event.specs.declared.actor.Actor.TheVariants.{Session};
ghost use Rattle.dm_event.specs.declared.step.Said.{Said};
ghost use Rattle.dm_event.specs.declared.step.Step.{Step};

mod item;

pub use item::Item;

/// A session that has answered its items so far, and then answers one more, has answered them all. Its Replies then have the numbers from
/// the first on, and what is said of its own steps is so in each history that has these and no others of it.
pub fn answers_add_up()
    ensures more { (session first : ℕ) (items : List Item) (item : Item) (said : Said) (steps here : List Step)
        → Answers session first items steps → Told session (first + length items) item said here
        → Answers session first (items ++ item ∷ []) (steps ++ here) }
    ensures numbers { (session first : ℕ) (items : List Item) (steps : List Step)
        → Answers session first items steps → numbers_told session steps ≡ upward first items }
    ensures answered { (session : ℕ) (items : List Item) (history : List Step)
        → Answers session 1 items (mine (belongs actors) (Session session) history) → Answered session items history }
{}
