//! What a step adds to the committed transactions.

ghost use Rattle.std.specs.Prelude.{ℕ, ◌≡◌, ◌++◌, ◌∷◌, List, [], map, reverse, option_to_list, IfSome};
ghost use Rattle.dm_event.specs.Layout.{Layout};
ghost use Rattle.dm_event.specs.declared.step.Step.{Step};
ghost use Rattle.dm_index.specs.Places.{IsNext};
ghost use Rattle.dm_model.specs.Allowed.{Allowed};
ghost use Rattle.dm_model.specs.Legal.{LegalPast};
ghost use Rattle.dm_steps.specs.Pendings.{kept_of, entry_by};
ghost use Rattle.dm_store.specs.Histories.{past_of, committed};

/// An entry that a step adds, as its own or by a Restart that keeps it, is the next one of its origin.
pub fn entries_are_next()
    ensures { (layout : Layout) (past : List Step) → LegalPast layout past → (step : Step) → Allowed layout past step
        → IfSome (entry_by step (kept_of step past)) (IsNext layout past) }
{}

/// A store that has installed what was committed follows a step by installing the entry that it adds.
pub fn committed_next()
    ensures { (steps : List Step) (step : Step)
        → committed (steps ++ step ∷ []) ≡ committed steps ++ map past_of (option_to_list (entry_by step (kept_of step (reverse steps)))) }
{}
