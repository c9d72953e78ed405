//! What code computes of a window, homes and vectors, and what is due after a history.

ghost use Rattle.std.specs.Prelude.{ℕ, ◌≡◌, ◌≤◌, ◌/◌, List, [], ◌∷◌, ◌++◌, Some, None, length, reverse};
ghost use Rattle.std.specs.List.Sorted.{IsStrictlyIncreasing};
ghost use Rattle.dm_event.specs.Layout.{Layout};
ghost use Rattle.dm_event.specs.Parts.{with_part};
ghost use Rattle.dm_event.specs.declared.step.Step.{Step};
ghost use Rattle.dm_model.specs.Choices.{window as window_of, declared_parts, parts_of, score, choose};
ghost use Rattle.dm_model.specs.Legal.{LegalPast};
ghost use Rattle.dm_placement.specs.Scored.{AreSites, HaveHomes, score_in, choice_in};
ghost use Rattle.dm_placement.specs.Sets.{noted};
ghost use Rattle.dm_placement.specs.Tells.{Tells};

/// The scores and the choice are those of a history of whose window, homes and vectors they are: so what
/// is chosen is what is due. A window tells of a longer history once the partitions of a Route with
/// declared keys are noted. Where the partition of one key more, above all others, is put in, the set is
/// that of the longer keys.
pub fn choices_due()
    ensures scores { (layout : Layout) (past : List Step) (window : List (List ℕ)) (homes : List ℕ) (vectors : List (List ℕ)) (wanted : List ℕ)
        → LegalPast layout past → Tells layout past window homes vectors → AreSites (length vectors) homes → HaveHomes (length homes) wanted
        → (site : ℕ) → 1 ≤ site → site ≤ layout.sites → score_in layout.weights window homes vectors wanted site ≡ score layout past wanted site }
    ensures choice { (layout : Layout) (past : List Step) (window : List (List ℕ)) (homes : List ℕ) (vectors : List (List ℕ)) (wanted : List ℕ)
        → LegalPast layout past → Tells layout past window homes vectors → AreSites (length vectors) homes → HaveHomes (length homes) wanted
        → 1 ≤ layout.sites → choice_in layout.weights window homes vectors wanted ≡ choose layout past wanted }
    ensures noted { (layout : Layout) (past : List Step) (step : Step) (parts : List ℕ)
        → declared_parts layout step ≡ Some parts → noted (reverse (window_of layout past)) parts ≡ reverse (window_of layout (step ∷ past)) }
    ensures unnoted { (layout : Layout) (past : List Step) (step : Step)
        → declared_parts layout step ≡ None → window_of layout (step ∷ past) ≡ window_of layout past }
    ensures listed { (layout : Layout) (keys : List ℕ) (key : ℕ)
        → IsStrictlyIncreasing (keys ++ key ∷ []) → with_part (key / layout.width) (parts_of layout keys) ≡ parts_of layout (keys ++ key ∷ []) }
{}
