//! What a store reads of a history.

ghost use Rattle.std.specs.Prelude.{◌≡◌, ℕ, List, reverse};
ghost use Rattle.dm_event.specs.Layout.{Layout};
ghost use Rattle.dm_event.specs.Vectors.{AtMost};
ghost use Rattle.dm_event.specs.declared.step.Step.{Step};
ghost use Rattle.dm_model.specs.Values.{value};
ghost use Rattle.dm_store.specs.declared.past.Past.{Past};
ghost use Rattle.dm_store.specs.Histories.{committed, committed_inside, HasInside};
ghost use Rattle.dm_store.specs.Reads.{value_of};

/// A store reads the values of the whole history: at each vector where all committed transactions
/// are installed in the history's order, and where those inside a vector are, at each vector at most
/// that one, closed or not. Only the order among the writers of a key counts.
pub fn reads_of_histories()
    ensures whole { (layout : Layout) (history : List Step) (u : List ℕ) (key : ℕ)
        → value_of layout (committed history) key u ≡ value layout (reverse history) key u }
    ensures inside { (layout : Layout) (history : List Step) (v u : List ℕ) (key : ℕ) → AtMost u v
        → value_of layout (committed_inside history v) key u ≡ value layout (reverse history) key u }
    ensures by_key { (layout : Layout) (history : List Step) (v u : List ℕ) (key : ℕ) (installed : List Past) → HasInside history v installed → AtMost u v
        → value_of layout installed key u ≡ value layout (reverse history) key u }
{}
