//! What a site restarts with, in a history.

ghost use Rattle.std.specs.List.{Contains};
ghost use Rattle.std.specs.Prelude.{◌≡◌, ℕ, List, [], IsTrue, length, reverse};
ghost use Rattle.dm_event.specs.Layout.{Layout, is_site};
ghost use Rattle.dm_event.specs.Vectors.{AtMost, raised};
ghost use Rattle.dm_event.specs.declared.step.Found.{Found};
ghost use Rattle.dm_event.specs.declared.step.Pair.{Pair};
ghost use Rattle.dm_event.specs.declared.step.Step.{Step};
ghost use Rattle.dm_event.specs.declared.step.TxnId.{TxnId};
ghost use Rattle.dm_frames.specs.Records.{records_of};
ghost use Rattle.dm_model.specs.Allowed.{with_kept};
ghost use Rattle.dm_model.specs.Doubts.{is_down};
ghost use Rattle.dm_model.specs.Floors.{floor};
ghost use Rattle.dm_model.specs.Legal.{Legal};
ghost use Rattle.dm_model.specs.Rows.{found_fits};
ghost use Rattle.dm_model.specs.Values.{value};
ghost use Rattle.dm_record.specs.declared.record.Record.{Record};
ghost use Rattle.dm_record.specs.declared.record.Record.TheVariants.{Commit, Grant};
ghost use Rattle.dm_restart.specs.Floors.{floor_of};
ghost use Rattle.dm_restart.specs.Histories.{logged};
ghost use Rattle.dm_restart.specs.Plans.{completed, ReachesFloor};
ghost use Rattle.dm_store.specs.Histories.{committed_inside};
ghost use Rattle.dm_store.specs.Reads.{value_of};
ghost use Rattle.dm_store.specs.Rising.{may_install};

/// The floor of records is at least each of their commit vectors and the vector of each grant, and that
/// of the records of a history's acts is the history's.
pub fn floors_of_records()
    ensures exact { (sites : ℕ) (past : List Step) (site : ℕ) → floor_of sites site (records_of site past) ≡ floor sites past site }
    ensures commits { (sites site : ℕ) (own : List Record) (txn : TxnId) (seq : ℕ) (begin : List ℕ) (writes : List Pair) → Contains own (Commit txn seq begin writes)
        → length begin ≡ sites → AtMost (raised begin site seq) (floor_of sites site own) }
    ensures grants { (sites site : ℕ) (own : List Record) (part epoch : ℕ) (vector : List ℕ) → Contains own (Grant part epoch vector)
        → length vector ≡ sites → AtMost vector (floor_of sites site own) }
{}

/// Wherever a Restart may find a site's log so, a plan can be made of what stands in it and of the
/// history's entries inside its floor, and its store reads the history's values, a kept commit's
/// among them, at each vector at most the floor, closed or not.
pub fn plans_of_histories()
    ensures whole { (layout : Layout) (history : List Step) → Legal layout history → (site : ℕ) → IsTrue (is_site layout site)
        → (found : Found) → IsTrue (found_fits found (is_down site (reverse history)))
        → let own = logged site found (reverse history) in ReachesFloor layout.sites site own (committed_inside history (floor_of layout.sites site own)) }
    ensures installs { (layout : Layout) (history : List Step) → Legal layout history → (v : List ℕ) → IsTrue (may_install [] (committed_inside history v)) }
    ensures reads { (layout : Layout) (history : List Step) → Legal layout history → (site : ℕ) → IsTrue (is_site layout site)
        → (found : Found) → IsTrue (found_fits found (is_down site (reverse history)))
        → let own = logged site found (reverse history) in let low = floor_of layout.sites site own in (u : List ℕ) (key : ℕ) → AtMost u low
        → value_of layout (completed site own (committed_inside history low)) key u ≡ value layout (with_kept site found (reverse history)) key u }
{}
