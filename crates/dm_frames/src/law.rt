//! What frames tell, and which records a history has.

ghost use Rattle.std.specs.List.{AllByRecursion};
ghost use Rattle.std.specs.Prelude.{◌≡◌, ℕ, IfSome, IsTrue, List, map, reverse};
ghost use Rattle.dm_event.specs.Layout.{Layout, is_layout};
ghost use Rattle.dm_event.specs.declared.step.Step.{Step};
ghost use Rattle.dm_frames.specs.Records.{pending_record, records_of};
ghost use Rattle.dm_model.specs.Doubts.{pending_at};
ghost use Rattle.dm_model.specs.Legal.{Legal};
ghost use Rattle.dm_record.specs.Bytes.{HasRanges, IsInRange, frame_of};
ghost use Rattle.dm_record.specs.declared.record.Record.{Record};

/// Lists of records with the same frames are the same.
pub fn records_of_frames()
    ensures { (recs others : List Record) → AllByRecursion HasRanges recs → AllByRecursion HasRanges others → map frame_of recs ≡ map frame_of others → recs ≡ others }
{}

/// The records of a legal history have their numbers in range, and so has the one that a step in doubt
/// would have: `frames` and `pending_frame` ask no more.
pub fn records_of_histories()
    ensures acts { (layout : Layout) (history : List Step) → IsTrue (is_layout layout) → Legal layout history
        → (site : ℕ) → AllByRecursion IsInRange (records_of site (reverse history)) }
    ensures pending { (layout : Layout) (history : List Step) → IsTrue (is_layout layout) → Legal layout history
        → (site : ℕ) → IfSome (pending_at site (reverse history)) (λ p. IsInRange (pending_record p)) }
{}
