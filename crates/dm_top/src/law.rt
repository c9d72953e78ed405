//! What the answers of a source decide.

ghost use Rattle.std.specs.Prelude.{◌≡◌, ℕ, List};
ghost use Rattle.dm_event.specs.Layout.{Layout};
ghost use Rattle.dm_event.specs.declared.step.Step.{Step};
ghost use Rattle.dm_disk.specs.declared.outside.Fetched.{Fetched};
ghost use Rattle.dm_top.specs.declared.status.Status.{Status};
ghost use Rattle.dm_top.specs.Check.{EndsOnHistory};
ghost use Rattle.dm_top.specs.Due.{IsDue, IsVerdict, IsJudged, status_after};
ghost use Rattle.dm_top.specs.Ends.{Output};
ghost use Rattle.dm_top.specs.Step.{EndsAfterFile};

/// Of `step`: one answer of a source has one status. So no two of Done, StepFault, Absent, TooLong and ReadFault are possible after it,
/// and a line of the bytes that were found is the first faulty one or the bytes are a schedule, and not both.
pub fn one_status_an_answer()
    ensures { (name : List ℕ) (answer : Fetched) (out : Output) (history : List Step) (status : Status) →
        EndsAfterFile name answer out history status → IsDue (status_after name answer) status }
{}

/// Of `check`: by one schema the bytes of a history have one verdict, and it ends with that verdict, but for want of memory and for a
/// fault of the sink where it is Done. So it ends with Done, StepFault or CheckedNo exactly where their cause is.
pub fn one_verdict_a_history()
    ensures one { (layout : Layout) (bytes : List ℕ) (a b : Status) → IsVerdict layout bytes a → IsVerdict layout bytes b → a ≡ b }
    ensures ends { (layout : Layout) (bytes : List ℕ) (out : Output) (history : List Step) (status : Status) →
        EndsOnHistory layout bytes out history status → IsJudged layout bytes status }
{}
