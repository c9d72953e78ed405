//! For how many further steps and installs a history keeps room, and which steps need more. This crate
//! has no code, and its functions are laws.
#![tactic(auto)]

ghost use Rattle.std.specs.List.{range_with_len, sum_by};
ghost use Rattle.std.specs.Prelude.{ℕ, ◌+◌, ◌-◌, ◌≡◌, ◌<◌, ◌≤◌, List, [], ◌∷◌};
ghost use Rattle.dm_event.specs.Layout.{Layout};
ghost use Rattle.dm_event.specs.declared.limits.TheConstants.{MAX_SESSIONS};
ghost use Rattle.dm_event.specs.declared.step.Cause.{Cause};
ghost use Rattle.dm_event.specs.declared.step.Choice.{Choice};
ghost use Rattle.dm_event.specs.declared.step.Entry.{Entry};
ghost use Rattle.dm_event.specs.declared.step.Found.{Found};
ghost use Rattle.dm_event.specs.declared.step.Op.{Op};
ghost use Rattle.dm_event.specs.declared.step.Pair.{Pair};
ghost use Rattle.dm_event.specs.declared.step.Pending.{Pending};
ghost use Rattle.dm_event.specs.declared.step.Said.{Said};
ghost use Rattle.dm_event.specs.declared.step.Step.{Step};
ghost use Rattle.dm_event.specs.declared.step.Step.TheVariants.{Route, Reply, Ask, Settle, Begin, Moved, Commit};
ghost use Rattle.dm_event.specs.declared.step.Step.TheVariants.{End, Fail, Refresh, Release, Grant, Doubt, Restart};
ghost use Rattle.dm_event.specs.declared.step.TxnId.{TxnId};
ghost use Rattle.dm_event.specs.declared.step.Want.{Want};
ghost use Rattle.dm_model.specs.Attempts.{replies, state};
ghost use Rattle.dm_model.specs.Doubts.{is_down};
ghost use Rattle.dm_model.specs.Legal.{LegalPast};
ghost use Rattle.dm_room.specs.Installs.{installs_to_come, begins_at};
ghost use Rattle.dm_room.specs.Room.{items_of, unanswered, kept, need, runners, comes_on, comes_off};
ghost use Rattle.dm_steps.specs.Adding.{of_origin};
ghost use Rattle.dm_steps.specs.Pendings.{kept_of, entry_by};

/// What is kept at the opening, and after one step more of a legal history, from what was kept and what
/// little the step finds; and so what the step needs.
pub fn kept_next()
    ensures opening { (layout : Layout) (items : List ℕ)
        → kept layout items [] ≡ sum_by (λ session. items_of items session) (range_with_len 1 MAX_SESSIONS) + layout.sites }
    ensures kept { (layout : Layout) (items : List ℕ) (past : List Step) (step : Step) → LegalPast layout (step ∷ past)
        → kept layout items (step ∷ past)
        + comes_off step (λ session. unanswered items past session) (λ session. state session past) (λ site. runners site past) (kept_of step past)
        ≡ kept layout items past + comes_on step (λ site. is_down site past) }
    ensures need { (layout : Layout) (items : List ℕ) (past : List Step) (step : Step) → LegalPast layout (step ∷ past)
        → need layout items past step
        ≡ 1 + comes_on step (λ site. is_down site past)
        - comes_off step (λ session. unanswered items past session) (λ session. state session past) (λ site. runners site past) (kept_of step past) }
{}

/// What each kind of step needs in a legal history: no step more than four places, and those by which
/// something comes to its end none, the answer to a counted item among them.
pub fn room_needed()
    ensures route { (layout : Layout) (items : List ℕ) (past : List Step) (txn : TxnId) (want : Want) (least : List ℕ) (site : ℕ) (choice : Choice)
        → LegalPast layout (Route txn want least site choice ∷ past) → need layout items past (Route txn want least site choice) ≡ 2 }
    ensures begin { (layout : Layout) (items : List ℕ) (past : List Step) (site : ℕ) (txn : TxnId) (begin : List ℕ)
        → LegalPast layout (Begin site txn begin ∷ past) → need layout items past (Begin site txn begin) ≡ 1 }
    ensures ask { (layout : Layout) (items : List ℕ) (past : List Step) (part epoch to : ℕ) (txn : TxnId)
        → LegalPast layout (Ask part epoch to txn ∷ past) → need layout items past (Ask part epoch to txn) ≡ 4 }
    ensures refresh { (layout : Layout) (items : List ℕ) (past : List Step) (site origin : ℕ)
        → LegalPast layout (Refresh site origin ∷ past) → need layout items past (Refresh site origin) ≡ 1 }
    ensures moved { (layout : Layout) (items : List ℕ) (past : List Step) (site : ℕ) (txn : TxnId)
        → LegalPast layout (Moved site txn ∷ past) → need layout items past (Moved site txn) ≡ 0 }
    ensures commit { (layout : Layout) (items : List ℕ) (past : List Step) (entry : Entry)
        → LegalPast layout (Commit entry ∷ past) → need layout items past (Commit entry) ≡ 0 }
    ensures end { (layout : Layout) (items : List ℕ) (past : List Step) (site : ℕ) (txn : TxnId) (ops : List Op) (reads : List Pair)
        → LegalPast layout (End site txn ops reads ∷ past) → need layout items past (End site txn ops reads) ≡ 0 }
    ensures fail { (layout : Layout) (items : List ℕ) (past : List Step) (site : ℕ) (txn : TxnId) (cause : Cause)
        → LegalPast layout (Fail site txn cause ∷ past) → need layout items past (Fail site txn cause) ≡ 0 }
    ensures release { (layout : Layout) (items : List ℕ) (past : List Step) (site part epoch to : ℕ) (vector : List ℕ)
        → LegalPast layout (Release site part epoch to vector ∷ past) → need layout items past (Release site part epoch to vector) ≡ 0 }
    ensures grant { (layout : Layout) (items : List ℕ) (past : List Step) (site part epoch : ℕ) (vector : List ℕ)
        → LegalPast layout (Grant site part epoch vector ∷ past) → need layout items past (Grant site part epoch vector) ≡ 0 }
    ensures settle { (layout : Layout) (items : List ℕ) (past : List Step) (part epoch : ℕ)
        → LegalPast layout (Settle part epoch ∷ past) → need layout items past (Settle part epoch) ≡ 0 }
    ensures doubt { (layout : Layout) (items : List ℕ) (past : List Step) (site : ℕ) (pending : Pending)
        → LegalPast layout (Doubt site pending ∷ past) → need layout items past (Doubt site pending) ≡ 0 }
    ensures reply { (layout : Layout) (items : List ℕ) (past : List Step) (session number : ℕ) (said : Said)
        → LegalPast layout (Reply session number said ∷ past) → replies session past < items_of items session
        → need layout items past (Reply session number said) ≡ 0 }
    ensures restart { (layout : Layout) (items : List ℕ) (past : List Step) (site : ℕ) (vector : List ℕ) (found : Found)
        → LegalPast layout (Restart site vector found ∷ past) → need layout items past (Restart site vector found) ≤ 2 }
    ensures each { (layout : Layout) (items : List ℕ) (past : List Step) (step : Step)
        → LegalPast layout (step ∷ past) → need layout items past step ≤ 4 }
{}

/// In a legal history what a step installs of a site's own was to come there: one for each attempt that
/// runs, and one for a commit in doubt. Only a Begin adds to it.
pub fn installs_come()
    ensures { (layout : Layout) (past : List Step) (step : Step) (site : ℕ) → LegalPast layout (step ∷ past)
        → installs_to_come site (step ∷ past) + of_origin site (entry_by step (kept_of step past)) ≤ installs_to_come site past + begins_at site step }
{}
