//! What the steps of others leave a site, which attempts are new, which runs begin and end, and what
//! comes to a site's log. This crate has no code, and its functions are laws.
#![tactic(auto)]

ghost use Rattle.std.specs.List.{list_any};
ghost use Rattle.std.specs.Prelude.{ℕ, suc, ◌≡◌, ◌++◌, true, false, is_some, List, [], ◌∷◌, Some, None, map, option_map, option_to_list, reverse};
ghost use Rattle.dm_chronicle.specs.Belongs.{belongs};
ghost use Rattle.dm_event.specs.Actors.{actors};
ghost use Rattle.dm_event.specs.Layout.{Layout};
ghost use Rattle.dm_event.specs.declared.actor.Actor.TheVariants.{Site};
ghost use Rattle.dm_event.specs.declared.step.Cause.{Cause};
ghost use Rattle.dm_event.specs.declared.step.Cause.TheVariants.{Log};
ghost use Rattle.dm_event.specs.declared.step.Choice.{Choice};
ghost use Rattle.dm_event.specs.declared.step.Entry.{Entry};
ghost use Rattle.dm_event.specs.declared.step.Found.{Found};
ghost use Rattle.dm_event.specs.declared.step.Found.TheVariants.{Kept};
ghost use Rattle.dm_event.specs.declared.step.Op.{Op};
ghost use Rattle.dm_event.specs.declared.step.Pair.{Pair};
ghost use Rattle.dm_event.specs.declared.step.Pending.{Pending};
ghost use Rattle.dm_event.specs.declared.step.Step.{Step};
ghost use Rattle.dm_event.specs.declared.step.Step.TheVariants.{Route, Begin, Commit, End, Fail, Release, Grant, Doubt, Restart};
ghost use Rattle.dm_event.specs.declared.step.TxnId.{TxnId};
ghost use Rattle.dm_event.specs.declared.step.Want.{Want};
ghost use Rattle.dm_frames.specs.Records.{commit_record, pending_record, records_of};
ghost use Rattle.dm_locks.specs.Claims.{is_of, without};
ghost use Rattle.dm_locks.specs.declared.claim.Claim.{Claim};
ghost use Rattle.dm_model.specs.Acts.{acts_of};
ghost use Rattle.dm_model.specs.Attempts.{Routing, declared, routing, routed};
ghost use Rattle.dm_model.specs.Doubts.{is_down, pending_at};
ghost use Rattle.dm_model.specs.Legal.{Legal, LegalPast};
ghost use Rattle.dm_model.specs.Progress.{entry_count, site_vector};
ghost use Rattle.dm_model.specs.Runs.{begin_vector, running, runs};
ghost use Rattle.dm_others.specs.Adding.{AddsOthers};
ghost use Rattle.dm_others.specs.Faults.{faults};
ghost use Rattle.dm_others.specs.Locking.{claimed, claims, IsSent};
ghost use Rattle.dm_record.specs.declared.record.Record.TheVariants as record_is;

/// What a step that isn't the site's leaves there as it is: how many entries the site has made, how far
/// it has come, whether it is down and with which step in doubt, its records, the faults of its log, who
/// runs, and their keys.
pub fn steps_of_others()
    ensures entries { (layout : Layout) (past : List Step) (step : Step) (site : ℕ) → LegalPast layout (step ∷ past) → belongs actors step (Site site) ≡ false
        → entry_count site (step ∷ past) ≡ entry_count site past }
    ensures vector { (layout : Layout) (past : List Step) (step : Step) (site : ℕ) → LegalPast layout (step ∷ past) → belongs actors step (Site site) ≡ false
        → site_vector layout.sites (step ∷ past) site ≡ site_vector layout.sites past site }
    ensures down { (past : List Step) (step : Step) (site : ℕ) → belongs actors step (Site site) ≡ false
        → is_down site (step ∷ past) ≡ is_down site past }
    ensures pending { (past : List Step) (step : Step) (site : ℕ) → belongs actors step (Site site) ≡ false
        → pending_at site (step ∷ past) ≡ pending_at site past }
    ensures records { (layout : Layout) (past : List Step) (step : Step) (site : ℕ) → LegalPast layout (step ∷ past) → belongs actors step (Site site) ≡ false
        → records_of site (step ∷ past) ≡ records_of site past }
    ensures faults { (past : List Step) (step : Step) (site : ℕ) → belongs actors step (Site site) ≡ false
        → faults site (step ∷ past) ≡ faults site past }
    ensures running { (layout : Layout) (past : List Step) (step : Step) (site : ℕ) → LegalPast layout (step ∷ past) → belongs actors step (Site site) ≡ false
        → running site (step ∷ past) ≡ running site past }
    ensures claims { (layout : Layout) (past : List Step) (step : Step) (site : ℕ) → LegalPast layout (step ∷ past) → belongs actors step (Site site) ≡ false
        → claims site (step ∷ past) ≡ claims site past }
{}

/// So does a longer list with no further step of the site's; here lists have the earliest step first.
pub fn others_leave()
    ensures entries { (layout : Layout) (old new : List Step) (site : ℕ) → Legal layout new → AddsOthers (Site site) old new
        → entry_count site (reverse new) ≡ entry_count site (reverse old) }
    ensures vector { (layout : Layout) (old new : List Step) (site : ℕ) → Legal layout new → AddsOthers (Site site) old new
        → site_vector layout.sites (reverse new) site ≡ site_vector layout.sites (reverse old) site }
    ensures down { (layout : Layout) (old new : List Step) (site : ℕ) → Legal layout new → AddsOthers (Site site) old new
        → is_down site (reverse new) ≡ is_down site (reverse old) }
    ensures pending { (layout : Layout) (old new : List Step) (site : ℕ) → Legal layout new → AddsOthers (Site site) old new
        → pending_at site (reverse new) ≡ pending_at site (reverse old) }
    ensures records { (layout : Layout) (old new : List Step) (site : ℕ) → Legal layout new → AddsOthers (Site site) old new
        → records_of site (reverse new) ≡ records_of site (reverse old) }
    ensures faults { (layout : Layout) (old new : List Step) (site : ℕ) → Legal layout new → AddsOthers (Site site) old new
        → faults site (reverse new) ≡ faults site (reverse old) }
    ensures running { (layout : Layout) (old new : List Step) (site : ℕ) → Legal layout new → AddsOthers (Site site) old new
        → running site (reverse new) ≡ running site (reverse old) }
    ensures claims { (layout : Layout) (old new : List Step) (site : ℕ) → Legal layout new → AddsOthers (Site site) old new
        → claims site (reverse new) ≡ claims site (reverse old) }
{}

/// An attempt is routed once and begins once. A Route's attempt is new, so it has not begun, and its
/// Route stays the one: who was sent to a site has the keys with which it was sent. An attempt that may
/// begin hasn't begun, and its begin vector stays; one that has begun had a Route, and isn't routed any
/// more.
pub fn attempts_are_new()
    ensures route { (layout : Layout) (past : List Step) (txn : TxnId) (want : Want) (least : List ℕ) (site : ℕ) (choice : Choice)
        → LegalPast layout (Route txn want least site choice ∷ past) → routing txn past ≡ None }
    ensures unbegun { (layout : Layout) (past : List Step) (txn : TxnId) (want : Want) (least : List ℕ) (site : ℕ) (choice : Choice)
        → LegalPast layout (Route txn want least site choice ∷ past) → begin_vector txn past ≡ None }
    ensures kept { (layout : Layout) (past : List Step) (step : Step) (txn : TxnId) (route : Routing)
        → LegalPast layout (step ∷ past) → routing txn past ≡ Some route → routing txn (step ∷ past) ≡ Some route }
    ensures keys { (layout : Layout) (past : List Step) (site : ℕ) (claim : Claim) → LegalPast layout past → IsSent site past claim
        → claimed past claim.txn ≡ claim }
    ensures begin { (layout : Layout) (past : List Step) (site : ℕ) (txn : TxnId) (begin : List ℕ)
        → LegalPast layout (Begin site txn begin ∷ past) → begin_vector txn past ≡ None }
    ensures stays { (layout : Layout) (past : List Step) (step : Step) (txn : TxnId) (begin : List ℕ)
        → LegalPast layout (step ∷ past) → begin_vector txn past ≡ Some begin → begin_vector txn (step ∷ past) ≡ Some begin }
    ensures sent { (layout : Layout) (past : List Step) (txn : TxnId) → LegalPast layout past → is_some (begin_vector txn past) ≡ true
        → is_some (routing txn past) ≡ true }
    ensures unrouted { (layout : Layout) (past : List Step) (txn : TxnId) → LegalPast layout past → is_some (begin_vector txn past) ≡ true
        → routed txn past ≡ None }
{}

/// An attempt that begins stands last among those that run at the site; an attempt has a claim there
/// exactly where it runs there, and its keys stay while it does.
pub fn runs_begin()
    ensures begin { (layout : Layout) (past : List Step) (site : ℕ) (txn : TxnId) (begin : List ℕ) → LegalPast layout (Begin site txn begin ∷ past)
        → claims site (Begin site txn begin ∷ past) ≡ claims site past ++ claimed past txn ∷ [] }
    ensures holds { (past : List Step) (site : ℕ) (txn : TxnId) → list_any (is_of txn) (claims site past) ≡ runs site txn past }
    ensures keys { (layout : Layout) (past : List Step) (step : Step) (site : ℕ) (txn : TxnId) → LegalPast layout (step ∷ past)
        → runs site txn past ≡ true → declared txn (step ∷ past) ≡ declared txn past }
{}

/// A Commit, End or Fail takes its attempt out of those that run at any site, and no other; a Doubt or
/// Restart of the site takes all.
pub fn runs_end()
    ensures commit { (layout : Layout) (past : List Step) (site : ℕ) (entry : Entry) → LegalPast layout (Commit entry ∷ past)
        → claims site (Commit entry ∷ past) ≡ without entry.txn (claims site past) }
    ensures end { (layout : Layout) (past : List Step) (site at : ℕ) (txn : TxnId) (ops : List Op) (reads : List Pair)
        → LegalPast layout (End at txn ops reads ∷ past) → claims site (End at txn ops reads ∷ past) ≡ without txn (claims site past) }
    ensures fail { (layout : Layout) (past : List Step) (site at : ℕ) (txn : TxnId) (cause : Cause)
        → LegalPast layout (Fail at txn cause ∷ past) → claims site (Fail at txn cause ∷ past) ≡ without txn (claims site past) }
    ensures doubt { (past : List Step) (site : ℕ) (pending : Pending) → claims site (Doubt site pending ∷ past) ≡ [] }
    ensures restart { (past : List Step) (site : ℕ) (vector : List ℕ) (found : Found) → claims site (Restart site vector found ∷ past) ≡ [] }
{}

/// What comes to a site's records: an act of the site adds its own at the end, and a Restart that keeps
/// the pending step adds that one's; no other step adds one.
pub fn records_come()
    ensures commit { (past : List Step) (entry : Entry)
        → records_of entry.origin (Commit entry ∷ past) ≡ records_of entry.origin past ++ commit_record entry ∷ [] }
    ensures release { (past : List Step) (site part epoch to : ℕ) (vector : List ℕ)
        → records_of site (Release site part epoch to vector ∷ past) ≡ records_of site past ++ record_is.Release part epoch to vector ∷ [] }
    ensures grant { (past : List Step) (site part epoch : ℕ) (vector : List ℕ)
        → records_of site (Grant site part epoch vector ∷ past) ≡ records_of site past ++ record_is.Grant part epoch vector ∷ [] }
    ensures kept { (layout : Layout) (past : List Step) (site : ℕ) (vector : List ℕ) → LegalPast layout (Restart site vector Kept ∷ past)
        → records_of site (Restart site vector Kept ∷ past) ≡ records_of site past ++ option_to_list (option_map pending_record (pending_at site past)) }
    ensures none { (past : List Step) (step : Step) (site : ℕ) → acts_of step past ≡ [] → records_of site (step ∷ past) ≡ records_of site past }
{}

/// Each Fail at the site for a log, and each Doubt of the site, is one fault more.
pub fn faults_come()
    ensures fail { (past : List Step) (site at : ℕ) (txn : TxnId) → faults site (Fail site txn (Log at) ∷ past) ≡ suc (faults site past) }
    ensures doubt { (past : List Step) (site : ℕ) (pending : Pending) → faults site (Doubt site pending ∷ past) ≡ suc (faults site past) }
{}
