//! What may come next at a data site: which step is allowed where a site finds its attempts, its
//! partitions and its log so. This crate has no code, and its functions are laws.
#![tactic(auto)]

ghost use Rattle.std.specs.Prelude.{ℕ, ℤ, ◌+◌, ◌<◌, ◌≡◌, ◌≢◌, List, ◌∷◌, Option, Some, None, length, reverse, IsTrue, IsFalse, IsSome, IfSome};
ghost use mathlib.Core.List.{IsPrefix};
ghost use Rattle.dm_body.specs.Progress.{Progress, nothing_done, turn};
ghost use Rattle.dm_chronicle.specs.Rule.{In};
ghost use Rattle.dm_event.specs.Layout.{Layout, is_site};
ghost use Rattle.dm_event.specs.Vectors.{AtMost};
ghost use Rattle.dm_event.specs.declared.actor.Actor.TheVariants.{Session};
ghost use Rattle.dm_event.specs.declared.limits.TheConstants.{MAX_OPS};
ghost use Rattle.dm_event.specs.declared.placing.Placing.TheVariants.{Asked, Between};
ghost use Rattle.dm_event.specs.declared.step.Cause.{Cause};
ghost use Rattle.dm_event.specs.declared.step.Cause.TheVariants.{Damage, Log};
ghost use Rattle.dm_event.specs.declared.step.Choice.{Choice};
ghost use Rattle.dm_event.specs.declared.step.Entry.{Entry};
ghost use Rattle.dm_event.specs.declared.step.Found.{Found};
ghost use Rattle.dm_event.specs.declared.step.Op.{Op};
ghost use Rattle.dm_event.specs.declared.step.Pending.{Pending};
ghost use Rattle.dm_event.specs.declared.step.Step.{Step};
ghost use Rattle.dm_event.specs.declared.step.Step.TheVariants.{Route, Begin, Moved, Commit, End, Fail, Refresh, Release, Grant, Doubt, Restart};
ghost use Rattle.dm_event.specs.declared.step.TxnId.{TxnId};
ghost use Rattle.dm_event.specs.declared.step.Want.{Want};
ghost use Rattle.dm_model.specs.Allowed.{Allowed, elsewhere, holder_among, next_refresh, runner, with_kept};
ghost use Rattle.dm_model.specs.Attempts.{declared, routed};
ghost use Rattle.dm_model.specs.Bodies.{has_writes, written_key};
ghost use Rattle.dm_model.specs.Closed.{Closed};
ghost use Rattle.dm_model.specs.Doubts.{is_down, step_of};
ghost use Rattle.dm_model.specs.Floors.{floor};
ghost use Rattle.dm_model.specs.Legal.{Legal, LegalPast};
ghost use Rattle.dm_model.specs.Placings.{placing};
ghost use Rattle.dm_model.specs.Progress.{entry_count, site_vector};
ghost use Rattle.dm_model.specs.Rows.{found_fits};
ghost use Rattle.dm_model.specs.Runs.{begin_vector, running, runs};
ghost use Rattle.dm_model.specs.Shape.{is_cause, is_cause_at, is_op};
ghost use Rattle.dm_model.specs.Tests.{is_among};
ghost use Rattle.dm_model.specs.Values.{value};
ghost use Rattle.dm_next.specs.Counted.{Counts};
ghost use Rattle.dm_next.specs.Restarts.{IsOwn, StartsAt};
ghost use Rattle.dm_next.specs.Routed.{IsRouted};
ghost use Rattle.dm_next.specs.Running.{Began, Runs, entry_of_run};
ghost use Rattle.dm_others.specs.Adding.{AddsOthers};

/// An attempt that runs at a site may commit what it has done, where that writes, and end where it
/// doesn't, and may fail for each cause that a site has.
pub fn running_attempts_may_end()
    ensures commit { (layout : Layout) (past : List Step) → LegalPast layout past → (site : ℕ) (txn : TxnId) (begin : List ℕ) (done : Progress)
        → Runs layout past site txn begin done → IsTrue (has_writes done.ops)
        → Allowed layout past (Commit (entry_of_run site (entry_count site past + 1) txn begin done)) }
    ensures end { (layout : Layout) (past : List Step) → LegalPast layout past → (site : ℕ) (txn : TxnId) (begin : List ℕ) (done : Progress)
        → Runs layout past site txn begin done → IsFalse (has_writes done.ops)
        → Allowed layout past (End site txn done.ops done.ran.reads) }
    ensures fail { (layout : Layout) (past : List Step) → LegalPast layout past → (site : ℕ) (txn : TxnId) (begin : List ℕ) (done : Progress)
        → Runs layout past site txn begin done → (cause : Cause) → IsTrue (is_cause layout cause) → IsTrue (is_cause_at layout site cause)
        → Allowed layout past (Fail site txn cause) }
{}

/// What is so of a run: an attempt that begins runs and has done nothing; an op more, in range and
/// declared, on the values at the begin vector, leaves it so; and a longer history leaves it so as long
/// as the attempt runs, for the values at its begin vector, of which the site has all, stay.
pub fn runs_stay()
    ensures begins { (layout : Layout) (past : List Step) (site : ℕ) (txn : TxnId) (begin : List ℕ) → Allowed layout past (Begin site txn begin)
        → Runs layout (Begin site txn begin ∷ past) site txn begin nothing_done }
    ensures op { (layout : Layout) (past : List Step) (txn : TxnId) (begin : List ℕ) (done : Progress) (op : Op) (f : ℕ → ℤ)
        → Began layout past txn begin done → length done.ops < MAX_OPS → IsTrue (is_op layout op)
        → IfSome (written_key op) (λ key. IsTrue (is_among (declared txn past) key)) → ((key : ℕ) → f key ≡ value layout past key begin)
        → Began layout past txn begin (turn f done op) }
    ensures longer { (layout : Layout) (old new : List Step) (site : ℕ) (txn : TxnId) (begin : List ℕ) (done : Progress)
        → IsPrefix old new → Legal layout new → IsTrue (is_site layout site) → IsTrue (runs site txn (reverse new))
        → Began layout (reverse old) txn begin done → Runs layout (reverse new) site txn begin done }
    ensures within { (layout : Layout) (past : List Step) (site : ℕ) (txn : TxnId) (begin : List ℕ) → LegalPast layout past
        → IsTrue (runs site txn past) → begin_vector txn past ≡ Some begin → AtMost begin (site_vector layout.sites past site) }
    ensures values { (layout : Layout) (old new : List Step) (txn : TxnId) (begin : List ℕ) → IsPrefix old new → Legal layout new
        → begin_vector txn (reverse old) ≡ Some begin → (key : ℕ) → value layout (reverse new) key begin ≡ value layout (reverse old) key begin }
{}

/// An attempt that stands routed to a site for a transaction may begin there, where the site may begin on
/// all its partitions, has all of its minimum, and no attempt holds one of its keys; is moved where the
/// site may not; may fail for each cause that a site has, whatever it was routed for; and stands routed
/// until its session's next step.
pub fn routed_attempts_may_begin()
    ensures begin { (layout : Layout) (past : List Step) → LegalPast layout past → (site : ℕ) → IsTrue (is_site layout site)
        → (txn : TxnId) (keys min : List ℕ) → IsRouted site txn keys min past → IsFalse (is_down site past)
        → elsewhere layout past site keys ≡ None → AtMost min (site_vector layout.sites past site) → holder_among keys (running site past) past ≡ None
        → Allowed layout past (Begin site txn (site_vector layout.sites past site)) }
    ensures moved { (layout : Layout) (past : List Step) → LegalPast layout past → (site : ℕ) → IsTrue (is_site layout site)
        → (txn : TxnId) (keys min : List ℕ) → IsRouted site txn keys min past → IsFalse (is_down site past)
        → IsSome (elsewhere layout past site keys) → Allowed layout past (Moved site txn) }
    ensures fail { (layout : Layout) (past : List Step) (site : ℕ) (txn : TxnId) (cause : Cause) → LegalPast layout past → IsTrue (is_site layout site)
        → IsSome (routed txn past) → IsTrue (is_cause layout cause) → IsTrue (is_cause_at layout site cause)
        → Allowed layout past (Fail site txn cause) }
    ensures longer { (layout : Layout) (old new : List Step) (site : ℕ) (txn : TxnId) (keys min : List ℕ) → Legal layout new
        → AddsOthers (Session txn.session) old new → IsRouted site txn keys min (reverse old) → IsRouted site txn keys min (reverse new) }
{}

/// A site that is up may release a partition that is asked away from it, where nothing runs on it there,
/// and may be granted one that was released to it, as soon as it has all of the release's vector. Where
/// its log takes neither, the attempt for which it was to come, and which stands routed, may fail.
pub fn hand_overs_may_go_on()
    ensures release { (layout : Layout) (past : List Step) (site part epoch to : ℕ) → LegalPast layout past → IsTrue (is_site layout site)
        → IsFalse (is_down site past) → placing layout past part ≡ Asked site epoch to → runner layout past site part ≡ None
        → Allowed layout past (Release site part epoch to (site_vector layout.sites past site)) }
    ensures grant { (layout : Layout) (past : List Step) (from site part epoch : ℕ) (vector : List ℕ) → LegalPast layout past
        → IsFalse (is_down site past) → placing layout past part ≡ Between from epoch site vector → AtMost vector (site_vector layout.sites past site)
        → Allowed layout past (Grant site part (epoch + 1) vector) }
    ensures fail { (layout : Layout) (past : List Step) (site : ℕ) (txn : TxnId) → LegalPast layout past → IsTrue (is_site layout site)
        → IsSome (routed txn past) → Allowed layout past (Fail site txn (Log site)) }
{}

/// A site's commit, release or grant may be in doubt where it may come, and an attempt that may commit may
/// fail instead. A site may start again at its floor, wherever its log is found so, and else where the
/// vector has what the site may not lose and is closed. Where the log has another byte than was written,
/// an attempt that stands routed may fail for it.
pub fn doubts_and_restarts()
    ensures doubt { (layout : Layout) (past : List Step) (site : ℕ) (pending : Pending) → IsOwn site pending → Allowed layout past (step_of site pending)
        → Allowed layout past (Doubt site pending) }
    ensures fail { (layout : Layout) (past : List Step) (site : ℕ) (entry : Entry) (cause : Cause) → LegalPast layout past
        → Allowed layout past (Commit entry) → entry.origin ≡ site → IsTrue (is_cause layout cause) → IsTrue (is_cause_at layout site cause)
        → Allowed layout past (Fail site entry.txn cause) }
    ensures floor { (layout : Layout) (past : List Step) → LegalPast layout past → (site : ℕ) → IsTrue (is_site layout site)
        → (found : Found) → IsTrue (found_fits found (is_down site past))
        → Allowed layout past (Restart site (floor layout.sites (with_kept site found past) site) found) }
    ensures restart { (layout : Layout) (past : List Step) (site : ℕ) (found : Found) (vector : List ℕ) → IsTrue (is_site layout site)
        → IsTrue (found_fits found (is_down site past)) → StartsAt layout past site found vector
        → Allowed layout past (Restart site vector found) }
    ensures damage { (layout : Layout) (past : List Step) (site : ℕ) (txn : TxnId) (place : ℕ) (read written : Option ℕ) → LegalPast layout past
        → IsTrue (is_site layout site) → IsSome (routed txn past) → read ≢ written
        → Allowed layout past (Fail site txn (Damage site place read written)) }
{}

/// A Route's minimum counts entries that there are, in each later history, and so does a Release's
/// vector, which is closed besides; what counts them goes on to; and a site that is up and has no Refresh
/// to come has all that is counted.
pub fn minima_are_reached()
    ensures route { (layout : Layout) (past : List Step) (txn : TxnId) (want : Want) (min : List ℕ) (site : ℕ) (choice : Choice) → LegalPast layout past
        → In (Route txn want min site choice) past → Counts layout past min }
    ensures routed { (layout : Layout) (past : List Step) (site : ℕ) (txn : TxnId) (keys min : List ℕ) → LegalPast layout past
        → IsRouted site txn keys min past → Counts layout past min }
    ensures release { (layout : Layout) (past : List Step) (site part epoch to : ℕ) (vector : List ℕ) → LegalPast layout past
        → In (Release site part epoch to vector) past → Counts layout past vector × Closed vector past }
    ensures between { (layout : Layout) (past : List Step) (from part epoch to : ℕ) (vector : List ℕ) → LegalPast layout past
        → placing layout past part ≡ Between from epoch to vector → Counts layout past vector × Closed vector past }
    ensures closed { (layout : Layout) (past : List Step) (to : List ℕ) → length to ≡ layout.sites → Closed to past → Counts layout past to }
    ensures longer { (layout : Layout) (old new : List Step) (to : List ℕ) → IsPrefix old new
        → Counts layout (reverse old) to → Counts layout (reverse new) to }
    ensures due { (layout : Layout) (past : List Step) (site origin : ℕ) → next_refresh layout past site ≡ Some origin
        → Allowed layout past (Refresh site origin) }
    ensures reached { (layout : Layout) (past : List Step) (site : ℕ) (to : List ℕ) → LegalPast layout past → IsTrue (is_site layout site)
        → IsFalse (is_down site past) → next_refresh layout past site ≡ None → Counts layout past to
        → AtMost to (site_vector layout.sites past site) }
{}
