//! What holds of a data site whenever its lock is free, and what keeps it so: the steps of others, each step
//! of its own, an append to its log and what comes of it, and a load of the log. This crate has no code, and
//! its functions are laws.
#![tactic(auto)]

ghost use Rattle.std.specs.List.{AllByRecursion as Each};
ghost use Rattle.std.specs.Prelude.{ℕ, ◌≡◌, ◌+◌, Bool, List, [], ◌∷◌, ◌++◌, Option, Some, None, Result, Ok, Err, IsFalse, IsSome, IsTrue, reverse};
ghost use mathlib.Core.List.{IsPrefix};
ghost use Rattle.dm_body.specs.Progress.{Progress};
ghost use Rattle.dm_event.specs.Layout.{Layout, is_site};
ghost use Rattle.dm_event.specs.Vectors.{AtMost};
ghost use Rattle.dm_event.specs.declared.actor.Actor.TheVariants.{Session, Site};
ghost use Rattle.dm_event.specs.declared.attempt.AttemptState.TheVariants.{Dropped};
ghost use Rattle.dm_event.specs.declared.placing.Placing.TheVariants.{Asked, Between};
ghost use Rattle.dm_event.specs.declared.step.Cause.{Cause};
ghost use Rattle.dm_event.specs.declared.step.Cause.TheVariants.{Damage, Log, Memory};
ghost use Rattle.dm_event.specs.declared.step.Choice.{Choice};
ghost use Rattle.dm_event.specs.declared.step.Entry.{Entry};
ghost use Rattle.dm_event.specs.declared.step.Found.{Found};
ghost use Rattle.dm_event.specs.declared.step.Found.TheVariants.{Clean};
ghost use Rattle.dm_event.specs.declared.step.Op.{Op};
ghost use Rattle.dm_event.specs.declared.step.Pair.{Pair};
ghost use Rattle.dm_event.specs.declared.step.Pending.{Pending};
ghost use Rattle.dm_event.specs.declared.step.Step.{Step};
ghost use Rattle.dm_event.specs.declared.step.Step.TheVariants.{Begin, Moved, Commit, End, Fail, Refresh, Release, Grant, Restart};
ghost use Rattle.dm_event.specs.declared.step.TxnId.{TxnId};
ghost use Rattle.dm_event.specs.declared.step.Want.{Want};
ghost use Rattle.dm_event.specs.declared.step.Want.TheVariants as want;
ghost use Rattle.dm_frames.specs.Records.{frames_of, pending_record};
ghost use Rattle.dm_invariant.specs.Appending.{AppendedTo, MayWrite};
ghost use Rattle.dm_invariant.specs.Keeping.{Keeps, Parts};
ghost use Rattle.dm_invariant.specs.Lasting.{Lasts};
ghost use Rattle.dm_invariant.specs.Loading.{LoadedAgainst};
ghost use Rattle.dm_invariant.specs.Logs.{Crashes, doubted};
ghost use Rattle.dm_invariant.specs.Running.{RoutedFor};
ghost use Rattle.dm_invariant.specs.Stations.{View, layout_of, own};
ghost use Rattle.dm_invariant.specs.Writing.{installed_after, let_go, locks_after, step_after};
ghost use Rattle.dm_locks.specs.Claims.{without};
ghost use Rattle.dm_locks.specs.Locks.{Locks, no_locks};
ghost use Rattle.dm_logdisk.specs.Story.{Both, Story};
ghost use Rattle.dm_model.specs.Allowed.{Allowed, next_entry, runner};
ghost use Rattle.dm_model.specs.Attempts.{routed, state};
ghost use Rattle.dm_model.specs.Bodies.{has_writes};
ghost use Rattle.dm_model.specs.Doubts.{is_down};
ghost use Rattle.dm_model.specs.Legal.{Legal};
ghost use Rattle.dm_model.specs.Placings.{placing};
ghost use Rattle.dm_model.specs.Progress.{entry_count, site_vector};
ghost use Rattle.dm_model.specs.Runs.{runs};
ghost use Rattle.dm_model.specs.Shape.{is_cause, is_cause_at};
ghost use Rattle.dm_next.specs.Running.{Began, entry_of_run};
ghost use Rattle.dm_others.specs.Adding.{AddsOthers};
ghost use Rattle.dm_others.specs.Locking.{IsSent, claimed};
ghost use Rattle.dm_record.specs.Bytes.{frame_of};
ghost use Rattle.dm_redo.specs.declared.appending.Appended.{Appended};
ghost use Rattle.dm_redo.specs.declared.comparing.AgainstFault.{AgainstFault};
ghost use Rattle.dm_redo.specs.declared.comparing.AgainstFault.TheVariants as fault;
ghost use Rattle.dm_restart.specs.Histories.{logged};
ghost use Rattle.dm_restart.specs.Plans.{completed};
ghost use Rattle.dm_store.specs.Contents.{Contents};
ghost use Rattle.dm_store.specs.Histories.{committed_inside, past_of};

/// A longer legal history with no further step of the site leaves all that the site keeps as it is.
pub fn others_keep_it()
    ensures { (layout : Layout) (opened : List ℕ) (site : ℕ) (old new : List Step) (parts : Parts) → Legal layout new → AddsOthers (Site site) old new
        → Keeps layout opened site (reverse old) parts → Keeps layout opened site (reverse new) parts }
{}

/// The site's own steps that write no record. An attempt that begins is the last that holds keys, and one
/// that ends or fails for memory holds none any more; who waits afterwards was sent to the site; and at a
/// Refresh the entry is installed behind all others.
pub fn own_steps_keep_it()
    ensures begin { (layout : Layout) (opened : List ℕ) (site : ℕ) (past : List Step) (parts : Parts) → Keeps layout opened site past parts
        → (txn : TxnId) (begin : List ℕ) → Allowed layout past (Begin site txn begin)
        → (locks : Locks) → locks.holders ≡ parts.locks.holders ++ claimed past txn ∷ [] → Each (IsSent site past) locks.waiters
        → Keeps layout opened site (Begin site txn begin ∷ past) (record parts { locks = locks }) }
    ensures moved { (layout : Layout) (opened : List ℕ) (site : ℕ) (past : List Step) (parts : Parts) → Keeps layout opened site past parts
        → (txn : TxnId) → Allowed layout past (Moved site txn)
        → (locks : Locks) → locks.holders ≡ parts.locks.holders → Each (IsSent site past) locks.waiters
        → Keeps layout opened site (Moved site txn ∷ past) (record parts { locks = locks }) }
    ensures end { (layout : Layout) (opened : List ℕ) (site : ℕ) (past : List Step) (parts : Parts) → Keeps layout opened site past parts
        → (txn : TxnId) (ops : List Op) (reads : List Pair) → Allowed layout past (End site txn ops reads)
        → Keeps layout opened site (End site txn ops reads ∷ past) (record parts { locks = let_go txn parts.locks }) }
    ensures fail { (layout : Layout) (opened : List ℕ) (site : ℕ) (past : List Step) (parts : Parts) → Keeps layout opened site past parts
        → (txn : TxnId) → Allowed layout past (Fail site txn Memory)
        → Keeps layout opened site (Fail site txn Memory ∷ past) (record parts { locks = let_go txn parts.locks }) }
    ensures refresh { (layout : Layout) (opened : List ℕ) (site : ℕ) (past : List Step) (parts : Parts) → Keeps layout opened site past parts
        → (origin : ℕ) (entry : Entry) → Allowed layout past (Refresh site origin) → next_entry layout past site origin ≡ Some entry
        → (store : Contents) → store.layout ≡ parts.store.layout → store.installed ≡ parts.store.installed ++ past_of entry ∷ []
        → Keeps layout opened site (Refresh site origin ∷ past) (record parts { store = store }) }
{}

/// An append to the live log of a site that is up, of the record of a step that may come, and then the step
/// that comes of it: its own where the append is done, else the attempt's Fail for the log, or the site's
/// Doubt. That step is allowed, the site keeps what it keeps, and a crash at any moment of it leaves the
/// site's records, or these and the one that was being appended.
pub fn appends_keep_it()
    ensures allowed { (layout : Layout) (site : ℕ) (past : List Step) (txn : TxnId) (pending : Pending) (result : Appended)
        → MayWrite layout site past txn pending → Allowed layout past (step_after site txn pending result) }
    ensures keeps { (layout : Layout) (opened : List ℕ) (site : ℕ) (past : List Step) (parts : Parts) (txn : TxnId) (pending : Pending) (result : Appended)
        (store : Contents) (live : Bool) (gate : ℕ) (told : Option Story) (faults : ℕ) → Keeps layout opened site past parts
        → MayWrite layout site past txn pending → IsTrue parts.live → AppendedTo parts (frame_of (pending_record pending)) result live gate told faults
        → store.layout ≡ parts.store.layout → store.installed ≡ installed_after pending result parts.store.installed
        → Keeps layout opened site (step_after site txn pending result ∷ past)
        (record { store = store; locks = locks_after pending result parts.locks; live = live; gate = gate; told = told; faults = faults }) }
    ensures crash { (layout : Layout) (opened : List ℕ) (site : ℕ) (parts : Parts) (old new : View) (turn : List Step) (txn : TxnId) (pending : Pending)
        (result : Appended) (live : Bool) (gate : ℕ) (told : Option Story) (faults : ℕ) → Keeps layout opened site (reverse old.seen) parts
        → IsTrue parts.live → layout_of new ≡ layout → IsPrefix old.seen turn → IsPrefix turn new.seen → IsFalse (is_down site (reverse old.seen))
        → MayWrite layout site (reverse turn) txn pending → AppendedTo parts (frame_of (pending_record pending)) result live gate told faults
        → Both (Crashes site old new) parts.told told }
    ensures still { (layout : Layout) (opened : List ℕ) (site : ℕ) (parts : Parts) (old new : View) (told : Option Story)
        → Keeps layout opened site (reverse old.seen) parts → told ≡ parts.told → Both (Crashes site old new) parts.told told }
{}

/// A load of the log against the frames of the site's records, and of the step in doubt where the site is
/// down: it keeps all, whatever it answers. Where the disk failed, or has other bytes than were written,
/// an attempt may fail for it; where the log agrees the site may start again with what a plan installs; and
/// a crash inside it leaves no more than one before it.
pub fn loads_keep_it()
    ensures keeps { (layout : Layout) (opened : List ℕ) (site : ℕ) (past : List Step) (parts : Parts) → Keeps layout opened site past parts
        → (result : Result Found AgainstFault) (live : Bool) (gate : ℕ) (told : Option Story) (faults : ℕ)
        → LoadedAgainst parts (frames_of site past) (doubted site past) result live gate told faults
        → Keeps layout opened site past (record parts { live = live; gate = gate; told = told; faults = faults }) }
    ensures log { (layout : Layout) (opened : List ℕ) (site : ℕ) (past : List Step) (parts : Parts) → Keeps layout opened site past parts
        → (result : Result Found AgainstFault) (live : Bool) (gate : ℕ) (told : Option Story) (faults : ℕ)
        → LoadedAgainst parts (frames_of site past) (doubted site past) result live gate told faults
        → (txn : TxnId) (locks : Locks) → result ≡ Err fault.Log → Allowed layout past (Fail site txn (Log site))
        → locks.holders ≡ without txn parts.locks.holders → locks.waiters ≡ parts.locks.waiters
        → Keeps layout opened site (Fail site txn (Log site) ∷ past)
        (record parts { locks = locks; live = live; gate = gate; told = told; faults = faults }) }
    ensures damage { (layout : Layout) (opened : List ℕ) (site : ℕ) (past : List Step) (parts : Parts) → Keeps layout opened site past parts
        → (result : Result Found AgainstFault) (live : Bool) (gate : ℕ) (told : Option Story) (faults : ℕ)
        → LoadedAgainst parts (frames_of site past) (doubted site past) result live gate told faults
        → (txn : TxnId) (locks : Locks) (place : ℕ) (read written : Option ℕ) → result ≡ Err (fault.Differs place read written)
        → Allowed layout past (Fail site txn (Damage site place read written))
        → locks.holders ≡ without txn parts.locks.holders → locks.waiters ≡ parts.locks.waiters
        → Keeps layout opened site (Fail site txn (Damage site place read written) ∷ past)
        (record parts { locks = locks; live = live; gate = gate; told = told; faults = faults }) }
    ensures restart { (layout : Layout) (opened : List ℕ) (site : ℕ) (past : List Step) (parts : Parts) → Keeps layout opened site past parts
        → (result : Result Found AgainstFault) (live : Bool) (gate : ℕ) (told : Option Story) (faults : ℕ)
        → LoadedAgainst parts (frames_of site past) (doubted site past) result live gate told faults
        → (found : Found) (vector : List ℕ) (store : Contents) → result ≡ Ok found → Allowed layout past (Restart site vector found)
        → (found ≡ Clean → (txn : TxnId) × (min : List ℕ) × (choice : Choice)
        × (routed txn past ≡ Some (record { txn = txn; want = want.Restart; min = min; site = site; choice = choice })))
        → store.layout ≡ layout → store.installed ≡ completed site (logged site found past) (committed_inside (reverse past) vector)
        → Keeps layout opened site (Restart site vector found ∷ past)
        (record { store = store; locks = no_locks; live = live; gate = gate; told = told; faults = faults }) }
    ensures crash { (layout : Layout) (opened : List ℕ) (site : ℕ) (parts : Parts) (old new : View) (result : Result Found AgainstFault)
        (live : Bool) (gate : ℕ) (told : Option Story) (faults : ℕ) → Keeps layout opened site (reverse old.seen) parts
        → LoadedAgainst parts (frames_of site (reverse old.seen)) (doubted site (reverse old.seen)) result live gate told faults
        → Both (Crashes site old new) parts.told told }
{}

/// What a crash leaves through two calls of a site, one after the other: the site's records at the
/// beginning, or these and one further, where no step of the site came in the first.
pub fn crashes_add_up()
    ensures { (site : ℕ) (old mid new : View) (before between now : Option Story) → layout_of mid ≡ layout_of new
        → AddsOthers (Site site) old.seen mid.seen → Legal (layout_of new) mid.seen → IsPrefix mid.seen new.seen
        → Both (Crashes site old mid) before between → Both (Crashes site mid new) between now → Both (Crashes site old new) before now }
{}

/// Steps that stay allowed until the site or the session does a step, whatever others do: the Commit of what
/// an attempt that runs has done, a Release of what is asked away, a Grant of what is on its way to a site
/// that has all of the release's vector, and the Fails of attempts that run or stand routed. So a record may
/// be appended before its step is pushed.
pub fn steps_last()
    ensures commit { (layout : Layout) (was old : List Step) (site : ℕ) (txn : TxnId) (begin : List ℕ) (done : Progress)
        → IsPrefix was old → IsTrue (is_site layout site) → IsTrue (runs site txn (reverse old))
        → Began layout (reverse was) txn begin done → IsTrue (has_writes done.ops)
        → Lasts layout (Site site) (Session txn.session) old (Commit (entry_of_run site (entry_count site (reverse old) + 1) txn begin done)) }
    ensures release { (layout : Layout) (old : List Step) (session site part epoch to : ℕ) → IsTrue (is_site layout site)
        → IsFalse (is_down site (reverse old)) → placing layout (reverse old) part ≡ Asked site epoch to → runner layout (reverse old) site part ≡ None
        → Lasts layout (Site site) (Session session) old (Release site part epoch to (site_vector layout.sites (reverse old) site)) }
    ensures grant { (layout : Layout) (old : List Step) (session from site part epoch : ℕ) (vector : List ℕ) → IsTrue (is_site layout site)
        → IsFalse (is_down site (reverse old)) → placing layout (reverse old) part ≡ Between from epoch site vector
        → AtMost vector (site_vector layout.sites (reverse old) site)
        → Lasts layout (Site site) (Session session) old (Grant site part (epoch + 1) vector) }
    ensures run_fail { (layout : Layout) (was old : List Step) (site : ℕ) (txn : TxnId) (begin : List ℕ) (done : Progress) (cause : Cause)
        → IsPrefix was old → IsTrue (is_site layout site) → IsTrue (runs site txn (reverse old))
        → Began layout (reverse was) txn begin done → IsTrue (is_cause layout cause) → IsTrue (is_cause_at layout site cause)
        → Lasts layout (Site site) (Session txn.session) old (Fail site txn cause) }
    ensures routed_fail { (layout : Layout) (old : List Step) (site : ℕ) (txn : TxnId) (cause : Cause) → IsTrue (is_site layout site)
        → IsSome (routed txn (reverse old)) → IsTrue (is_cause layout cause) → IsTrue (is_cause_at layout site cause)
        → Lasts layout (Site site) (Session txn.session) old (Fail site txn cause) }
{}

/// What a session's last own step tells: after a Route it stands routed by it; and after a Begin at a site
/// where the attempt doesn't run any more, that was dropped.
pub fn sessions_tell()
    ensures routed { (txn : TxnId) (wanted : Want) (min : List ℕ) (site : ℕ) (pass : View) → (sent : RoutedFor txn wanted min site pass)
        → routed txn (reverse pass.seen) ≡ Some (record { txn = txn; want = wanted; min = min; site = site; choice = sent.1 }) }
    ensures dropped { (layout : Layout) (steps before : List Step) (site : ℕ) (txn : TxnId) (begin : List ℕ) → Legal layout steps
        → own (Session txn.session) steps ≡ before ++ Begin site txn begin ∷ [] → IsFalse (runs site txn (reverse steps))
        → state txn.session (reverse steps) ≡ Dropped }
{}
