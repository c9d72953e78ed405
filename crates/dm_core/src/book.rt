//! The history so far, and what it says.

ghost use Rattle.std.specs.List.{AllByRecursion, list_all};
ghost use Rattle.std.specs.Prelude.{ℕ, ◌≡◌, ◌<◌, ◌≤◌, ◌^◌, ◌↔◌, ◌++◌, ◌∷◌, [], true, false, None, Some, length, IfOk, IfSome, IsNone, OnOk, OnErr, MatchResult, option_copied, option_map, reverse, take};
ghost use Rattle.dm_event.specs.Layout.{is_key, is_site};
ghost use Rattle.dm_core.specs.Ledger.{past};
ghost use Rattle.dm_frames.specs.Records.{frames_of, pending_record, records_of};
ghost use Rattle.dm_model.specs.Acts.{entry_at};
ghost use Rattle.dm_kept.specs.Roomy.{HasRoom};
ghost use Rattle.dm_model.specs.Allowed.{Allowed, elsewhere, next_entry, next_refresh, refusal, runner, with_kept};
ghost use Rattle.dm_model.specs.Attempts.{attempt, declared, replies, routes, wanted_keys, wants_txn};
ghost use Rattle.dm_model.specs.Choices.{choice_due};
ghost use Rattle.dm_model.specs.Doubts.{is_down, pending_at};
ghost use Rattle.dm_model.specs.Floors.{floor};
ghost use Rattle.dm_model.specs.Legal.{Legal};
ghost use Rattle.dm_model.specs.OneMaster.{OneMaster};
ghost use Rattle.dm_model.specs.Ordered.{Ordered};
ghost use Rattle.dm_model.specs.Outcomes.{said_due};
ghost use Rattle.dm_model.specs.Placings.{placing};
ghost use Rattle.dm_model.specs.Progress.{entry_count, full, site_vector};
ghost use Rattle.dm_model.specs.Runs.{begin_vector};
ghost use Rattle.dm_model.specs.SessionUp.{SessionUp};
ghost use Rattle.dm_model.specs.Sessions.{session_vector};
ghost use Rattle.dm_model.specs.Snapshot.{Snapshot};
ghost use Rattle.dm_model.specs.Values.{value};
ghost use Rattle.dm_record.specs.Bytes.{HasRanges, IsInRange, frame_of};
ghost use Rattle.dm_room.specs.Room.{need};
ghost use Rattle.dm_store.specs.Histories.{committed_inside};
ghost use Rattle.dm_told.specs.Asking.{is_current};

use crate::counting::full;
use crate::doubts::pending_at;
use crate::inside::inside;
use dm_event::{
    Attempt, Choice, Entry, Found, Key, MAX_SESSIONS, NoMemory, Part, Pending, Placing, Said,
    Schema, SiteNo, Step, TxnId, Value, Vector, Want, Why,
};
use dm_kept::Kept;
use dm_model::refreshes_reach_full;
use dm_record::Frame;
use dm_store::Past;
use dm_told::{Told, stands_routed};
use std::alloc::Global;
use std::marker::Model;

/// The history so far, each step of which was allowed by those before it. No question but those for
/// whole lists costs more the longer the history is, where its call doesn't say so.
#[derive(Drop)]
pub struct Book {
    kept: Kept,
}

impl Model for Book {
    ghost use Rattle.dm_core.specs.Ledger.{Ledger};

    ghost Value = { Ledger };

    ghost view = { λ b. b.kept };
}

impl Book {
    /// An empty history. `items` has the number of scripted items of each of the 32 sessions, 0 where
    /// there is no script.
    pub fn new(alloc: Global, schema: &Schema, items: &[u32]) -> Result<Book, NoMemory>
        requires { length items.now ≡ MAX_SESSIONS }
        ensures schema { IfOk result (λ book. book.layout ≡ schema.now) }
        ensures items { IfOk result (λ book. book.items ≡ items.now) }
        ensures empty { IfOk result (λ book. book.steps ≡ []) }
    {
        Ok(Book {
            kept: Kept::new(alloc, schema, items)?,
        })
    }

    /// The history, the earliest step first.
    pub fn steps(&self) -> &[Step]
        ensures same { result.now ≡ self.now.steps }
        ensures legal { Legal self.now.layout result.now }
        ensures snapshot { Snapshot self.now.layout result.now }
        ensures ordered { Ordered result.now }
        ensures session_up { SessionUp self.now.layout result.now }
        ensures one_master { OneMaster self.now.layout result.now }
    {
        self.kept.is_legal();
        self.kept.steps()
    }

    /// The history, the earliest step first.
    pub fn into_steps(self) -> Vec<Step>
        ensures same { result.items ≡ self.steps }
        ensures legal { Legal self.layout result.items }
        ensures snapshot { Snapshot self.layout result.items }
        ensures ordered { Ordered result.items }
        ensures session_up { SessionUp self.layout result.items }
        ensures one_master { OneMaster self.layout result.items }
    {
        let Book { kept } = self;
        kept.is_legal();
        kept.into_steps()
    }

    pub fn schema(&self) -> &Schema
        ensures { result.now ≡ self.now.layout }
    {
        self.kept.schema()
    }

    /// The key's value at the vector.
    pub fn value(&self, key: Key, at: &Vector) -> Value
        ensures { result ≡ value self.now.layout (past self.now) key at.now }
    {
        self.kept.value(key, at)
    }

    /// The number of committed update transactions of each origin.
    pub fn full(&self) -> Vector
        ensures { result ≡ full self.now.layout.sites (past self.now) }
    {
        full(&self.kept)
    }

    /// The committed update transactions inside the vector, in the history's order: what a store needs
    /// that is to read at this vector.
    pub fn past(&self, alloc: Global, upto: &Vector) -> Result<Vec<Past>, NoMemory>
        ensures { IfOk result (λ list. list.items ≡ committed_inside self.now.steps upto.now) }
    {
        inside(alloc, self.kept.steps(), upto)
    }

    /// The site's vector.
    pub fn vector(&self, site: SiteNo) -> Vector
        ensures { result ≡ site_vector self.now.layout.sites (past self.now) site }
    {
        self.kept.vector(site)
    }

    /// What the site has even where nothing but its log is left: its own transactions with all that they
    /// saw, and what it needed for each partition that it took over.
    pub fn floor(&self, site: SiteNo) -> Vector
        ensures { result ≡ floor self.now.layout.sites (past self.now) site }
    {
        self.kept.floor(site)
    }

    /// How many committed update transactions the origin has.
    pub fn entry_count(&self, origin: SiteNo) -> u64
        ensures exact { result ≡ entry_count origin (past self.now) }
        ensures few { result ≤ length self.now.steps }
        ensures memory { result < 2 ^ 63 }
    {
        self.kept.is_legal();
        if self.kept.schema().is_site(origin) {
            self.kept.entry_count(origin)
        } else {
            0
        }
    }

    /// Whether the site is down: from a doubt there to its next restart.
    pub fn is_down(&self, site: SiteNo) -> bool
        ensures { result ≡ is_down site (past self.now) }
    {
        self.kept.is_down(site)
    }

    /// What the session was answered, as a vector: the least at which it may begin.
    pub fn session_vector(&self, session: u32) -> Vector
        ensures { result ≡ session_vector self.now.layout.sites (past self.now) session }
    {
        self.kept.session_vector(session)
    }

    /// Where the partition is mastered, and how far its hand-over has come.
    pub fn placing(&self, part: Part) -> Placing
        requires { part < length self.now.layout.masters }
        ensures { result ≡ placing self.now.layout (past self.now) part }
    {
        self.kept.placing(part)
    }

    /// The last attempt at the session's current item.
    pub fn attempt(&self, session: u32) -> Attempt
        ensures { result ≡ attempt session (past self.now) }
    {
        self.kept.attempt(session)
    }

    /// How many items of the session were answered.
    pub fn replies(&self, session: u32) -> u64
        ensures exact { result ≡ replies session (past self.now) }
        ensures few { result ≤ length self.now.steps }
    {
        self.kept.is_legal();
        self.kept.replies(session)
    }

    /// How many attempts at the session's current item were routed.
    pub fn routes(&self, session: u32) -> u64
        ensures exact { result ≡ routes session (past self.now) }
        ensures few { result ≤ length self.now.steps }
    {
        self.kept.is_legal();
        self.kept.routes(session)
    }

    /// Whether the attempt stands routed or runs.
    fn is_current(&self, txn: TxnId) -> bool
        ensures { result ≡ is_current self.now.layout (past self.now) txn }
    {
        stands_routed(&self.kept, txn) || self.kept.run_site(txn).is_some()
    }

    /// The keys that the attempt declares. For one that is neither routed nor runs, all steps are looked
    /// at.
    pub fn declared(&self, txn: TxnId) -> &[Key]
        ensures { result.now ≡ declared txn (past self.now) }
    {
        if self.is_current(txn) {
            self.kept.declared(txn)
        } else {
            dm_plain::declared(self.kept.steps(), txn)
        }
    }

    /// The vector from which the attempt reads, once it has begun. For one that doesn't run, all steps are
    /// looked at.
    pub fn begin_vector(&self, txn: TxnId) -> Option<Vector>
        ensures { result ≡ begin_vector txn (past self.now) }
    {
        if self.kept.run_site(txn).is_some() {
            self.kept.begin_vector(txn)
        } else {
            dm_plain::begin_vector(self.kept.steps(), txn)
        }
    }

    /// The earliest begun attempt that runs at the site and declares a key of the partition: a release
    /// waits for it.
    pub fn runner(&self, site: SiteNo, part: Part) -> Option<TxnId>
        ensures { result ≡ runner self.now.layout (past self.now) site part }
    {
        self.kept.runner(site, part)
    }

    /// The committed update transaction with this origin and number.
    pub fn entry(&self, origin: SiteNo, seq: u64) -> Option<&Entry>
        ensures exact { option_copied result ≡ entry_at origin seq (past self.now) }
        ensures origin { IfSome result (λ entry. (1 ≤ entry.now.origin) × (entry.now.origin ≤ length entry.now.begin)) }
    {
        self.kept.is_legal();
        self.kept.entry(origin, seq)
    }

    /// What the site's last doubt left pending.
    pub fn pending(&self, site: SiteNo) -> Option<&Pending>
        ensures { option_copied result ≡ pending_at site (past self.now) }
    {
        self.kept.pending(site)
    }

    /// The numbers of the records that it has of the site, and of the one in doubt there, are in range.
    fn keeps_ranges(&self, site: SiteNo)
        ensures acts { AllByRecursion IsInRange (records_of site (past self.now)) }
        ensures pending { IfSome (pending_at site (past self.now)) (λ p. IsInRange (pending_record p)) }
    {
        self.kept.is_legal();
        // The schema brings in its limits.
        let schema = self.kept.schema();
        let _sites = schema.sites();
        let _parts = schema.parts();
        let _width = schema.width();
    }

    /// The frames of the records of the site's acts, in the order of the steps. All steps are looked at, and
    /// for each Restart that kept a step once more those before it.
    pub fn frames(&self, alloc: Global, site: SiteNo) -> Result<Vec<Frame>, NoMemory>
        ensures exact { IfOk result (λ frames. frames.items ≡ frames_of site (past self.now)) }
        ensures ranges { OnOk result (AllByRecursion HasRanges (records_of site (past self.now))) }
    {
        self.keeps_ranges(site);
        dm_frames::frames(alloc, self.kept.steps(), site)
    }

    /// The frame of the record that the pending step of the site's last doubt would have, if there is one.
    pub fn pending_frame(&self, alloc: Global, site: SiteNo) -> Result<Option<Frame>, NoMemory>
        ensures exact { IfOk result (λ frame. frame ≡ option_map (λ p. frame_of (pending_record p)) (pending_at site (past self.now))) }
        ensures ranges { OnOk result (IfSome (pending_at site (past self.now)) (λ p. HasRanges (pending_record p))) }
    {
        self.keeps_ranges(site);
        match self.kept.pending(site) {
            Some(pending) => Ok(Some(dm_frames::pending_frame(alloc, pending)?)),
            None => Ok(None),
        }
    }

    /// The site's floor as it is after a Restart that finds its log so: a kept pending step counts.
    pub fn floor_with_kept(&self, site: SiteNo, found: Found) -> Vector
        ensures { result ≡ floor self.now.layout.sites (with_kept site found (past self.now)) site }
    {
        self.kept.floor_with_kept(site, found)
    }

    /// What the site's last doubt before this place of the history left pending. The steps from there to
    /// that doubt are looked at.
    pub fn pending_before(&self, place: usize, site: SiteNo) -> Option<&Pending>
        requires { place ≤ length self.now.steps }
        ensures { option_copied result ≡ pending_at site (reverse (take place self.now.steps)) }
    {
        pending_at(&self.kept.steps()[..place], site)
    }

    /// The transaction of the origin that the site would take over next.
    pub fn next_entry(&self, site: SiteNo, origin: SiteNo) -> Option<&Entry>
        ensures exact { option_copied result ≡ next_entry self.now.layout (past self.now) site origin }
        ensures origin { IfSome result (λ entry. (1 ≤ entry.now.origin) × (entry.now.origin ≤ length entry.now.begin)) }
    {
        self.kept.is_legal();
        if self.kept.schema().is_site(origin) {
            dm_clauses::next_entry(&self.kept, site, origin)
        } else {
            None
        }
    }

    /// The first of the keys' partitions, in the order of the keys, on which the site may not begin: there is
    /// none where all of them are here.
    pub fn elsewhere(&self, site: SiteNo, keys: &[Key]) -> Option<Part>
        requires { list_all (is_key self.now.layout) keys.now ≡ true }
        ensures { result ≡ elsewhere self.now.layout (past self.now) site keys.now }
    {
        dm_clauses::elsewhere(&self.kept, site, keys)
    }

    /// The least origin whose next transaction the site may take over.
    pub fn next_refresh(&self, site: SiteNo) -> Option<SiteNo>
        ensures least { result ≡ next_refresh self.now.layout (past self.now) site }
        ensures reaches_full { is_site self.now.layout site ≡ true → is_down site (past self.now) ≡ false
            → IsNone result ↔ (site_vector self.now.layout.sites (past self.now) site ≡ full self.now.layout.sites (past self.now)) }
    {
        refreshes_reach_full();
        self.kept.is_legal();
        dm_clauses::next_refresh(&self.kept, site)
    }

    /// The site and the choice that are due for a transaction of the session.
    pub fn choice_for(&self, session: u32, want: &Want) -> (SiteNo, Choice)
        requires session { (1 ≤ session) × (session ≤ MAX_SESSIONS) }
        requires txn { wants_txn want.now ≡ true }
        requires keys { list_all (is_key self.now.layout) (wanted_keys want.now) ≡ true }
        ensures { result ≡ choice_due self.now.layout (past self.now) session (wanted_keys want.now) }
    {
        match want {
            Want::Txn(keys) => dm_clauses::choice_due(&self.kept, session, keys),
            Want::Place(_) | Want::Restart => unreachable!(),
        }
    }

    /// The outcome that is due for the session.
    pub fn said_for(&self, session: u32) -> Option<Said>
        ensures { result ≡ said_due self.now.layout (past self.now) session }
    {
        dm_outcomes::said_due(&self.kept, session)
    }

    /// Whether the step may follow the history, and why not: the first rule that it breaks.
    pub fn enabled(&self, step: &Step) -> Result<(), Why>
        ensures { MatchResult result (λ done. refusal self.now.layout (past self.now) step.now ≡ None) (λ why. refusal self.now.layout (past self.now) step.now ≡ Some why) }
    {
        match dm_clauses::refusal(&self.kept, step) {
            None => Ok(()),
            Some(why) => Err(why),
        }
    }

    /// The room that the step needs beside what is kept for those that must not fail. A Moved, Commit, End,
    /// Fail, Release, Grant, Settle, Doubt and the Reply to a counted item need none.
    pub fn need(&self, step: &Step) -> usize
        requires { Allowed self.now.layout (past self.now) step.now }
        ensures { result ≡ need self.now.layout self.now.items (past self.now) step.now }
    {
        self.kept.need(step)
    }

    /// There is room for a step that needs none.
    pub fn keeps_room(&self, step: &Step)
        requires allowed { Allowed self.now.layout (past self.now) step.now }
        requires none { need self.now.layout self.now.items (past self.now) step.now ≡ 0 }
        ensures { HasRoom self.now step.now }
    {
        self.kept.keeps_room(step);
    }

    /// Makes room for the step.
    pub fn reserve(&mut self, step: &Step) -> Result<(), NoMemory>
        requires { Allowed self.old.layout (past self.old) step.now }
        ensures room { OnOk result (HasRoom self.new step.now) }
        ensures allowed { Allowed self.new.layout (past self.new) step.now }
        ensures history { self.new.steps ≡ self.old.steps }
        ensures schema { self.new.layout ≡ self.old.layout }
        ensures items { self.new.items ≡ self.old.items }
    {
        self.kept.reserve(step)
    }

    /// Adds the step to the history. It takes no memory.
    pub fn push(&mut self, step: Step)
        requires allowed { Allowed self.old.layout (past self.old) step }
        requires room { HasRoom self.old step }
        ensures pushed { self.new.steps ≡ self.old.steps ++ step ∷ [] }
        ensures schema { self.new.layout ≡ self.old.layout }
        ensures items { self.new.items ≡ self.old.items }
    {
        self.kept.push(step);
    }
}
