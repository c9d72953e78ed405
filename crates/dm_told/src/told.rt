//! What is told of a legal history.

ghost use Rattle.std.specs.Prelude.{◌≡◌, ◌<◌, ◌^◌, true, length, List, reverse, option_copied, option_map};
ghost use Rattle.dm_event.specs.Layout.{Layout, is_site};
ghost use Rattle.dm_event.specs.Vectors.{at};
ghost use Rattle.dm_event.specs.declared.step.Step.{Step};
ghost use Rattle.dm_model.specs.Acts.{entries, entry_at};
ghost use Rattle.dm_model.specs.Allowed.{holder, runner, with_kept};
ghost use Rattle.dm_model.specs.Attempts.{attempt, declared, last_routing, replies, routes};
ghost use Rattle.dm_model.specs.Choices.{window as window_of};
ghost use Rattle.dm_model.specs.Closed.{unclosed};
ghost use Rattle.dm_model.specs.Doubts.{is_down};
ghost use Rattle.dm_model.specs.Floors.{floor};
ghost use Rattle.dm_model.specs.Legal.{LegalPast};
ghost use Rattle.dm_model.specs.Outcomes.{restarted_since, settled_epochs, wants_place, wants_restart};
ghost use Rattle.dm_model.specs.Placings.{placing};
ghost use Rattle.dm_model.specs.Progress.{entry_count, site_vector};
ghost use Rattle.dm_model.specs.Runs.{begin_vector, run_site};
ghost use Rattle.dm_model.specs.Sessions.{session_vector};
ghost use Rattle.dm_model.specs.Tests.{is_among};
ghost use Rattle.dm_model.specs.Values.{value};
ghost use Rattle.dm_steps.specs.Next.{last_settled};
ghost use Rattle.dm_told.specs.Asking.{is_current, is_running, was_routed_for};
ghost use Rattle.dm_told.specs.Routings.{without_want};

use crate::routing::Routing;
use dm_event::{
    Attempt, Entry, Found, Key, Part, Placing, Schema, SiteNo, TxnId, Value, Vector, Want,
};
use dm_placement::Window;

/// A legal history that answers what the clauses of its next step ask. A question that one could not
/// answer who knows of each session, partition and site only how it stands has a `requires`, so that it
/// is asked only where one can.
pub trait Told {
    ghost layout: { Self → Layout };

    /// The steps so far, the latest first.
    ghost past: { Self → List Step };

    /// Each step was allowed by those before it, and there are fewer than memory could hold.
    fn is_legal(&self)
        ensures legal { LegalPast (layout self.now) (past self.now) }
        ensures few { length (past self.now) < 2 ^ 63 };

    fn schema(&self) -> &Schema
        ensures { result.now ≡ layout self.now };

    /// The sets of partitions of the last Routes with declared keys, the oldest first.
    fn window(&self) -> &Window
        ensures { result.now ≡ reverse (window_of (layout self.now) (past self.now)) };

    /// How many items of the session were answered.
    fn replies(&self, session: u32) -> u64
        ensures exact { result ≡ replies session (past self.now) }
        ensures few { result < 2 ^ 63 };

    /// How many attempts at the session's current item were routed.
    fn routes(&self, session: u32) -> u64
        ensures exact { result ≡ routes session (past self.now) }
        ensures few { result < 2 ^ 63 };

    /// The last attempt at the session's current item.
    fn attempt(&self, session: u32) -> Attempt
        ensures { result ≡ attempt session (past self.now) };

    /// The last Route of the session.
    fn last_routing(&self, session: u32) -> Option<Routing>
        ensures { result ≡ option_map without_want (last_routing session (past self.now)) };

    /// What the last Route of the session wants.
    fn last_want(&self, session: u32) -> Option<&Want>
        ensures { option_copied result ≡ option_map (λ r. r.want) (last_routing session (past self.now)) };

    /// What the session was answered, as a vector.
    fn session_vector(&self, session: u32) -> Vector
        ensures { result ≡ session_vector (layout self.now).sites (past self.now) session };

    /// The last epoch under which the partition stood settled at the site, from the session's last Route
    /// on, which is for that.
    fn last_settled(&self, session: u32, part: Part, site: SiteNo) -> Option<u64>
        requires part { part < length (layout self.now).masters }
        requires wanted { was_routed_for session site (wants_place part) (past self.now) ≡ true }
        ensures { result ≡ last_settled (layout self.now) (past self.now) session part site };

    /// Whether the partition stood settled at the site under the epoch, at the session's last Route, which
    /// is for that, or later.
    fn stood_settled(&self, session: u32, part: Part, site: SiteNo, epoch: u64) -> bool
        requires part { part < length (layout self.now).masters }
        requires wanted { was_routed_for session site (wants_place part) (past self.now) ≡ true }
        ensures { result ≡ is_among (settled_epochs (layout self.now) (past self.now) session part site) epoch };

    /// Whether the site was restarted after the session's last Route, which is for that.
    fn restarted_since(&self, session: u32, site: SiteNo) -> bool
        requires { was_routed_for session site wants_restart (past self.now) ≡ true }
        ensures { result ≡ restarted_since session site (past self.now) };

    /// The keys that the attempt declares.
    fn declared(&self, txn: TxnId) -> &[Key]
        requires { is_current (layout self.now) (past self.now) txn ≡ true }
        ensures { result.now ≡ declared txn (past self.now) };

    /// The site at which the attempt runs.
    fn run_site(&self, txn: TxnId) -> Option<SiteNo>
        ensures { result ≡ run_site (layout self.now) (past self.now) txn };

    /// The attempt's begin vector.
    fn begin_vector(&self, txn: TxnId) -> Option<Vector>
        requires { is_running (layout self.now) (past self.now) txn ≡ true }
        ensures { result ≡ begin_vector txn (past self.now) };

    /// The earliest begun attempt that runs at the site and declares one of the keys, with the first such
    /// key.
    fn holder(&self, site: SiteNo, keys: &[Key]) -> Option<(TxnId, Key)>
        ensures { result ≡ holder site keys.now (past self.now) };

    /// The earliest begun attempt that runs at the site and declares a key of the partition.
    fn runner(&self, site: SiteNo, part: Part) -> Option<TxnId>
        ensures { result ≡ runner (layout self.now) (past self.now) site part };

    /// Where the partition is mastered, and how far its hand-over has come.
    fn placing(&self, part: Part) -> Placing
        requires { part < length (layout self.now).masters }
        ensures { result ≡ placing (layout self.now) (past self.now) part };

    /// Whether the site is down: from its Doubt to its next Restart.
    fn is_down(&self, site: SiteNo) -> bool
        ensures { result ≡ is_down site (past self.now) };

    /// The site's vector.
    fn vector(&self, site: SiteNo) -> Vector
        ensures { result ≡ site_vector (layout self.now).sites (past self.now) site };

    /// How many transactions of the origin the site has.
    fn reached(&self, site: SiteNo, origin: SiteNo) -> u64
        requires { is_site (layout self.now) origin ≡ true }
        ensures exact { result ≡ at (site_vector (layout self.now).sites (past self.now) site) origin }
        ensures few { result < 2 ^ 63 };

    /// The key's value at the vector.
    fn value(&self, key: Key, at: &Vector) -> Value
        ensures { result ≡ value (layout self.now) (past self.now) key at.now };

    /// The committed transaction with this origin and number.
    fn entry(&self, origin: SiteNo, seq: u64) -> Option<&Entry>
        ensures { option_copied result ≡ entry_at origin seq (past self.now) };

    /// The number of committed transactions of the origin.
    fn entry_count(&self, origin: SiteNo) -> u64
        requires { is_site (layout self.now) origin ≡ true }
        ensures exact { result ≡ entry_count origin (past self.now) }
        ensures few { result < 2 ^ 63 };

    /// The number of the site's transactions, with a kept one counted.
    fn entry_count_with_kept(&self, site: SiteNo, found: Found) -> u64
        requires { is_site (layout self.now) site ≡ true }
        ensures { result ≡ entry_count site (with_kept site found (past self.now)) };

    /// What the site may not lose, with a kept step counted.
    fn floor_with_kept(&self, site: SiteNo, found: Found) -> Vector
        ensures { result ≡ floor (layout self.now).sites (with_kept site found (past self.now)) site };

    /// The first entry for which the vector isn't closed, with a kept one counted.
    fn unclosed_with_kept(
        &self,
        site: SiteNo,
        vector: &Vector,
        found: Found,
    ) -> Option<(SiteNo, u64)>
        ensures { result ≡ option_map (λ e. (e.origin, e.seq)) (unclosed vector.now (reverse (entries (with_kept site found (past self.now))))) };
}
