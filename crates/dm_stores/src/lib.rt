//! What a data site's store has of the history, as steps come. This crate has no code, and its functions are
//! laws.
#![tactic(auto)]

ghost use Rattle.std.specs.Prelude.{◌≡◌, ◌++◌, ℕ, false, List, [], ◌∷◌, Some, IsTrue, reverse};
ghost use Rattle.dm_chronicle.specs.Belongs.{belongs};
ghost use Rattle.dm_event.specs.Actors.{actors};
ghost use Rattle.dm_event.specs.Layout.{Layout};
ghost use Rattle.dm_event.specs.Vectors.{AtMost};
ghost use Rattle.dm_event.specs.declared.actor.Actor.TheVariants.{Site};
ghost use Rattle.dm_event.specs.declared.step.Entry.{Entry};
ghost use Rattle.dm_event.specs.declared.step.Found.{Found};
ghost use Rattle.dm_event.specs.declared.step.Step.{Step};
ghost use Rattle.dm_event.specs.declared.step.Step.TheVariants.{Commit, Refresh, Restart};
ghost use Rattle.dm_model.specs.Acts.{entries};
ghost use Rattle.dm_model.specs.Allowed.{next_entry};
ghost use Rattle.dm_model.specs.Legal.{LegalPast};
ghost use Rattle.dm_model.specs.Progress.{site_vector};
ghost use Rattle.dm_model.specs.Values.{value};
ghost use Rattle.dm_restart.specs.Histories.{logged};
ghost use Rattle.dm_restart.specs.Plans.{completed};
ghost use Rattle.dm_store.specs.Histories.{past_of, committed_inside};
ghost use Rattle.dm_store.specs.Reads.{value_of};
ghost use Rattle.dm_store.specs.Rising.{fits};
ghost use Rattle.dm_store.specs.declared.past.Past.{Past};
ghost use Rattle.dm_stores.specs.Stores.{Stores, is_still};

/// A site's store keeps up with a legal history. It begins with nothing. At each Refresh and each Commit of
/// the site it installs the entry behind all others, even where the entry stands before some of them in the
/// history. What others do leaves it as it is, and so does all else that the site does but a Restart. That
/// makes it what a plan installs: the history's entries inside the new vector, and behind them the site's own
/// commit that these lack, if they lack one.
pub fn stores_follow()
    ensures empty { (layout : Layout) (site : ℕ) → Stores layout [] site [] }
    ensures refresh { (layout : Layout) (past : List Step) (site origin : ℕ) (entry : Entry) (installed : List Past)
        → LegalPast layout (Refresh site origin ∷ past) → next_entry layout past site origin ≡ Some entry
        → Stores layout past site installed → Stores layout (Refresh site origin ∷ past) site (installed ++ past_of entry ∷ []) }
    ensures commit { (layout : Layout) (past : List Step) (entry : Entry) (installed : List Past) → LegalPast layout (Commit entry ∷ past)
        → Stores layout past entry.origin installed → Stores layout (Commit entry ∷ past) entry.origin (installed ++ past_of entry ∷ []) }
    ensures others { (layout : Layout) (past : List Step) (step : Step) (site : ℕ) (installed : List Past) → LegalPast layout (step ∷ past)
        → belongs actors step (Site site) ≡ false → Stores layout past site installed → Stores layout (step ∷ past) site installed }
    ensures still { (layout : Layout) (past : List Step) (step : Step) (site : ℕ) (installed : List Past) → IsTrue (is_still step)
        → Stores layout past site installed → Stores layout (step ∷ past) site installed }
    ensures restart { (layout : Layout) (history : List Step) (site : ℕ) (vector : List ℕ) (found : Found)
        → let restarted = Restart site vector found ∷ reverse history in LegalPast layout restarted
        → Stores layout restarted site (completed site (logged site found (reverse history)) (committed_inside history vector)) }
{}

/// A site's store reads the history's values, at each vector at most the site's, closed or not.
pub fn stores_read()
    ensures value { (layout : Layout) (past : List Step) (site : ℕ) (installed : List Past) → Stores layout past site installed
        → (vector : List ℕ) (key : ℕ) → AtMost vector (site_vector layout.sites past site)
        → value_of layout installed key vector ≡ value layout past key vector }
{}

/// The entry that comes at a Refresh or a Commit may come behind what the site's store has: it writes few
/// keys, which ascend, and its number is above those of its origin.
pub fn installs_fit()
    ensures refresh { (layout : Layout) (past : List Step) (site origin : ℕ) (entry : Entry) (installed : List Past)
        → LegalPast layout (Refresh site origin ∷ past) → next_entry layout past site origin ≡ Some entry
        → Stores layout past site installed → IsTrue (fits installed (past_of entry)) }
    ensures commit { (layout : Layout) (past : List Step) (entry : Entry) (installed : List Past) → LegalPast layout (Commit entry ∷ past)
        → Stores layout past entry.origin installed → IsTrue (fits installed (past_of entry)) }
{}
