//! What one further step makes of what a history says: of its sessions, its partitions, its entries
//! and its sites. Each `next_..` of `specs` tells what something is after the step, from what it was
//! before; so code can keep it, and need not go over the history. This crate has no code, and its
//! functions are laws.
#![tactic(auto)]

ghost use Rattle.std.specs.List.{cons_option};
ghost use Rattle.std.specs.Option.{option_or};
ghost use Rattle.std.specs.Prelude.{ℕ, ◌≡◌, List, ◌∷◌};
ghost use Rattle.dm_event.specs.Layout.{Layout};
ghost use Rattle.dm_event.specs.declared.step.Step.{Step};
ghost use Rattle.dm_model.specs.Acts.{entries, entry_at};
ghost use Rattle.dm_model.specs.Allowed.{Allowed};
ghost use Rattle.dm_model.specs.Attempts.{replies, routes, last_routing, attempt};
ghost use Rattle.dm_model.specs.Doubts.{is_down, pending_at};
ghost use Rattle.dm_model.specs.Floors.{floor};
ghost use Rattle.dm_model.specs.Legal.{LegalPast};
ghost use Rattle.dm_model.specs.Outcomes.{settled_epoch, restarted_since};
ghost use Rattle.dm_model.specs.Placings.{placing};
ghost use Rattle.dm_model.specs.Progress.{entry_count, reached, site_vector};
ghost use Rattle.dm_model.specs.Runs.{running, last_begin};
ghost use Rattle.dm_model.specs.Sessions.{session_vector};
ghost use Rattle.dm_steps.specs.Adding.{with_number};
ghost use Rattle.dm_steps.specs.Naming.{named_in};
ghost use Rattle.dm_steps.specs.Next.{next_replies, next_routes, next_routing, next_attempt, next_begin, next_seen};
ghost use Rattle.dm_steps.specs.Next.{last_settled, next_settled, next_restarted};
ghost use Rattle.dm_steps.specs.Next.{next_placing, next_count, next_reached, next_vector, next_floor, next_down, next_pending, next_running};
ghost use Rattle.dm_steps.specs.Pendings.{kept_of, entry_by};

/// How a session's items stand after one step more, and, in a legal history, what it has seen.
pub fn sessions_next()
    ensures replies { (step : Step) (past : List Step) (session : ℕ)
        → replies session (step ∷ past) ≡ next_replies session step (replies session past) }
    ensures routes { (step : Step) (past : List Step) (session : ℕ)
        → routes session (step ∷ past) ≡ next_routes session step (routes session past) }
    ensures routing { (step : Step) (past : List Step) (session : ℕ)
        → last_routing session (step ∷ past) ≡ next_routing session step (last_routing session past) }
    ensures attempt { (step : Step) (past : List Step) (session : ℕ)
        → attempt session (step ∷ past) ≡ next_attempt session step (attempt session past) }
    ensures begin { (step : Step) (past : List Step) (session : ℕ)
        → last_begin session (step ∷ past) ≡ next_begin session step (last_begin session past) }
    ensures seen { (layout : Layout) (past : List Step) → LegalPast layout past → (step : Step) (session : ℕ)
        → session_vector layout.sites (step ∷ past) session
        ≡ next_seen session step (named_in step past) (last_begin session past) (session_vector layout.sites past session) }
{}

/// Where a partition is placed after one step more, and what a session's last Route for it, or for a
/// site, has come to.
pub fn places_next()
    ensures placing { (layout : Layout) (step : Step) (past : List Step) (part : ℕ)
        → placing layout (step ∷ past) part ≡ next_placing part step (kept_of step past) (placing layout past part) }
    ensures settled { (layout : Layout) (step : Step) (past : List Step) (session part site : ℕ)
        → last_settled layout (step ∷ past) session part site
        ≡ next_settled session step (settled_epoch site (placing layout (step ∷ past) part)) (last_settled layout past session part site) }
    ensures restarted { (step : Step) (past : List Step) (session site : ℕ)
        → restarted_since session site (step ∷ past) ≡ next_restarted session site step (restarted_since session site past) }
{}

/// The entries after one step more: a Commit adds its own, and a Restart the one that it keeps.
pub fn entries_next()
    ensures entries { (step : Step) (past : List Step)
        → entries (step ∷ past) ≡ cons_option (entry_by step (kept_of step past)) (entries past) }
    ensures count { (step : Step) (past : List Step) (origin : ℕ)
        → entry_count origin (step ∷ past) ≡ next_count origin step (kept_of step past) (entry_count origin past) }
    ensures found { (step : Step) (past : List Step) (origin seq : ℕ)
        → entry_at origin seq (step ∷ past) ≡ option_or (with_number origin seq (entry_by step (kept_of step past))) (entry_at origin seq past) }
{}

/// How far a site has come after one step more, and, in a legal history, what it may not lose and what
/// runs there.
pub fn sites_next()
    ensures down { (step : Step) (past : List Step) (site : ℕ)
        → is_down site (step ∷ past) ≡ next_down site step (is_down site past) }
    ensures pending { (step : Step) (past : List Step) (site : ℕ)
        → pending_at site (step ∷ past) ≡ next_pending site step (pending_at site past) }
    ensures reached { (step : Step) (past : List Step) (site origin : ℕ)
        → reached site origin (step ∷ past) ≡ next_reached site origin step (kept_of step past) (reached site origin past) }
    ensures vector { (count : ℕ) (step : Step) (past : List Step) (site : ℕ)
        → site_vector count (step ∷ past) site ≡ next_vector count site step (kept_of step past) (site_vector count past site) }
    ensures floor { (layout : Layout) (past : List Step) → LegalPast layout past → (step : Step) → Allowed layout past step → (site : ℕ)
        → floor layout.sites (step ∷ past) site ≡ next_floor site step (kept_of step past) (floor layout.sites past site) }
    ensures running { (layout : Layout) (past : List Step) → LegalPast layout past → (step : Step) → Allowed layout past step → (site : ℕ)
        → running site (step ∷ past) ≡ next_running site step (running site past) }
{}
