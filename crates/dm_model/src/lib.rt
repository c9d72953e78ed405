//! Which histories are legal, and what holds of each. The definitions stand in `specs`; this crate has
//! no code, and its functions are laws: their contracts are what is proved.
#![tactic(auto)]

ghost use Rattle.std.specs.Prelude.{ℕ, ◌≡◌, ◌≢◌, ◌↔◌, List, reverse, Some, IsTrue, IsSome};
ghost use Rattle.dm_event.specs.Layout.{Layout, is_site};
ghost use Rattle.dm_event.specs.declared.attempt.AttemptState.TheVariants.{Routed, Running};
ghost use Rattle.dm_event.specs.declared.step.Cause.TheVariants.{Memory, Undeclared};
ghost use Rattle.dm_event.specs.declared.step.Choice.{Choice};
ghost use Rattle.dm_event.specs.declared.step.Said.{Said};
ghost use Rattle.dm_event.specs.declared.step.Said.TheVariants.{Refused};
ghost use Rattle.dm_event.specs.declared.step.Step.{Step};
ghost use Rattle.dm_event.specs.declared.step.Step.TheVariants.{Refresh};
ghost use Rattle.dm_event.specs.declared.step.TxnId.{TxnId};
ghost use Rattle.dm_model.specs.Allowed.{Allowed};
ghost use Rattle.dm_model.specs.Attempts.{Routing, last_routing, state, attempt};
ghost use Rattle.dm_model.specs.Closed.{Closed};
ghost use Rattle.dm_model.specs.Doubts.{is_down};
ghost use Rattle.dm_model.specs.Floors.{floor};
ghost use Rattle.dm_model.specs.Legal.{Legal};
ghost use Rattle.dm_model.specs.OneMaster.{OneMaster};
ghost use Rattle.dm_model.specs.Ordered.{Ordered};
ghost use Rattle.dm_model.specs.Outcomes.{may_say, said_due};
ghost use Rattle.dm_model.specs.Progress.{site_vector, full};
ghost use Rattle.dm_model.specs.Runs.{runs};
ghost use Rattle.dm_model.specs.SessionUp.{SessionUp};
ghost use Rattle.dm_model.specs.Snapshot.{Snapshot};

/// In every legal history each transaction read its snapshot, the writers of a key are in order, no
/// session falls behind what it has seen, and each partition has one master.
pub fn legal_histories()
    ensures snapshot { (layout : Layout) (history : List Step) → Legal layout history → Snapshot layout history }
    ensures ordered { (layout : Layout) (history : List Step) → Legal layout history → Ordered history }
    ensures session_up { (layout : Layout) (history : List Step) → Legal layout history → SessionUp layout history }
    ensures one_master { (layout : Layout) (history : List Step) → Legal layout history → OneMaster layout history }
{}

/// In every legal history a site can be restarted at its floor, and a site that is up may refresh exactly
/// as long as it lacks an entry.
pub fn refreshes_reach_full()
    ensures floor_closed { (layout : Layout) (history : List Step) → Legal layout history → (site : ℕ) → Closed (floor layout.sites (reverse history) site) (reverse history) }
    ensures lagging_may { (layout : Layout) (history : List Step) → Legal layout history → (site : ℕ) → IsTrue (is_site layout site) → ¬ IsTrue (is_down site (reverse history))
        → site_vector layout.sites (reverse history) site ≢ full layout.sites (reverse history)
        → (origin : ℕ) × Allowed layout (reverse history) (Refresh site origin) }
    ensures full_may_not { (layout : Layout) (history : List Step) → Legal layout history → (site : ℕ)
        → site_vector layout.sites (reverse history) site ≡ full layout.sites (reverse history)
        → (origin : ℕ) → ¬ Allowed layout (reverse history) (Refresh site origin) }
{}

/// Whatever the steps so far: the outcome that is due for a session is one that is allowed, and one is due
/// wherever an outcome is allowed that is no refusal for memory or for an undeclared write.
pub fn outcomes_due()
    ensures allowed { (layout : Layout) (past : List Step) (session : ℕ) (said : Said) → said_due layout past session ≡ Some said → IsTrue (may_say layout past session said) }
    ensures given { (layout : Layout) (past : List Step) (session : ℕ) (said : Said) → IsTrue (may_say layout past session said)
        → said ≢ Refused Memory → ((key : ℕ) → said ≢ Refused (Undeclared key)) → IsSome (said_due layout past session) }
{}

/// A session that stands routed does so by its last Route, whose site and choice its state tells. In a legal
/// history an attempt runs at a site exactly where it is its session's attempt and the state says so.
pub fn attempts_told()
    ensures routed { (past : List Step) (session site : ℕ) (choice : Choice) → state session past ≡ Routed site choice
        → (route : Routing) × (last_routing session past ≡ Some route) × (route.site ≡ site) × (route.choice ≡ choice) × ((attempt session past).txn ≡ Some route.txn) }
    ensures running { (layout : Layout) (history : List Step) → Legal layout history → (site : ℕ) (txn : TxnId)
        → IsTrue (runs site txn (reverse history)) ↔ (attempt txn.session (reverse history) ≡ record { txn = Some txn; state = Running site }) }
{}
