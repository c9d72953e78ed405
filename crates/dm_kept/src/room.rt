//! For how many further steps room is kept, and the room that an attempt needs that begins.

ghost use Rattle.std.specs.List.{range_with_len, sum_by};
ghost use Rattle.std.specs.Prelude.{ℕ, ◌≡◌, ◌+◌, ◌-◌, ◌*◌, ◌^◌, ◌<◌, ◌≤◌, ◌==◌, if◌then◌else◌, true, length, option_copied, unwrap_or, IsTrue, OnOk, option_map, []};
ghost use Rattle.dm_event.specs.declared.limits.TheConstants.{MAX_SESSIONS};
ghost use Rattle.dm_index.specs.Rooms.{room_at};
ghost use Rattle.dm_kept.specs.Roomy.{KnowsKeys};
ghost use Rattle.dm_model.specs.Attempts.{wanted_keys};
ghost use Rattle.dm_model.specs.Tests.{is_among};
ghost use Rattle.dm_numbers.specs.Counted.{site_in};
ghost use Rattle.dm_room.specs.Room.{brought_on, comes_off, comes_on, items_of, live, runs_there};
ghost use Rattle.dm_state.specs.Standings.{attempt_in, replies_in};

use dm_event::{AttemptState, Key, MAX_SESSIONS, NoMemory, Pending, SiteNo, Step, Want};
use dm_index::Index;
use dm_numbers::Numbers;
use dm_runs::Runs;
use dm_state::States;
use dm_store::Store;

/// How many items the session has.
fn items_of(items: &[u32], session: u32) -> u32
    ensures { result ≡ items_of items.now session }
{
    if session == 0 {
        return 0;
    }
    match items.get(session as usize - 1) {
        Some(count) => *count,
        None => 0,
    }
}

/// How many items all sessions have.
pub(crate) fn all_items(items: &[u32]) -> usize
    ensures exact { result ≡ sum_by (λ session. items_of items.now session) (range_with_len 1 MAX_SESSIONS) }
    ensures few { result ≤ MAX_SESSIONS * 2 ^ 32 }
{
    let mut count = 0;
    for session in 1..MAX_SESSIONS + 1 {
        count += items_of(items, session) as usize;
    }
    count
}

fn live(state: AttemptState) -> usize
    ensures exact { result ≡ live state }
    ensures few { result ≤ 1 }
{
    match state {
        AttemptState::Routed { .. } | AttemptState::Running { .. } => 1,
        _ => 0,
    }
}

fn runs_there(state: AttemptState, site: SiteNo) -> usize
    ensures exact { result ≡ runs_there site state }
    ensures few { result ≤ 1 }
{
    match state {
        AttemptState::Running { site: at } if at == site => 1,
        _ => 0,
    }
}

/// How many sessions have an attempt that runs at the site.
fn runners(states: &States, site: SiteNo) -> usize
    ensures exact { result ≡ sum_by (λ session. runs_there site (attempt_in states.now session).state) (range_with_len 1 MAX_SESSIONS) }
    ensures few { result ≤ MAX_SESSIONS }
{
    let mut count = 0;
    for session in 1..MAX_SESSIONS + 1 {
        count += runs_there(states.attempt(session).state, site);
    }
    count
}

fn brought_on(pending: Option<&Pending>) -> usize
    ensures exact { result ≡ brought_on (option_copied pending.entry) }
    ensures few { result ≤ 1 }
{
    match pending {
        Some(Pending::Release { .. }) | Some(Pending::Grant { .. }) => 1,
        Some(Pending::Commit(_)) | None => 0,
    }
}

/// What the step adds to the steps for which room is kept.
pub(crate) fn comes_on(step: &Step, numbers: &Numbers) -> usize
    ensures exact { result ≡ comes_on step.now (λ site. (site_in numbers.now site).down) }
    ensures few { result ≤ 3 }
{
    match step {
        Step::Route { .. } => 1,
        Step::Ask { .. } => 3,
        Step::Restart { site, .. } => if numbers.site(*site).down { 1 } else { 0 },
        _ => 0,
    }
}

/// What an answer takes from them: the item, if it is a counted one, and the attempt.
fn answered(items: &[u32], states: &States, session: u32) -> usize
    ensures exact { result ≡ (if items_of items.now session - replies_in states.now session == 0 then 0 else 1) + live (attempt_in states.now session).state }
    ensures few { result ≤ 2 }
{
    let open = if states.replies(session) < items_of(items, session) {
        1
    } else {
        0
    };
    open + live(states.attempt(session).state)
}

/// What the step takes from the steps for which room is kept. `pending` is the pending step that a Restart
/// keeps, and None with any other step.
pub(crate) fn comes_off(
    step: &Step,
    items: &[u32],
    states: &States,
    pending: Option<&Pending>,
) -> usize
    ensures exact { result ≡ comes_off step.now (λ session. items_of items.now session - replies_in states.now session)
        (λ session. (attempt_in states.now session).state)
        (λ site. sum_by (λ session. runs_there site (attempt_in states.now session).state) (range_with_len 1 MAX_SESSIONS)) (option_copied pending.entry) }
    ensures few { result ≤ MAX_SESSIONS + 2 }
{
    match step {
        Step::Reply { session, .. } => answered(items, states, *session),
        Step::Doubt { site, .. } => 1 + runners(states, *site),
        Step::Restart { site, .. } => runners(states, *site) + brought_on(pending),
        Step::Route { .. } | Step::Ask { .. } | Step::Begin { .. } | Step::Refresh { .. } => 0,
        _ => 1,
    }
}

/// Makes the keys known that the transaction declares.
fn know_keys(store: &mut Store, want: Option<&Want>) -> Result<(), NoMemory>
    ensures known { OnOk result (KnowsKeys store.new.known (unwrap_or (option_map (λ w. wanted_keys w) (option_copied want.entry)) [])) }
    ensures stay { (key : ℕ) → IsTrue (is_among store.old.known key) → IsTrue (is_among store.new.known key) }
    ensures layout { store.new.layout ≡ store.old.layout }
    ensures installed { store.new.installed ≡ store.old.installed }
    ensures spare { store.new.spare ≡ store.old.spare }
{
    match want {
        Some(Want::Txn(keys)) => know_all(store, keys.as_slice()),
        _ => Ok(()),
    }
}

fn know_all(store: &mut Store, keys: &[Key]) -> Result<(), NoMemory>
    ensures known { OnOk result (KnowsKeys store.new.known keys.now) }
    ensures stay { (key : ℕ) → IsTrue (is_among store.old.known key) → IsTrue (is_among store.new.known key) }
    ensures layout { store.new.layout ≡ store.old.layout }
    ensures installed { store.new.installed ≡ store.old.installed }
    ensures spare { store.new.spare ≡ store.old.spare }
{
    for key in keys {
        store.know(*key)?;
    }
    Ok(())
}

/// Makes room for one more attempt to begin that wants this, where as many run as are listed.
pub(crate) fn reserve_begin(
    runs: &mut Runs,
    index: &mut Index,
    store: &mut Store,
    sites: SiteNo,
    want: Option<&Want>,
) -> Result<(), NoMemory>
    ensures begins { OnOk result (1 ≤ runs.new.room) }
    ensures places { OnOk result ((i : ℕ) → i < length index.old.entries → length runs.old.runs + 2 ≤ room_at index.new.rooms i) }
    ensures installs { OnOk result (length runs.old.runs + sites + 1 ≤ store.new.spare) }
    ensures known { OnOk result (KnowsKeys store.new.known (unwrap_or (option_map (λ w. wanted_keys w) (option_copied want.entry)) [])) }
    ensures runs { runs.new.runs ≡ runs.old.runs }
    ensures routes { index.new.routes ≡ index.old.routes }
    ensures doubts { index.new.doubts ≡ index.old.doubts }
    ensures entries { index.new.entries ≡ index.old.entries }
    ensures rooms { (i : ℕ) → room_at index.old.rooms i ≤ room_at index.new.rooms i }
    ensures stay { (key : ℕ) → IsTrue (is_among store.old.known key) → IsTrue (is_among store.new.known key) }
    ensures spare { store.old.spare ≤ store.new.spare }
    ensures layout { store.new.layout ≡ store.old.layout }
    ensures installed { store.new.installed ≡ store.old.installed }
{
    let running = runs.as_slice().len();
    runs.reserve()?;
    index.reserve(running + 2)?;
    know_keys(store, want)?;
    store.reserve(running + sites as usize + 1)
}
