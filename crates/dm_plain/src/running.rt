//! Which attempts run at which site, and from which vector.

ghost use Rattle.std.specs.Prelude.{◌≡◌, ◌==◌, reverse};
ghost use Rattle.dm_event.specs.Txns.{same_txn};
ghost use Rattle.dm_model.specs.Allowed.{common_key, holder, runner};
ghost use Rattle.dm_model.specs.Runs.{runs_after, runs, begun_at, run_site, begin_of, begin_vector, last_begin};
ghost use Rattle.dm_model.specs.Tests.{is_among};
ghost use Rattle.dm_plain.specs.Adding.{begun_holder, begun_runner};

use crate::attempts::declared;
use dm_event::{Key, Part, Schema, SiteNo, Step, TxnId, Vector};
use dm_told::has_part;

/// Whether the step begins or ends a run of the attempt at the site.
fn runs_after(step: &Step, site: SiteNo, attempt: TxnId) -> Option<bool>
    ensures { result ≡ runs_after site attempt step.now }
{
    match step {
        Step::Begin { site: at, txn, .. } if attempt.same(txn) => Some(*at == site),
        Step::Commit { entry } if attempt.same(&entry.txn) => Some(false),
        Step::End { txn, .. } | Step::Fail { txn, .. } if attempt.same(txn) => Some(false),
        Step::Doubt { site: at, .. } | Step::Restart { site: at, .. } if *at == site => Some(false),
        _ => None,
    }
}

/// Whether the attempt runs at the site.
#[tactic(auto, using(dm_event::proofs::Backwards::past_more))]
fn runs(steps: &[Step], site: SiteNo, txn: TxnId) -> bool
    ensures { result ≡ runs site txn (reverse steps.now) }
{
    let mut last = None;
    for step in steps {
        last = runs_after(step, site, txn).or(last);
    }
    last.unwrap_or(false)
}

/// The site at which the attempt runs.
pub fn run_site(schema: &Schema, steps: &[Step], txn: TxnId) -> Option<SiteNo>
    ensures { result ≡ run_site schema.now (reverse steps.now) txn }
{
    for site in 1..schema.sites() + 1 {
        if runs(steps, site, txn) {
            return Some(site);
        }
    }
    None
}

fn begin_of(step: &Step, attempt: TxnId) -> Option<Vector>
    ensures { result ≡ begin_of (same_txn attempt) step.now }
{
    match step {
        Step::Begin { txn, begin, .. } if attempt.same(txn) => Some(*begin),
        _ => None,
    }
}

/// The attempt's begin vector.
#[tactic(auto, using(dm_event::proofs::Backwards::past_more))]
pub fn begin_vector(steps: &[Step], txn: TxnId) -> Option<Vector>
    ensures { result ≡ begin_vector txn (reverse steps.now) }
{
    let mut last = None;
    for step in steps {
        last = begin_of(step, txn).or(last);
    }
    last
}

fn session_begin(step: &Step, session: u32) -> Option<Vector>
    ensures { result ≡ begin_of (λ t. t.session == session) step.now }
{
    match step {
        Step::Begin { txn, begin, .. } if txn.session == session => Some(*begin),
        _ => None,
    }
}

/// The begin vector of the session's last Begin.
#[tactic(auto, using(dm_event::proofs::Backwards::past_more))]
pub(crate) fn last_begin(steps: &[Step], session: u32) -> Option<Vector>
    ensures { result ≡ last_begin session (reverse steps.now) }
{
    let mut last = None;
    for step in steps {
        last = session_begin(step, session).or(last);
    }
    last
}

fn begun_at(step: &Step, site: SiteNo) -> Option<TxnId>
    ensures { result ≡ begun_at site step.now }
{
    match step {
        Step::Begin { site: at, txn, .. } if *at == site => Some(*txn),
        _ => None,
    }
}

fn is_among(keys: &[Key], key: Key) -> bool
    ensures { result ≡ is_among keys.now key }
{
    keys.iter().any(|other| *other == key)
}

/// The first of the keys that is also among the others.
pub fn common_key(keys: &[Key], others: &[Key]) -> Option<Key>
    ensures { result ≡ common_key keys.now others.now }
{
    for key in keys {
        if is_among(others, *key) {
            return Some(*key);
        }
    }
    None
}

/// The least of the keys that the attempt, which the step began there, declares too while it runs.
fn begun_holder(steps: &[Step], step: &Step, site: SiteNo, keys: &[Key]) -> Option<(TxnId, Key)>
    ensures { result ≡ begun_holder site keys.now (reverse steps.now) step.now }
{
    let txn = begun_at(step, site)?;
    if runs(steps, site, txn) {
        let key = common_key(keys, declared(steps, txn))?;
        Some((txn, key))
    } else {
        None
    }
}

/// The earliest begun attempt that runs at the site and declares one of the keys, with the first such
/// key.
pub fn holder(steps: &[Step], site: SiteNo, keys: &[Key]) -> Option<(TxnId, Key)>
    ensures { result ≡ holder site keys.now (reverse steps.now) }
{
    for step in steps {
        if let Some(found) = begun_holder(steps, step, site, keys) {
            return Some(found);
        }
    }
    None
}

/// The attempt that the step began at the site, where it runs and declares a key of the partition.
fn begun_runner(
    schema: &Schema,
    steps: &[Step],
    step: &Step,
    site: SiteNo,
    part: Part,
) -> Option<TxnId>
    ensures { result ≡ begun_runner schema.now site part (reverse steps.now) step.now }
{
    let txn = begun_at(step, site)?;
    if runs(steps, site, txn) && has_part(schema, declared(steps, txn), part) {
        Some(txn)
    } else {
        None
    }
}

/// The earliest begun attempt that runs at the site and declares a key of the partition.
pub fn runner(schema: &Schema, steps: &[Step], site: SiteNo, part: Part) -> Option<TxnId>
    ensures { result ≡ runner schema.now (reverse steps.now) site part }
{
    for step in steps {
        if let Some(txn) = begun_runner(schema, steps, step, site, part) {
            return Some(txn);
        }
    }
    None
}
