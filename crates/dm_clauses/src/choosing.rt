//! To which site a transaction is routed.

ghost use Rattle.std.specs.Prelude.{ℕ, ◌≡◌, ◌==◌, ◌<◌, ◌≤◌, true, length, slice_index, List};
ghost use Rattle.std.specs.List.{list_all};
ghost use Rattle.dm_event.specs.Layout.{is_key, is_site};
ghost use Rattle.dm_event.specs.Vectors.{is_at_most};
ghost use Rattle.dm_model.specs.Choices.{choice_due, choose, home, parts_of, reader_site, settled_site, writer_choice};
ghost use Rattle.dm_model.specs.Placings.{placing, settled_at};
ghost use Rattle.dm_model.specs.Progress.{site_vector};
ghost use Rattle.dm_model.specs.Sessions.{session_vector};
ghost use Rattle.dm_model.specs.Tests.{is_among};
ghost use Rattle.dm_placement.specs.Scored.{vector_in};
ghost use Rattle.dm_clauses.specs.Choosing.{is_settled, all_settled, around, has_seen};

use dm_event::{
    Choice, Key, Keys, MAX_PARTS, MAX_SITES, Part, PartSet, Placing, Schema, SiteNo, Vector,
};
use dm_placement::{choices_due, choose};
use dm_told::{Told, parts, sites, weights};

/// The set of the partitions of the keys.
pub fn parts_of(schema: &Schema, keys: &Keys) -> PartSet
    requires { list_all (is_key schema.now) keys.now ≡ true }
    ensures exact { result ≡ parts_of schema.now keys.now }
    ensures within { (p : ℕ) → is_among result p ≡ true → p < length schema.now.masters }
{
    // The keys ascend, so that each partition stands at its place.
    choices_due();
    let mut parts = PartSet::empty();
    for key in keys.as_slice() {
        match schema.part_of(*key) {
            Some(part) => parts.add(part),
            None => unreachable!(),
        }
    }
    parts
}

fn settled_at(now: Placing, site: SiteNo) -> bool
    ensures { result ≡ settled_at now site }
{
    match now {
        Placing::Settled { site: at, .. } => at == site,
        _ => false,
    }
}

fn is_settled<T: Told>(told: &T, key: Key, site: SiteNo) -> bool
    requires { is_key (T.layout told.now) key ≡ true }
    ensures { result ≡ is_settled (T.layout told.now) (T.past told.now) site key }
{
    match told.schema().part_of(key) {
        Some(part) => settled_at(told.placing(part), site),
        None => unreachable!(),
    }
}

/// Whether all partitions of the keys are settled at the site.
fn all_settled<T: Told>(told: &T, keys: &[Key], site: SiteNo) -> bool
    requires { list_all (is_key (T.layout told.now)) keys.now ≡ true }
    ensures { result ≡ all_settled (T.layout told.now) (T.past told.now) site keys.now }
{
    for key in keys {
        if !is_settled(told, *key, site) {
            return false;
        }
    }
    true
}

/// The site at which all partitions of the keys are settled.
fn settled_site<T: Told>(told: &T, keys: &[Key]) -> Option<SiteNo>
    requires { list_all (is_key (T.layout told.now)) keys.now ≡ true }
    ensures { result ≡ settled_site (T.layout told.now) (T.past told.now) (parts_of (T.layout told.now) keys.now) }
{
    for site in 1..sites(told) + 1 {
        if all_settled(told, keys, site) {
            return Some(site);
        }
    }
    None
}

/// The home of the partition.
fn home<T: Told>(told: &T, part: Part) -> SiteNo
    requires { part < length (T.layout told.now).masters }
    ensures { result ≡ home (T.layout told.now) (T.past told.now) part }
{
    match told.placing(part) {
        Placing::Settled { site, .. }
        | Placing::Asked { site, .. }
        | Placing::Granted { site, .. } => site,
        Placing::Between { to, .. } => to,
    }
}

/// The home of each partition, that of partition 0 first, and 0 past the last.
fn homes<T: Told>(told: &T) -> [SiteNo; MAX_PARTS as usize]
    ensures long { length result ≡ MAX_PARTS }
    ensures each { (p : ℕ) → p < length (T.layout told.now).masters → slice_index result p ≡ home (T.layout told.now) (T.past told.now) p }
{
    told.is_legal();
    let mut homes = [0; MAX_PARTS as usize];
    for part in 0..parts(told) {
        homes[part as usize] = home(told, part);
    }
    homes
}

/// The vector of each site, that of site 1 first.
fn vectors<T: Told>(told: &T) -> [Vector; MAX_SITES as usize]
    ensures long { length result ≡ MAX_SITES }
    ensures each { (site : ℕ) → 1 ≤ site → site ≤ (T.layout told.now).sites → vector_in result site ≡ site_vector (T.layout told.now).sites (T.past told.now) site }
{
    let mut vectors = [Vector::zeros(sites(told)); MAX_SITES as usize];
    for site in 1..sites(told) + 1 {
        vectors[site as usize - 1] = told.vector(site);
    }
    vectors
}

/// The set of the partitions of the keys.
fn wanted_parts<T: Told>(told: &T, keys: &Keys) -> PartSet
    requires { list_all (is_key (T.layout told.now)) keys.now ≡ true }
    ensures exact { result ≡ parts_of (T.layout told.now) keys.now }
    ensures within { (p : ℕ) → is_among result p ≡ true → p < length (T.layout told.now).masters }
{
    parts_of(told.schema(), keys)
}

/// The site of greatest score for the partitions of the keys.
fn best_site<T: Told>(told: &T, keys: &Keys) -> SiteNo
    requires { list_all (is_key (T.layout told.now)) keys.now ≡ true }
    ensures { result ≡ choose (T.layout told.now) (T.past told.now) (parts_of (T.layout told.now) keys.now) }
{
    told.is_legal();
    let homes = homes(told);
    let vectors = vectors(told);
    // What is chosen for these homes and vectors is what is due.
    choices_due();
    choose(
        told.window(),
        &homes[..parts(told) as usize],
        &vectors[..sites(told) as usize],
        weights(told),
        wanted_parts(told, keys),
    )
}

/// The site at this place of a circle that begins with the session's own.
fn around<T: Told>(told: &T, session: u32, place: u8) -> SiteNo
    requires { 1 ≤ session }
    ensures { result ≡ around (T.layout told.now) session place }
{
    let from = u64::from(session - 1) + u64::from(place);
    (from % u64::from(sites(told))) as SiteNo + 1
}

/// Whether that site has what the session has seen.
fn has_seen<T: Told>(told: &T, session: u32, place: u8) -> bool
    requires { 1 ≤ session }
    ensures { result ≡ has_seen (T.layout told.now) (T.past told.now) session place }
{
    let own = told.vector(around(told, session, place));
    told.session_vector(session).first_above(&own).is_none()
}

/// The first site, in a circle from the session's own on, that has what the session has seen, or the
/// session's own where none has.
fn reader_site<T: Told>(told: &T, session: u32) -> SiteNo
    requires { 1 ≤ session }
    ensures { result ≡ reader_site (T.layout told.now) (T.past told.now) session }
{
    for place in 0..sites(told) {
        if has_seen(told, session, place) {
            return around(told, session, place);
        }
    }
    around(told, session, 0)
}

/// The site and the choice that are due for a transaction of the session with these declared keys.
pub fn choice_due<T: Told>(told: &T, session: u32, keys: &Keys) -> (SiteNo, Choice)
    requires session { 1 ≤ session }
    requires keys { list_all (is_key (T.layout told.now)) keys.now ≡ true }
    ensures { result ≡ choice_due (T.layout told.now) (T.past told.now) session keys.now }
{
    if keys.as_slice().is_empty() {
        return (reader_site(told, session), Choice::Reader);
    }
    match settled_site(told, keys.as_slice()) {
        Some(site) => (site, Choice::Master),
        None => (best_site(told, keys), Choice::Best),
    }
}
