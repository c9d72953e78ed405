//! What a database is made of.

ghost use Rattle.std.specs.List.{list_all};
ghost use Rattle.std.specs.Prelude.{◌≡◌, ◌<◌, ◌≤◌, slice_get, Some, length, find, reverse, true, IfOk, IfSome};
ghost use Rattle.dm_event.specs.Layout.{is_layout, is_site, is_part, is_key, is_session, within_limits, is_between, fits_weights, fits_range, opening_value, part_of, holds_key};

use crate::{
    Key, MAX_PARTS, MAX_RANGES, MAX_SESSIONS, MAX_SITES, MAX_WEIGHT, MAX_WIDTH, NoMemory, Part,
    SiteNo, Value,
};
use std::marker::Model;

/// What each part of a site's score counts for, 0 to 1,000 each.
#[derive(Clone, Copy, Debug, PartialEq, Eq)]
pub struct Weights {
    pub balance: u32,
    pub delay: u32,
    pub together: u32,
}

/// An opening value for the keys from `first` to `last`, both counted.
#[derive(Clone, Copy, Debug, PartialEq, Eq)]
pub struct ValueRange {
    pub first: Key,
    pub last: Key,
    pub value: Value,
}

/// The sites, the partitions with their opening masters, the opening values, and the weights of the
/// scores. A schema keeps the limits: 1 to 8 sites, a width of 1 to 65,536 keys, 1 to 256
/// partitions, at most 4,096 ranges of values.
#[derive(Debug, Drop)]
pub struct Schema {
    sites: u8,
    width: u32,
    masters: Vec<SiteNo>,
    weights: Weights,
    values: Vec<ValueRange>,
}

impl Model for Schema {
    ghost use Rattle.dm_event.specs.Layout.{Layout};
    ghost use Rattle.dm_event.specs.SchemaFields.{layout_of, KeepsLimits};

    ghost Value = { Layout };

    ghost view = { layout_of };

    ghost invariant = { KeepsLimits };
}

impl Schema {
    /// One opening master for each partition; of the ranges that hold a key the last counts.
    pub fn new(
        sites: u8,
        width: u32,
        masters: Vec<SiteNo>,
        weights: Weights,
        values: Vec<ValueRange>,
    ) -> Option<Schema>
        ensures exact { result ≡ within_limits (record { sites = sites; width = width; masters = masters.items; weights = weights; values = values.items }) }
    {
        if keeps_limits(sites, width, &masters, weights, &values) {
            Some(Schema {
                sites,
                width,
                masters,
                weights,
                values,
            })
        } else {
            None
        }
    }

    pub fn sites(&self) -> u8
        ensures same { result ≡ self.now.sites }
        ensures limits { (1 ≤ result) × (result ≤ MAX_SITES) }
    {
        self.sites
    }

    /// The number of partitions.
    pub fn parts(&self) -> u16
        ensures same { result ≡ length self.now.masters }
        ensures limits { (1 ≤ result) × (result ≤ MAX_PARTS) }
        ensures masters { list_all (is_between 1 self.now.sites) self.now.masters ≡ true }
    {
        self.masters.len() as u16
    }

    /// The number of keys in a partition.
    pub fn width(&self) -> u32
        ensures same { result ≡ self.now.width }
        ensures limits { (1 ≤ result) × (result ≤ MAX_WIDTH) }
    {
        self.width
    }

    pub fn weights(&self) -> Weights
        ensures { result ≡ self.now.weights }
    {
        self.weights
    }

    pub fn is_site(&self, site: SiteNo) -> bool
        ensures { result ≡ is_site self.now site }
    {
        1 <= site && site <= self.sites
    }

    pub fn is_part(&self, part: Part) -> bool
        ensures { result ≡ is_part self.now part }
    {
        usize::from(part) < self.masters.len()
    }

    pub fn is_key(&self, key: Key) -> bool
        ensures { result ≡ is_key self.now key }
    {
        u64::from(key) < self.masters.len() as u64 * u64::from(self.width)
    }

    /// Whether it is one of the sessions, which are the same ones whatever the schema is.
    pub fn is_session(session: u32) -> bool
        ensures { result ≡ is_session session }
    {
        1 <= session && session <= MAX_SESSIONS
    }

    /// The site that masters the partition before any hand-over.
    pub fn opening_master(&self, part: Part) -> SiteNo
        requires { part < length self.now.masters }
        ensures { slice_get self.now.masters part ≡ Some result }
    {
        self.masters[part as usize]
    }

    /// The key's partition, and None for a key past the last partition.
    pub fn part_of(&self, key: Key) -> Option<Part>
        ensures exact { result ≡ part_of self.now key }
        ensures inside { IfSome result (λ part. part < length self.now.masters) }
        ensures few { IfSome result (λ part. part < MAX_PARTS) }
    {
        if self.is_key(key) {
            Some((key / self.width) as Part)
        } else {
            None
        }
    }

    /// The key's value before any write.
    pub fn opening(&self, key: Key) -> Value
        ensures { result ≡ opening_value self.now key }
    {
        match self.last_range(key) {
            Some(range) => range.value,
            None => 0,
        }
    }

    fn last_range(&self, key: Key) -> Option<ValueRange>
        ensures { result ≡ find (holds_key key) (reverse self.now.values) }
    {
        let mut last = None;
        for range in &self.values {
            if range.first <= key && key <= range.last {
                last = Some(*range);
            }
        }
        last
    }

    /// A copy.
    pub fn try_clone(&self) -> Result<Schema, NoMemory>
        ensures { IfOk result (λ copy. copy ≡ self.now) }
    {
        let masters = self.masters.clone()?;
        let values = self.values.clone()?;
        Ok(Schema {
            sites: self.sites,
            width: self.width,
            masters,
            weights: self.weights,
            values,
        })
    }
}

fn keeps_limits(
    sites: u8,
    width: u32,
    masters: &[SiteNo],
    weights: Weights,
    values: &[ValueRange],
) -> bool
    ensures { result ≡ is_layout (record { sites = sites; width = width; masters = masters.now; weights = weights; values = values.now }) }
{
    is_between(1, u64::from(MAX_SITES), u64::from(sites))
        && is_between(1, u64::from(MAX_WIDTH), u64::from(width))
        && is_between(1, u64::from(MAX_PARTS), masters.len() as u64)
        && are_sites(sites, masters)
        && are_weights(weights)
        && values.len() <= MAX_RANGES
        && are_ranges(masters.len() as u64 * u64::from(width), values)
}

fn is_between(least: u64, most: u64, n: u64) -> bool
    ensures { result ≡ is_between least most n }
{
    least <= n && n <= most
}

fn are_sites(sites: u8, masters: &[SiteNo]) -> bool
    ensures { result ≡ list_all (is_between 1 sites) masters.now }
{
    masters
        .iter()
        .all(|master| 1 <= *master && *master <= sites)
}

fn are_weights(weights: Weights) -> bool
    ensures { result ≡ fits_weights weights }
{
    weights.balance <= MAX_WEIGHT && weights.delay <= MAX_WEIGHT && weights.together <= MAX_WEIGHT
}

fn are_ranges(keys: u64, values: &[ValueRange]) -> bool
    ensures { result ≡ list_all (fits_range keys) values.now }
{
    values.iter().all(|range| range.first <= range.last && u64::from(range.last) < keys)
}
