//! Version vectors: for each site a number of transactions.

ghost use Rattle.std.specs.Prelude.{◌≡◌, ◌≤◌, ◌↔◌, IsTrue, length, replicate};
ghost use Rattle.dm_event.specs.Vectors.{at, raised, join, same_numbers, first_above, AtMost};

use crate::{MAX_SITES, SiteNo};
use std::marker::Model;

/// A number for each site, that of site 1 first; after the paper's version vectors.
#[derive(Clone, Copy, Debug, PartialEq, Eq)]
pub struct Vector {
    count: u8,
    // Those past the count are 0.
    parts: [u64; MAX_SITES as usize],
}

impl Model for Vector {
    ghost use Rattle.std.specs.Prelude.{ℕ, List, take};
    ghost use Rattle.dm_event.specs.VectorFields.{fields_of, IsPadded, fields_of-take};

    ghost Value = { List ℕ };

    ghost view = { λ v. take v.count v.parts };

    ghost invariant = { IsPadded };

    ghost inverse = { fields_of };

    ghost inverse_ok = { fields_of-take };
}

impl Vector {
    pub fn zeros(sites: u8) -> Vector
        requires { (1 ≤ sites) × (sites ≤ MAX_SITES) }
        ensures { result ≡ replicate sites 0 }
    {
        Vector {
            count: sites,
            parts: [0; MAX_SITES as usize],
        }
    }

    /// The components, that of site 1 first.
    pub fn as_slice(&self) -> &[u64]
        ensures same { result.now ≡ self.now }
        ensures few { length result.now ≤ MAX_SITES }
    {
        &self.parts[..self.count as usize]
    }

    /// The site's component, and 0 where the vector has none for it.
    pub fn get(&self, site: SiteNo) -> u64
        ensures { result ≡ at self.now site }
    {
        if 1 <= site && site <= self.count {
            self.parts[site as usize - 1]
        } else {
            0
        }
    }

    /// Changes the site's component.
    pub fn set(&mut self, site: SiteNo, n: u64)
        requires { (1 ≤ site) × (site ≤ length self.old) }
        ensures { self.new ≡ raised self.old site n }
    {
        self.parts[site as usize - 1] = n;
    }

    /// Raises each component to that of the other vector, where that is greater.
    pub fn join(&mut self, other: &Vector)
        requires { length self.old ≡ length other.now }
        ensures { self.new ≡ join self.old other.now }
    {
        for i in 0..MAX_SITES as usize {
            self.parts[i] = self.parts[i].max(other.parts[i]);
        }
    }

    /// Whether each component is at most that of the other vector.
    pub fn leq(&self, other: &Vector) -> bool
        ensures { IsTrue result ↔ AtMost self.now other.now }
    {
        for i in 0..MAX_SITES as usize {
            if other.parts[i] < self.parts[i] {
                return false;
            }
        }
        true
    }

    pub fn same(&self, other: &Vector) -> bool
        ensures { result ≡ same_numbers self.now other.now }
    {
        self.as_slice() == other.as_slice()
    }

    /// The least site of whose component it has more than the other vector.
    pub fn first_above(&self, other: &Vector) -> Option<SiteNo>
        ensures { result ≡ first_above self.now other.now }
    {
        for site in 1..self.as_slice().len() as SiteNo + 1 {
            if other.get(site) < self.get(site) {
                return Some(site);
            }
        }
        None
    }
}
