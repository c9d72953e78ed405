//! What a site may not lose.

ghost use Rattle.std.specs.Prelude.{◌≡◌, ◌≤◌, max, length};
ghost use Rattle.dm_event.specs.Vectors.{at, vector_by};
ghost use Rattle.dm_restart.specs.Floors.{counted, floor_of};

use dm_event::{MAX_SITES, SiteNo, Vector};
use dm_record::Record;

/// What the record of the site counts in its floor.
fn counted(rec: &Record, site: SiteNo) -> Option<Vector>
    requires { 1 ≤ site }
    ensures { result ≡ counted site rec.now }
{
    match rec {
        Record::Commit { seq, begin, .. } => {
            let mut vector = *begin;
            // A record that is read from a file may have a vector of fewer sites.
            if site as usize <= vector.as_slice().len() {
                vector.set(site, *seq);
            }
            Some(vector)
        }
        Record::Release { .. } => None,
        Record::Grant { vector, .. } => Some(*vector),
    }
}

/// Raises each component to that of the other vector, where that is greater; the other vector may have
/// more components, or fewer.
fn raise(vector: &mut Vector, other: &Vector)
    ensures { vector.new ≡ vector_by (length vector.old) (λ site. max (at vector.old site) (at other.now site)) }
{
    for site in 1..vector.as_slice().len() as SiteNo + 1 {
        vector.set(site, vector.get(site).max(other.get(site)));
    }
}

/// What the site may not lose: the maximum of the commit vectors of its commits and of the vectors of
/// the grants to it. It takes no memory.
pub fn floor(sites: u8, site: SiteNo, own: &[Record]) -> Vector
    requires sites { (1 ≤ sites) × (sites ≤ MAX_SITES) }
    requires site { 1 ≤ site }
    ensures { result ≡ floor_of sites site own.now }
{
    let mut floor = Vector::zeros(sites);
    for record in own {
        if let Some(vector) = counted(record, site) {
            raise(&mut floor, &vector);
        }
    }
    floor
}
