//! Whether a site may restart so, and why not.

ghost use Rattle.std.specs.Prelude.{◌≡◌, true};
ghost use Rattle.dm_event.specs.Layout.{is_site};
ghost use Rattle.dm_event.specs.Vectors.{raised};
ghost use Rattle.dm_model.specs.Allowed.{restart_clauses};
ghost use Rattle.dm_model.specs.Clauses.{first};
ghost use Rattle.dm_model.specs.Progress.{site_vector};

use crate::rows::restart_refusal;
use dm_event::{Found, SiteNo, Vector, Why};
use dm_told::Told;

/// The site's vector with this number of its own transactions.
fn vector_with<T: Told>(told: &T, site: SiteNo, own: u64) -> Vector
    requires { is_site (T.layout told.now) site ≡ true }
    ensures { result ≡ raised (site_vector (T.layout told.now).sites (T.past told.now) site) site own }
{
    let mut vector = told.vector(site);
    vector.set(site, own);
    vector
}

pub(crate) fn restart_why<T: Told>(
    told: &T,
    site: SiteNo,
    vector: &Vector,
    found: Found,
) -> Option<Why>
    requires { is_site (T.layout told.now) site ≡ true }
    ensures { result ≡ first (restart_clauses (T.layout told.now) (T.past told.now) site vector.now found) }
{
    let due = told.entry_count_with_kept(site, found);
    let floor = told.floor_with_kept(site, found);
    let own = vector_with(told, site, due);
    restart_refusal(
        told.is_down(site),
        due,
        floor.first_above(vector),
        vector.first_above(&own),
        told.unclosed_with_kept(site, vector, found),
        site,
        vector,
        found,
    )
}
