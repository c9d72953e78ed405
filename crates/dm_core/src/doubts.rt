//! What a site's last doubt left pending.

ghost use Rattle.std.specs.Prelude.{◌≡◌, option_copied, reverse};
ghost use Rattle.dm_model.specs.Doubts.{pending_at};

use dm_event::{Pending, SiteNo, Step};
use dm_plain::doubt_at;

/// The pending step of the site's last Doubt, found from the end.
pub(crate) fn pending_at(steps: &[Step], site: SiteNo) -> Option<&Pending>
    ensures { option_copied result ≡ pending_at site (reverse steps.now) }
{
    let mut place = steps.len();
    while place > 0 {
        place -= 1;
        if let Some(pending) = doubt_at(&steps[place], site) {
            return Some(pending);
        }
    }
    None
}
