//! The plain program: what the definitions say of a list of steps, found by going over the list.
#![tactic(auto)]

mod acts;
mod attempts;
mod doubts;
mod floors;
mod placings;
mod progress;
mod running;
mod sessions;
mod since;
mod values;

pub use acts::{entry_at, entry_count, entry_of, is_of, kept_entry};
pub use attempts::{
    attempt, declared, last_routing, last_want, replies, routes, routing_by, wanted_by, wanted_keys,
};
pub use doubts::{doubt_at, is_down, pending_at};
pub use floors::{entry_count_with_kept, floor, floor_with_kept, kept_floor, unclosed_with_kept};
pub use placings::placing;
pub use progress::{full, reached, site_vector};
pub use running::{begin_vector, common_key, holder, run_site, runner};
pub use sessions::{join_one, session_vector};
pub use since::{last_settled, restarted_since, stood_settled};
pub use values::value;
