//! What is told of a legal history: the questions that the clauses of its next step ask of it.
#![tactic(auto)]

mod keys;
mod reading;
mod routing;
mod standing;
mod told;

pub use keys::{has_part, parts, sites, weights};
pub use reading::Reading;
pub use routing::Routing;
pub use standing::{is_routed, routed, routed_to, routed_txn, stands_routed};
pub use told::Told;
