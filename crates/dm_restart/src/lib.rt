//! What a site starts again with: the vector that its own records hold it to, and the store of what is
//! inside that vector.
#![tactic(auto)]

mod floors;
mod law;
mod plans;
mod start;
#[cfg(test)]
mod tests;

pub use floors::floor;
pub use law::{floors_of_records, plans_of_histories};
pub use plans::plan;
pub use start::Plan;
