//! How far each site has come, and what each session has seen: what is kept of them beside the list of
//! steps, and brought up to date by each step, so that a look at it costs the same however long the list
//! is.
//!
//! No call has a condition. A vector that doesn't fit, which no legal history has, changes nothing.
#![tactic(auto)]

mod joining;
mod numbers;
mod session;
mod site;

pub use numbers::Numbers;
pub use session::SessionNumbers;
pub use site::SiteNumbers;
