//! Sessions: the pass of a client, how many items it was answered, and what it has seen.
#![tactic(auto)]

mod routes;
mod session;

pub use session::{Rest, Session};
