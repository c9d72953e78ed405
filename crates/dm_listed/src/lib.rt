//! A legal history as the plain list of its steps, which tells what the plain program finds in it.
#![tactic(auto)]

mod listed;

pub use listed::Listed;
