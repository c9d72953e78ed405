//! A written history is judged: it is legal, or its first step that may not stand is named.
#![tactic(auto)]

mod judging;
#[cfg(test)]
mod tests;

pub use judging::{Checked, Judge, check};
