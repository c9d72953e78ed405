//! What is kept of a history beside its steps, after steps that were worked out by hand: each function that allocates once, with ample
//! memory.
#![tactic(auto)]

#[cfg(test)]
mod kept;
#[cfg(test)]
mod steps;
