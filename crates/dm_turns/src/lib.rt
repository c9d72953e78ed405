//! Laws under a chronicle that threads share, and what comes of them. Their tests run threads.
#![tactic(auto)]

mod numbers;
mod sessions;
#[cfg(test)]
mod tests;
