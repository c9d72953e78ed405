//! What the lines of histories say, and what is wrong with faulty ones, beside rows that were worked out by hand; tests alone.
#![tactic(auto)]

#[cfg(test)]
mod histories;
