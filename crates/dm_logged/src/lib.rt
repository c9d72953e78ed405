//! A caller that appends two records to a log and says of itself what a crash leaves; and tables that were worked out by hand: what is found in log
//! files and in frames, what faults and crashes leave, and what is said of a file that isn't as it was written.
#![tactic(auto)]

mod calling;

pub use calling::append_both;

#[cfg(test)]
mod appending;
#[cfg(test)]
mod comparing;
#[cfg(test)]
mod decoding;
#[cfg(test)]
mod loading;
#[cfg(test)]
mod samples;
