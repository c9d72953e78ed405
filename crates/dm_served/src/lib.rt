//! Two sites and two clients on one thread, whose jobs are answered one after the other. Its tests compare what they are told, and
//! `bench/client` times it. A run itself promises nothing.
#![tactic(auto)]

#[cfg(test)]
mod answers;
#[cfg(test)]
mod faults;
mod job;
#[cfg(test)]
mod samples;
mod serving;
mod two;

pub use job::{Job, Who};
pub use serving::{Served, serve};
