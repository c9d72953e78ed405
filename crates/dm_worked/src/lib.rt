//! Histories of the book whose answers are worked out by hand. There are two sites and two partitions of ten keys: 0 to 9 at site 1,
//! 10 to 19 at site 2.
#![tactic(auto)]

#[cfg(test)]
mod acts;
#[cfg(test)]
mod past;
#[cfg(test)]
mod site;
#[cfg(test)]
mod tables;
