//! What `check` says of histories, beside texts that were written by hand.
#![tactic(auto)]

#[cfg(test)]
mod asking;
#[cfg(test)]
mod cuts;
#[cfg(test)]
mod ends;
#[cfg(test)]
mod legal;
#[cfg(test)]
mod refusals;
