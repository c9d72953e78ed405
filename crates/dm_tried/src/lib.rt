//! What the leaves answer, from bodies to files: each function that allocates once, with ample memory, beside an answer that was worked out
//! by hand; and the worked rows of the stores and the lock tables.
#![tactic(auto)]

#[cfg(test)]
mod bodies;
#[cfg(test)]
mod disks;
#[cfg(test)]
mod locks;
#[cfg(test)]
mod stores;
#[cfg(test)]
mod texts;
#[cfg(test)]
mod windows;
