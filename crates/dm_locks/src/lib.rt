//! The write locks of a site.
//!
//! A transaction asks for all its keys at once. It holds them from then on, or it waits in line: a
//! waiter gets its keys once nobody ahead of it shares one, so nobody overtakes it at a key.
//! Contracts see a table as two lists of claims, the holders and the waiters in the order of asking.
#![tactic(auto)]

mod claim;
mod law;
mod table;

pub use law::{answers_tell_the_first, first_waiter_is_served, nobody_overtakes, one_holder_a_key};
pub use table::{LockAnswer, LockTable};
