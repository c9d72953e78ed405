//! The versions of each key at a site: what a transaction reads at the vector at which it began.
//!
//! A `Store` installs committed transactions, one after another, and answers what a key's value is
//! at a vector. Contracts see it as the list of the installed transactions, in order.
#![tactic(auto)]

mod chains;
mod law;
mod past;
mod store;
mod version;

pub use law::reads_of_histories;
pub use past::Past;
pub use store::Store;
