//! Schema files: what their bytes say.
#![tactic(auto)]

mod error;
mod name;
mod names;
mod numbers;
mod parts;
mod reading;
mod spans;
#[cfg(test)]
mod tests;

pub use error::{SchemaError, SchemaFlaw};
pub use name::Name;
pub use reading::read;
