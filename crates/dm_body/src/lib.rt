//! What the ops of a transaction read and write.
//!
//! A transaction reads the values at the vector at which it began, a `View`, under its own
//! writes, which nobody else sees before it commits. `Overlay` keeps those writes op by op, and
//! `run` does a whole body at once. `body_fits` judges reads and writes that are there
//! already.
#![tactic(auto)]

mod fitting;
mod fold;
mod law;
mod overlay;
mod view;
mod writes;

pub use fitting::{body_fits, reads_fit};
pub use fold::{first_undeclared, has_writes, run, undeclared_in};
pub use law::writes_ascend;
pub use overlay::{OpResult, Overlay, Ran};
pub use view::View;
pub use writes::written;
