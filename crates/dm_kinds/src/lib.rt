//! The line of each kind of step: what its words say, or its first fault.
#![tactic(auto)]

mod act;
mod cause;
mod marks;
mod neat;
mod range;
mod reply;
mod route;
mod step;
mod value;
mod vector;

pub use act::Act;
pub use marks::{cut_at, pieces};
pub use route::Way;
pub use step::step_of;
