//! What a session may be answered, and which outcome is due.
#![tactic(auto)]

mod causes;
mod outcomes;
mod states;
mod wants;

pub use causes::same_byte;
pub use outcomes::{may_say, said_due};
