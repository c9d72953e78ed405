//! The text of a history, one line for each step, and the text of why a step may not come.
#![tactic(auto)]

mod line;
mod part;
mod printing;
mod reason;

pub use part::{ByteText, ChoiceText};
pub use printing::{print_step, print_why, put_step, put_why};
pub use reason::WhyText;
