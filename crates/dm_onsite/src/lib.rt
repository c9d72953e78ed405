//! Two sites and two sessions, which play acts one after the other, and what comes of it: answers, logs and crash images.
//! Its tests compare what comes, and `bench/site` times it. A play itself promises nothing.
#![tactic(auto)]

mod act;
mod acting;
#[cfg(test)]
mod commits;
#[cfg(test)]
mod crashes;
#[cfg(test)]
mod hand_overs;
mod opening;
mod player;
mod playing;
mod routing;
#[cfg(test)]
mod samples;
mod stage;

pub use act::{Act, Outcome, Who};
pub use playing::{Played, play};
pub use stage::Finished;
