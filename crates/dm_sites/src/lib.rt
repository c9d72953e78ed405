//! The sites behind their locks, and what an attempt does at one of them: it runs a transaction, has a partition released or granted, or
//! has the site restarted. A site that is down is restarted by who meets it there, under the lock under which it was found down.
#![tactic(auto)]

mod applying;
mod gate;
mod handing;
mod restarting;
mod running;
mod sites;
mod stop;
mod told;
mod waiting;

pub use gate::{Gate, OpenGate, Point};
pub use handing::{Freed, Given};
pub use sites::{Numbered, SiteLock, Sites};
pub use stop::Stop;
pub use told::{Came, Told, bare};
pub use waiting::stuck;
