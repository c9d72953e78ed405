//! The commands.
#![tactic(auto)]

mod checking;
mod command;
mod fetching;
mod law;
mod ran;
mod status;
mod stepping;
mod texts;

pub use command::quiet;
pub use dm_schema::{Name, SchemaFlaw};
pub use fetching::MAX_HISTORY;
pub use law::{one_status_an_answer, one_verdict_a_history};
pub use ran::Ran;
pub use status::{Status, status_text};
