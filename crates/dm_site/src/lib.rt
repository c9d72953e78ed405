//! A data site: it begins transactions at its vector, runs their ops on its store, logs before it commits,
//! takes over what other sites committed, gives up and takes over partitions, and restarts from its log.
#![tactic(auto)]

mod answers;
mod beginning;
mod committing;
mod granting;
mod handing;
mod loading;
mod refreshing;
mod releasing;
mod restarting;
mod run;
mod site;

pub use answers::BeginAnswer;
pub use dm_desk::{
    CatchAnswer, CommitAnswer, GrantAnswer, OpAnswer, RefreshAnswer, ReleaseAnswer, RestartAnswer,
};
pub use run::Run;
pub use site::Site;
