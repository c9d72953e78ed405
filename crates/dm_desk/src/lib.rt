//! Turns that a session and a site take together, and what is done in them with all that a site keeps: its
//! store, its locks and its log.
#![tactic(auto)]

mod answers;
mod desk;
mod readying;
mod restarting;
mod telling;
mod turns;

pub use answers::{
    CatchAnswer, CommitAnswer, GrantAnswer, OpAnswer, RefreshAnswer, ReleaseAnswer, RestartAnswer,
};
pub use desk::{Desk, let_go};
pub use restarting::expected;
pub use telling::{
    GrantDue, ReleaseDue, grant_due, release_due, told_commit, told_grant, told_release,
};
pub use turns::{
    enter_alone, enter_both, is_down, is_elsewhere, keeps_limits, leave, next_refresh, next_seq,
    placing, push_alone, push_ending, push_roomy, reserve, runner, vector,
};
