//! What is played, and what comes of it.
use dm_event::{Cause, Found, Key, Placing, SiteNo, TxnId, Value, Vector};
use dm_site::{CommitAnswer, GrantAnswer, OpAnswer, RefreshAnswer, ReleaseAnswer, RestartAnswer};

/// Who plays an act.
#[derive(Clone, Copy, Debug, PartialEq, Eq)]
pub enum Who {
    First,
    Second,
}

/// One act of a session. Transactions run at site 1, and the first partition moves.
#[derive(Clone, Copy, Debug, PartialEq, Eq)]
pub enum Act {
    /// It routes its next item, which declares the key, and begins it.
    Begin { key: Key },
    Read { key: Key },
    Write { key: Key, value: Value },
    Commit,
    Fail,
    /// Its attempt doesn't wait any more.
    Withdraw,
    /// It routes a hand-over to the site, and the partition is asked away.
    Ask { to: SiteNo },
    Release { site: SiteNo },
    Grant { site: SiteNo },
    /// The partition is settled where it was granted, and the hand-over is answered.
    Settle,
    Refresh { site: SiteNo },
    /// It routes a restart of the site, and restarts it.
    Restart { site: SiteNo },
}

/// What came of an act.
#[derive(Clone, Copy, Debug, PartialEq, Eq)]
pub enum Outcome {
    /// It can't be played now.
    Idle,
    NoMemory,
    Asked,
    Begun,
    Moved,
    Held { by: TxnId, key: Key },
    Value(Value),
    Done,
    Dropped,
    Committed { seq: u64, vector: Vector },
    Ended,
    InDoubt,
    Failed { cause: Cause },
    Withdrawn,
    Applied { origin: SiteNo },
    Nothing,
    Down,
    Released { vector: Vector },
    Granted,
    Settled,
    Running { txn: TxnId },
    Passed { now: Placing },
    Restarted { vector: Vector, found: Found },
}

impl From<OpAnswer> for Outcome {
    fn from(answer: OpAnswer) -> Outcome {
        match answer {
            OpAnswer::Value(value) => Outcome::Value(value),
            OpAnswer::Done => Outcome::Done,
            OpAnswer::Dropped => Outcome::Dropped,
        }
    }
}

impl From<CommitAnswer> for Outcome {
    fn from(answer: CommitAnswer) -> Outcome {
        match answer {
            CommitAnswer::Committed { seq, vector, .. } => Outcome::Committed { seq, vector },
            CommitAnswer::Ended { .. } => Outcome::Ended,
            CommitAnswer::InDoubt => Outcome::InDoubt,
            CommitAnswer::Failed { cause } => Outcome::Failed { cause },
            CommitAnswer::Dropped => Outcome::Dropped,
        }
    }
}

impl From<RefreshAnswer> for Outcome {
    fn from(answer: RefreshAnswer) -> Outcome {
        match answer {
            RefreshAnswer::Applied { origin } => Outcome::Applied { origin },
            RefreshAnswer::Nothing => Outcome::Nothing,
            RefreshAnswer::Down => Outcome::Down,
        }
    }
}

impl From<ReleaseAnswer> for Outcome {
    fn from(answer: ReleaseAnswer) -> Outcome {
        match answer {
            ReleaseAnswer::Released { vector } => Outcome::Released { vector },
            ReleaseAnswer::Running { txn } => Outcome::Running { txn },
            ReleaseAnswer::Down => Outcome::Down,
            ReleaseAnswer::Passed { now } => Outcome::Passed { now },
            ReleaseAnswer::InDoubt => Outcome::InDoubt,
            ReleaseAnswer::Failed { cause } => Outcome::Failed { cause },
        }
    }
}

impl From<GrantAnswer> for Outcome {
    fn from(answer: GrantAnswer) -> Outcome {
        match answer {
            GrantAnswer::Granted => Outcome::Granted,
            GrantAnswer::Down => Outcome::Down,
            GrantAnswer::Passed { now } => Outcome::Passed { now },
            GrantAnswer::InDoubt => Outcome::InDoubt,
            GrantAnswer::Failed { cause } => Outcome::Failed { cause },
        }
    }
}

impl From<RestartAnswer> for Outcome {
    fn from(answer: RestartAnswer) -> Outcome {
        match answer {
            RestartAnswer::Restarted { vector, found } => Outcome::Restarted { vector, found },
            RestartAnswer::Failed { cause } => Outcome::Failed { cause },
        }
    }
}
