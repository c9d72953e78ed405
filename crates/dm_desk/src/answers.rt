//! What a site answers.
use dm_event::{Cause, Found, Pairs, Placing, SiteNo, TxnId, Value, Vector};

/// How an op went.
#[derive(Clone, Copy, Debug, PartialEq, Eq)]
pub enum OpAnswer {
    /// The value read.
    Value(Value),
    /// Written.
    Done,
    /// The attempt doesn't run any more, since the site came into doubt or restarted.
    Dropped,
}

/// How the end of a running attempt went.
#[derive(Drop)]
pub enum CommitAnswer {
    Committed {
        seq: u64,
        vector: Vector,
        reads: Pairs,
    },
    /// It wrote nothing.
    Ended {
        begin: Vector,
        reads: Pairs,
    },
    /// Whether it is committed will be found at the site's restart.
    InDoubt,
    Failed {
        cause: Cause,
    },
    /// The attempt doesn't run any more, since the site came into doubt or restarted.
    Dropped,
}

/// How a Refresh went.
#[derive(Clone, Copy, Debug, PartialEq, Eq)]
pub enum RefreshAnswer {
    /// A transaction of this origin was taken over.
    Applied { origin: SiteNo },
    Nothing,
    Down,
}

/// How a catching up went.
#[derive(Clone, Copy, Debug, PartialEq, Eq)]
pub enum CatchAnswer {
    Reached,
    Down,
}

/// How a release went.
#[derive(Drop)]
pub enum ReleaseAnswer {
    /// The partition is on its way, with all that the site has.
    Released { vector: Vector },
    /// This attempt, the earliest begun, runs there and declares a key of the partition.
    Running { txn: TxnId },
    Down,
    /// The partition isn't asked away from the site.
    Passed { now: Placing },
    InDoubt,
    Failed { cause: Cause },
}

/// How a grant went.
#[derive(Drop)]
pub enum GrantAnswer {
    Granted,
    Down,
    /// The partition isn't on its way to the site.
    Passed { now: Placing },
    InDoubt,
    Failed { cause: Cause },
}

/// How a restart went.
#[derive(Drop)]
pub enum RestartAnswer {
    Restarted { vector: Vector, found: Found },
    Failed { cause: Cause },
}
