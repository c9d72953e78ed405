//! What is due of a hand-over, and what is told of an append.

ghost use Rattle.std.specs.Prelude.{◌≡◌};
ghost use Rattle.dm_desk.specs.Telling.{grant_due, release_due, told_commit, told_grant, told_release};

use crate::answers::{CommitAnswer, GrantAnswer, ReleaseAnswer};
use dm_event::{Cause, Pairs, Placing, SiteNo, TxnId, Vector};
use dm_redo::Appended;

/// What a turn tells of a release.
#[derive(Drop)]
pub enum ReleaseDue {
    Ready {
        epoch: u64,
        to: SiteNo,
        vector: Vector,
    },
    Not {
        answer: ReleaseAnswer,
    },
}

/// What a turn tells of a grant.
#[derive(Drop)]
pub enum GrantDue {
    Ready { epoch: u64, vector: Vector },
    /// The site lacks some of the release's vector.
    Behind { vector: Vector },
    Not { answer: GrantAnswer },
}

/// Whether a partition that is placed so may be released by a site that is up or down, where that attempt
/// runs on it and the site has this vector.
pub fn release_due(
    site: SiteNo,
    down: bool,
    now: Placing,
    runner: Option<TxnId>,
    vector: Vector,
) -> ReleaseDue
    ensures { result ≡ release_due site down now runner vector }
{
    if down {
        return ReleaseDue::Not {
            answer: ReleaseAnswer::Down,
        };
    }
    let Placing::Asked {
        site: master,
        epoch,
        to,
    } = now
    else {
        return ReleaseDue::Not {
            answer: ReleaseAnswer::Passed { now },
        };
    };
    if master != site {
        return ReleaseDue::Not {
            answer: ReleaseAnswer::Passed { now },
        };
    }
    match runner {
        Some(txn) => ReleaseDue::Not {
            answer: ReleaseAnswer::Running { txn },
        },
        None => ReleaseDue::Ready { epoch, to, vector },
    }
}

/// Whether a partition that is placed so may be granted to a site that is up or down and has this vector.
pub fn grant_due(site: SiteNo, down: bool, now: Placing, has: &Vector) -> GrantDue
    ensures { result ≡ grant_due site down now has.now }
{
    if down {
        return GrantDue::Not {
            answer: GrantAnswer::Down,
        };
    }
    let Placing::Between {
        site: _,
        epoch,
        to,
        vector,
    } = now
    else {
        return GrantDue::Not {
            answer: GrantAnswer::Passed { now },
        };
    };
    if to != site {
        return GrantDue::Not {
            answer: GrantAnswer::Passed { now },
        };
    }
    if vector.leq(has) {
        GrantDue::Ready { epoch, vector }
    } else {
        GrantDue::Behind { vector }
    }
}

/// What is told of a commit whose record was appended so.
pub fn told_commit(
    done: Appended,
    site: SiteNo,
    seq: u64,
    vector: Vector,
    reads: Pairs,
) -> CommitAnswer
    ensures { result ≡ told_commit done site seq vector reads }
{
    match done {
        Appended::Done => CommitAnswer::Committed { seq, vector, reads },
        Appended::Undone => CommitAnswer::Failed {
            cause: Cause::Log { site },
        },
        Appended::Doubt => CommitAnswer::InDoubt,
    }
}

/// What is told of a release whose record was appended so.
pub fn told_release(done: Appended, site: SiteNo, vector: Vector) -> ReleaseAnswer
    ensures { result ≡ told_release done site vector }
{
    match done {
        Appended::Done => ReleaseAnswer::Released { vector },
        Appended::Undone => ReleaseAnswer::Failed {
            cause: Cause::Log { site },
        },
        Appended::Doubt => ReleaseAnswer::InDoubt,
    }
}

/// What is told of a grant whose record was appended so.
pub fn told_grant(done: Appended, site: SiteNo) -> GrantAnswer
    ensures { result ≡ told_grant done site }
{
    match done {
        Appended::Done => GrantAnswer::Granted,
        Appended::Undone => GrantAnswer::Failed {
            cause: Cause::Log { site },
        },
        Appended::Doubt => GrantAnswer::InDoubt,
    }
}
