//! Transactions, and the steps of a history: each one atomic action of a session, a partition or a site.

ghost use Rattle.std.specs.Prelude.{◌≡◌, ◌≤◌, length};
ghost use Rattle.dm_event.specs.Entries.{commit_vector};
ghost use Rattle.dm_event.specs.Txns.{same_txn};

use crate::{Key, Keys, Ops, Pairs, Part, SiteNo, Value, Vector};

/// An attempt at an item of a session.
#[derive(Clone, Copy, Debug, PartialEq, Eq)]
pub struct TxnId {
    /// 1 to 32.
    pub session: u32,
    /// The item's place in the session, from 1 on.
    pub number: u32,
    /// Which attempt at the item this is, from 1 on.
    pub attempt: u64,
}

impl TxnId {
    pub fn same(&self, other: &TxnId) -> bool
        ensures { result ≡ same_txn self.now other.now }
    {
        self.session == other.session
            && (self.number == other.number && self.attempt == other.attempt)
    }
}

/// A key with the value that was read or written.
#[derive(Clone, Copy, Debug, PartialEq, Eq)]
pub struct Pair {
    pub key: Key,
    pub value: Value,
}

/// One operation of a transaction.
#[derive(Clone, Copy, Debug, PartialEq, Eq)]
pub enum Op {
    Read { key: Key },
    Write { key: Key, value: Value },
    /// Writes what a read would give, plus `by`, wrapped at 64 bits.
    Add { key: Key, by: Value },
}

/// What a client asks of a transaction: the keys that it may write, and its ops.
#[derive(Debug, Drop)]
pub struct Body {
    pub declared: Keys,
    pub ops: Ops,
}

/// A committed update transaction.
#[derive(Debug, Drop)]
pub struct Entry {
    pub txn: TxnId,
    /// The site at which it ran.
    pub origin: SiteNo,
    /// Its number among the entries of its origin, from 1 on.
    pub seq: u64,
    /// The vector of the origin when it began: what its reads could see.
    pub begin: Vector,
    pub ops: Ops,
    /// What each read gave, in the order of the ops.
    pub reads: Pairs,
    /// The last value of each written key, ascending by key.
    pub writes: Pairs,
}

impl Entry {
    /// The begin vector with the entry's own number at its origin.
    pub fn commit_vector(&self) -> Vector
        requires { (1 ≤ self.now.origin) × (self.now.origin ≤ length self.now.begin) }
        ensures { result ≡ commit_vector self.now }
    {
        let mut vector = self.begin;
        vector.set(self.origin, self.seq);
        vector
    }
}

/// What an item is: a transaction with its declared keys, a partition to be moved, or a site to be
/// restarted.
#[derive(Debug, Drop)]
pub enum Want {
    Txn(Keys),
    Place(Part),
    Restart,
}

/// How the site of a Route was found.
#[derive(Clone, Copy, Debug, PartialEq, Eq)]
pub enum Choice {
    /// It masters every declared partition.
    Master,
    /// It has the greatest score.
    Best,
    /// The transaction declares no key.
    Reader,
    /// The caller named it.
    Hand,
}

/// What a restart finds of the site's pending step: there was none, its record stands in the log,
/// or it doesn't.
#[derive(Clone, Copy, Debug, PartialEq, Eq)]
pub enum Found {
    Clean,
    Kept,
    Lost,
}

/// Why an item was refused.
#[derive(Clone, Copy, Debug, PartialEq, Eq)]
pub enum Cause {
    /// It writes a key that it doesn't declare.
    Undeclared {
        key: Key,
    },
    /// The site's log could not be written.
    Log {
        site: SiteNo,
    },
    /// The site's log has another byte at this place than was written; None past an end.
    Damage {
        site: SiteNo,
        place: u64,
        read: Option<u8>,
        written: Option<u8>,
    },
    /// There was no memory.
    Memory,
}

/// How a session's item was answered.
#[derive(Clone, Copy, Debug, PartialEq, Eq)]
pub enum Said {
    Committed {
        site: SiteNo,
        seq: u64,
    },
    /// The transaction wrote nothing.
    Read {
        site: SiteNo,
    },
    /// Whether it committed is known only after the site's next restart.
    InDoubt {
        site: SiteNo,
    },
    Placed {
        part: Part,
        site: SiteNo,
        epoch: u64,
    },
    Restarted {
        site: SiteNo,
    },
    Refused(Cause),
}

/// A step whose record may or may not stand in the site's log.
#[derive(Debug, Drop)]
pub enum Pending {
    Commit(Entry),
    Release {
        part: Part,
        epoch: u64,
        to: SiteNo,
        vector: Vector,
    },
    Grant {
        part: Part,
        epoch: u64,
        vector: Vector,
    },
}

/// A step of the history.
#[derive(Debug, Drop)]
pub enum Step {
    /// A session sends an attempt to a site, which must reach `min` before it begins.
    Route {
        txn: TxnId,
        want: Want,
        min: Vector,
        site: SiteNo,
        choice: Choice,
    },
    /// A session is answered, which ends its item.
    Reply {
        session: u32,
        number: u32,
        said: Said,
    },
    /// A partition is asked away from its master, on behalf of an attempt.
    Ask {
        part: Part,
        epoch: u64,
        to: SiteNo,
        txn: TxnId,
    },
    /// A partition that was handed over is open for routing again.
    Settle {
        part: Part,
        epoch: u64,
    },
    /// An attempt takes its keys at a site and fixes the vector that it reads at.
    Begin {
        site: SiteNo,
        txn: TxnId,
        begin: Vector,
    },
    /// An attempt finds that the site may not begin on one of its partitions.
    Moved {
        site: SiteNo,
        txn: TxnId,
    },
    Commit {
        entry: Entry,
    },
    /// A transaction ends that wrote nothing.
    End {
        site: SiteNo,
        txn: TxnId,
        ops: Ops,
        reads: Pairs,
    },
    Fail {
        site: SiteNo,
        txn: TxnId,
        cause: Cause,
    },
    /// A site applies the next transaction of another one.
    Refresh {
        site: SiteNo,
        origin: SiteNo,
    },
    /// The master of a partition gives it up, at this vector.
    Release {
        site: SiteNo,
        part: Part,
        epoch: u64,
        to: SiteNo,
        vector: Vector,
    },
    /// A site takes a partition over; `vector` is that of the Release.
    Grant {
        site: SiteNo,
        part: Part,
        epoch: u64,
        vector: Vector,
    },
    /// A site goes down, not knowing whether its pending step stands in its log.
    Doubt {
        site: SiteNo,
        pending: Pending,
    },
    /// A site starts again with what its log has.
    Restart {
        site: SiteNo,
        vector: Vector,
        found: Found,
    },
}
