//! Copies of what owns memory, which may find none.

ghost use Rattle.std.specs.Prelude.{◌≡◌, IfOk};

use crate::NoMemory;
use crate::step::{Body, Entry, Pending, Step, Want};

impl Body {
    /// A copy.
    pub fn try_clone(&self) -> Result<Body, NoMemory>
        ensures { IfOk result (λ copy. copy ≡ self.now) }
    {
        Ok(Body {
            declared: self.declared.try_clone()?,
            ops: self.ops.try_clone()?,
        })
    }
}

impl Entry {
    /// A copy.
    pub fn try_clone(&self) -> Result<Entry, NoMemory>
        ensures { IfOk result (λ copy. copy ≡ self.now) }
    {
        Ok(Entry {
            txn: self.txn,
            origin: self.origin,
            seq: self.seq,
            begin: self.begin,
            ops: self.ops.try_clone()?,
            reads: self.reads.try_clone()?,
            writes: self.writes.try_clone()?,
        })
    }
}

impl Want {
    /// A copy.
    pub fn try_clone(&self) -> Result<Want, NoMemory>
        ensures { IfOk result (λ copy. copy ≡ self.now) }
    {
        match self {
            Want::Txn(keys) => Ok(Want::Txn(keys.try_clone()?)),
            Want::Place(part) => Ok(Want::Place(*part)),
            Want::Restart => Ok(Want::Restart),
        }
    }
}

impl Pending {
    /// A copy.
    pub fn try_clone(&self) -> Result<Pending, NoMemory>
        ensures { IfOk result (λ copy. copy ≡ self.now) }
    {
        match self {
            Pending::Commit(entry) => Ok(Pending::Commit(entry.try_clone()?)),
            Pending::Release {
                part,
                epoch,
                to,
                vector,
            } => Ok(Pending::Release {
                part: *part,
                epoch: *epoch,
                to: *to,
                vector: *vector,
            }),
            Pending::Grant {
                part,
                epoch,
                vector,
            } => Ok(Pending::Grant {
                part: *part,
                epoch: *epoch,
                vector: *vector,
            }),
        }
    }
}

impl Step {
    /// A copy.
    pub fn try_clone(&self) -> Result<Step, NoMemory>
        ensures { IfOk result (λ copy. copy ≡ self.now) }
    {
        match self {
            Step::Route {
                txn,
                want,
                min,
                site,
                choice,
            } => Ok(Step::Route {
                txn: *txn,
                want: want.try_clone()?,
                min: *min,
                site: *site,
                choice: *choice,
            }),
            Step::Reply {
                session,
                number,
                said,
            } => Ok(Step::Reply {
                session: *session,
                number: *number,
                said: *said,
            }),
            Step::Ask {
                part,
                epoch,
                to,
                txn,
            } => Ok(Step::Ask {
                part: *part,
                epoch: *epoch,
                to: *to,
                txn: *txn,
            }),
            Step::Settle { part, epoch } => Ok(Step::Settle {
                part: *part,
                epoch: *epoch,
            }),
            Step::Begin { site, txn, begin } => Ok(Step::Begin {
                site: *site,
                txn: *txn,
                begin: *begin,
            }),
            Step::Moved { site, txn } => Ok(Step::Moved {
                site: *site,
                txn: *txn,
            }),
            Step::Commit { entry } => Ok(Step::Commit {
                entry: entry.try_clone()?,
            }),
            Step::End {
                site,
                txn,
                ops,
                reads,
            } => Ok(Step::End {
                site: *site,
                txn: *txn,
                ops: ops.try_clone()?,
                reads: reads.try_clone()?,
            }),
            Step::Fail { site, txn, cause } => Ok(Step::Fail {
                site: *site,
                txn: *txn,
                cause: *cause,
            }),
            Step::Refresh { site, origin } => Ok(Step::Refresh {
                site: *site,
                origin: *origin,
            }),
            Step::Release {
                site,
                part,
                epoch,
                to,
                vector,
            } => Ok(Step::Release {
                site: *site,
                part: *part,
                epoch: *epoch,
                to: *to,
                vector: *vector,
            }),
            Step::Grant {
                site,
                part,
                epoch,
                vector,
            } => Ok(Step::Grant {
                site: *site,
                part: *part,
                epoch: *epoch,
                vector: *vector,
            }),
            Step::Doubt { site, pending } => Ok(Step::Doubt {
                site: *site,
                pending: pending.try_clone()?,
            }),
            Step::Restart {
                site,
                vector,
                found,
            } => Ok(Step::Restart {
                site: *site,
                vector: *vector,
                found: *found,
            }),
        }
    }
}
