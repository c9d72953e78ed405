//! What a client is told of its item.

ghost use Rattle.std.specs.Prelude.{◌≡◌, [], None};
ghost use Rattle.dm_sites.specs.Telling.{came_of};

use dm_event::{Pairs, Said, SiteNo, TxnId, Vector};
use dm_site::CommitAnswer;
use std::alloc::Global;

/// What a client is told of its item.
#[derive(Drop)]
pub struct Told {
    pub said: Said,
    /// The item's last attempt, None where it has no Route.
    pub txn: Option<TxnId>,
    /// What a transaction read that committed or ended, and nothing else.
    pub reads: Pairs,
    /// The commit vector of what committed, or the begin vector of what ended.
    pub vector: Option<Vector>,
}

/// What came of an attempt.
#[derive(Drop)]
pub enum Came {
    Say { told: Told },
    /// It was sent away or dropped, and is to be routed again.
    Again { txn: TxnId },
}

/// What the answer of a commit comes to.
pub(crate) fn came_of(alloc: Global, answer: CommitAnswer, txn: TxnId, to: SiteNo) -> Came
    ensures { result ≡ came_of txn to answer }
{
    let last = Some(txn);
    match answer {
        CommitAnswer::Committed { seq, vector, reads } => Came::Say {
            told: Told {
                said: Said::Committed { site: to, seq },
                txn: last,
                reads,
                vector: Some(vector),
            },
        },
        CommitAnswer::Ended { begin, reads } => Came::Say {
            told: Told {
                said: Said::Read { site: to },
                txn: last,
                reads,
                vector: Some(begin),
            },
        },
        CommitAnswer::InDoubt => Came::Say {
            told: bare(alloc, Said::InDoubt { site: to }, last),
        },
        CommitAnswer::Failed { cause } => Came::Say {
            told: bare(alloc, Said::Refused(cause), last),
        },
        CommitAnswer::Dropped => Came::Again { txn },
    }
}

/// An outcome without reads.
pub fn bare(alloc: Global, said: Said, txn: Option<TxnId>) -> Told
    ensures { result ≡ record { said = said; txn = txn; reads = []; vector = None } }
{
    Told {
        said,
        txn,
        reads: Pairs::new(Vec::new(alloc)),
        vector: None,
    }
}
