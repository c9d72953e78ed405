//! The line of a step.

ghost use Rattle.std.specs.Prelude.{Some};
ghost use Rattle.dm_history.specs.Steps.{commit_line, release_line, grant_line, pending_line, step_text};

use crate::part::{CauseText, ChoiceText, FoundText, OpsText, SaidText, WantText};
use dm_event::{Entry, Part, Pending, SiteNo, Step, Vector};
use dm_text::{PairsText, TxnText, VectorText};
use std::fmt;

#[derive(Drop)]
struct CommitLine<'a>(&'a Entry);

impl fmt::Display for CommitLine<'_> {
    ghost output = { λ t. Some (commit_line t.0.now) };

    #[tactic(auto, unfolding(crate::specs::Steps::commit_line))]
    fn fmt<W: fmt::Write>(&self, f: &mut fmt::Formatter<W>) -> fmt::Result {
        let entry = self.0;
        let origin = entry.origin;
        let txn = TxnText(&entry.txn);
        let seq = entry.seq;
        let begin = VectorText(&entry.begin);
        let ops = OpsText(&entry.ops);
        let reads = PairsText(&entry.reads);
        let writes = PairsText(&entry.writes);
        write!(
            f,
            "commit {origin} {txn} {seq} {begin} ops {ops} reads {reads} writes {writes}\n"
        )
    }
}

#[derive(Drop)]
struct ReleaseLine<'a> {
    site: SiteNo,
    part: Part,
    epoch: u64,
    to: SiteNo,
    vector: &'a Vector,
}

impl fmt::Display for ReleaseLine<'_> {
    ghost output = { λ t. Some (release_line t.site t.part t.epoch t.to t.vector.now) };

    #[tactic(auto, unfolding(crate::specs::Steps::release_line))]
    fn fmt<W: fmt::Write>(&self, f: &mut fmt::Formatter<W>) -> fmt::Result {
        let ReleaseLine {
            site,
            part,
            epoch,
            to,
            vector,
        } = self;
        let vector = VectorText(vector);
        write!(f, "release {site} {part} {epoch} to {to} {vector}\n")
    }
}

#[derive(Drop)]
struct GrantLine<'a> {
    site: SiteNo,
    part: Part,
    epoch: u64,
    vector: &'a Vector,
}

impl fmt::Display for GrantLine<'_> {
    ghost output = { λ t. Some (grant_line t.site t.part t.epoch t.vector.now) };

    #[tactic(auto, unfolding(crate::specs::Steps::grant_line))]
    fn fmt<W: fmt::Write>(&self, f: &mut fmt::Formatter<W>) -> fmt::Result {
        let GrantLine {
            site,
            part,
            epoch,
            vector,
        } = self;
        let vector = VectorText(vector);
        write!(f, "grant {site} {part} {epoch} {vector}\n")
    }
}

// The line that a pending step of the site has.
#[derive(Drop)]
struct PendingLine<'a> {
    site: SiteNo,
    pending: &'a Pending,
}

impl fmt::Display for PendingLine<'_> {
    ghost output = { λ t. Some (pending_line t.site t.pending.now) };

    #[tactic(auto, unfolding(crate::specs::Steps::pending_line))]
    fn fmt<W: fmt::Write>(&self, f: &mut fmt::Formatter<W>) -> fmt::Result {
        let site = self.site;
        match self.pending {
            Pending::Commit(entry) => {
                let line = CommitLine(entry);
                write!(f, "{line}")
            }
            Pending::Release {
                part,
                epoch,
                to,
                vector,
            } => {
                let line = ReleaseLine {
                    site,
                    part: *part,
                    epoch: *epoch,
                    to: *to,
                    vector,
                };
                write!(f, "{line}")
            }
            Pending::Grant {
                part,
                epoch,
                vector,
            } => {
                let line = GrantLine {
                    site,
                    part: *part,
                    epoch: *epoch,
                    vector,
                };
                write!(f, "{line}")
            }
        }
    }
}

#[derive(Drop)]
pub(crate) struct StepText<'a>(pub(crate) &'a Step);

impl fmt::Display for StepText<'_> {
    ghost output = { λ t. Some (step_text t.0.now) };

    #[tactic(auto, unfolding(crate::specs::Steps::step_text))]
    fn fmt<W: fmt::Write>(&self, f: &mut fmt::Formatter<W>) -> fmt::Result {
        match self.0 {
            Step::Route {
                txn,
                want,
                min,
                site,
                choice,
            } => {
                let txn = TxnText(txn);
                let want = WantText(want);
                let min = VectorText(min);
                let choice = ChoiceText(*choice);
                write!(f, "route {txn} {want} min {min} to {site} {choice}\n")
            }
            Step::Reply {
                session,
                number,
                said,
            } => {
                let said = SaidText(said);
                write!(f, "reply {session} {number} {said}\n")
            }
            Step::Ask {
                part,
                epoch,
                to,
                txn,
            } => {
                let txn = TxnText(txn);
                write!(f, "ask {part} {epoch} {to} {txn}\n")
            }
            Step::Settle { part, epoch } => write!(f, "settle {part} {epoch}\n"),
            Step::Begin { site, txn, begin } => {
                let txn = TxnText(txn);
                let begin = VectorText(begin);
                write!(f, "begin {site} {txn} {begin}\n")
            }
            Step::Moved { site, txn } => {
                let txn = TxnText(txn);
                write!(f, "moved {site} {txn}\n")
            }
            Step::Commit { entry } => {
                let line = CommitLine(entry);
                write!(f, "{line}")
            }
            Step::End {
                site,
                txn,
                ops,
                reads,
            } => {
                let txn = TxnText(txn);
                let ops = OpsText(ops);
                let reads = PairsText(reads);
                write!(f, "end {site} {txn} ops {ops} reads {reads}\n")
            }
            Step::Fail { site, txn, cause } => {
                let txn = TxnText(txn);
                let cause = CauseText(cause);
                write!(f, "fail {site} {txn} {cause}\n")
            }
            Step::Refresh { site, origin } => write!(f, "refresh {site} {origin}\n"),
            Step::Release {
                site,
                part,
                epoch,
                to,
                vector,
            } => {
                let line = ReleaseLine {
                    site: *site,
                    part: *part,
                    epoch: *epoch,
                    to: *to,
                    vector,
                };
                write!(f, "{line}")
            }
            Step::Grant {
                site,
                part,
                epoch,
                vector,
            } => {
                let line = GrantLine {
                    site: *site,
                    part: *part,
                    epoch: *epoch,
                    vector,
                };
                write!(f, "{line}")
            }
            Step::Doubt { site, pending } => {
                let line = PendingLine {
                    site: *site,
                    pending,
                };
                write!(f, "doubt {line}")
            }
            Step::Restart {
                site,
                vector,
                found,
            } => {
                let vector = VectorText(vector);
                let found = FoundText(*found);
                write!(f, "restart {site} {vector} {found}\n")
            }
        }
    }
}
