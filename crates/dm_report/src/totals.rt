//! How often the sessions were answered in each way.

ghost use Rattle.std.specs.Prelude.{◌≡◌, ◌≤◌, Some, length, reverse};
ghost use Rattle.dm_report.specs.Rest.{totals_text};
ghost use Rattle.dm_report.specs.Totals.{answers, total, totals_of};

use dm_event::{Said, Step};
use std::fmt;

/// How a session may be answered.
#[derive(Clone, Copy)]
enum Outcome {
    Committed,
    Read,
    Placed,
    Restarted,
    InDoubt,
    Refused,
}

fn answers(step: &Step, outcome: Outcome) -> bool
    ensures { result ≡ answers outcome step.now }
{
    let Step::Reply { said, .. } = step else {
        return false;
    };
    match (outcome, said) {
        (Outcome::Committed, Said::Committed { .. })
        | (Outcome::Read, Said::Read { .. })
        | (Outcome::Placed, Said::Placed { .. })
        | (Outcome::Restarted, Said::Restarted { .. })
        | (Outcome::InDoubt, Said::InDoubt { .. })
        | (Outcome::Refused, Said::Refused(_)) => true,
        _ => false,
    }
}

/// How many Replies have the outcome.
#[tactic(auto, using(dm_event::proofs::Backwards::past_more))]
fn total(steps: &[Step], outcome: Outcome) -> u64
    ensures exact { result ≡ total outcome (reverse steps.now) }
    ensures few { result ≤ length steps.now }
{
    let mut count = 0;
    for step in steps {
        if answers(step, outcome) {
            count += 1;
        }
    }
    count
}

/// How many Replies there are of each outcome.
#[derive(Clone, Copy)]
pub(crate) struct Totals {
    committed: u64,
    read: u64,
    placed: u64,
    restarted: u64,
    in_doubt: u64,
    refused: u64,
}

impl fmt::Display for Totals {
    ghost output = { λ t. Some (totals_text t) };

    #[tactic(auto, unfolding(crate::specs::Rest::totals_text))]
    fn fmt<W: fmt::Write>(&self, f: &mut fmt::Formatter<W>) -> fmt::Result {
        let Totals {
            committed,
            read,
            placed,
            restarted,
            in_doubt,
            refused,
        } = self;
        write!(f, "total committed {committed} read {read} placed {placed}")?;
        write!(
            f,
            " restarted {restarted} in doubt {in_doubt} refused {refused}\n"
        )
    }
}

/// Counts the Replies of each outcome.
pub(crate) fn count_replies(steps: &[Step]) -> Totals
    ensures { result ≡ totals_of (reverse steps.now) }
{
    Totals {
        committed: total(steps, Outcome::Committed),
        read: total(steps, Outcome::Read),
        placed: total(steps, Outcome::Placed),
        restarted: total(steps, Outcome::Restarted),
        in_doubt: total(steps, Outcome::InDoubt),
        refused: total(steps, Outcome::Refused),
    }
}
