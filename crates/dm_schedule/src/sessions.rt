//! The lines of a session.

ghost use Rattle.std.specs.Prelude.{◌≡◌, ◌<◌, ◌^◌, ◌-◌, IfOk, length};
ghost use Rattle.dm_lines.specs.Ranges.{IsSession};
ghost use Rattle.dm_schedule.specs.Drive.{next_txn, routed_of, live_of, running_of, outcome_due, is_elsewhere, cause_at, route_line, begin_line, get_line, write_line, commit_of, commit_line, reply_line, fail_line};

use crate::answer::Answer;
use crate::driver::Driver;
use crate::due::{
    end_due, entry_due, is_declared, least_due, live, next_txn, outcome_due, routed, running,
    vector_of,
};
use crate::judging::judge;
use dm_body::OpResult;
use dm_event::{Cause, Choice, Entry, Key, NoMemory, Op, SiteNo, Step, Want, Why};
use std::alloc::Global;

pub(crate) fn route(
    driver: &mut Driver,
    session: u32,
    want: &Want,
    site: SiteNo,
    choice: Choice,
) -> Result<Answer, NoMemory>
    requires { length driver.old.history < 2 ^ 32 - 1 }
    ensures { IfOk result (λ a. (driver.new, a) ≡ route_line driver.old session want.now site choice) }
{
    let txn = next_txn(driver, session);
    let step = Step::Route {
        txn,
        want: want.try_clone()?,
        min: least_due(driver, session),
        site,
        choice,
    };
    judge(driver, step, Answer::Routed { txn, site, choice })
}

#[tactic(auto, unfolding(crate::specs::Drive::is_elsewhere))]
fn is_elsewhere(why: &Why) -> bool
    ensures { result ≡ is_elsewhere why.now }
{
    match why {
        Why::Elsewhere { .. } => true,
        _ => false,
    }
}

pub(crate) fn begin(driver: &mut Driver, alloc: Global, session: u32) -> Result<Answer, NoMemory>
    requires session { IsSession session }
    ensures { IfOk result (λ a. (driver.new, a) ≡ begin_line driver.old session (routed_of driver.old session)) }
{
    match routed(driver, session) {
        Some((txn, site)) => {
            let begin = vector_of(driver, site);
            match driver.begin(alloc, session, site, txn, begin)? {
                None => Ok(Answer::Begun { txn, site, begin }),
                Some(why) => if is_elsewhere(&why) {
                    judge(driver, Step::Moved { site, txn }, Answer::Moved { txn })
                } else {
                    Ok(Answer::Refused(why))
                },
            }
        }
        None => Ok(Answer::Refused(Why::NotRouted)),
    }
}

#[tactic(auto, unfolding(crate::specs::Drive::value_due))]
pub(crate) fn get(driver: &mut Driver, session: u32, key: Key) -> Answer
    requires session { IsSession session }
    ensures { (driver.new, result) ≡ get_line driver.old session key (running_of driver.old session) }
{
    match running(driver, session) {
        Some(run) => {
            if driver.is_full(session) {
                return Answer::RefusedOps;
            }
            match driver.op(session, &run, &Op::Read { key }) {
                OpResult::Value(value) => Answer::Value { value },
                OpResult::Done | OpResult::Full => unreachable!(),
            }
        }
        None => Answer::Refused(Why::NotRunning),
    }
}

/// A write or an addition, which is answered so.
pub(crate) fn write(driver: &mut Driver, session: u32, key: Key, op: Op, answer: Answer) -> Answer
    requires session { IsSession session }
    ensures { (driver.new, result) ≡ write_line driver.old session key op answer (running_of driver.old session) }
{
    match running(driver, session) {
        Some(run) => {
            if driver.is_full(session) {
                return Answer::RefusedOps;
            }
            if !is_declared(driver, run.txn, key) {
                return Answer::Refused(Why::Undeclared { key });
            }
            driver.op(session, &run, &op);
            answer
        }
        None => Answer::Refused(Why::NotRunning),
    }
}

#[tactic(auto, using(crate::proofs::Shapes::entry_sized))]
fn commit_entry(driver: &mut Driver, entry: Entry) -> Result<Answer, NoMemory>
    ensures { IfOk result (λ a. (driver.new, a) ≡ commit_of driver.old entry) }
{
    let (site, seq, mut vector) = (entry.origin, entry.seq, entry.begin);
    match driver.push(Step::Commit { entry })? {
        None => {
            vector.set(site, seq);
            Ok(Answer::Committed { site, seq, vector })
        }
        Some(why) => Ok(Answer::Refused(why)),
    }
}

#[tactic(auto, unfolding(crate::specs::Drive::end_due))]
pub(crate) fn commit(driver: &mut Driver, session: u32) -> Result<Answer, NoMemory>
    requires session { IsSession session }
    ensures { IfOk result (λ a. (driver.new, a) ≡ commit_line driver.old session (running_of driver.old session)) }
{
    match running(driver, session) {
        Some(run) => if driver.has_writes(session) {
            let entry = entry_due(driver, session, &run)?;
            commit_entry(driver, entry)
        } else {
            let step = end_due(driver, session, &run)?;
            judge(driver, step, Answer::Ended { begin: run.begin })
        },
        None => Ok(Answer::Refused(Why::NotRunning)),
    }
}

pub(crate) fn reply(driver: &mut Driver, session: u32) -> Result<Answer, NoMemory>
    requires { length driver.old.history < 2 ^ 32 - 1 }
    ensures { IfOk result (λ a. (driver.new, a) ≡ reply_line driver.old session (next_txn driver.old session).number (outcome_due driver.old session)) }
{
    match outcome_due(driver, session) {
        Some(said) => {
            let number = next_txn(driver, session).number;
            let step = Step::Reply {
                session,
                number,
                said,
            };
            let answer = Answer::Replied {
                session,
                number,
                said,
            };
            judge(driver, step, answer)
        }
        None => Ok(Answer::Refused(Why::WrongSaid)),
    }
}

fn cause_at(site: SiteNo, memory: bool) -> Cause
    ensures { result ≡ cause_at site memory }
{
    if memory {
        Cause::Memory
    } else {
        Cause::Log { site }
    }
}

pub(crate) fn fail(driver: &mut Driver, session: u32, memory: bool) -> Result<Answer, NoMemory>
    ensures { IfOk result (λ a. (driver.new, a) ≡ fail_line driver.old memory (live_of driver.old session)) }
{
    match live(driver, session) {
        Some((txn, site)) => {
            let cause = cause_at(site, memory);
            judge(driver, Step::Fail { site, txn, cause }, Answer::Failed)
        }
        None => Ok(Answer::Refused(Why::NotRunning)),
    }
}
