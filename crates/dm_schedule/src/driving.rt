//! A history that command lines drive.

ghost use Rattle.std.specs.Prelude.{◌≡◌, ◌<◌, ◌+◌, ◌^◌, ◌-◌, All, IfOk, OnOk, length};
ghost use Rattle.dm_lines.specs.Ranges.{Fits};
ghost use Rattle.dm_schedule.specs.Drive.{by_line, answer_of, driven, drive_of, answers_of};
ghost use Rattle.dm_text.specs.Text.{Appends};

use crate::answer::{Answer, put_answer};
use crate::driver::Driver;
use crate::due::site_due;
use crate::sessions::{begin, commit, fail, get, reply, route, write};
use crate::sites::{
    ask, doubt_commit, doubt_grant, doubt_release, grant, refresh, release, restart, settle,
};
use dm_core::Book;
use dm_event::{Choice, NoMemory, Op};
use dm_lines::{Line, Schedule};
use std::alloc::Global;

/// Does what a command line asks for, where it is allowed.
#[tactic(auto, unfolding(crate::specs::Drive::by_line))]
fn take(driver: &mut Driver, alloc: Global, line: &Line) -> Result<Answer, NoMemory>
    requires line { Fits driver.old.layout line.now }
    requires steps { length driver.old.history < 2 ^ 32 - 1 }
    ensures { IfOk result (λ a. (driver.new, a) ≡ by_line driver.old line.now) }
{
    match line {
        Line::Route {
            session,
            want,
            site: Some(site),
        } => route(driver, *session, want, *site, Choice::Hand),
        Line::Route {
            session,
            want,
            site: None,
        } => {
            let (site, choice) = site_due(driver, *session, want);
            route(driver, *session, want, site, choice)
        }
        Line::Begin { session } => begin(driver, alloc, *session),
        Line::Get { session, key } => Ok(get(driver, *session, *key)),
        Line::Put {
            session,
            key,
            value,
        } => {
            let op = Op::Write {
                key: *key,
                value: *value,
            };
            Ok(write(driver, *session, *key, op, Answer::Put))
        }
        Line::Add { session, key, by } => {
            let op = Op::Add { key: *key, by: *by };
            Ok(write(driver, *session, *key, op, Answer::Added))
        }
        Line::Commit { session } => commit(driver, *session),
        Line::Reply { session } => reply(driver, *session),
        Line::Fail { session, memory } => fail(driver, *session, *memory),
        Line::Refresh { site, origin } => refresh(driver, *site, *origin),
        Line::Ask { part, session } => ask(driver, *part, *session),
        Line::Release { part } => release(driver, *part),
        Line::Grant { part } => grant(driver, *part),
        Line::Settle { part } => settle(driver, *part),
        Line::DoubtCommit { session } => doubt_commit(driver, *session),
        Line::DoubtRelease { part } => doubt_release(driver, *part),
        Line::DoubtGrant { part } => doubt_grant(driver, *part),
        Line::Restart { site, found } => restart(driver, *site, *found),
    }
}

/// Does what a command line asks for, where it is allowed, and appends the line that answers it.
#[tactic(auto, using(crate::proofs::Begins::begins_same), unfolding(crate::specs::Drive::answer_of, crate::specs::Answers::answer_text))]
fn answer(
    driver: &mut Driver,
    alloc: Global,
    line: &Line,
    out: &mut Vec<u8>,
) -> Result<(), NoMemory>
    requires line { Fits driver.old.layout line.now }
    requires steps { length driver.old.history < 2 ^ 32 - 1 }
    ensures does { OnOk result (driver.new ≡ (by_line driver.old line.now).0) }
    ensures answers { Appends result out.old.items out.new.items (answer_of (by_line driver.old line.now)) }
{
    match take(driver, alloc, line)? {
        // The prover has to be told of the type of `why` wherever an answer is held.
        Answer::Refused(why) => put_answer(alloc, out, driver.book(), Answer::Refused(why)),
        answer => put_answer(alloc, out, driver.book(), answer),
    }
}

/// Does the same for each line in turn.
fn answer_all(
    driver: &mut Driver,
    alloc: Global,
    lines: &[Line],
    out: &mut Vec<u8>,
) -> Result<(), NoMemory>
    requires fit { All (λ line. Fits driver.old.layout line) lines.now }
    requires few { length driver.old.history + length lines.now < 2 ^ 32 - 1 }
    ensures does { OnOk result (driver.new ≡ (driven driver.old lines.now).0) }
    ensures layout { OnOk result (driver.new.layout ≡ driver.old.layout) }
    ensures answers { Appends result out.old.items out.new.items (driven driver.old lines.now).1 }
{
    for line in lines {
        answer(driver, alloc, line, out)?;
    }
    Ok(())
}

/// Drives a history by the command lines of a file, and appends a line for each that answers it. The
/// lines fit the schema, and there are fewer than 2^32 - 1, as in every file up to that length.
pub fn drive(alloc: Global, schedule: &Schedule, out: &mut Vec<u8>) -> Result<Book, NoMemory>
    requires fit { All (λ line. Fits schedule.now.schema line) schedule.now.lines.items }
    requires few { length schedule.now.lines.items < 2 ^ 32 - 1 }
    ensures layout { IfOk result (λ book. book.layout ≡ schedule.now.schema) }
    ensures history { IfOk result (λ book. book.steps ≡ (drive_of schedule.now.schema schedule.now.lines.items).history) }
    ensures answers { Appends result out.old.items out.new.items (answers_of schedule.now.schema schedule.now.lines.items) }
{
    let mut driver = Driver::new(alloc, &schedule.schema)?;
    answer_all(&mut driver, alloc, &schedule.lines, out)?;
    Ok(driver.into_book())
}
