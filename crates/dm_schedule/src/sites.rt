//! The lines of sites and partitions: refreshes, hand-overs, doubts and restarts.

ghost use Rattle.std.specs.Prelude.{◌≡◌, ◌<◌, ◌^◌, ◌-◌, IfOk, length};
ghost use Rattle.dm_clauses.specs.Judging.{epoch_now};
ghost use Rattle.dm_lines.specs.Ranges.{IsPart, IsSession};
ghost use Rattle.dm_schedule.specs.Drive.{routed_of, running_of, placing_of, refresh_line, ask_line, release_line, grant_line, settle_line, doubted, doubt_commit_line, doubt_release_line, doubt_grant_line, restart_line};

use crate::answer::Answer;
use crate::driver::Driver;
use crate::due::{entry_due, epoch_now, floor_due, routed, running, vector_of};
use crate::judging::judge;
use dm_event::{Found, NoMemory, Part, Pending, Placing, SiteNo, Step, Why};

pub(crate) fn refresh(driver: &mut Driver, site: SiteNo, origin: SiteNo) -> Result<Answer, NoMemory>
    ensures { IfOk result (λ a. (driver.new, a) ≡ refresh_line driver.old site origin) }
{
    match driver.push(Step::Refresh { site, origin })? {
        None => Ok(Answer::Refreshed {
            site,
            vector: vector_of(driver, site),
        }),
        Some(why) => Ok(Answer::Refused(why)),
    }
}

pub(crate) fn ask(driver: &mut Driver, part: Part, session: u32) -> Result<Answer, NoMemory>
    requires { IsPart driver.old.layout part }
    ensures { IfOk result (λ a. (driver.new, a) ≡ ask_line driver.old part (epoch_now (placing_of driver.old part)) (routed_of driver.old session)) }
{
    match routed(driver, session) {
        Some((txn, to)) => {
            let epoch = epoch_now(driver.placing(part));
            let step = Step::Ask {
                part,
                epoch,
                to,
                txn,
            };
            judge(driver, step, Answer::Asked { part, epoch, to })
        }
        None => Ok(Answer::Refused(Why::NotRouted)),
    }
}

pub(crate) fn release(driver: &mut Driver, part: Part) -> Result<Answer, NoMemory>
    requires { IsPart driver.old.layout part }
    ensures { IfOk result (λ a. (driver.new, a) ≡ release_line driver.old part (placing_of driver.old part)) }
{
    let Placing::Asked { site, epoch, to } = driver.placing(part) else {
        return Ok(Answer::Refused(Why::NotAsked));
    };
    let vector = vector_of(driver, site);
    let step = Step::Release {
        site,
        part,
        epoch,
        to,
        vector,
    };
    let answer = Answer::Released {
        part,
        epoch,
        vector,
    };
    judge(driver, step, answer)
}

pub(crate) fn grant(driver: &mut Driver, part: Part) -> Result<Answer, NoMemory>
    requires part { IsPart driver.old.layout part }
    requires steps { length driver.old.history < 2 ^ 32 - 1 }
    ensures { IfOk result (λ a. (driver.new, a) ≡ grant_line driver.old part (placing_of driver.old part)) }
{
    let Placing::Between {
        epoch: released,
        to,
        vector,
        ..
    } = driver.placing(part)
    else {
        return Ok(Answer::Refused(Why::NotReleased));
    };
    let epoch = released + 1;
    let step = Step::Grant {
        site: to,
        part,
        epoch,
        vector,
    };
    judge(driver, step, Answer::Granted { part, epoch, to })
}

pub(crate) fn settle(driver: &mut Driver, part: Part) -> Result<Answer, NoMemory>
    requires { IsPart driver.old.layout part }
    ensures { IfOk result (λ a. (driver.new, a) ≡ settle_line driver.old part (placing_of driver.old part)) }
{
    let Placing::Granted { epoch, .. } = driver.placing(part) else {
        return Ok(Answer::Refused(Why::NotGranted));
    };
    judge(
        driver,
        Step::Settle { part, epoch },
        Answer::Settled { part, epoch },
    )
}

/// The site goes down over a step that is pending.
fn doubt(driver: &mut Driver, site: SiteNo, pending: Pending) -> Result<Answer, NoMemory>
    ensures { IfOk result (λ a. (driver.new, a) ≡ doubted driver.old site pending) }
{
    judge(
        driver,
        Step::Doubt { site, pending },
        Answer::Doubted { site },
    )
}

pub(crate) fn doubt_commit(driver: &mut Driver, session: u32) -> Result<Answer, NoMemory>
    requires { IsSession session }
    ensures { IfOk result (λ a. (driver.new, a) ≡ doubt_commit_line driver.old session (running_of driver.old session)) }
{
    match running(driver, session) {
        Some(run) => {
            let entry = entry_due(driver, session, &run)?;
            doubt(driver, run.site, Pending::Commit(entry))
        }
        None => Ok(Answer::Refused(Why::NotRunning)),
    }
}

pub(crate) fn doubt_release(driver: &mut Driver, part: Part) -> Result<Answer, NoMemory>
    requires { IsPart driver.old.layout part }
    ensures { IfOk result (λ a. (driver.new, a) ≡ doubt_release_line driver.old part (placing_of driver.old part)) }
{
    let Placing::Asked { site, epoch, to } = driver.placing(part) else {
        return Ok(Answer::Refused(Why::NotAsked));
    };
    let pending = Pending::Release {
        part,
        epoch,
        to,
        vector: vector_of(driver, site),
    };
    doubt(driver, site, pending)
}

pub(crate) fn doubt_grant(driver: &mut Driver, part: Part) -> Result<Answer, NoMemory>
    requires part { IsPart driver.old.layout part }
    requires steps { length driver.old.history < 2 ^ 32 - 1 }
    ensures { IfOk result (λ a. (driver.new, a) ≡ doubt_grant_line driver.old part (placing_of driver.old part)) }
{
    let Placing::Between {
        epoch: released,
        to,
        vector,
        ..
    } = driver.placing(part)
    else {
        return Ok(Answer::Refused(Why::NotReleased));
    };
    let pending = Pending::Grant {
        part,
        epoch: released + 1,
        vector,
    };
    doubt(driver, to, pending)
}

pub(crate) fn restart(driver: &mut Driver, site: SiteNo, found: Found) -> Result<Answer, NoMemory>
    ensures { IfOk result (λ a. (driver.new, a) ≡ restart_line driver.old site found) }
{
    let vector = floor_due(driver, site, found);
    let step = Step::Restart {
        site,
        vector,
        found,
    };
    judge(driver, step, Answer::Restarted { site, vector })
}
