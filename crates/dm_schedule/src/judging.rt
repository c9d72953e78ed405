//! A step that a command line asks for.

ghost use Rattle.std.specs.Prelude.{◌≡◌, false, IfOk};
ghost use Rattle.dm_schedule.specs.Drive.{refusal_of, extended, judged};
ghost use Rattle.dm_schedule.specs.Drivers.{is_begin};

use crate::answer::Answer;
use crate::driver::Driver;
use dm_event::{NoMemory, Step};

/// Adds the step, which has this answer, where nothing refuses it.
pub(crate) fn judge(driver: &mut Driver, step: Step, answer: Answer) -> Result<Answer, NoMemory>
    requires { is_begin step ≡ false }
    ensures { IfOk result (λ a. (driver.new, a) ≡ judged (refusal_of driver.old step) driver.old (extended driver.old step) answer) }
{
    match driver.push(step)? {
        None => Ok(answer),
        Some(why) => Ok(Answer::Refused(why)),
    }
}
