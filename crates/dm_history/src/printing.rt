//! Printing steps and reasons.

ghost use Rattle.std.specs.Prelude.{◌≡◌, IfOk};
ghost use Rattle.dm_text.specs.Text.{Appends};
ghost use Rattle.dm_history.specs.Steps.{step_text};
ghost use Rattle.dm_history.specs.Whys.{why_text};

use crate::line::StepText;
use crate::reason::WhyText;
use dm_event::{NoMemory, Step, Why};
use dm_text::put_text;
use std::alloc::Global;

/// The line of a step, with its line feed.
pub fn print_step(alloc: Global, step: &Step) -> Result<Vec<u8>, NoMemory>
    ensures { IfOk result (λ line. line.items ≡ step_text step.now) }
{
    Ok(StepText(step).to_string(alloc)?.into_bytes())
}

/// Appends the line of a step, with its line feed.
pub fn put_step(alloc: Global, out: &mut Vec<u8>, step: &Step) -> Result<(), NoMemory>
    ensures { Appends result out.old.items out.new.items (step_text step.now) }
{
    put_text(out, &StepText(step).to_string(alloc)?)
}

/// Why a step may not come, in words, with no line feed.
pub fn print_why(alloc: Global, why: &Why) -> Result<Vec<u8>, NoMemory>
    ensures { IfOk result (λ text. text.items ≡ why_text why.now) }
{
    Ok(WhyText(why).to_string(alloc)?.into_bytes())
}

/// Appends why a step may not come, in words, with no line feed.
pub fn put_why(alloc: Global, out: &mut Vec<u8>, why: &Why) -> Result<(), NoMemory>
    ensures { Appends result out.old.items out.new.items (why_text why.now) }
{
    put_text(out, &WhyText(why).to_string(alloc)?)
}
