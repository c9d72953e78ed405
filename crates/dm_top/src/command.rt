//! Which command the words are.

ghost use Rattle.std.specs.Prelude.{IfSome, IfNone};
ghost use Rattle.dm_top.specs.Command.{IsStep, IsCheck, EndsAs, FailedToRead};

use crate::checking::check;
use crate::ran::{Ran, ended};
use crate::status::Status;
use crate::stepping::step;
use dm_disk::{Sink, Source};
use std::alloc::Global;

fn step_name(words: &[String]) -> Option<&str>
    ensures found { IfSome result (λ name. IsStep words.now name.now) }
    ensures none { IfNone result ((name : _) → IsStep words.now name → ⊥) }
{
    match words {
        [first, name] => if first.as_str() == "step" {
            Some(name.as_str())
        } else {
            None
        },
        _ => None,
    }
}

/// The names of the schema and of the history.
fn check_names(words: &[String]) -> Option<(&str, &str)>
    ensures found { IfSome result (λ names. IsCheck words.now names.0.now names.1.now) }
    ensures none { IfNone result ((schema history : _) → IsCheck words.now schema history → ⊥) }
{
    match words {
        [first, schema, history] => if first.as_str() == "check" {
            Some((schema.as_str(), history.as_str()))
        } else {
            None
        },
        _ => None,
    }
}

/// Does a command that waits for nobody.
pub fn quiet<S: Source, W: Sink>(
    alloc: Global,
    words: &[String],
    source: &mut S,
    sink: &mut W,
) -> Ran
    ensures ends { EndsAs words.now (record { State = S; files = S.files; faults = S.faults; finds = S.finds }) source.old source.new (record {
      had = W.written sink.old;
      has = W.written sink.new;
      before = W.faults sink.old;
      after = W.faults sink.new;
    }) result }
    ensures read_fault { FailedToRead (S.faults source.old) (S.faults source.new) result }
{
    if let Some(name) = step_name(words) {
        return step(alloc, name, source, sink);
    }
    match check_names(words) {
        Some((schema, history)) => check(alloc, schema, history, source, sink),
        None => ended(alloc, Status::BadWords),
    }
}
