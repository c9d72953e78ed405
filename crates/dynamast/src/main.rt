//! The program: `dynamast step FILE` and `dynamast check SCHEMA FILE`.
#![tactic(auto)]

use dm_disk::{FileSource, StdoutSink};
use dm_top::{Ran, Status, quiet, status_text};
use std::alloc::Global;
use std::env::Env;
use std::io::ErrorKind;
use std::process::ExitCode;
use std::{env, io};

/// The words behind the program's name.
fn words_of(rt: &(impl Env + AllocGlobal), alloc: Global) -> io::Result<Vec<String>> {
    let mut words = Vec::new(alloc);
    for word in env::args(rt)?.skip(1) {
        words.push(word)?;
    }
    Ok(words)
}

/// What the program ends with.
fn number(status: &Status) -> u8 {
    match status {
        Status::Done => 0,
        Status::Absent { .. }
        | Status::TooLong { .. }
        | Status::SchemaFault { .. }
        | Status::StepFault { .. } => 1,
        Status::BadWords => 2,
        Status::Memory => 3,
        Status::ReadFault => 4,
        Status::WriteFault => 5,
        Status::CheckedNo { .. } => 7,
    }
}

/// Does the command of the words. Words that aren't text are no command.
fn ran(rt: &HostRuntime, alloc: Global) -> io::Result<Status> {
    let words = match words_of(rt, alloc) {
        Ok(words) => words,
        Err(error) if error.kind() == ErrorKind::OutOfMemory => return Ok(Status::Memory),
        Err(_) => return Ok(Status::BadWords),
    };
    let mut source = FileSource::new(rt.clone()?);
    let mut sink = StdoutSink::new(rt.clone()?);
    let Ran::Did { status, history } = quiet(alloc, &words, &mut source, &mut sink);
    drop(history);
    Ok(status)
}

/// Tells the user how the command ended, where it isn't done. Where there is no memory for the text, or
/// standard error can't be written, the number tells it alone.
fn tell(rt: &HostRuntime, alloc: Global, status: &Status) -> io::Result<()> {
    if let Status::Done = status {
        return Ok(());
    }
    if let Ok(bytes) = status_text(alloc, status) {
        if let Ok(text) = std::str::from_utf8(&bytes) {
            eprintln!(rt; "dynamast: {text}")?;
        }
    }
    Ok(())
}

fn main(rt: HostRuntime) -> ExitCode {
    let alloc = rt.alloc();
    let status = ran(&rt, alloc).unwrap_or(Status::Memory);
    drop(tell(&rt, alloc, &status));
    ExitCode::from(number(&status))
}
