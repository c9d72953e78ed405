//! A command asked over files in memory.

use dm_disk::{MemSink, MemSource};
use dm_event::NoMemory;
use dm_top::{Ran, Status, quiet, status_text};
use std::alloc::Global;
use std::test::Fail;

fn words(alloc: Global, texts: &[&str]) -> Result<Vec<String>, Fail> {
    let mut words = Vec::new(alloc);
    for text in texts {
        words.push(String::from_str(alloc, text)?)?;
    }
    Ok(words)
}

fn file(alloc: Global, name: &str, bytes: &[u8]) -> Result<(String, Vec<u8>), Fail> {
    let bytes = Vec::from_slice(alloc, bytes)?;
    Ok((String::from_str(alloc, name)?, bytes))
}

/// The files `s` and `h`, of which these fetches fail.
fn source(alloc: Global, schema: &str, history: &[u8], fails: &[u64]) -> Result<MemSource, Fail> {
    let fails = Vec::from_slice(alloc, fails)?;
    let schema = file(alloc, "s", schema.as_bytes())?;
    let history = file(alloc, "h", history)?;
    let files = vec![in alloc; schema, history]?;
    Ok(MemSource::new(files, fails))
}

fn status_of(
    alloc: Global,
    words: &[String],
    source: &mut MemSource,
    sink: &mut MemSink,
) -> Status {
    let Ran::Did { status, .. } = quiet(alloc, words, source, sink);
    status
}

/// What is written, and behind it the text of the status.
fn said(alloc: Global, status: &Status, written: &[u8]) -> Result<Vec<u8>, NoMemory> {
    let text = status_text(alloc, status)?;
    let mut said = Vec::from_slice(alloc, written)?;
    said.extend_from_slice(&text)?;
    Ok(said)
}

fn ask_with(
    alloc: Global,
    words: &[String],
    source: &mut MemSource,
    room: u64,
) -> Result<Vec<u8>, NoMemory> {
    let mut sink = MemSink::new(alloc, room)?;
    let status = status_of(alloc, words, source, &mut sink);
    said(alloc, &status, sink.written())
}

/// What the command of these words writes, and behind it the text of its status. The schema is the file `s` and the history the
/// file `h`; these fetches fail, and the sink takes so many bytes.
pub(crate) fn ask(
    alloc: Global,
    texts: &[&str],
    schema: &str,
    history: &[u8],
    fails: &[u64],
    room: u64,
) -> Result<Vec<u8>, Fail> {
    let words = words(alloc, texts)?;
    let mut source = source(alloc, schema, history, fails)?;
    Ok(ask_with(alloc, &words, &mut source, room)?)
}

/// The same of `check s h`, where nothing else goes wrong.
pub(crate) fn check(alloc: Global, schema: &str, history: &[u8]) -> Result<Vec<u8>, Fail> {
    ask(alloc, &["check", "s", "h"], schema, history, &[], 1000)
}
