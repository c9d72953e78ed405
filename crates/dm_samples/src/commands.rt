//! What a command writes, and the status in which it ends.

use dm_disk::{MemSink, MemSource};
use dm_top::{Ran, Status, quiet, status_text};
use std::alloc::Global;
use std::test::Fail;

const ONE_COMMIT: &[u8] =
    b"sites 2 parts 2 width 10 masters 1 2\nroute 1 at 1 keys 3\nbegin 1\nadd 1 3 5\nget 1 3\ncommit 1\nreply 1\n";

const ONE_COMMIT_OUT: &[u8] =
    b"routed 1.1.1 to 1 hand\nbegun 1.1.1 at 1 [0 0]\nadded\nvalue 5\ncommitted 1.1 [1 0]\nreply 1 1 committed 1.1 [1 0] reads 3:5\nmoves 0\nsite 1 [1 0]\nsite 2 [0 0]\npart 0 at 1 epoch 0\npart 1 at 2 epoch 0\ntotal committed 1 read 0 placed 0 restarted 0 in doubt 0 refused 0\nsteps 4\nroute 1.1.1 txn 3 min [0 0] to 1 hand\nbegin 1 1.1.1 [0 0]\ncommit 1 1.1.1 1 [0 0] ops a3:5,g3 reads 3:5 writes 3:5\nreply 1 1 committed 1 1\n";

const HEADER: &[u8] = b"sites 2 parts 2 width 10 masters 1 2\n";

/// How a command ended.
#[derive(Drop)]
struct Ended {
    /// The text of its status.
    text: Vec<u8>,
    written: Vec<u8>,
    /// How many steps its history has.
    steps: usize,
}

fn words(alloc: Global, texts: &[&str]) -> Result<Vec<String>, Fail> {
    let mut words = Vec::new(alloc);
    for text in texts {
        words.push(String::from_str(alloc, text)?)?;
    }
    Ok(words)
}

/// A source of one file, of which these fetches fail.
fn source(alloc: Global, name: &str, bytes: Vec<u8>, fails: &[u64]) -> Result<MemSource, Fail> {
    let files = vec![in alloc; (String::from_str(alloc, name)?, bytes)]?;
    Ok(MemSource::new(files, Vec::from_slice(alloc, fails)?))
}

/// The status, and how many steps the history has.
fn done(
    alloc: Global,
    words: &[String],
    source: &mut MemSource,
    sink: &mut MemSink,
) -> (Status, usize) {
    let Ran::Did { status, history } = quiet(alloc, words, source, sink);
    (status, history.len())
}

fn finish(
    alloc: Global,
    words: &[String],
    source: &mut MemSource,
    room: u64,
) -> Result<Ended, Fail> {
    let mut sink = MemSink::new(alloc, room)?;
    let (status, steps) = done(alloc, words, source, &mut sink);
    let text = status_text(alloc, &status);
    let written = Vec::from_slice(alloc, sink.written());
    Ok(Ended {
        text: text?,
        written: written?,
        steps,
    })
}

/// How the command of these words ends where there is one file, and a sink that takes so many bytes.
fn run(
    alloc: Global,
    texts: &[&str],
    name: &str,
    bytes: Vec<u8>,
    fails: &[u64],
    room: u64,
) -> Result<Ended, Fail> {
    let words = words(alloc, texts)?;
    let mut source = source(alloc, name, bytes, fails)?;
    finish(alloc, &words, &mut source, room)
}

#[test]
fn a_schedule_is_driven_and_reported(rt: HostRuntime) -> Result<(), Fail> {
    let alloc = rt.alloc();
    let bytes = Vec::from_slice(alloc, ONE_COMMIT)?;
    let ended = run(alloc, &["step", "one"], "one", bytes, &[], 1000)?;
    assert_eq!(rt; ended.text.as_slice(), b"done".as_slice());
    assert_eq!(rt; ended.steps, 4);
    assert_eq!(rt; ended.written.as_slice(), ONE_COMMIT_OUT);
    Ok(())
}

#[test]
fn a_file_is_too_long(rt: HostRuntime) -> Result<(), Fail> {
    let alloc = rt.alloc();
    let bytes = vec![in alloc; 0; 16777217]?;
    let ended = run(alloc, &["step", "long"], "long", bytes, &[], 1000)?;
    assert_eq!(rt;
        ended.text.as_slice(),
        b"long: longer than 16777216 bytes".as_slice()
    );
    assert_eq!(rt; ended.written.len(), 0);
    Ok(())
}

#[test]
fn commands_end_for_their_reasons(rt: HostRuntime) -> Result<(), Fail> {
    let alloc = rt.alloc();
    // the words, the bytes of the file `one`, the fetches that fail, the room in the sink; the status, and what is written
    let rows: [(&[&str], &[u8], &[u64], u64, &str, &[u8]); 5] = [
        (&["fly"], HEADER, &[], 1000, "bad words", b""),
        (&["step", "none"], HEADER, &[], 1000, "none: absent", b""),
        (
            &["step", "one"],
            b"sites 9",
            &[],
            1000,
            "line 1: count",
            b"",
        ),
        (&["step", "one"], HEADER, &[1], 1000, "read fault", b""),
        (
            &["step", "one"],
            HEADER,
            &[],
            10,
            "write fault",
            b"moves 0\nsi",
        ),
    ];
    for (texts, bytes, fails, room, text, written) in rows {
        let bytes = Vec::from_slice(alloc, bytes)?;
        let ended = run(alloc, texts, "one", bytes, fails, room)?;
        assert_eq!(rt; ended.text.as_slice(), text.as_bytes());
        assert_eq!(rt; ended.written.as_slice(), written, "{text}");
    }
    Ok(())
}
