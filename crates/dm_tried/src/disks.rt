//! Sources and sinks, in memory and of the host.

use dm_disk::{
    Fetched, FileSource, MemSink, MemSource, Put, Sink, Source, StdoutSink, Written, write_all,
};
use std::fs;
use std::test::Fail;

/// The bytes that were found, or the answer's name.
fn shown(answer: &Fetched) -> &[u8] {
    match answer {
        Fetched::Found(bytes) => bytes.as_slice(),
        Fetched::Absent => b"absent",
        Fetched::TooLong => b"too long",
        Fetched::Failed => b"failed",
        Fetched::NoMemory => b"no memory",
    }
}

#[test]
fn source_in_memory(rt: HostRuntime) -> Result<(), Fail> {
    let alloc = rt.alloc();
    let file = (String::from_str(alloc, "f")?, b"abc".to_vec(alloc)?);
    let mut source = MemSource::new(vec![in alloc; file]?, vec![in alloc; 2]?);
    for (name, limit, want) in [
        ("f", 3, "abc"),
        ("f", 3, "failed"),
        ("f", 2, "too long"),
        ("h", 9, "absent"),
    ] {
        assert_eq!(rt; shown(&source.fetch(alloc, name, limit)), want.as_bytes());
    }
    Ok(())
}

#[test]
fn sink_in_memory(rt: HostRuntime) -> Result<(), Fail> {
    let mut sink = MemSink::new(rt.alloc(), 5)?;
    assert_eq!(rt; write_all(&mut sink, b"abc"), Written::Whole);
    assert_eq!(rt; write_all(&mut sink, b"def"), Written::Fault);
    assert_eq!(rt; sink.written(), b"abcde".as_slice());
    Ok(())
}

#[test]
fn host_files(rt: HostRuntime) -> Result<(), Fail> {
    fs::write(&rt, "three.txt", "abc")?;
    let alloc = rt.alloc();
    let mut source = FileSource::new(rt);
    for (name, limit, want) in [
        ("three.txt", 3, "abc"),
        ("three.txt", 2, "too long"),
        ("none.txt", 3, "absent"),
        (".", 3, "failed"),
    ] {
        assert_eq!(rt; shown(&source.fetch(alloc, name, limit)), want.as_bytes());
    }
    fs::remove_file(&rt, "three.txt")?;
    Ok(())
}

#[test]
fn host_output(rt: HostRuntime) {
    let mut sink = StdoutSink::new(rt);
    assert_eq!(rt; sink.put(b"written\n"), Put::Took(8));
    assert_eq!(rt; sink.put(b""), Put::Took(0));
}
