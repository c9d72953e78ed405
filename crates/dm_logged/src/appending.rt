//! What is left of an append that failed, and of a run that was cut off after any number of calls.

use crate::samples::{
    COMMIT, GRANT, RELEASE, append, disk_of, drawn, frame, is_drawn, log_on, records_on,
};
use dm_logdisk::{Call, Fail as DiskFail, FileDisk, MemDisk, Pick};
use dm_record::Frame;
use dm_redo::{Appended, RedoLog};
use std::alloc::Global;
use std::fs;
use std::test::Fail;

/// What is found of a file that a crash left.
fn found(alloc: Global, bytes: Vec<u8>) -> Option<&'static str> {
    records_on(alloc, MemDisk::new(bytes, Vec::new(alloc)))
}

const PICKS: [Pick; 3] = [Pick::Read, Pick::Kept, Pick::Torn];

/// The file that a text draws is left by the crash, with the records that stand in it.
fn is_left(alloc: Global, disk: &MemDisk, pick: Pick, text: &str) -> bool {
    let records = if text == "1c1r0" { "cr" } else { "c" };
    match disk.crash(alloc, pick) {
        Ok(bytes) => {
            let same = is_drawn(alloc, &bytes, text);
            found(alloc, bytes) == Some(records) && same
        }
        Err(_) => false,
    }
}

/// Each pick of a crash leaves what its text draws.
fn are_left(alloc: Global, disk: &MemDisk, texts: [&str; 3]) -> bool {
    PICKS
        .into_iter()
        .zip(texts)
        .all(|(pick, text)| is_left(alloc, disk, pick, text))
}

/// A call of the disk and whether it has its effect, the answer of the append of which it fails, and what each pick of a crash leaves then.
type Failing = (Call, u64, bool, Appended, [&'static str; 3]);

/// The appends of a release to the log of a commit. Each changing call fails once; of the last none does.
const FAILING: [Failing; 9] = [
    (
        Call::Write,
        1,
        true,
        Appended::Undone,
        ["1c0r0", "1c0", "1c0t0"],
    ),
    (
        Call::Write,
        1,
        false,
        Appended::Undone,
        ["1c0", "1c0", "1c0"],
    ),
    (
        Call::Sync,
        1,
        true,
        Appended::Undone,
        ["1c0r0", "1c0r0", "1c0r0"],
    ),
    (
        Call::Sync,
        1,
        false,
        Appended::Undone,
        ["1c0r0", "1c0", "1c0t0"],
    ),
    (
        Call::Write,
        2,
        true,
        Appended::Doubt,
        ["1c1r0", "1c0r0", "1c1r0"],
    ),
    (
        Call::Write,
        2,
        false,
        Appended::Doubt,
        ["1c0r0", "1c0r0", "1c0r0"],
    ),
    (
        Call::Sync,
        2,
        true,
        Appended::Doubt,
        ["1c1r0", "1c1r0", "1c1r0"],
    ),
    (
        Call::Sync,
        2,
        false,
        Appended::Doubt,
        ["1c1r0", "1c0r0", "1c1r0"],
    ),
    (
        Call::Sync,
        3,
        false,
        Appended::Done,
        ["1c1r0", "1c1r0", "1c1r0"],
    ),
];

/// Appends the frame of the bytes to the log.
fn append_bytes(alloc: Global, log: &mut RedoLog<MemDisk>, bytes: &[u8]) -> Option<Appended> {
    let frame = frame(alloc, bytes)?;
    append(log, &frame)
}

/// Appends the release to the log of a commit, of whose disk a call fails: the answer, whether the log is live then, and the disk.
fn append_failing(alloc: Global, fail: DiskFail) -> Option<(Option<Appended>, bool, MemDisk)> {
    let mut log = log_on(alloc, disk_of(alloc, "1c0", &[fail])?)?;
    let answer = append_bytes(alloc, &mut log, &RELEASE);
    let is_live = log.is_live();
    Some((answer, is_live, log.into_disk()))
}

fn fails_so(alloc: Global, row: Failing) -> bool {
    let (call, nth, effect, want, texts) = row;
    match append_failing(alloc, DiskFail { call, nth, effect }) {
        Some((answer, is_live, disk)) => {
            let left = are_left(alloc, &disk, texts);
            (answer, is_live, left) == (Some(want), want == Appended::Done, true)
        }
        None => false,
    }
}

/// Each changing call of an append fails once: its answer, what a read gives, and what each pick of a crash leaves, with the records that a load
/// finds there.
#[test]
fn failing(rt: HostRuntime) {
    let alloc = rt.alloc();
    let wrong = FAILING.iter().position(|row| !fails_so(alloc, *row));
    assert_eq!(rt; wrong, None);
}

/// Appends the three frames in turn, on a disk of which each call fails from one on: how many were acknowledged, and the disk.
fn append_all(alloc: Global, calls: u64) -> (usize, MemDisk) {
    match RedoLog::load(alloc, MemDisk::fused(Vec::new(alloc), calls)) {
        Err((disk, _)) => (0, disk),
        Ok(mut log) => {
            let done = appended(alloc, &mut log);
            (done, log.into_disk())
        }
    }
}

fn is_appended(alloc: Global, log: &mut RedoLog<MemDisk>, bytes: &[u8]) -> bool {
    append_bytes(alloc, log, bytes) == Some(Appended::Done)
}

/// How many of the three frames could be appended in front of one that couldn't.
fn appended(alloc: Global, log: &mut RedoLog<MemDisk>) -> usize {
    if !is_appended(alloc, log, &COMMIT) {
        0
    } else if !is_appended(alloc, log, &RELEASE) {
        1
    } else if !is_appended(alloc, log, &GRANT) {
        2
    } else {
        3
    }
}

/// The three records, or those in front.
fn is_front(records: &str) -> bool {
    matches!(records, "" | "c" | "cr" | "crg")
}

/// Whether a crash leaves the records that were acknowledged, and at most one more.
fn leaves_front(alloc: Global, disk: &MemDisk, pick: Pick, done: usize) -> bool {
    let Ok(bytes) = disk.crash(alloc, pick) else {
        return false;
    };
    match found(alloc, bytes) {
        Some(records) => { is_front(records) && done <= records.len() && records.len() <= done + 1 }
        None => false,
    }
}

/// So many calls pass, and so many appends are acknowledged then.
fn are_front(alloc: Global, calls: usize, due: usize) -> bool {
    let (done, disk) = append_all(alloc, calls as u64);
    done == due
        && PICKS
            .iter()
            .all(|pick| leaves_front(alloc, &disk, *pick, done))
}

/// How many appends are acknowledged where no call passes, where one does, and so on: a load of an empty file makes three calls, and each of three
/// appends four.
const DUE: [usize; 17] = [0, 0, 0, 0, 0, 0, 0, 1, 1, 1, 1, 2, 2, 2, 2, 3, 3];

/// A disk of which each call fails from one on. What a crash leaves are the records that were acknowledged, and at most one more.
#[test]
fn fused(rt: HostRuntime) {
    let alloc = rt.alloc();
    let wrong = DUE
        .iter()
        .enumerate()
        .position(|(calls, due)| !are_front(alloc, calls, *due));
    assert_eq!(rt; wrong, None);
}

/// Appends the frame to the log in a file of the host.
fn append_in(rt: HostRuntime, disk: FileDisk<HostRuntime>, frame: &Frame) -> Option<Appended> {
    let mut log = log_on(rt.alloc(), disk)?;
    append(&mut log, frame)
}

fn disk_in(rt: HostRuntime, name: &str) -> Option<FileDisk<HostRuntime>> {
    Some(FileDisk::new(rt, String::from_str(rt.alloc(), name).ok()?))
}

/// Appends the release to the log in a file of the host.
fn release_in(rt: HostRuntime, name: &str) -> Option<Appended> {
    let disk = disk_in(rt, name)?;
    let frame = frame(rt.alloc(), &RELEASE)?;
    append_in(rt, disk, &frame)
}

/// The kinds of the records of the log in a file of the host.
fn records_in(rt: HostRuntime, name: &str) -> Option<&'static str> {
    records_on(rt.alloc(), disk_in(rt, name)?)
}

/// Writes the file that a text draws.
fn draw_in(rt: HostRuntime, name: &str, text: &str) -> Result<(), Fail> {
    let bytes = drawn(rt.alloc(), text)?;
    fs::write(&rt, name, bytes.as_slice())?;
    Ok(())
}

fn is_drawn_in(rt: HostRuntime, name: &str, text: &str) -> Result<bool, Fail> {
    let bytes = fs::read(&rt, name)?;
    Ok(is_drawn(rt.alloc(), bytes.as_slice(), text))
}

/// A log on a file of the host, written by one disk and read by another.
#[test]
fn on_the_host(rt: HostRuntime) -> Result<(), Fail> {
    draw_in(rt, "one.log", "1c0")?;
    let appended = release_in(rt, "one.log");
    let is_drawn = is_drawn_in(rt, "one.log", "1c1r0")?;
    let records = records_in(rt, "one.log");
    fs::remove_file(&rt, "one.log")?;
    assert_eq!(rt;
        (appended, is_drawn, records),
        (Some(Appended::Done), true, Some("cr"))
    );
    Ok(())
}
