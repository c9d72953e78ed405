//! What a load finds in a file, and what it leaves there.

use crate::samples::{disk_of, drawn, left_in, records_on};
use dm_logdisk::{Call, Fail as DiskFail, MemDisk};
use dm_record::Record;
use dm_redo::{LoadFault, RedoLog};
use std::alloc::Global;

/// A load finds records of these kinds, and leaves the file that a text draws.
fn loads(alloc: Global, disk: MemDisk, records: &str, left: &str) -> bool {
    match RedoLog::load(alloc, disk) {
        Ok(log) => left_in(alloc, log, left) == (records, true),
        Err(_) => false,
    }
}

/// The file that a text draws, cut to so many bytes.
fn cut(alloc: Global, text: &str, keep: usize) -> Option<Vec<u8>> {
    let mut bytes = drawn(alloc, text).ok()?;
    bytes.truncate(keep);
    Some(bytes)
}

fn is_cut(alloc: Global, bytes: &[u8], text: &str, keep: usize) -> bool {
    match cut(alloc, text, keep) {
        Some(want) => bytes == want.as_slice(),
        None => false,
    }
}

/// A disk with such a file.
fn disk_cut(alloc: Global, text: &str, keep: usize) -> Option<MemDisk> {
    Some(MemDisk::new(cut(alloc, text, keep)?, Vec::new(alloc)))
}

fn loads_cut(alloc: Global, text: &str, keep: usize, records: &str, left: &str) -> bool {
    match disk_cut(alloc, text, keep) {
        Some(disk) => loads(alloc, disk, records, left),
        None => false,
    }
}

/// Files, cut to so many bytes: the records that are found, and the file that is left.
const FILES: [(&str, usize, &str, &str); 12] = [
    ("1c0", 61, "c", "1c0"),
    ("1c0", 60, "c", "1c0"),
    ("1c0ff", 63, "c", "1c0"),
    ("", 0, "", "0"),
    // a gate byte that is the last byte is closed, whatever it is
    ("0", 1, "", "0"),
    ("1", 1, "", "0"),
    ("1c1", 61, "c", "1c0"),
    // and so is any other than 1
    ("222", 3, "", "0"),
    ("1c0c0", 121, "c", "1c0"),
    ("1c00", 62, "c", "1c0"),
    ("1c1r1g0", 128, "crg", "1c1r1g0"),
    ("1g1c09", 95, "gc", "1g1c0"),
];

#[test]
fn files(rt: HostRuntime) {
    let alloc = rt.alloc();
    let wrong = FILES.iter().position(|(text, keep, records, left)| !loads_cut(
        alloc, text, *keep, records, left,
    ));
    assert_eq!(rt; wrong, None);
}

/// A load finds an open gate at the place and no frame behind it, and leaves the file as it was.
fn is_bad(alloc: Global, text: &str, keep: usize, place: u64) -> bool {
    let Some(disk) = disk_cut(alloc, text, keep) else {
        return false;
    };
    match RedoLog::load(alloc, disk) {
        Ok(_) => false,
        Err((disk, fault)) => {
            fault == LoadFault::Bad { place } && is_cut(alloc, disk.bytes(), text, keep)
        }
    }
}

/// Files, cut to so many bytes, and the place where they are bad.
const BAD: [(&str, usize, u64); 3] = [("1c0", 40, 0), ("1c10", 62, 60), ("1c1r0", 93, 60)];

#[test]
fn bad_files(rt: HostRuntime) {
    let alloc = rt.alloc();
    let wrong = BAD
        .iter()
        .position(|(text, keep, place)| !is_bad(alloc, text, *keep, *place));
    assert_eq!(rt; wrong, None);
}

/// The records of a tidy file, where each changing call would fail.
fn idle_records(alloc: Global) -> Option<&'static str> {
    let fails = [Call::Cut, Call::Write, Call::Sync].map(|call| DiskFail {
        call,
        nth: 1,
        effect: true,
    });
    records_on(alloc, disk_of(alloc, "1c0", &fails)?)
}

/// A tidy file takes no changing call.
#[test]
fn idle(rt: HostRuntime) {
    assert_eq!(rt; idle_records(rt.alloc()), Some("c"));
}

/// What a load answers of the file of one commit with one byte changed.
#[derive(Clone, Copy, Debug, PartialEq, Eq)]
enum Seen {
    One,
    None,
    Bad,
}

fn answer_of(alloc: Global, bytes: Vec<u8>) -> Option<Seen> {
    match RedoLog::load(alloc, MemDisk::new(bytes, Vec::new(alloc))) {
        Ok(log) => seen_records(log.records()),
        Err((_, LoadFault::Bad { place: 0 })) => Some(Seen::Bad),
        Err(_) => None,
    }
}

fn seen_records(records: &[Record]) -> Option<Seen> {
    match records {
        [] => Some(Seen::None),
        [Record::Commit { .. }] => Some(Seen::One),
        _ => None,
    }
}

/// What a load answers where the byte at a place is changed.
fn answer_with(alloc: Global, place: usize, byte: u8) -> Option<Seen> {
    let mut bytes = drawn(alloc, "1c0").ok()?;
    if let Some(there) = bytes.get_mut(place) {
        *there = byte;
    }
    answer_of(alloc, bytes)
}

/// What a load answers where the byte at a place is changed to 0, to 1 and to 255.
fn are_answers(alloc: Global, place: usize, want: [Seen; 3]) -> bool {
    [0, 1, 255].into_iter().zip(want).all(|(byte, want)| answer_with(alloc, place, byte)
        == Some(want))
}

/// Each byte of the file of one commit, from one place to in front of another, changed to 0, to 1 and to 255.
const CHANGED: [(usize, usize, [Seen; 3]); 18] = [
    // the gate
    (0, 1, [Seen::None, Seen::One, Seen::None]),
    // the length is that of the body
    (1, 4, [Seen::One, Seen::Bad, Seen::Bad]),
    (4, 5, [Seen::Bad, Seen::Bad, Seen::Bad]),
    // no other kind has this length
    (5, 6, [Seen::Bad, Seen::One, Seen::Bad]),
    // sessions are 1 to 32
    (6, 9, [Seen::One, Seen::Bad, Seen::Bad]),
    (9, 10, [Seen::Bad, Seen::One, Seen::Bad]),
    // numbers, attempts and seqs are 1 at least
    (10, 13, [Seen::One, Seen::One, Seen::One]),
    (13, 14, [Seen::Bad, Seen::One, Seen::One]),
    (14, 21, [Seen::One, Seen::One, Seen::One]),
    (21, 22, [Seen::Bad, Seen::One, Seen::One]),
    (22, 29, [Seen::One, Seen::One, Seen::One]),
    (29, 30, [Seen::Bad, Seen::One, Seen::One]),
    // two components fit the length
    (30, 31, [Seen::Bad, Seen::Bad, Seen::Bad]),
    (31, 47, [Seen::One, Seen::One, Seen::One]),
    // one write fits the length
    (47, 48, [Seen::Bad, Seen::One, Seen::Bad]),
    // keys are 16777215 at most
    (48, 49, [Seen::One, Seen::Bad, Seen::Bad]),
    (49, 60, [Seen::One, Seen::One, Seen::One]),
    // the closed gate is the last byte
    (60, 61, [Seen::One, Seen::One, Seen::One]),
];

#[test]
fn one_byte_changed(rt: HostRuntime) {
    let alloc = rt.alloc();
    let wrong = CHANGED.iter().position(|(from, end, want)| !(*from..*end).all(|place| are_answers(
        alloc, place, *want,
    )));
    assert_eq!(rt; wrong, None);
}

/// A load fails, and the next one finds the commit.
fn loads_again(alloc: Global, disk: MemDisk) -> bool {
    match RedoLog::load(alloc, disk) {
        Ok(_) => false,
        Err((disk, fault)) => {
            let again = loads(alloc, disk, "c", "1c0");
            fault == LoadFault::Log && again
        }
    }
}

/// A file that is to be cut and closed, where a call fails once.
fn fails_once(alloc: Global, call: Call, effect: bool) -> bool {
    let fail = DiskFail {
        call,
        nth: 1,
        effect,
    };
    match disk_of(alloc, "1c29", &[fail]) {
        Some(disk) => loads_again(alloc, disk),
        None => false,
    }
}

/// Each call of a load of such a file fails once.
#[test]
fn failing(rt: HostRuntime) {
    let alloc = rt.alloc();
    let wrong = [Call::Len, Call::Read, Call::Cut, Call::Write, Call::Sync]
        .iter()
        .position(|call| !(fails_once(alloc, *call, false) && fails_once(alloc, *call, true)));
    assert_eq!(rt; wrong, None);
}
