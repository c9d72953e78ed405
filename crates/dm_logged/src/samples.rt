//! The frames of three records, byte by byte, and log files of them.

ghost use Rattle.std.specs.Prelude.{IfSome};
ghost use Rattle.dm_record.specs.Bytes.{HasRanges};

use dm_event::NoMemory;
use dm_logdisk::{Fail as DiskFail, LogDisk, MemDisk};
use dm_record::{Decoded, Frame, Record, decode, encode};
use dm_redo::{Appended, RedoLog};
use std::alloc::Global;

/// The frame of a commit: transaction 1 of session 1, attempt 1, seq 1, at the begin vector (0, 0), writes 5 to key 3.
pub(crate) const COMMIT: [u8; 59] = [
    0, 0, 0, 55, // the length of what follows
    1, // a commit
    0, 0, 0, 1, // session
    0, 0, 0, 1, // number
    0, 0, 0, 0, 0, 0, 0, 1, // attempt
    0, 0, 0, 0, 0, 0, 0, 1, // seq
    2, // components
    0, 0, 0, 0, 0, 0, 0, 0, // the first
    0, 0, 0, 0, 0, 0, 0, 0, // the second
    1, // writes
    0, 0, 0, 3, // key
    0, 0, 0, 0, 0, 0, 0, 5, // value
];

/// The frame of a release: partition 7 in epoch 2 to site 2, at the vector (1, 0).
pub(crate) const RELEASE: [u8; 33] = [
    0, 0, 0, 29, 2, 0, 7, 0, 0, 0, 0, 0, 0, 0, 2, 2, 2, 0, 0, 0, 0, 0, 0, 0, 1, 0, 0, 0, 0, 0, 0,
    0, 0,
];

/// The frame of a grant: partition 7 in epoch 2, at the vector (1, 0).
pub(crate) const GRANT: [u8; 32] = [
    0, 0, 0, 28, 3, 0, 7, 0, 0, 0, 0, 0, 0, 0, 2, 2, 0, 0, 0, 0, 0, 0, 0, 1, 0, 0, 0, 0, 0, 0, 0, 0,
];

fn record(alloc: Global, bytes: &[u8]) -> Option<Record>
    ensures { IfSome result (λ r. HasRanges r) }
{
    match decode(alloc, bytes) {
        Ok(Decoded::Whole { rec, .. }) => Some(rec),
        _ => None,
    }
}

/// The frame of which these are the bytes.
pub(crate) fn frame(alloc: Global, bytes: &[u8]) -> Option<Frame> {
    let record = record(alloc, bytes)?;
    encode(alloc, &record).ok()
}

/// The release with each byte lost that stands at an odd place behind the file of the commit.
const TORN: [u8; 33] = [
    255, 0, 255, 29, 255, 0, 255, 0, 255, 0, 255, 0, 255, 0, 255, 2, 255, 0, 255, 0, 255, 0, 255,
    0, 255, 0, 255, 0, 255, 0, 255, 0, 255,
];

/// Adds what a letter draws.
fn draw(bytes: &mut Vec<u8>, letter: u8) -> Result<(), NoMemory> {
    let drawn = match letter {
        b'c' => bytes.extend_from_slice(&COMMIT),
        b'r' => bytes.extend_from_slice(&RELEASE),
        b'g' => bytes.extend_from_slice(&GRANT),
        b't' => bytes.extend_from_slice(&TORN),
        b'f' => bytes.extend_from_slice(&[255]),
        _ => bytes.extend_from_slice(&[letter.wrapping_sub(b'0')]),
    };
    Ok(drawn?)
}

/// The file that a text draws: c, r and g are the frames of the commit, the release and the grant, t is the torn release, f is the byte 255, and
/// a digit is that byte.
pub(crate) fn drawn(alloc: Global, text: &str) -> Result<Vec<u8>, NoMemory> {
    let mut bytes = Vec::new(alloc);
    for letter in text.bytes() {
        draw(&mut bytes, letter)?;
    }
    Ok(bytes)
}

/// Whether the text draws these bytes.
pub(crate) fn is_drawn(alloc: Global, bytes: &[u8], text: &str) -> bool {
    match drawn(alloc, text) {
        Ok(want) => bytes == want.as_slice(),
        Err(_) => false,
    }
}

/// The kinds of the records, as letters of such a text.
pub(crate) fn kinds(records: &[Record]) -> &'static str {
    match records {
        [] => "",
        [Record::Commit { .. }] => "c",
        [Record::Commit { .. }, Record::Release { .. }] => "cr",
        [
            Record::Commit { .. },
            Record::Release { .. },
            Record::Grant { .. },
        ] => "crg",
        [Record::Grant { .. }, Record::Commit { .. }] => "gc",
        _ => "others",
    }
}

/// A disk in memory with the file that a text draws, of which these calls fail.
pub(crate) fn disk_of(alloc: Global, text: &str, fails: &[DiskFail]) -> Option<MemDisk> {
    let fails = fails.to_vec(alloc);
    let bytes = drawn(alloc, text);
    match (bytes, fails) {
        (Ok(bytes), Ok(fails)) => Some(MemDisk::new(bytes, fails)),
        _ => None,
    }
}

/// The log on a disk that loads.
pub(crate) fn log_on<D: LogDisk + Drop>(alloc: Global, disk: D) -> Option<RedoLog<D>> {
    RedoLog::load(alloc, disk).ok()
}

/// The kinds of the records that a load finds on the disk.
pub(crate) fn records_on<D: LogDisk + Drop>(alloc: Global, disk: D) -> Option<&'static str> {
    match RedoLog::load(alloc, disk) {
        Ok(log) => Some(kinds(log.records())),
        Err(_) => None,
    }
}

/// The kinds of the records of a log in memory, and whether the text draws its file.
pub(crate) fn left_in(alloc: Global, log: RedoLog<MemDisk>, text: &str) -> (&'static str, bool) {
    let records = kinds(log.records());
    let disk = log.into_disk();
    (records, is_drawn(alloc, disk.bytes(), text))
}

/// Makes room for the frame and appends it.
pub(crate) fn append<D: LogDisk>(log: &mut RedoLog<D>, frame: &Frame) -> Option<Appended> {
    if !log.is_live() || log.ready(frame.len()).is_err() {
        return None;
    }
    Some(log.append(frame))
}
