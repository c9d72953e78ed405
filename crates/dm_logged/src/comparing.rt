//! What is said of a file beside what was written.

ghost use Rattle.std.specs.Prelude.{◌^◌, None};

use crate::samples::{COMMIT, RELEASE, append, disk_of, drawn, frame, left_in, log_on};
use dm_event::{Found, NoMemory};
use dm_logdisk::{Call, Fail as DiskFail, Failed, LogDisk, LyingDisk, MemDisk};
use dm_record::Frame;
use dm_redo::{AgainstFault, Appended, RedoLog};
use std::alloc::Global;
use std::mem::swap;
use std::slice::from_ref;

/// A disk that tells nothing, has one file up to the end of a load and another from then on, and changes neither.
#[derive(Drop)]
struct Swapped {
    file: Vec<u8>,
    next: Vec<u8>,
}

impl LogDisk for Swapped {
    ghost story = { λ _. None };

    ghost faults = { λ _. 0 };

    ghost calls_left = { λ _. 8 };

    ghost reach = { λ _. 2 ^ 64 };

    fn len(&mut self) -> Result<u64, Failed> {
        Ok(self.file.len() as u64)
    }

    fn room(&mut self, _upto: u64) -> Result<(), NoMemory> {
        swap(&mut self.file, &mut self.next);
        Ok(())
    }

    fn read_at(&mut self, at: u64, into: &mut [u8]) -> Result<usize, Failed> {
        let Some(rest) = self.file.get(at as usize..) else {
            return Ok(0);
        };
        let n = rest.len().min(into.len());
        into[..n].copy_from_slice(&rest[..n]);
        Ok(n)
    }

    fn write_at(&mut self, _at: u64, _piece: &[u8]) -> Result<(), Failed> {
        Ok(())
    }

    fn cut(&mut self, _len: u64) -> Result<(), Failed> {
        Ok(())
    }

    fn sync(&mut self) -> Result<(), Failed> {
        Ok(())
    }
}

/// The answer of a comparison, or the place and the two bytes that part there.
type Answer = Result<Found, (u64, Option<u8>, Option<u8>)>;

fn answered(answer: Answer) -> Result<Found, AgainstFault> {
    match answer {
        Ok(found) => Ok(found),
        Err((place, read, written)) => Err(AgainstFault::Differs {
            place,
            read,
            written,
        }),
    }
}

/// What a comparison with the commit says, where the release may be pending.
fn compare<D: LogDisk>(
    alloc: Global,
    log: &mut RedoLog<D>,
    is_pending: bool,
) -> Option<Result<Found, AgainstFault>> {
    let written = frame(alloc, &COMMIT)?;
    if is_pending {
        compare_pending(alloc, log, &written)
    } else {
        Some(log.load_against(alloc, from_ref(&written), None))
    }
}

fn compare_pending<D: LogDisk>(
    alloc: Global,
    log: &mut RedoLog<D>,
    written: &Frame,
) -> Option<Result<Found, AgainstFault>> {
    let pending = frame(alloc, &RELEASE)?;
    Some(log.load_against(alloc, from_ref(written), Some(&pending)))
}

/// The log on an empty file in whose place comes what the text draws, cut to so many bytes.
fn swapped_log(alloc: Global, text: &str, keep: usize) -> Option<RedoLog<Swapped>> {
    let mut next = drawn(alloc, text).ok()?;
    next.truncate(keep);
    let file = Vec::new(alloc);
    log_on(alloc, Swapped { file, next })
}

/// Whether the release is pending beside the commit; the file; and what a comparison says of it.
const ANSWERS: [(bool, &str, usize, Answer); 20] = [
    // it stands, and the log ends: at a closed gate, or where the file does
    (false, "1c0", 61, Ok(Found::Clean)),
    (false, "1c0", 60, Ok(Found::Clean)),
    (false, "1c1", 61, Ok(Found::Clean)),
    (false, "1c0r0", 95, Ok(Found::Clean)),
    (true, "1c0", 61, Ok(Found::Lost)),
    (true, "1c0", 60, Ok(Found::Lost)),
    (true, "1c0r0", 95, Ok(Found::Lost)),
    (true, "1c1r0", 95, Ok(Found::Kept)),
    (true, "1c1r0", 94, Ok(Found::Kept)),
    (true, "1c1r99", 96, Ok(Found::Kept)),
    // more than was written
    (false, "1c1r0", 95, Err((60, Some(1), None))),
    (true, "1c1r1g0", 128, Err((94, Some(1), None))),
    // another frame than the pending one: they part at their lengths
    (true, "1c1g0", 94, Err((64, Some(28), Some(29)))),
    (true, "1c1r0", 70, Err((70, None, Some(0)))),
    // less than was written
    (false, "", 0, Err((0, None, Some(1)))),
    (false, "1c0", 10, Err((10, None, Some(0)))),
    (true, "1c0", 10, Err((10, None, Some(0)))),
    // another byte
    (false, "0c0", 61, Err((0, Some(0), Some(1)))),
    (false, "1r0", 35, Err((4, Some(29), Some(55)))),
    (true, "1r0", 35, Err((4, Some(29), Some(55)))),
];

/// The answer is this one, and the log is live then exactly where it says Ok.
fn is_answer(alloc: Global, is_pending: bool, text: &str, keep: usize, want: Answer) -> bool {
    match swapped_log(alloc, text, keep) {
        Some(mut log) => {
            compare(alloc, &mut log, is_pending) == Some(answered(want))
                && log.is_live() == want.is_ok()
        }
        None => false,
    }
}

/// The commit was written, and the release may be pending.
#[test]
fn answers(rt: HostRuntime) {
    let alloc = rt.alloc();
    let wrong = ANSWERS.iter().position(|(is_pending, text, keep, want)| !is_answer(
        alloc,
        *is_pending,
        text,
        *keep,
        *want,
    ));
    assert_eq!(rt; wrong, None);
}

/// The first answer of up to three comparisons that isn't of the disk's faults, where each leaves a live log exactly where it says Ok.
fn settled(alloc: Global, log: &mut RedoLog<MemDisk>) -> Option<Result<Found, AgainstFault>> {
    for _ in 0..3 {
        let answer = compare(alloc, log, true)?;
        if log.is_live() != answer.is_ok() {
            return None;
        }
        if answer != Err(AgainstFault::Log) {
            return Some(answer);
        }
    }
    None
}

fn append_release(alloc: Global, log: &mut RedoLog<MemDisk>) -> Option<Appended> {
    let release = frame(alloc, &RELEASE)?;
    append(log, &release)
}

/// Appends the release, which fails, and then compares: what is found in the end.
fn found_after(alloc: Global, log: &mut RedoLog<MemDisk>) -> Option<Result<Found, AgainstFault>> {
    if append_release(alloc, log)? == Appended::Done {
        return None;
    }
    settled(alloc, log)
}

/// A call of which an append fails; what is found of it; and what is left, with its records.
type Failure = (Call, u64, bool, Found, &'static str, &'static str);

const FAILURES: [Failure; 8] = [
    (Call::Write, 1, true, Found::Lost, "1c0", "c"),
    (Call::Write, 1, false, Found::Lost, "1c0", "c"),
    (Call::Sync, 1, true, Found::Lost, "1c0", "c"),
    (Call::Sync, 1, false, Found::Lost, "1c0", "c"),
    (Call::Write, 2, true, Found::Kept, "1c1r0", "cr"),
    (Call::Write, 2, false, Found::Lost, "1c0", "c"),
    (Call::Sync, 2, true, Found::Kept, "1c1r0", "cr"),
    (Call::Sync, 2, false, Found::Kept, "1c1r0", "cr"),
];

/// Calls of the comparison that fail too; the last one does not come.
const LATER: [(Call, u64); 6] = [
    (Call::Len, 2),
    (Call::Read, 2),
    (Call::Cut, 1),
    (Call::Sync, 2),
    (Call::Sync, 3),
    (Call::Sync, 9),
];

/// The log of a commit, on a disk of which two calls fail.
fn failing_log(alloc: Global, first: DiskFail, then: DiskFail) -> Option<RedoLog<MemDisk>> {
    log_on(alloc, disk_of(alloc, "1c0", &[first, then])?)
}

fn is_found(alloc: Global, row: Failure, later: (Call, u64)) -> bool {
    let (call, nth, effect, want, text, records) = row;
    let first = DiskFail { call, nth, effect };
    let then = DiskFail {
        call: later.0,
        nth: later.1,
        effect: false,
    };
    match failing_log(alloc, first, then) {
        Some(mut log) => {
            let found = found_after(alloc, &mut log);
            let left = left_in(alloc, log, text);
            found == Some(Ok(want)) && left == (records, true)
        }
        None => false,
    }
}

/// An append of the release failed, and then one call of the comparison may fail too: what is found in the end, and what is left.
#[test]
fn after_failures(rt: HostRuntime) {
    let alloc = rt.alloc();
    let wrong = FAILURES.iter().position(|row| !LATER
        .iter()
        .all(|later| is_found(alloc, *row, *later)));
    assert_eq!(rt; wrong, None);
}

/// The log of a commit, on a disk that gives another byte at a place.
fn lying_log(alloc: Global, place: u64, byte: u8) -> Option<RedoLog<LyingDisk>> {
    let file = drawn(alloc, "1c0").ok()?;
    log_on(alloc, LyingDisk::new(file, place, byte))
}

/// What a comparison says on a disk that gives another byte than was written.
fn compared_by_liar(alloc: Global, place: u64, byte: u8) -> Option<Result<Found, AgainstFault>> {
    let mut log = lying_log(alloc, place, byte)?;
    compare(alloc, &mut log, false)
}

/// A disk that tells nothing gives another byte than was written.
#[test]
fn lying(rt: HostRuntime) {
    // another seq than was written: the load can't tell
    let answer = compared_by_liar(rt.alloc(), 29, 7);
    assert_eq!(rt; answer, Some(answered(Err((29, Some(7), Some(1))))));
}
