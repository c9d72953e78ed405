//! The front of frames, and frames with one byte that can't stand where it stands.

use crate::samples::drawn;
use dm_record::{Decoded, decode};
use std::alloc::Global;

/// What stands at the front of bytes, without the record.
#[derive(Clone, Copy, Debug, PartialEq, Eq)]
enum Seen {
    Whole { used: usize },
    Short,
    Bad { place: usize },
}

fn seen_in(alloc: Global, bytes: &[u8]) -> Option<Seen> {
    match decode(alloc, bytes) {
        Ok(Decoded::Whole { used, .. }) => Some(Seen::Whole { used }),
        Ok(Decoded::Short) => Some(Seen::Short),
        Ok(Decoded::Bad { place }) => Some(Seen::Bad { place }),
        Err(_) => None,
    }
}

fn is_short(alloc: Global, bytes: &[u8], n: usize) -> bool {
    match bytes.get(..n) {
        Some(front) => seen_in(alloc, front) == Some(Seen::Short),
        None => false,
    }
}

/// The bytes are a frame of that length and what follows it, and each proper front of the frame is Short.
fn is_frame(alloc: Global, bytes: &[u8], len: usize) -> bool {
    seen_in(alloc, bytes) == Some(Seen::Whole { used: len })
        && (0..len).all(|n| is_short(alloc, bytes, n))
}

fn draws_frame(alloc: Global, text: &str, len: usize) -> bool {
    match drawn(alloc, text) {
        Ok(bytes) => is_frame(alloc, &bytes, len),
        Err(_) => false,
    }
}

/// Every proper front of a frame is Short, and the frame is Whole, whatever follows it.
#[test]
fn fronts(rt: HostRuntime) {
    let alloc = rt.alloc();
    let wrong = [("c1", 59), ("r1", 33), ("g1", 32)]
        .iter()
        .position(|(text, len)| !draws_frame(alloc, text, *len));
    assert_eq!(rt; wrong, None);
}

/// What is seen where the byte at a place of what a text draws is changed.
fn seen_with(alloc: Global, text: &str, at: usize, byte: u8) -> Option<Seen> {
    let mut bytes = drawn(alloc, text).ok()?;
    if let Some(there) = bytes.get_mut(at) {
        *there = byte;
    }
    seen_in(alloc, &bytes)
}

/// The byte at a place is changed to another, and no frame goes on so: the place up to which one does.
const SPOILED: [(&str, usize, u8, usize); 37] = [
    ("c", 0, 255, 0),
    ("c", 1, 1, 1),
    ("c", 2, 2, 2),
    // lengths of no body
    ("c", 3, 54, 3),
    ("c", 3, 24, 3),
    // a length of three components and seventeen writes
    ("c", 3, 255, 29),
    // no other kind has this length
    ("c", 4, 0, 4),
    ("c", 4, 2, 4),
    // sessions are 1 to 32
    ("c", 5, 1, 5),
    ("c", 7, 1, 7),
    ("c", 8, 0, 8),
    ("c", 8, 33, 8),
    // numbers, attempts and seqs are 1 at least
    ("c", 12, 0, 12),
    ("c", 20, 0, 20),
    ("c", 28, 0, 28),
    // two components and one write fit the length
    ("c", 29, 0, 29),
    ("c", 29, 1, 29),
    ("c", 29, 9, 29),
    ("c", 46, 0, 46),
    ("c", 46, 2, 46),
    // keys are 16777215 at most
    ("c", 47, 1, 47),
    ("r", 0, 1, 0),
    ("r", 3, 30, 3),
    ("r", 4, 1, 4),
    ("r", 4, 3, 4),
    // partitions are 255 at most, sites 1 to 8
    ("r", 5, 1, 5),
    ("r", 15, 0, 15),
    ("r", 15, 9, 15),
    ("r", 16, 1, 16),
    ("r", 16, 3, 16),
    ("g", 0, 1, 0),
    ("g", 3, 27, 3),
    ("g", 4, 1, 4),
    ("g", 4, 2, 4),
    ("g", 5, 1, 5),
    ("g", 15, 1, 15),
    ("g", 15, 3, 15),
];

#[test]
fn spoiled(rt: HostRuntime) {
    let alloc = rt.alloc();
    let wrong = SPOILED.iter().position(|(text, at, byte, want)| {
        seen_with(alloc, text, *at, *byte) != Some(Seen::Bad { place: *want })
    });
    assert_eq!(rt; wrong, None);
}
