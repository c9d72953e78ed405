//! What a site asks of the book.

use crate::acts::{Act, book_after};
use dm_core::{Book, Frame};
use dm_event::{Choice, Key, Part, SiteNo};
use std::alloc::Global;
use std::test::Fail;

const RUNNING: &[Act] = &[Act::Send(1, 1, Choice::Hand), Act::Begin(1)];

const COMMITTED: &[Act] = &[Act::Send(1, 1, Choice::Hand), Act::Begin(1), Act::Commit];

const IN_DOUBT: &[Act] = &[Act::Send(1, 1, Choice::Hand), Act::Begin(1), Act::Doubt];

/// The frame of that commit.
const COMMIT: &[u8] = &[
    0, 0, 0, 55, // the length of what follows
    1, // a commit
    0, 0, 0, 1, // session
    0, 0, 0, 1, // number
    0, 0, 0, 0, 0, 0, 0, 1, // attempt
    0, 0, 0, 0, 0, 0, 0, 1, // seq
    2, // components
    0, 0, 0, 0, 0, 0, 0, 0, // the first
    0, 0, 0, 0, 0, 0, 0, 0, // the second
    1, // writes
    0, 0, 0, 3, // key
    0, 0, 0, 0, 0, 0, 0, 5, // value
];

fn frames(alloc: Global, come: &[Act], site: SiteNo) -> Result<Vec<Frame>, Fail> {
    let book = book_after(alloc, come)?;
    Ok(book.frames(alloc, site)?)
}

#[test]
fn the_frames_of_a_site_are_those_of_its_acts(rt: HostRuntime) -> Result<(), Fail> {
    let own = frames(rt.alloc(), COMMITTED, 1)?;
    assert_eq!(rt; own.len(), 1);
    assert_eq!(rt; own[0].bytes(), COMMIT);
    assert!(rt; frames(rt.alloc(), COMMITTED, 2)?.is_empty());
    // What is in doubt is no act yet.
    assert!(rt; frames(rt.alloc(), IN_DOUBT, 1)?.is_empty());
    Ok(())
}

fn pending_frame(alloc: Global, come: &[Act], site: SiteNo) -> Result<Option<Frame>, Fail> {
    let book = book_after(alloc, come)?;
    Ok(book.pending_frame(alloc, site)?)
}

#[test]
fn the_pending_frame_is_that_of_the_step_in_doubt(rt: HostRuntime) -> Result<(), Fail> {
    match pending_frame(rt.alloc(), IN_DOUBT, 1)? {
        Some(frame) => assert_eq!(rt; frame.bytes(), COMMIT),
        None => return Err("no frame".into()),
    }
    assert!(rt; pending_frame(rt.alloc(), IN_DOUBT, 2)?.is_none());
    assert!(rt; pending_frame(rt.alloc(), COMMITTED, 1)?.is_none());
    Ok(())
}

/// The number of the transaction of site 1 that site 2 would take over next.
fn next_seq(alloc: Global, come: &[Act]) -> Result<Option<u64>, Fail> {
    let book = book_after(alloc, come)?;
    Ok(book.next_entry(2, 1).map(|entry| entry.seq))
}

#[test]
fn the_next_entry_is_the_first_that_the_site_lacks(rt: HostRuntime) -> Result<(), Fail> {
    assert_eq!(rt; next_seq(rt.alloc(), RUNNING)?, None);
    assert_eq!(rt; next_seq(rt.alloc(), COMMITTED)?, Some(1));
    Ok(())
}

fn away(book: &Book, site: SiteNo, key: Key) -> Option<Part> {
    if book.schema().is_key(key) {
        book.elsewhere(site, &[key])
    } else {
        None
    }
}

#[test]
fn a_key_is_elsewhere_where_its_partition_is_not_here(rt: HostRuntime) -> Result<(), Fail> {
    let book = book_after(rt.alloc(), RUNNING)?;
    assert_eq!(rt; away(&book, 1, 3), None);
    assert_eq!(rt; away(&book, 2, 3), Some(0));
    assert_eq!(rt; away(&book, 1, 13), Some(1));
    Ok(())
}
