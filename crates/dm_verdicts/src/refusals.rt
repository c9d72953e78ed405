//! Legal histories with other lines in place of one of theirs, and the first step that may not stand then. Each clause of each kind of step
//! fails here, and with them each reason there is: a text can bring about all of them.
//!
//! Of the shape of a step a text can break four things only: that the number and the attempt of an item are 1 at least, that the number of a Reply
//! is, that written keys ascend, and that damage changed a byte. Of all else the line is faulty.
//!
//! A refresh that is behind, and a vector that isn't closed, need three sites. Of two, each has all its own entries, and of the other's those up
//! to a number, with all that these had seen; and what its own had seen is in its floor.

use crate::asking::check;
use crate::legal::Legal::{Doubt, HandOver, Reader, Refreshes, Writers};
use crate::legal::{Legal, named};
use dm_event::NoMemory;
use std::alloc::Global;
use std::test::Fail;

/// The legal history, the line of this number (counted from 1, and 0 where it stays as it is), what stands in its place, and what
/// is said then. The lines behind it stay.
const ROWS: &[(Legal, u32, &str, &str)] = &[
    // ---- legal as they stand
    (HandOver, 0, "", "legal 15\ndone"),
    (Writers, 0, "", "legal 8\ndone"),
    (Reader, 0, "", "legal 13\ndone"),
    (Doubt, 0, "", "legal 12\ndone"),
    (Refreshes, 0, "", "legal 9\ndone"),
    // ---- routes
    (
        HandOver,
        1,
        "route 1.1.0 txn 3 min [0 0] to 1 hand\n",
        "step 1: shape",
    ),
    (
        HandOver,
        1,
        "route 1.0.1 txn 3 min [0 0] to 1 hand\n",
        "step 1: shape",
    ),
    (
        HandOver,
        11,
        "route 2.2.1 txn 3 min [0 0] to 2 hand\n",
        "step 11: due 1",
    ),
    (
        HandOver,
        2,
        "route 1.1.2 txn 3 min [0 0] to 1 hand\n",
        "step 2: unfinished 1.1.1",
    ),
    (
        HandOver,
        11,
        "route 2.1.2 txn 3 min [0 0] to 2 hand\n",
        "step 11: due 1",
    ),
    (
        Reader,
        9,
        "route 2.2.1 txn - min [0 0] to 2 hand\n",
        "step 9: vector [1 0]",
    ),
    (
        HandOver,
        1,
        "route 1.1.1 txn 3 min [0 0] to 2 master\n",
        "step 1: choice 1 master",
    ),
    (
        HandOver,
        11,
        "route 2.1.1 txn 3 min [0 0] to 1 master\n",
        "step 11: choice 2 master",
    ),
    // All scores are 0, so it is the least site.
    (
        HandOver,
        1,
        "route 1.1.1 txn 3,15 min [0 0] to 2 best\n",
        "step 1: choice 1 best",
    ),
    // In a hand-over the master is not due: site 2 lacks an entry, so it scores less.
    (
        HandOver,
        7,
        "route 2.1.1 txn 3 min [0 0] to 1 master\n",
        "step 7: choice 1 best",
    ),
    (
        HandOver,
        1,
        "route 1.1.1 txn - min [0 0] to 2 reader\n",
        "step 1: choice 1 reader",
    ),
    (
        HandOver,
        5,
        "route 3.1.1 place 0 min [0 0] to 2 best\n",
        "step 5: choice 2 hand",
    ),
    // ---- replies
    (HandOver, 4, "reply 1 0 committed 1 1\n", "step 4: shape"),
    (HandOver, 4, "reply 1 2 committed 1 1\n", "step 4: due 1"),
    (HandOver, 4, "reply 1 1 committed 1 2\n", "step 4: said"),
    (HandOver, 3, "reply 1 1 refused memory\n", "step 3: said"),
    (HandOver, 15, "reply 3 1 placed 0 2 0\n", "step 15: said"),
    // ---- begins
    (HandOver, 2, "begin 1 1.1.2 [0 0]\n", "step 2: not routed"),
    // What is routed for a place does not begin.
    (HandOver, 6, "begin 2 3.1.1 [0 0]\n", "step 6: not routed"),
    (HandOver, 2, "begin 2 1.1.1 [0 0]\n", "step 2: site 1"),
    (
        Doubt,
        8,
        "route 2.1.1 txn 15 min [0 0] to 1 hand\nbegin 1 2.1.1 [1 0]\n",
        "step 9: down 1",
    ),
    (
        HandOver,
        1,
        "route 1.1.1 txn 15 min [0 0] to 1 hand\n",
        "step 2: elsewhere 1",
    ),
    // The master itself begins nothing more on a partition that is asked for.
    (
        HandOver,
        7,
        "route 2.1.1 txn 3 min [0 0] to 1 hand\nbegin 1 2.1.1 [1 0]\n",
        "step 8: elsewhere 0",
    ),
    (
        HandOver,
        12,
        "begin 2 2.1.1 [0 0]\n",
        "step 12: vector [1 0]",
    ),
    (Reader, 10, "begin 2 2.2.1 [0 0]\n", "step 10: behind 1"),
    (
        Writers,
        4,
        "begin 1 2.1.1 [0 0]\n",
        "step 4: held 1.1.1 key 3",
    ),
    // ---- attempts that are sent away
    (HandOver, 2, "moved 1 1.1.2\n", "step 2: not routed"),
    (HandOver, 2, "moved 2 1.1.1\n", "step 2: site 1"),
    (
        Doubt,
        8,
        "route 2.1.1 txn 15 min [0 0] to 1 hand\nmoved 1 2.1.1\n",
        "step 9: down 1",
    ),
    (HandOver, 2, "moved 1 1.1.1\n", "step 2: all here"),
    // ---- commits
    (
        Writers,
        4,
        "commit 1 1.1.1 1 [0 0] ops p3:7 reads - writes 3:7,3:7\n",
        "step 4: shape",
    ),
    (HandOver, 2, "", "step 2: not running"),
    (
        HandOver,
        3,
        "commit 2 1.1.1 1 [0 0] ops a3:5,g3 reads 3:5 writes 3:5\n",
        "step 3: site 1",
    ),
    (
        Writers,
        7,
        "commit 1 2.1.1 1 [1 0] ops g3,a3:1 reads 3:7 writes 3:8\n",
        "step 7: due 2",
    ),
    (
        HandOver,
        13,
        "commit 2 2.1.1 1 [0 0] ops a3:1 reads - writes 3:1\n",
        "step 13: vector [1 0]",
    ),
    (
        HandOver,
        13,
        "commit 2 2.1.1 1 [1 0] ops a3:1,p4:2 reads - writes 3:6,4:2\n",
        "step 13: undeclared 4",
    ),
    // It reads its own write.
    (
        HandOver,
        3,
        "commit 1 1.1.1 1 [0 0] ops a3:5,g3 reads 3:0 writes 3:5\n",
        "step 3: body",
    ),
    // 5 was there before.
    (
        HandOver,
        13,
        "commit 2 2.1.1 1 [1 0] ops a3:1 reads - writes 3:1\n",
        "step 13: body",
    ),
    (
        HandOver,
        13,
        "commit 2 2.1.1 1 [1 0] ops g3 reads 3:5 writes -\n",
        "step 13: no writes",
    ),
    // ---- ends
    (
        HandOver,
        4,
        "end 1 1.1.1 ops - reads -\n",
        "step 4: not running",
    ),
    (
        Reader,
        12,
        "end 1 2.2.1 ops g3 reads 3:5\n",
        "step 12: site 2",
    ),
    (
        Reader,
        12,
        "end 2 2.2.1 ops g3,p3:6 reads 3:5\n",
        "step 12: writes",
    ),
    (
        Reader,
        12,
        "end 2 2.2.1 ops g3 reads 3:0\n",
        "step 12: body",
    ),
    // ---- failures
    (HandOver, 3, "fail 1 1.1.1 damage 4 7 7\n", "step 3: shape"),
    (HandOver, 4, "fail 1 1.1.1 log\n", "step 4: not running"),
    (HandOver, 3, "fail 2 1.1.1 log\n", "step 3: site 1"),
    // ---- refreshes
    (HandOver, 8, "refresh 2 2\n", "step 8: own"),
    (Doubt, 8, "refresh 1 2\n", "step 8: down 1"),
    (HandOver, 9, "refresh 2 1\n", "step 9: missing"),
    (Refreshes, 8, "", "step 8: behind 1"),
    // ---- restarts
    (HandOver, 8, "restart 2 [0 0] kept\n", "step 8: found"),
    (Doubt, 8, "restart 1 [1 0] clean\n", "step 8: found"),
    (HandOver, 8, "restart 1 [0 0] clean\n", "step 8: due 1"),
    // It took partition 0 over at [1 0].
    (HandOver, 10, "restart 2 [0 0] clean\n", "step 10: behind 1"),
    (HandOver, 8, "restart 2 [1 0] clean\n", "step 8: ahead 1"),
    (
        Refreshes,
        9,
        "refresh 3 2\nrestart 3 [0 1 0] clean\n",
        "step 10: not closed 2.1",
    ),
    // ---- partitions that are asked for
    (HandOver, 6, "ask 0 0 2 3.1.2\n", "step 6: not routed"),
    (HandOver, 6, "ask 1 0 2 3.1.1\n", "step 6: want"),
    (HandOver, 7, "ask 0 0 2 3.1.1\n", "step 7: unsettled 0"),
    (HandOver, 6, "ask 0 1 2 3.1.1\n", "step 6: due 0"),
    (HandOver, 2, "ask 0 0 1 1.1.1\n", "step 2: home 1"),
    // ---- releases
    (HandOver, 6, "", "step 6: not asked"),
    (HandOver, 7, "release 2 0 0 to 2 [0 0]\n", "step 7: site 1"),
    (HandOver, 7, "release 1 0 1 to 2 [1 0]\n", "step 7: due 0"),
    (HandOver, 7, "release 1 0 0 to 1 [1 0]\n", "step 7: site 2"),
    (Doubt, 8, "release 1 0 0 to 2 [1 0]\n", "step 8: down 1"),
    (
        HandOver,
        5,
        "route 2.1.1 txn 3 min [0 0] to 1 hand\nbegin 1 2.1.1 [1 0]\nroute 3.1.1 place 0 min [0 0] to 2 hand\n",
        "step 9: running 2.1.1",
    ),
    (
        HandOver,
        7,
        "release 1 0 0 to 2 [0 0]\n",
        "step 7: vector [1 0]",
    ),
    // ---- grants
    (HandOver, 7, "", "step 8: not released"),
    (HandOver, 9, "grant 1 0 1 [1 0]\n", "step 9: site 2"),
    (HandOver, 9, "grant 2 0 0 [1 0]\n", "step 9: due 1"),
    (HandOver, 9, "grant 2 0 1 [0 0]\n", "step 9: vector [1 0]"),
    (
        HandOver,
        9,
        "doubt grant 2 0 1 [1 0]\ngrant 2 0 1 [1 0]\n",
        "step 10: down 2",
    ),
    (HandOver, 8, "", "step 8: behind 1"),
    // ---- partitions that are settled
    (HandOver, 9, "", "step 9: not granted"),
    (HandOver, 10, "settle 0 0\n", "step 10: due 1"),
    // ---- doubts, which are judged as their pending steps
    (
        HandOver,
        3,
        "doubt commit 1 1.1.1 2 [0 0] ops a3:5,g3 reads 3:5 writes 3:5\n",
        "step 3: due 1",
    ),
    (
        HandOver,
        6,
        "doubt release 1 0 0 to 2 [1 0]\n",
        "step 6: not asked",
    ),
    (HandOver, 9, "doubt grant 1 0 1 [1 0]\n", "step 9: site 2"),
    // A release in doubt is none, unless a restart keeps it.
    (
        HandOver,
        7,
        "doubt release 1 0 0 to 2 [1 0]\n",
        "step 9: not released",
    ),
    (Doubt, 8, "restart 1 [1 0] lost\n", "step 10: not released"),
];

/// Appends the text, with the lines in place of the one of this number.
fn put_edited(
    edited: &mut Vec<u8>,
    text: &[u8],
    number: u32,
    lines: &[u8],
) -> Result<(), NoMemory> {
    let mut at: u32 = 1;
    for byte in text {
        if at != number {
            edited.push(*byte)?;
        }
        if *byte == b'\n' {
            if at == number {
                edited.extend_from_slice(lines)?;
            }
            at = at.saturating_add(1);
        }
    }
    Ok(())
}

fn checked(alloc: Global, legal: Legal, number: u32, lines: &str) -> Result<Vec<u8>, Fail> {
    let (schema, text) = named(legal);
    let mut edited = Vec::new(alloc);
    put_edited(&mut edited, text.as_bytes(), number, lines.as_bytes())?;
    check(alloc, schema, &edited)
}

#[test]
fn each_clause_of_each_step(rt: HostRuntime) -> Result<(), Fail> {
    for (legal, number, lines, due) in ROWS {
        let said = checked(rt.alloc(), *legal, *number, lines)?;
        assert_eq!(rt; said.as_slice(), due.as_bytes(), "line {number}, {due}");
    }
    Ok(())
}
