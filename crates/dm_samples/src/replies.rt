//! The line of each outcome but those of a transaction, which step files bring about.

use crate::reports::empty_book;
use dm_core::Book;
use dm_event::{Cause, Said};
use dm_report::put_reply;
use std::alloc::Global;
use std::test::Fail;

fn outcome(number: u32) -> Said {
    match number {
        1 => Said::InDoubt { site: 2 },
        2 => Said::Placed {
            part: 1,
            site: 2,
            epoch: 3,
        },
        3 => Said::Restarted { site: 2 },
        4 => Said::Refused(Cause::Undeclared { key: 7 }),
        5 => Said::Refused(Cause::Log { site: 2 }),
        6 => Said::Refused(Cause::Damage {
            site: 2,
            place: 40,
            read: Some(255),
            written: None,
        }),
        _ => Said::Refused(Cause::Memory),
    }
}

const LINES: &str = "reply 32 1 in doubt at 2
reply 32 2 placed 1 at 2 epoch 3
reply 32 3 restarted 2
reply 32 4 refused undeclared 7
reply 32 5 refused log 2
reply 32 6 refused damage 2 at 40 read 255 written -
reply 32 7 refused memory
";

fn lines_in(alloc: Global, book: &Book) -> Result<Vec<u8>, Fail> {
    let mut out = Vec::new(alloc);
    for number in 1..8 {
        put_reply(alloc, &mut out, book, 32, number, &outcome(number))?;
    }
    Ok(out)
}

fn lines(alloc: Global) -> Result<Vec<u8>, Fail> {
    let book = empty_book(alloc)?;
    lines_in(alloc, &book)
}

#[test]
fn outcomes_have_their_lines(rt: HostRuntime) -> Result<(), Fail> {
    assert_eq!(rt; lines(rt.alloc())?.as_slice(), LINES.as_bytes());
    Ok(())
}
