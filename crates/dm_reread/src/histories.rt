//! Histories as texts.

use dm_event::{LineFault, NoMemory, Schema, Step, Weights};
use dm_history::put_step;
use dm_past::{HistoryError, read};
use std::alloc::Global;
use std::test::Fail;

const ALL_KINDS: &[u8] =
    b"route 1.1.1 txn 3,15 min [0 0] to 1 hand\nroute 1.1.2 txn - min [0 7] to 2 reader\nroute 2.1.1 place 1 min [0 0] to 2 best\nroute 32.4294967295.18446744073709551615 restart min [18446744073709551615 0] to 1 master\nbegin 1 1.1.1 [0 0]\nmoved 2 1.1.2\ncommit 1 1.1.1 1 [0 0] ops g3,p3:5,a15:-2 reads 3:0 writes 3:5,15:-2\nend 2 1.1.1 ops - reads -\nend 2 1.1.1 ops g0 reads 0:9223372036854775807,0:-9223372036854775808\nfail 1 1.1.1 log\nfail 1 1.1.1 memory\nfail 2 1.1.1 damage 7 - 255\nrefresh 1 2\nask 0 0 2 3.1.1\nrelease 1 0 0 to 2 [1 0]\ngrant 2 0 1 [1 0]\nsettle 0 1\ndoubt commit 1 1.1.1 0 [0 0] ops p3:5 reads - writes 3:5,3:4\ndoubt release 1 0 0 to 2 [1 0]\ndoubt grant 2 0 1 [1 0]\nrestart 1 [1 0] clean\nrestart 2 [1 0] kept\nrestart 1 [1 0] lost\nreply 1 1 committed 1 1\nreply 1 2 read 2\nreply 1 3 doubt 1\nreply 2 1 placed 1 2 1\nreply 2 2 restarted 1\nreply 2 3 refused undeclared 19\nreply 2 4 refused log 1\nreply 2 5 refused damage 1 7 0 -\nreply 2 6 refused memory\n";

const TOO_MANY_KEYS: &[u8] =
    b"route 1.1.1 txn 0,1,2,3,4,5,6,7,8,9,10,11,12,13,14,15,16,17,18,19,0,1,2,3,4,5,6,7,8,9,10,11,12 min [0 0] to 1 hand\n";

const MOST_OPS: &[u8] =
    b"end 1 1.1.1 ops g1,g1,g1,g1,g1,g1,g1,g1,g1,g1,g1,g1,g1,g1,g1,g1,g1,g1,g1,g1,g1,g1,g1,g1,g1,g1,g1,g1,g1,g1,g1,g1,g1,g1,g1,g1,g1,g1,g1,g1,g1,g1,g1,g1,g1,g1,g1,g1,g1,g1,g1,g1,g1,g1,g1,g1,g1,g1,g1,g1,g1,g1,g1,g1 reads -\n";

const TOO_MANY_OPS: &[u8] =
    b"end 1 1.1.1 ops g1,g1,g1,g1,g1,g1,g1,g1,g1,g1,g1,g1,g1,g1,g1,g1,g1,g1,g1,g1,g1,g1,g1,g1,g1,g1,g1,g1,g1,g1,g1,g1,g1,g1,g1,g1,g1,g1,g1,g1,g1,g1,g1,g1,g1,g1,g1,g1,g1,g1,g1,g1,g1,g1,g1,g1,g1,g1,g1,g1,g1,g1,g1,g1,g1 reads -\n";

/// Two sites, two partitions of ten keys.
fn small(alloc: Global) -> Result<Schema, NoMemory> {
    let weights = Weights {
        balance: 1,
        delay: 1,
        together: 1,
    };
    let mut masters = Vec::new(alloc);
    masters.push(1)?;
    masters.push(2)?;
    Schema::new(2, 10, masters, weights, Vec::new(alloc)).ok_or(NoMemory)
}

fn printed(alloc: Global, steps: &[Step]) -> Result<Vec<u8>, NoMemory> {
    let mut out = Vec::new(alloc);
    for step in steps {
        put_step(alloc, &mut out, step)?;
    }
    Ok(out)
}

#[test]
fn histories_are_read_and_printed(rt: HostRuntime) -> Result<(), Fail> {
    let alloc = rt.alloc();
    let schema = small(alloc)?;
    for text in [ALL_KINDS, MOST_OPS, b""] {
        let steps = read(alloc, &schema, text)?;
        assert_eq!(rt; printed(alloc, &steps)?.as_slice(), text);
    }
    Ok(())
}

#[test]
fn faulty_lines_of_histories(rt: HostRuntime) -> Result<(), Fail> {
    let alloc = rt.alloc();
    let schema = small(alloc)?;
    for (text, line, kind) in [
        (b"refresh 1 2".as_slice(), 1, LineFault::Count),
        (b"refresh 1 2\nrefresh 2 1", 2, LineFault::Count),
        (b"fly 1 2", 1, LineFault::Word),
        (b"refresh 1\t2\n", 1, LineFault::Count),
        (b"refresh 1  2\n", 1, LineFault::Count),
        (b" refresh 1 2\n", 1, LineFault::Count),
        (b"refresh 1 2 \n", 1, LineFault::Count),
        (b"refresh 1 x", 1, LineFault::Count),
        (b"refresh 1 2\r\n", 1, LineFault::Number),
        (b"restart 1 [0 0] clean\r\n", 1, LineFault::Word),
        (b"refresh 1 2\n\nrefresh 2 1\n", 2, LineFault::Count),
        (b"\n", 1, LineFault::Count),
        (b" \n", 1, LineFault::Count),
        (b"refresh 1 2\n ", 2, LineFault::Count),
        (b"begin 1 1.1.1 [0\n0]\n", 1, LineFault::Number),
        (b"restart 1 [0\n0] clean\n", 1, LineFault::Count),
        (b"begin 1 1.1.1 []\n", 1, LineFault::Number),
        (b"begin 1 1.1.1 [ 0 0 ]\n", 1, LineFault::Number),
        (b"begin 1 1.1.1 0\n", 1, LineFault::Number),
        (b"begin 1 1.1.1 0 0\n", 1, LineFault::Count),
        (b"begin 1 1.1.1 [0]\n", 1, LineFault::Range),
        (b"begin 1 1.1.1 [0 0 0]\n", 1, LineFault::Range),
        (
            b"begin 1 1.1.1 [0 0 0 0 0 0 0 0 0 0]\n",
            1,
            LineFault::Range,
        ),
        (
            b"begin 1 1.1.1 [0 18446744073709551616]\n",
            1,
            LineFault::Number,
        ),
        (b"begin 1 1.1.1\n", 1, LineFault::Count),
        (b"begin x 1.1.1 [0 0]\n", 1, LineFault::Number),
        (b"begin 1 1.1 [0 0]\n", 1, LineFault::Number),
        (b"begin 1 1.1.1.1 [0 0]\n", 1, LineFault::Number),
        (b"begin 1 33.1.1 [0 0]\n", 1, LineFault::Range),
        (b"begin 1 0.1.1 [0 0]\n", 1, LineFault::Range),
        (b"begin 1 1.0.0 [0 0]\nfly\n", 2, LineFault::Word),
        (b"refresh 256 1\n", 1, LineFault::Number),
        (b"refresh 3 1\n", 1, LineFault::Range),
        (b"refresh 0 1\n", 1, LineFault::Range),
        (b"refresh +1 2\n", 1, LineFault::Number),
        (b"refresh 01 2\n", 1, LineFault::Number),
        (b"settle 2 0\n", 1, LineFault::Range),
        (b"settle 65536 0\n", 1, LineFault::Number),
        (b"settle 0 007\n", 1, LineFault::Number),
        (b"end 1 1.1.1 ops p3:-0 reads -\n", 1, LineFault::Number),
        (b"end 1 1.1.1 ops g3, reads -\n", 1, LineFault::Number),
        (b"end 1 1.1.1 ops ,g3 reads -\n", 1, LineFault::Number),
        (b"end 1 1.1.1 ops d3 reads -\n", 1, LineFault::Number),
        (b"end 1 1.1.1 ops g3:5 reads -\n", 1, LineFault::Number),
        (b"end 1 1.1.1 ops p3 reads -\n", 1, LineFault::Number),
        (b"end 1 1.1.1 ops g20 reads -\n", 1, LineFault::Range),
        (b"end 1 1.1.1 ops - reads 20:1\n", 1, LineFault::Range),
        (b"end 1 1.1.1 ops - writes 3:1\n", 1, LineFault::Word),
        (b"end 1 1.1.1 ops -\n", 1, LineFault::Count),
        (TOO_MANY_OPS, 1, LineFault::Range),
        (TOO_MANY_KEYS, 1, LineFault::Range),
        (
            b"route 1.1.1 txn 3,3 min [0 0] to 1 hand\n",
            1,
            LineFault::Repeat,
        ),
        (
            b"route 1.1.1 txn 15,3 min [0 0] to 1 hand\n",
            1,
            LineFault::Repeat,
        ),
        (
            b"route 1.1.1 txn 15,3 min [0 0] to 3 hand\n",
            1,
            LineFault::Range,
        ),
        (
            b"route 1.1.1 txn 3 min [0 0] to 1 foot\n",
            1,
            LineFault::Word,
        ),
        (b"route 1.1.1 txn 3 min [0 0] to 1\n", 1, LineFault::Count),
        (
            b"route 1.1.1 txn 3 min [0 0 to 1 hand\n",
            1,
            LineFault::Count,
        ),
        (
            b"route 1.1.1 txn 3 least [0 0] to 1 hand\n",
            1,
            LineFault::Word,
        ),
        (b"route 1.1.1 gone\n", 1, LineFault::Word),
        (b"route 1.1.1\n", 1, LineFault::Count),
        (
            b"route 1.1.1 place 2 min [0 0] to 1 hand\n",
            1,
            LineFault::Range,
        ),
        (b"fail 1 1.1.1\n", 1, LineFault::Count),
        (b"fail 1 1.1.1 undeclared 3\n", 1, LineFault::Word),
        (b"fail 1 1.1.1 log 1\n", 1, LineFault::Count),
        (b"fail 1 1.1.1 damage 7 256 1\n", 1, LineFault::Number),
        (b"reply 1 1\n", 1, LineFault::Count),
        (b"reply 1 1 gone\n", 1, LineFault::Word),
        (b"reply 1 1 refused\n", 1, LineFault::Count),
        (b"reply 1 1 refused twice\n", 1, LineFault::Word),
        (b"reply x 1 read 3\n", 1, LineFault::Number),
        (b"reply 1 1 read 3\n", 1, LineFault::Range),
        (b"reply 1 1 refused undeclared 20\n", 1, LineFault::Range),
        (b"doubt\n", 1, LineFault::Count),
        (b"doubt refresh 1 2\n", 1, LineFault::Word),
        (b"doubt doubt grant 2 0 1 [1 0]\n", 1, LineFault::Word),
        (b"release 1 0 0 for 2 [1 0]\n", 1, LineFault::Word),
        (
            b"commit 1 1.1.1 1 [0 0] ops - reads -\n",
            1,
            LineFault::Count,
        ),
    ] {
        assert!(rt;
            matches!(
            read(alloc, &schema, text),
            Err(HistoryError::Fault { line: at, kind: found }) if at == line && found == kind
        )
        );
    }
    Ok(())
}
