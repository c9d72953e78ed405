//! A body whose outcome is known.

ghost use Rattle.std.specs.Prelude.{◌*◌, pos};

use dm_body::{Overlay, View, run};
use dm_event::{Body, Key, Keys, Op, Ops, Pair, Value};
use std::test::Fail;

/// The value of each key is ten times the key.
#[derive(Clone, Copy)]
struct Tens;

impl View for Tens {
    ghost values = { λ _ key. pos (10 * key) };

    fn read(&mut self, key: Key) -> Value {
        10 * i64::from(key)
    }
}

const OPS: &[Op] = &[
    Op::Read { key: 3 },
    Op::Add { key: 3, by: 5 },
    Op::Read { key: 3 },
    Op::Write { key: 2, value: 7 },
];

const READS: &[Pair] = &[Pair { key: 3, value: 30 }, Pair { key: 3, value: 35 }];

const WRITES: &[Pair] = &[Pair { key: 2, value: 7 }, Pair { key: 3, value: 35 }];

#[test]
fn a_body_is_run_whole(rt: HostRuntime) -> Result<(), Fail> {
    let alloc = rt.alloc();
    let ops = Ops::new(Vec::from_slice(alloc, OPS)?);
    let declared = Keys::new(Vec::from_slice(alloc, &[2, 3])?).ok_or("keys")?;
    let body = Body { declared, ops }.try_clone()?;
    assert!(rt; body.ops.as_slice().len() <= 64);
    let ran = run(alloc, &body, &mut Tens)?;
    assert_eq!(rt; ran.reads.as_slice(), READS);
    assert_eq!(rt; ran.writes.as_slice(), WRITES);
    Ok(())
}

#[test]
fn a_body_is_run_op_by_op(rt: HostRuntime) -> Result<(), Fail> {
    let mut overlay = Overlay::new(rt.alloc())?;
    for op in OPS {
        overlay.op(op, &mut Tens);
    }
    let ran = overlay.to_ran()?;
    assert_eq!(rt; ran.ops.as_slice(), OPS);
    assert_eq!(rt; ran.reads.as_slice(), READS);
    assert_eq!(rt; ran.writes.as_slice(), WRITES);
    Ok(())
}
