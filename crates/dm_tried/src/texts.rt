//! Words and numbers, cut and shown.

use dm_event::{Pair, Pairs, TxnId, Vector};
use dm_text::{lines_of, put_number, put_pairs, put_signed, put_text, put_txn, put_vector, words};
use std::test::Fail;

const TXN: TxnId = TxnId {
    session: 1,
    number: 20,
    attempt: 3,
};

#[test]
fn appended_texts(rt: HostRuntime) -> Result<(), Fail> {
    let alloc = rt.alloc();
    let pairs = Pairs::new(vec![in alloc; Pair { key: 3, value: 5 }, Pair { key: 15, value: -2 }]?);
    let mut out = Vec::new(alloc);
    put_text(&mut out, "N ")?;
    put_number(alloc, &mut out, u64::MAX)?;
    put_signed(alloc, &mut out, -5)?;
    put_txn(alloc, &mut out, &TXN)?;
    put_vector(alloc, &mut out, &Vector::zeros(2))?;
    put_pairs(alloc, &mut out, &pairs)?;
    assert_eq!(rt;
        out.as_slice(),
        b"N 18446744073709551615-51.20.3[0 0]3:5,15:-2".as_slice()
    );
    Ok(())
}

#[test]
fn lines_and_words(rt: HostRuntime) -> Result<(), Fail> {
    let alloc = rt.alloc();
    let lines = lines_of(alloc, b"\n route\t\t1  at\r\nlast\r")?;
    assert!(rt;
        lines
            .iter()
            .copied()
            .eq([b"".as_slice(), b" route\t\t1  at", b"last\r"])
    );
    let told = words(alloc, b" route\t\t1  at")?;
    assert!(rt; told.iter().copied().eq([b"route".as_slice(), b"1", b"at"]));
    Ok(())
}
