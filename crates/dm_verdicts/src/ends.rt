//! The other ends of `check`.

use crate::asking::ask;
use crate::legal::{HAND_OVER, TWO};
use std::test::Fail;

const CHECK: &[&str] = &["check", "s", "h"];

/// The words, the schema, the history, the fetches that fail, the room in the sink; what is written, and behind it the status.
const ROWS: &[(&[&str], &str, &str, &[u64], u64, &str)] = &[
    // ---- words
    (&[], TWO, "", &[], 1000, "bad words"),
    (&["check"], TWO, "", &[], 1000, "bad words"),
    (&["check", "s"], TWO, "", &[], 1000, "bad words"),
    (&["check", "s", "h", "h"], TWO, "", &[], 1000, "bad words"),
    (&["checks", "s", "h"], TWO, "", &[], 1000, "bad words"),
    (&["Check", "s", "h"], TWO, "", &[], 1000, "bad words"),
    (&["", "s", "h"], TWO, "", &[], 1000, "bad words"),
    (&["step", "s", "h"], TWO, "", &[], 1000, "bad words"),
    // ---- files
    (&["check", "none", "h"], TWO, "", &[], 1000, "none: absent"),
    (&["check", "s", "none"], TWO, "", &[], 1000, "none: absent"),
    (&["check", "a", ""], TWO, "", &[], 1000, "a: absent"),
    (CHECK, TWO, "", &[1], 1000, "read fault"),
    (CHECK, TWO, "", &[2], 1000, "read fault"),
    (CHECK, TWO, "", &[3], 1000, "legal 0\ndone"),
    // The schema is told before the history is fetched.
    (CHECK, "", "", &[2], 1000, "schema: missing sites"),
    (
        &["check", "s", "none"],
        "",
        "",
        &[],
        1000,
        "schema: missing sites",
    ),
    // One file may be both.
    (&["check", "s", "s"], TWO, "", &[], 1000, "line 1: word"),
    // ---- flaws
    (CHECK, "sites 2", "", &[], 1000, "schema: not toml"),
    (
        CHECK,
        "sites = 2\nwidth = 10\nmasters = [1, 2]\nparts = 2\n",
        "",
        &[],
        1000,
        "schema: unknown parts",
    ),
    (
        CHECK,
        "sites = 2\nwidth = 10\n",
        "",
        &[],
        1000,
        "schema: missing masters",
    ),
    (
        CHECK,
        "sites = 2\nwidth = \"10\"\nmasters = [1, 2]\n",
        "",
        &[],
        1000,
        "schema: wrong type width",
    ),
    (
        CHECK,
        "sites = 9\nwidth = 10\nmasters = [1, 2]\n",
        "",
        &[],
        1000,
        "schema: out of range sites",
    ),
    (
        CHECK,
        "sites = 2\nwidth = 10\nmasters = [1, 3]\n",
        "",
        &[],
        1000,
        "schema: out of range masters",
    ),
    // ---- histories
    (CHECK, TWO, "", &[], 1000, "legal 0\ndone"),
    (CHECK, TWO, "\0", &[], 1000, "line 1: word"),
    (CHECK, TWO, "\0\0\0\n\0\0\0\n", &[], 1000, "line 1: word"),
    (CHECK, TWO, "\n", &[], 1000, "line 1: count"),
    (
        CHECK,
        TWO,
        "refresh 1 2\nrefresh 1 02\n",
        &[],
        1000,
        "line 2: number",
    ),
    (CHECK, TWO, "refresh 1 3\n", &[], 1000, "line 1: range"),
    (
        CHECK,
        TWO,
        "route 1.1.1 txn 4,3 min [0 0] to 1 hand\n",
        &[],
        1000,
        "line 1: repeat",
    ),
    // A faulty line is told before a step that may not stand.
    (
        CHECK,
        TWO,
        "settle 0 1\nsettle 2 1\n",
        &[],
        1000,
        "line 2: range",
    ),
    (
        CHECK,
        TWO,
        "settle 0 1\nsettle 1 1\n",
        &[],
        1000,
        "step 1: not granted",
    ),
    // ---- the sink
    (CHECK, TWO, HAND_OVER, &[], 9, "legal 15\ndone"),
    (CHECK, TWO, HAND_OVER, &[], 8, "legal 15write fault"),
    (CHECK, TWO, HAND_OVER, &[], 0, "write fault"),
    // Where there is nothing to write, no room is no fault.
    (CHECK, TWO, "settle 0 1\n", &[], 0, "step 1: not granted"),
];

#[test]
fn other_ends(rt: HostRuntime) -> Result<(), Fail> {
    for (texts, schema, history, fails, room, due) in ROWS {
        let said = ask(rt.alloc(), texts, schema, history.as_bytes(), fails, *room)?;
        assert_eq!(rt; said.as_slice(), due.as_bytes(), "{due}");
    }
    Ok(())
}
