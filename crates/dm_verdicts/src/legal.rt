//! Legal histories, and the schemas that they are of.

/// The name of a legal history.
#[derive(Clone, Copy)]
pub(crate) enum Legal {
    HandOver,
    Writers,
    Reader,
    Doubt,
    Refreshes,
}

pub(crate) const TWO: &str = "sites = 2
width = 10
masters = [1, 2]
";

const THREE: &str = "sites = 3
width = 10
masters = [1, 2]
";

/// A write, the hand-over of its partition, and a write at the new master.
pub(crate) const HAND_OVER: &str = "route 1.1.1 txn 3 min [0 0] to 1 hand
begin 1 1.1.1 [0 0]
commit 1 1.1.1 1 [0 0] ops a3:5,g3 reads 3:5 writes 3:5
reply 1 1 committed 1 1
route 3.1.1 place 0 min [0 0] to 2 hand
ask 0 0 2 3.1.1
release 1 0 0 to 2 [1 0]
refresh 2 1
grant 2 0 1 [1 0]
settle 0 1
route 2.1.1 txn 3 min [0 0] to 2 hand
begin 2 2.1.1 [1 0]
commit 2 2.1.1 1 [1 0] ops a3:1 reads - writes 3:6
reply 2 1 committed 2 1
reply 3 1 placed 0 2 1
";

/// Two sessions write one key, one after the other.
const WRITERS: &str = "route 1.1.1 txn 3 min [0 0] to 1 hand
begin 1 1.1.1 [0 0]
route 2.1.1 txn 3,4 min [0 0] to 1 hand
commit 1 1.1.1 1 [0 0] ops p3:7 reads - writes 3:7
reply 1 1 committed 1 1
begin 1 2.1.1 [1 0]
commit 1 2.1.1 2 [1 0] ops g3,a3:1 reads 3:7 writes 3:8
reply 2 1 committed 1 2
";

/// A session reads at one site, and then at another that has caught up.
const READER: &str = "route 1.1.1 txn 3 min [0 0] to 1 hand
begin 1 1.1.1 [0 0]
commit 1 1.1.1 1 [0 0] ops p3:5 reads - writes 3:5
reply 1 1 committed 1 1
route 2.1.1 txn - min [0 0] to 1 hand
begin 1 2.1.1 [1 0]
end 1 2.1.1 ops g3 reads 3:5
reply 2 1 read 1
route 2.2.1 txn - min [1 0] to 2 hand
refresh 2 1
begin 2 2.2.1 [1 0]
end 2 2.2.1 ops g3 reads 3:5
reply 2 2 read 2
";

/// A release of which the site doesn't know whether it stands in its log, where it does.
const DOUBT: &str = "route 1.1.1 txn 3 min [0 0] to 1 hand
begin 1 1.1.1 [0 0]
commit 1 1.1.1 1 [0 0] ops p3:9 reads - writes 3:9
reply 1 1 committed 1 1
route 3.1.1 place 0 min [0 0] to 2 hand
ask 0 0 2 3.1.1
doubt release 1 0 0 to 2 [1 0]
restart 1 [1 0] kept
refresh 2 1
grant 2 0 1 [1 0]
settle 0 1
reply 3 1 placed 0 2 1
";

/// Of three sites: one takes over a transaction and what that had seen.
const REFRESHES: &str = "route 1.1.1 txn 3 min [0 0 0] to 1 hand
begin 1 1.1.1 [0 0 0]
commit 1 1.1.1 1 [0 0 0] ops p3:5 reads - writes 3:5
refresh 2 1
route 2.1.1 txn 15 min [0 0 0] to 2 hand
begin 2 2.1.1 [1 0 0]
commit 2 2.1.1 1 [1 0 0] ops g3,p15:7 reads 3:5 writes 15:7
refresh 3 1
refresh 3 2
";

/// The schema, and the history.
pub(crate) fn named(legal: Legal) -> (&'static str, &'static str) {
    match legal {
        Legal::HandOver => (TWO, HAND_OVER),
        Legal::Writers => (TWO, WRITERS),
        Legal::Reader => (TWO, READER),
        Legal::Doubt => (TWO, DOUBT),
        Legal::Refreshes => (THREE, REFRESHES),
    }
}
