//! Why a step may not follow a history, and what is wrong with a line of text.

use crate::step::{Choice, TxnId};
use crate::{Key, Part, SiteNo, Vector};

/// The first rule that a step breaks, with what would be due.
#[derive(Clone, Copy, Debug, PartialEq, Eq)]
pub enum Why {
    /// A number in it is out of its range.
    Shape,
    /// Another number, attempt, sequence number or epoch is due.
    NotDue { due: u64 },
    /// The session's attempt hasn't come to its end.
    Unfinished { txn: TxnId },
    WrongVector { due: Vector },
    WrongChoice { site: SiteNo, choice: Choice },
    /// The partition is in a hand-over.
    Unsettled { part: Part },
    NotRouted,
    WrongSite { due: SiteNo },
    Down { site: SiteNo },
    /// The site may not begin on this partition.
    Elsewhere { part: Part },
    /// The site may begin on each declared partition.
    AllHere,
    /// The vector is too low at this site's component.
    Behind { component: SiteNo },
    /// The vector is too high at this site's component.
    Ahead { component: SiteNo },
    /// A running attempt declares this key too.
    Held { by: TxnId, key: Key },
    /// The vector holds this entry without all that the entry saw.
    NotClosed { origin: SiteNo, seq: u64 },
    NotRunning,
    Undeclared { key: Key },
    /// The reads or writes aren't those of the ops.
    WrongBody,
    NoWrites,
    HasWrites,
    /// A site doesn't refresh from itself.
    Own,
    /// There is no further entry of that origin.
    Missing,
    /// The attempt isn't one for which this partition may be asked.
    WrongWant,
    /// The partition is at that site already.
    Home { site: SiteNo },
    NotAsked,
    /// A running attempt declares a key of the partition.
    Running { txn: TxnId },
    NotReleased,
    NotGranted,
    /// The site is up where a restart after a doubt is claimed, or the other way round.
    WrongFound,
    /// The attempt isn't answered so.
    WrongSaid,
}

/// The first thing that is wrong with a line of text, in this order.
#[derive(Clone, Copy, Debug, PartialEq, Eq)]
pub enum LineFault {
    /// An unknown word, or one in the wrong place.
    Word,
    /// Too few or too many words.
    Count,
    /// A word that is no canonical number of its type.
    Number,
    /// A number outside the schema or the limits.
    Range,
    /// A declared key that stands twice.
    Repeat,
    /// The text ends too early.
    Unfinished,
}
