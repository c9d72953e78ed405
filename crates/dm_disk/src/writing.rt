//! Writing a whole text.

ghost use Rattle.std.specs.Prelude.{◌≡◌, ◌≤◌, ℕ, take};
ghost use Rattle.dm_disk.specs.Faults.{Rose};
ghost use Rattle.dm_disk.specs.Putting.{appended};

use crate::outside::{Put, Sink};

/// How the writing of a text ended.
#[derive(Clone, Copy, Debug, PartialEq, Eq)]
pub enum Written {
    Whole,
    /// The sink had a fault. A part of the text, from its front, may have been written.
    Fault,
}

/// Writes the whole text, in as many calls as the sink wants.
pub fn write_all<W: Sink>(sink: &mut W, text: &[u8]) -> Written
    ensures whole { result ≡ Written.Whole → W.written sink.new ≡ appended (W.written sink.old) text.now }
    ensures part { (n : ℕ) × (W.written sink.new ≡ appended (W.written sink.old) (take n text.now)) }
    ensures count { W.faults sink.old ≤ W.faults sink.new }
    ensures cause { result ≡ Written.Fault → Rose (W.faults sink.old) (W.faults sink.new) }
{
    let mut done = 0;
    while done < text.len() {
        match sink.put(&text[done..]) {
            Put::Took(0) | Put::Failed => return Written::Fault,
            Put::Took(n) => done += n,
        }
    }
    Written::Whole
}
