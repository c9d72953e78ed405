//! The trait of such a file.

ghost use Rattle.std.specs.Prelude.{◌≡◌, ◌+◌, ◌<◌, ◌≤◌, List, ℕ, Option, length, IfSome, IfOk, OnOk};
ghost use Rattle.dm_logdisk.specs.Story.{Story, bytes_of, wrote, cut_to, synced};
ghost use Rattle.dm_logdisk.specs.Calls.{Notes, Reads, Counts};

use dm_event::NoMemory;

/// A call of a disk failed.
#[derive(Clone, Copy, Debug, PartialEq, Eq)]
pub struct Failed;

/// One file.
pub trait LogDisk {
    /// What the disk has gone through, where it tells.
    ghost story: { Self → Option Story };

    /// How often a call has failed.
    ghost faults: { Self → ℕ };

    /// How many changing calls there is room for, and up to which place.
    ghost calls_left: { Self → ℕ };

    ghost reach: { Self → ℕ };

    fn len(&mut self) -> Result<u64, Failed>
        ensures len { IfOk result (λ n. IfSome (story self.old) (λ s. n ≡ length (bytes_of s))) }
        ensures same { story self.new ≡ story self.old }
        ensures count { Counts result (faults self.old) (faults self.new) }
        ensures calls { calls_left self.old ≤ calls_left self.new }
        ensures reach { reach self.old ≤ reach self.new };

    /// Makes room for eight changing calls, none of them past that place.
    fn room(&mut self, upto: u64) -> Result<(), NoMemory>
        ensures same { story self.new ≡ story self.old }
        ensures count { faults self.new ≡ faults self.old }
        ensures calls { OnOk result (8 ≤ calls_left self.new) }
        ensures reach { OnOk result (upto ≤ reach self.new) };

    fn read_at(&mut self, at: u64, into: &mut [u8]) -> Result<usize, Failed>
        ensures read { IfOk result (λ n. IfSome (story self.old) (λ s. Reads (bytes_of s) at into.old into.new n)) }
        ensures fits { IfOk result (λ n. n ≤ length into.old) }
        ensures same { story self.new ≡ story self.old }
        ensures count { Counts result (faults self.old) (faults self.new) }
        ensures calls { calls_left self.old ≤ calls_left self.new }
        ensures reach { reach self.old ≤ reach self.new };

    fn write_at(&mut self, at: u64, piece: &[u8]) -> Result<(), Failed>
        requires call { 0 < calls_left self.old }
        requires reach { at + length piece.now ≤ reach self.old }
        ensures noted { Notes (wrote at piece.now) result (story self.old) (story self.new) }
        ensures count { Counts result (faults self.old) (faults self.new) }
        ensures calls { calls_left self.old ≤ calls_left self.new + 1 }
        ensures reach { reach self.old ≤ reach self.new };

    fn cut(&mut self, len: u64) -> Result<(), Failed>
        requires call { 0 < calls_left self.old }
        requires reach { len ≤ reach self.old }
        ensures noted { Notes (cut_to len) result (story self.old) (story self.new) }
        ensures count { Counts result (faults self.old) (faults self.new) }
        ensures calls { calls_left self.old ≤ calls_left self.new + 1 }
        ensures reach { reach self.old ≤ reach self.new };

    fn sync(&mut self) -> Result<(), Failed>
        requires { 0 < calls_left self.old }
        ensures noted { Notes synced result (story self.old) (story self.new) }
        ensures count { Counts result (faults self.old) (faults self.new) }
        ensures calls { calls_left self.old ≤ calls_left self.new + 1 }
        ensures reach { reach self.old ≤ reach self.new };
}
