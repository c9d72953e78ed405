//! A disk that gives another byte than was written.

ghost use Rattle.std.specs.Prelude.{◌≡◌, ◌≤◌, None, length, vec_capacity};

use crate::disk::{Failed, LogDisk};
use crate::memory::{cut, read, write};
use dm_event::NoMemory;

/// A disk in memory that tells nothing and never fails. Its reads give another byte at one place.
#[derive(Drop)]
pub struct LyingDisk {
    bytes: Vec<u8>,
    place: u64,
    byte: u8,
    reach: usize,
    ghost room_bytes: { reach ≤ vec_capacity bytes },
}

impl LyingDisk {
    ghost use Rattle.std.specs.Prelude.{◌≡◌};
    ghost use Rattle.dm_logdisk.specs.Disk.{held, lie};

    /// A disk that holds these bytes, and reads as this byte at this place.
    pub fn new(bytes: Vec<u8>, place: u64, byte: u8) -> LyingDisk
        ensures held { held result ≡ bytes.items }
        ensures lie { lie result ≡ (place, byte) }
    {
        LyingDisk {
            bytes,
            place,
            byte,
            reach: 0,
        }
    }
}

impl LogDisk for LyingDisk {
    ghost story = { λ _. None };

    ghost faults = { λ _. 0 };

    ghost calls_left = { λ _. 8 };

    ghost reach = { λ d. d.reach };

    fn len(&mut self) -> Result<u64, Failed> {
        Ok(self.bytes.len() as u64)
    }

    fn room(&mut self, upto: u64) -> Result<(), NoMemory> {
        let upto = upto as usize;
        self.reach = 0;
        self.bytes.reserve(upto)?;
        self.reach = upto;
        Ok(())
    }

    fn read_at(&mut self, at: u64, into: &mut [u8]) -> Result<usize, Failed> {
        let n = read(&self.bytes, at as usize, into);
        if at <= self.place && self.place - at < n as u64 {
            into[(self.place - at) as usize] = self.byte;
        }
        Ok(n)
    }

    fn write_at(&mut self, at: u64, piece: &[u8]) -> Result<(), Failed> {
        write(&mut self.bytes, at as usize, piece, true);
        Ok(())
    }

    fn cut(&mut self, len: u64) -> Result<(), Failed> {
        cut(&mut self.bytes, len as usize, true);
        Ok(())
    }

    fn sync(&mut self) -> Result<(), Failed> {
        Ok(())
    }
}
