//! A file of the host. What it holds is the host's affair: it tells nothing but how often the host answered with an error.

ghost use Rattle.std.specs.Prelude.{None, ◌^◌, ◌≤◌, ◌≡◌, length, IfOk};
ghost use Rattle.dm_logdisk.specs.Calls.{Counts};

use crate::disk::{Failed, LogDisk};
use dm_event::NoMemory;
use std::fs::{File, OpenFile, OpenOptions};
use std::io;
use std::marker::Model;
use std::os::unix::fs::FileExt;
use std::rt::Files;

/// A file of the host. It tells no content.
#[derive(Drop)]
pub struct FileDisk<R: Files<File = File>> {
    rt: R,
    path: String,
    file: Option<File>,
    faults: u64,
}

// seen as the count of its faults
impl<R: Files<File = File>> Model for FileDisk<R> {
    ghost use Rattle.std.specs.Prelude.{ℕ};

    ghost Value = { ℕ };

    ghost view = { λ d. d.faults };
}

impl<R: Files<File = File>> FileDisk<R> {
    /// Touches nothing. The first call opens the file, and makes it where there is none.
    pub fn new(rt: R, path: String) -> FileDisk<R>
        ensures { result ≡ 0 }
    {
        FileDisk {
            rt,
            path,
            file: None,
            faults: 0,
        }
    }
}

// Opens the file at the first call, and makes it where there is none.
fn opened<'a, R: Files<File = File>>(
    rt: &R,
    path: &str,
    file: &'a mut Option<File>,
) -> io::Result<&'a File> {
    if file.is_none() {
        *file = Some(
            OpenOptions::new()
                .read(true)
                .write(true)
                .create(true)
                .open(rt, path)?,
        );
    }
    file.as_ref().ok_or(io::ErrorKind::NotFound.into())
}

fn write_whole(file: &File, at: u64, piece: &[u8]) -> io::Result<()> {
    let mut done = 0;
    while done < piece.len() {
        let Some(place) = at.checked_add(done as u64) else {
            return Err(io::ErrorKind::InvalidInput.into());
        };
        let n = file.write_at(&piece[done..], place)?;
        if n == 0 {
            return Err(io::ErrorKind::WriteZero.into());
        }
        done += n;
    }
    Ok(())
}

fn counted<T: Drop>(answer: io::Result<T>, faults: &mut u64) -> Result<T, Failed>
    ensures count { Counts result faults.old faults.new }
    ensures same { IfOk result (λ x. answer ≡ Ok x) }
{
    match answer {
        Ok(x) => Ok(x),
        Err(_) => {
            *faults = faults.saturating_add(1);
            Err(Failed)
        }
    }
}

impl<R: Files<File = File>> LogDisk for FileDisk<R> {
    ghost story = { λ _. None };

    ghost faults = { λ d. d };

    ghost calls_left = { λ _. 8 };

    ghost reach = { λ _. 2 ^ 64 };

    fn len(&mut self) -> Result<u64, Failed> {
        let answer = match opened(&self.rt, &self.path, &mut self.file) {
            Ok(file) => match file.metadata() {
                Ok(found) => Ok(found.len()),
                Err(e) => Err(e),
            },
            Err(e) => Err(e),
        };
        counted(answer, &mut self.faults)
    }

    fn room(&mut self, _upto: u64) -> Result<(), NoMemory> {
        Ok(())
    }

    fn read_at(&mut self, at: u64, into: &mut [u8]) -> Result<usize, Failed> {
        let answer = match opened(&self.rt, &self.path, &mut self.file) {
            Ok(file) => read_some(file, at, into),
            Err(e) => Err(e),
        };
        counted(answer, &mut self.faults)
    }

    fn write_at(&mut self, at: u64, piece: &[u8]) -> Result<(), Failed> {
        let answer = match opened(&self.rt, &self.path, &mut self.file) {
            Ok(file) => write_whole(file, at, piece),
            Err(e) => Err(e),
        };
        counted(answer, &mut self.faults)
    }

    fn cut(&mut self, len: u64) -> Result<(), Failed> {
        let answer = match opened(&self.rt, &self.path, &mut self.file) {
            Ok(file) => file.set_len(len),
            Err(e) => Err(e),
        };
        counted(answer, &mut self.faults)
    }

    fn sync(&mut self) -> Result<(), Failed> {
        let answer = match opened(&self.rt, &self.path, &mut self.file) {
            Ok(file) => file.sync_all(),
            Err(e) => Err(e),
        };
        counted(answer, &mut self.faults)
    }
}

fn read_some(file: &File, at: u64, into: &mut [u8]) -> io::Result<usize>
    ensures { IfOk result (λ n. n ≤ length into.old) }
{
    file.read_at(into, at)
}
