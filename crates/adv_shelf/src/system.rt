//! The real files and the standard output. They tell no content, and count what the system refuses.
ghost use Rattle.std.specs.Prelude.{◌≡◌, ◌≤◌, None, length, IfOk};
ghost use Rattle.adv_shelf.specs.System.{no_disk_faults};

use crate::{Failed, PutFault, Shelf, Sink};
use std::fs::File;
use std::io;
use std::io::{ErrorKind, Read, Seek, SeekFrom, Write};
use std::marker::Model;
use std::rt::Files;

/// The files of the system. A name is a path.
#[derive(Drop)]
pub struct DiskShelf<R: Files> {
    files: R,
    read_faults: u64,
    put_faults: u64,
}

impl<R: Files> Model for DiskShelf<R> {
    ghost use Rattle.adv_shelf.specs.System.{DiskFaults};

    ghost Value = { DiskFaults };

    ghost view = { λ a. record { reads = a.read_faults; puts = a.put_faults } };
}

impl<R: Files> DiskShelf<R> {
    /// The files that the runtime hands out, with no fault.
    pub fn new(files: R) -> DiskShelf<R>
        ensures { result ≡ no_disk_faults }
    {
        DiskShelf {
            files,
            read_faults: 0,
            put_faults: 0,
        }
    }
}

impl<R: Files> Shelf for DiskShelf<R> {
    ghost files = { λ _. None };

    ghost read_faults = { λ s. s.reads };

    ghost read_faults_at = { λ s _. s.reads };

    ghost put_faults = { λ s. s.puts };

    /// It opens the file for each read, so that no file stays open between two calls.
    fn read_at(&mut self, name: &str, from: u64, buf: &mut [u8]) -> Result<usize, Failed> {
        if buf.is_empty() {
            return Ok(0);
        }
        match read_file(&self.files, name, from, buf) {
            Ok(count) => Ok(count),
            Err(_) => {
                self.read_faults = self.read_faults.saturating_add(1);
                Err(Failed)
            }
        }
    }

    /// It empties the file and writes it anew. Where the open is refused for want of memory, nothing has
    /// happened to the file, and that is no fault.
    fn put(&mut self, name: &str, bytes: &[u8]) -> Result<(), PutFault> {
        match write_file(&self.files, name, bytes) {
            Err(PutFault::Failed) => {
                self.put_faults = self.put_faults.saturating_add(1);
                Err(PutFault::Failed)
            }
            other => other,
        }
    }
}

fn read_file<R: Files>(files: &R, name: &str, from: u64, buf: &mut [u8]) -> io::Result<usize>
    ensures { IfOk result (λ n. n ≤ length buf.old) }
{
    let mut file = File::open(files, name)?;
    file.seek(SeekFrom::Start(from))?;
    file.read(buf)
}

fn write_file<R: Files>(files: &R, name: &str, bytes: &[u8]) -> Result<(), PutFault> {
    let mut file = match File::create(files, name) {
        Ok(file) => file,
        Err(e) if e.kind() == ErrorKind::OutOfMemory => return Err(PutFault::Memory),
        Err(_) => return Err(PutFault::Failed),
    };
    match file.write_all(bytes) {
        Ok(()) => Ok(()),
        Err(_) => Err(PutFault::Failed),
    }
}

/// The standard output, or any other writer.
#[derive(Drop)]
pub struct StdSink<W: Write> {
    out: W,
    faults: u64,
}

impl<W: Write> Model for StdSink<W> {
    ghost use Rattle.std.specs.Prelude.{ℕ};

    ghost Value = { ℕ };

    ghost view = { λ a. a.faults };
}

impl<W: Write> StdSink<W> {
    /// What the runtime hands out for the standard output, with no fault.
    pub fn new(out: W) -> StdSink<W>
        ensures { result ≡ 0 }
    {
        StdSink { out, faults: 0 }
    }
}

impl<W: Write> Sink for StdSink<W> {
    ghost written = { λ _. None };

    ghost faults = { λ s. s };

    fn write(&mut self, piece: &[u8]) -> Result<usize, Failed> {
        match self.out.write(piece) {
            Ok(count) if count > 0 || piece.is_empty() => Ok(count),
            _ => {
                self.faults = self.faults.saturating_add(1);
                Err(Failed)
            }
        }
    }
}
