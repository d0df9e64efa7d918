//! A writer that fails, and runs into it.

use command_line::{Files, Silent, program};
use std::alloc::Global;
use std::io;
use std::io::{ErrorKind, Read, Write};
use std::sync::Wait;
use std::thread::Threads;

/// What a run ends with that can't write standard output.
pub(crate) const FAULT: &str = "cannot write standard output\n";

/// A writer that takes so many bytes, then fails with the error of this kind, as often as it is to,
/// and then takes all; or that fails when it is flushed.
#[derive(Drop)]
pub(crate) struct Full {
    pub(crate) room: usize,
    pub(crate) failures: usize,
    pub(crate) kind: ErrorKind,
    pub(crate) flushes: bool,
    pub(crate) taken: Vec<u8>,
}

impl Full {
    pub(crate) fn after(alloc: Global, room: usize) -> Full {
        Full {
            room,
            failures: usize::MAX,
            kind: ErrorKind::StorageFull,
            flushes: true,
            taken: Vec::new(alloc),
        }
    }
}

impl Write for Full {
    fn write(&mut self, bytes: &[u8]) -> io::Result<usize> {
        if self.failures == 0 {
            self.taken.extend_from_slice(bytes)?;
            return Ok(bytes.len());
        }
        if self.room == 0 {
            self.failures -= 1;
            return Err(io::Error::from(self.kind));
        }
        let count = self.room.min(bytes.len());
        self.taken.extend_from_slice(&bytes[..count])?;
        self.room -= count;
        Ok(count)
    }

    fn flush(&mut self) -> io::Result<()> {
        if self.flushes {
            Ok(())
        } else {
            Err(io::Error::from(self.kind))
        }
    }
}

/// Whether the program on these words, the first of which is its name, ends with this status and this text of standard
/// error.
pub(crate) fn ends_into<F: Files + Sync>(
    rt: &(impl AllocGlobal + Threads + Wait + Sync),
    files: &F,
    words: &[&str],
    out: &mut Full,
    status: u8,
    err: &str,
) -> bool {
    ends_reading(rt, files, words, &mut io::empty(), out, status, err)
}

/// The same, if it reads this input.
pub(crate) fn ends_reading<F: Files + Sync, I: Read>(
    rt: &(impl AllocGlobal + Threads + Wait + Sync),
    files: &F,
    words: &[&str],
    input: &mut I,
    out: &mut Full,
    status: u8,
    err: &str,
) -> bool {
    let mut faults = Vec::new(rt.alloc());
    let got = program(rt, words, files, input, out, &mut faults, &mut Silent);
    got == status && faults.as_slice() == err.as_bytes()
}
