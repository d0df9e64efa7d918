//! Files that the tests run the program over.

use command_line::{FileFault, Files};
use std::alloc::Global;
use std::sync::atomic::{AtomicU32, Ordering};
use values::Bytes;

/// A path, and the bytes that lie there.
pub(crate) type File<'a> = (&'a str, &'a [u8]);

/// Files in memory.
#[derive(Clone, Copy)]
pub(crate) struct MemoryFiles<'a>(pub(crate) &'a [File<'a>]);

impl Files for MemoryFiles<'_> {
    fn read(&self, alloc: Global, path: &str) -> Result<Bytes, FileFault> {
        for (at, bytes) in self.0 {
            if *at == path {
                return Bytes::from_slice(alloc, bytes).map_err(|_| FileFault::Memory);
            }
        }
        Err(FileFault::Inaccessible)
    }

    fn write(&self, _path: &str, _bytes: &[u8]) -> Result<(), FileFault> {
        Err(FileFault::Inaccessible)
    }
}

/// Files in memory, but memory runs out at one of them.
#[derive(Clone, Copy)]
pub(crate) struct ScarceFiles<'a> {
    pub(crate) files: MemoryFiles<'a>,
    pub(crate) path: &'a str,
}

impl Files for ScarceFiles<'_> {
    fn read(&self, alloc: Global, path: &str) -> Result<Bytes, FileFault> {
        if path == self.path {
            return Err(FileFault::Memory);
        }
        self.files.read(alloc, path)
    }

    fn write(&self, path: &str, bytes: &[u8]) -> Result<(), FileFault> {
        if path == self.path {
            return Err(FileFault::Memory);
        }
        self.files.write(path, bytes)
    }
}

/// Files in memory, and a path where exactly these bytes may be written, with room for so many. It counts how often they are.
#[derive(Clone, Copy)]
pub(crate) struct OneOut<'a> {
    pub(crate) files: MemoryFiles<'a>,
    pub(crate) out: File<'a>,
    pub(crate) room: usize,
    pub(crate) written: &'a AtomicU32,
}

impl Files for OneOut<'_> {
    // What is written is cut off where the room ends.
    fn read(&self, alloc: Global, path: &str) -> Result<Bytes, FileFault> {
        let (out, bytes) = self.out;
        if path != out || self.written.load(Ordering::SeqCst) == 0 {
            return self.files.read(alloc, path);
        }
        let kept = bytes.get(..self.room).unwrap_or(bytes);
        Bytes::from_slice(alloc, kept).map_err(|_| FileFault::Memory)
    }

    fn write(&self, path: &str, bytes: &[u8]) -> Result<(), FileFault> {
        if (path, bytes) != self.out {
            return Err(FileFault::Inaccessible);
        }
        self.written.fetch_add(1, Ordering::SeqCst);
        if self.room < bytes.len() {
            return Err(FileFault::Inaccessible);
        }
        Ok(())
    }
}
