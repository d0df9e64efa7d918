ghost use Rattle.std.specs.Prelude.{◌≡◌, ⊤, ℕ, List, Err, IfOk, OnOk};
ghost use Rattle.command_files.specs.declared.files.FileFault.TheVariants.{Inaccessible};

use std::alloc::Global;
use std::fs::{File, OpenFile};
use std::io;
use std::io::{Read, Write};
use values::Bytes;

/// Why a file wasn't read or written: the system refused it, or memory ran out.
#[derive(Clone, Copy, Debug, PartialEq, Eq)]
pub enum FileFault {
    Inaccessible,
    Memory,
}

impl From<io::Error> for FileFault {
    fn from(error: io::Error) -> FileFault {
        match error.kind() {
            io::ErrorKind::OutOfMemory => FileFault::Memory,
            _ => FileFault::Inaccessible,
        }
    }
}

/// Where the program's files lie.
pub trait Files {
    // That a file's whole content may be these bytes. Who says nothing of it can still be read by its paths alone.
    ghost holds: { Self → List ℕ → List ℕ → Type 0 } = { λ _ _ _. ⊤ };

    // That a file was written anew with these bytes.
    ghost written: { Self → List ℕ → List ℕ → Type 0 } = { λ _ _ _. ⊤ };

    // That the system may refuse to read the file of this path, or to write it.
    ghost unreadable: { Self → List ℕ → Type 0 } = { λ _ _. ⊤ };

    ghost unwritable: { Self → List ℕ → Type 0 } = { λ _ _. ⊤ };

    /// The whole content of the file of this path. The memory is linear in it.
    fn read(&self, alloc: Global, path: &str) -> Result<Bytes, FileFault>
        ensures bytes { IfOk result (λ bytes. holds self.now path.now bytes) }
        ensures refused { result ≡ Err Inaccessible → unreadable self.now path.now };

    /// Makes these bytes the file's whole content, whether there was a file of this path or not.
    /// After an error nothing is known of what it holds.
    fn write(&self, path: &str, bytes: &[u8]) -> Result<(), FileFault>
        ensures written { OnOk result (written self.now path.now bytes.now) }
        ensures refused { result ≡ Err Inaccessible → unwritable self.now path.now };
}

/// The files of the system that the process runs on.
#[derive(Drop)]
pub struct DiskFiles<'a, R> {
    rt: &'a R,
}

impl<'a, R> DiskFiles<'a, R> {
    /// The files that this handle reaches.
    pub fn new(rt: &'a R) -> DiskFiles<'a, R> {
        DiskFiles { rt }
    }
}

// A list for what the file holds, with room for its length if the system has that and memory is there.
fn list_for<F: OpenFile>(file: &F, alloc: Global) -> Vec<u8> {
    // One more, so that the read which finds the end needs no room.
    let len = file
        .metadata()
        .map_or(0, |found| found.len().saturating_add(1));
    let room = usize::try_from(len).unwrap_or(0);
    Vec::with_capacity(alloc, room).unwrap_or(Vec::new(alloc))
}

impl<R: std::rt::Files> Files for DiskFiles<'_, R> {
    fn read(&self, alloc: Global, path: &str) -> Result<Bytes, FileFault> {
        let mut file = File::open(self.rt, path)?;
        let mut bytes = list_for(&file, alloc);
        file.read_to_end(&mut bytes)?;
        Ok(Bytes::from_vec(bytes))
    }

    fn write(&self, path: &str, bytes: &[u8]) -> Result<(), FileFault> {
        File::create(self.rt, path)?.write_all(bytes)?;
        Ok(())
    }
}
