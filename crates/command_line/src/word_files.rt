//! Files by words for their paths.
ghost use Rattle.std.specs.Prelude.{◌≡◌, Ok, IfOk, OnOk};
ghost use Rattle.command_line.specs.Session.{IsHeldAt};

use cli_values::{WordFault, bytes_of};
use command_files::{FileFault, Files};
use std::alloc::Global;
use std::str::from_utf8;
use values::Bytes;

/// Files that are named by words: a word has no space, but spells any path. What is no word, or spells no text, names no
/// file. None can be written.
#[derive(Drop)]
pub(crate) struct WordFiles<'f, F> {
    pub(crate) files: &'f F,
}

impl<F: Files> WordFiles<'_, F> {
    fn read_at(&self, alloc: Global, path: &Bytes) -> Result<Bytes, FileFault>
        ensures { IfOk result (λ bytes. F.holds self.now.files.now path.now bytes) }
    {
        match from_utf8(path.as_slice()) {
            Ok(path) => self.files.read(alloc, path),
            Err(_) => Err(FileFault::Inaccessible),
        }
    }
}

impl<F: Files> Files for WordFiles<'_, F> {
    ghost holds = { λ files word. IsHeldAt (F.holds files.files.now) word };

    fn read(&self, alloc: Global, path: &str) -> Result<Bytes, FileFault> {
        match bytes_of(alloc, path) {
            Ok(path) => self.read_at(alloc, &path),
            Err(WordFault::NotAWord) => Err(FileFault::Inaccessible),
            Err(WordFault::Memory) => Err(FileFault::Memory),
        }
    }

    fn write(&self, _path: &str, _bytes: &[u8]) -> Result<(), FileFault> {
        Err(FileFault::Inaccessible)
    }
}
