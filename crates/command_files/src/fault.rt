ghost use Rattle.std.specs.Prelude.{◌≡◌, ◌↔◌, ℕ, Some, None};
ghost use Rattle.channel.specs.Fault as channel;
ghost use Rattle.channel.specs.declared.fault.ChannelFault.TheVariants as channel_fault;
ghost use Rattle.cli_lines.specs.declared.line_fault.LineFault.TheVariants as line_fault;
ghost use Rattle.command_files.specs.declared.fault.Fault.TheVariants.{Memory};
ghost use Rattle.command_files.specs.declared.files.FileFault.TheVariants as file_fault;
ghost use Rattle.command_files.specs.Failing.{Because, at_fault, line, of_channel_text, of_word, unreadable, unwritable};
ghost use Rattle.command_files.specs.Status.{status_of};
ghost use Rattle.cli_values.specs.declared.word_fault.WordFault.TheVariants as word_fault;
ghost use Rattle.key_book.specs.declared.fault.KeyBookFault.TheVariants as key_book_fault;

use crate::files::FileFault;
use crate::status::{FILE_FAULT, MEMORY, USAGE};
use channel::ChannelFault;
use cli_lines::LineFault;
use cli_values::WordFault;
use key_book::KeyBookFault;
use std::alloc::{AllocError, AllocFailed};
use std::io;
use thiserror::Error;

/// What ends the program before its work is done. Its text is the line for standard error.
#[derive(Clone, Copy, Debug, PartialEq, Eq, Error)]
pub enum Fault<'a> {
    /// What should be a word, a name, or the word of a key or an id, isn't.
    #[error("bad word")]
    Word,
    /// The file of this path can't be read.
    #[error("cannot read {0}")]
    Unreadable(&'a str),
    /// The file of this path can't be written.
    #[error("cannot write {0}")]
    Unwritable(&'a str),
    /// This line, from 1, of the text in the file of this path has a fault.
    #[error("{0} line {1}")]
    Line(&'a str, u64),
    /// The channel text in the file of this path names no channel.
    #[error("{0} no channel")]
    NoChannel(&'a str),
    /// The file of this path holds no block that another one can follow.
    #[error("{0} not a block")]
    NotABlock(&'a str),
    /// The block that is explained has no transaction at this place.
    #[error("no transaction {0}")]
    NoTransaction(u16),
    /// Neither the block that is explained nor one before it has a transaction whose id this word spells.
    #[error("no transaction {0}")]
    UnknownId(&'a str),
    #[error("cannot write standard output")]
    Output,
    #[error("out of memory")]
    Memory,
}

impl<'a> Fault<'a> {
    /// What the process ends with: 2, 3 or 4.
    pub fn status(&self) -> u8
        ensures { result ≡ status_of self.now }
    {
        match self {
            Fault::Word | Fault::NoTransaction(_) | Fault::UnknownId(_) => USAGE,
            Fault::Memory => MEMORY,
            _ => FILE_FAULT,
        }
    }

    /// The fault of reading the file of this path.
    pub(crate) fn of_file(path: &'a str, fault: FileFault) -> Fault<'a>
        ensures memory { result ≡ Memory ↔ fault ≡ file_fault.Memory }
        ensures why { Because (λ what. (what ≡ unreadable path.now) × (fault ≡ file_fault.Inaccessible)) result }
    {
        match fault {
            FileFault::Inaccessible => Fault::Unreadable(path),
            FileFault::Memory => Fault::Memory,
        }
    }

    /// The fault of writing the file of this path: a fault of the file, unless memory ran out.
    pub fn of_write(path: &'a str, fault: FileFault) -> Fault<'a>
        ensures memory { result ≡ Memory ↔ fault ≡ file_fault.Memory }
        ensures why { Because (λ what. (what ≡ unwritable path.now) × (fault ≡ file_fault.Inaccessible)) result }
    {
        match fault {
            FileFault::Inaccessible => Fault::Unwritable(path),
            FileFault::Memory => Fault::Memory,
        }
    }

    /// The fault of the channel text in the file of this path.
    pub(crate) fn of_channel(path: &'a str, fault: ChannelFault) -> Fault<'a>
        ensures memory { result ≡ Memory ↔ fault ≡ channel_fault.Memory }
        ensures why { (why : channel.Fault) → channel.fault_of fault ≡ Some why → at_fault result ≡ Some (of_channel_text path.now why) }
    {
        match fault {
            ChannelFault::Line(line)
            | ChannelFault::Repeated(line)
            | ChannelFault::Policy(line, _)
            | ChannelFault::TooMany(line) => Fault::Line(path, line),
            ChannelFault::NoChannel => Fault::NoChannel(path),
            ChannelFault::Memory => Fault::Memory,
        }
    }

    /// The fault of the key book in the file of this path.
    pub(crate) fn of_key_book(path: &'a str, fault: KeyBookFault) -> Fault<'a>
        ensures memory { result ≡ Memory ↔ fault ≡ key_book_fault.Memory }
        ensures why { (n : ℕ) → fault ≡ key_book_fault.Line n → at_fault result ≡ Some (line path.now n) }
    {
        match fault {
            KeyBookFault::Line(line) => Fault::Line(path, line),
            KeyBookFault::Memory => Fault::Memory,
        }
    }
}

/// Of all that is read and written, standard output alone gives its error as it is.
impl From<io::Error> for Fault<'_> {
    ghost from_gives = { λ _ fault. at_fault fault ≡ None };

    fn from(error: io::Error) -> Self {
        match error.kind() {
            io::ErrorKind::OutOfMemory => Fault::Memory,
            _ => Fault::Output,
        }
    }
}

impl From<AllocError> for Fault<'_> {
    ghost from_gives = { λ _ fault. fault ≡ Memory };

    fn from(_error: AllocError) -> Self {
        Fault::Memory
    }
}

impl From<LineFault> for Fault<'_> {
    ghost from_gives = { λ line fault. (fault ≡ Memory ↔ line ≡ line_fault.Memory) × (at_fault fault ≡ None) };

    fn from(fault: LineFault) -> Self {
        match fault {
            LineFault::Output => Fault::Output,
            LineFault::Memory => Fault::Memory,
        }
    }
}

impl From<WordFault> for Fault<'_> {
    ghost from_gives = { λ word fault. (fault ≡ Memory ↔ word ≡ word_fault.Memory) × (at_fault fault ≡ of_word word) };

    fn from(fault: WordFault) -> Self {
        match fault {
            WordFault::NotAWord => Fault::Word,
            WordFault::Memory => Fault::Memory,
        }
    }
}

impl<T: Drop> From<AllocFailed<T>> for Fault<'_> {
    ghost from_gives = { λ _ fault. fault ≡ Memory };

    fn from(_error: AllocFailed<T>) -> Self {
        Fault::Memory
    }
}
