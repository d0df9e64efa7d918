ghost use Rattle.std.specs.Prelude.{◌≡◌};
ghost use Rattle.rules.specs.Job.{read_flag};

use crate::flag::Flag;

/// What a check of a transaction's reads and ranges finds first.
#[derive(Clone, Copy, Debug, PartialEq, Eq)]
pub enum ReadVerdict {
    /// All are as the state has them.
    Good,
    /// A key has another version than was read, or is there or absent against the read.
    Stale,
    /// A range has other keys or versions than were read.
    Phantom,
}

impl ReadVerdict {
    /// The flag of an endorsed transaction whose reads say this.
    pub fn flag(self) -> Flag
        ensures { result ≡ read_flag self }
    {
        match self {
            ReadVerdict::Good => Flag::Valid,
            ReadVerdict::Stale => Flag::MvccReadConflict,
            ReadVerdict::Phantom => Flag::PhantomReadConflict,
        }
    }
}
