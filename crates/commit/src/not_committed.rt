ghost use Rattle.std.specs.Prelude.{◌≡◌};
ghost use Rattle.commit.specs.declared.not_committed.NotCommitted.TheVariants as not_committed;

use rules::Refused;
use thiserror::Error;

/// Why a committer has no receipt for a string of bytes.
#[derive(Clone, Copy, Debug, PartialEq, Eq, Error)]
pub enum NotCommitted {
    /// The bytes aren't the next block, or memory was refused before anything was published. Nothing has changed.
    #[error("{0}")]
    Refused(Refused),
    /// Memory was refused while the accepted block was published. What was published before stays, and the committer
    /// has stopped. Tests alone show that all memory is had before, so that this doesn't come.
    #[error("out of memory while a block was published")]
    MemoryInCommit,
    /// The committer has stopped before.
    #[error("the committer has stopped")]
    Stopped,
}

impl From<Refused> for NotCommitted {
    ghost from_gives = { λ refused e. e ≡ not_committed.Refused refused };

    fn from(refused: Refused) -> NotCommitted {
        NotCommitted::Refused(refused)
    }
}
