ghost use Rattle.std.specs.Prelude.{◌≡◌};
ghost use Rattle.commit.specs.OpenFaults.{open_fault_of};

use thiserror::Error;

/// Why a committer isn't opened: the first that holds. No want of memory hides the first two.
#[derive(Clone, Copy, Debug, PartialEq, Eq, Error)]
pub enum OpenFault {
    /// Not 1 to 64 workers.
    #[error("not 1 to 64 workers")]
    Workers,
    /// More than 32 readers.
    #[error("more than 32 readers")]
    Readers,
    /// There was no place for a reader. The code comes to this nowhere; no clause says it.
    #[error("no place for a reader")]
    NoPlace,
    /// A growth was refused.
    #[error("out of memory")]
    Memory,
}

impl From<query::OpenFault> for OpenFault {
    ghost from_gives = { λ fault e. e ≡ open_fault_of fault };

    fn from(fault: query::OpenFault) -> OpenFault {
        match fault {
            query::OpenFault::Readers => OpenFault::Readers,
            query::OpenFault::NoPlace => OpenFault::NoPlace,
            query::OpenFault::Memory => OpenFault::Memory,
        }
    }
}
