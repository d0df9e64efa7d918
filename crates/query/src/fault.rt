use thiserror::Error;

/// Why a block wasn't published.
#[derive(Clone, Copy, Debug, PartialEq, Eq, Error)]
pub enum PublishFault {
    /// Memory was refused before it was begun. Nothing has changed.
    #[error("out of memory")]
    Memory,
    /// Memory was refused while it was published: what was published before stays, and nothing more is published.
    #[error("out of memory while a block was published")]
    Failed,
}
