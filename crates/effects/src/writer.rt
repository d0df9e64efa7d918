use rules::KeptId;
use transaction::Version;

/// A transaction that writes: the version of what it writes, and its id as history entries keep it.
#[derive(Drop)]
pub(crate) struct Writer {
    pub(crate) version: Version,
    pub(crate) id: KeptId,
}
