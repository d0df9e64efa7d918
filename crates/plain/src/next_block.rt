use transaction::BlockVersion;
use values::Slice;

/// The next block of a channel, as far as it is taken in: its number, its version, and the bytes of its transactions.
#[derive(Clone, Copy)]
pub struct NextBlock<'t, 'a> {
    pub number: u64,
    pub version: BlockVersion,
    pub txs: &'t [Slice<'a>],
}
