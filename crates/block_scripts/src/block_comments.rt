//! Comments about a block by itself.
use block::{Block, BlockVersion, Header, Previous};
use cli_lines::write_hash;
use header_hash::{data_hash, header_hash};
use std::io;
use std::io::Write;

fn version_number(version: BlockVersion) -> u8 {
    match version {
        BlockVersion::V1 => 1,
        BlockVersion::V2 => 2,
    }
}

fn write_previous<W: Write>(
    out: &mut W,
    before: Option<&Header>,
    previous: &Previous,
) -> io::Result<()> {
    let Previous::Hash(previous) = previous else {
        return writeln!(out, "# previous hash none");
    };
    write!(out, "# previous hash ")?;
    write_hash(out, previous)?;
    let Some(before) = before else {
        return writeln!(out);
    };
    let hash = header_hash(before);
    if hash == *previous {
        return writeln!(out, ", that of the block before");
    }
    write!(out, ", but the block before has ")?;
    write_hash(out, &hash)?;
    writeln!(out)
}

fn write_data_hash<W: Write>(out: &mut W, block: &Block<'_>) -> io::Result<()> {
    write!(out, "# data hash ")?;
    write_hash(out, &block.header.data_hash)?;
    let hash = data_hash(block.txs.as_slice());
    if hash == block.header.data_hash {
        return writeln!(out, ", that of its transactions");
    }
    write!(out, ", but its transactions have ")?;
    write_hash(out, &hash)?;
    writeln!(out)
}

/// Writes the block's number, version and count of transactions, and its hashes: whether they are right, as far as that
/// is known by the block before it.
pub(crate) fn write_block_comments<W: Write>(
    out: &mut W,
    before: Option<&Header>,
    block: &Block<'_>,
) -> io::Result<()> {
    let (number, count) = (block.header.number, block.txs.len());
    let version = version_number(block.version);
    writeln!(
        out,
        "# block {number} of version {version}, transactions: {count}"
    )?;
    write!(out, "# header hash ")?;
    write_hash(out, &header_hash(&block.header))?;
    writeln!(out)?;
    write_previous(out, before, &block.header.previous)?;
    write_data_hash(out, block)
}
