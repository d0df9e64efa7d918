//! The script of a whole block.
ghost use Rattle.std.specs.Prelude.{◌≡◌, ◌≤◌, ℕ, List, [], length, true, Ok, IfOk};
ghost use Rattle.std.specs.List.{AllByRecursion};
ghost use Rattle.block.specs.Grammar.{IsTx};
ghost use Rattle.block.specs.Limits.{max_txs};
ghost use Rattle.key_book.specs.Entry.{Entry};
ghost use Rattle.drafts.specs.DraftBlock.{txs_of};
ghost use Rattle.block_scripts.specs.Shown.{Shows};

use crate::block_comments::write_block_comments;
use crate::place::write_place;
use crate::raw_lines::raw_lines;
use crate::saying::says;
use crate::signing::Signing;
use block::{Block, Header};
use cli_lines::LineFault;
use key_book::KeyBook;
use std::alloc::{AllocError, Global};
use values::{Bytes, Name};

// Writing into memory can only fail by running out of it.
fn memory(_fault: LineFault) -> AllocError {
    AllocError
}

// Lines for each place, with comments.
fn lines_of(
    alloc: Global,
    signing: Option<&Signing<'_>>,
    before: Option<&Header>,
    block: &Block<'_>,
) -> Result<Bytes, LineFault> {
    let mut lines = Vec::new(alloc);
    write_block_comments(&mut lines, before, block)?;
    for (place, tx) in block.txs.as_slice().iter().enumerate() {
        let bytes = tx.as_slice();
        write_place(alloc, &mut lines, signing, block.version, place, bytes)?;
    }
    Ok(Bytes::from_vec(lines))
}

/// The script that a block is shown as: drafted again on this channel by these keys, it gives the block's transactions
/// to the byte. `before` is the header of the block before it, if that is known, and is only used in comments.
///
/// Lines state a transaction or an update if drafting these gives its bytes. Otherwise a `raw` line has its bytes, and
/// comments above it state what can be read of it, and what keeps lines from stating it: another channel, an id that
/// isn't its own, signatures that the book doesn't give, a policy's text that is empty, begins or ends with a space, or
/// isn't only printable ASCII. Above each is its place and id, and above all the block's number, version and hashes,
/// and whether these are right. All is printable ASCII. Only tests show this: no contract mentions comments, nor when a
/// line is `raw`.
///
/// Before the text is returned, it is drafted to check that it states the block; if it didn't, `raw` lines without
/// comments would replace it, so that there is always a result.
///
/// Each transaction is drafted twice, once by itself and once with the others: linear in the block, and for each
/// endorser in the body that it signs. The memory is linear in the block.
pub fn block_script(
    alloc: Global,
    channel: &Name,
    keys: &KeyBook,
    before: Option<&Header>,
    block: &Block<'_>,
) -> Result<Bytes, AllocError>
    // As of each block that has an encoding.
    requires count { length block.now.txs ≤ max_txs }
    requires each { AllByRecursion IsTx block.now.txs }
    ensures { IfOk result (λ text. Shows keys.now channel.now block.now.version block.now.txs text) }
{
    let signing = Signing { channel, keys };
    let lines = lines_of(alloc, Some(&signing), before, block).map_err(memory)?;
    let txs = block.txs.as_slice();
    if says(alloc, &signing, block.version, lines.as_slice(), txs)? {
        return Ok(lines);
    }
    Ok(raw_lines(alloc, txs)?)
}

// An empty text has no faulty line.
fn no_keys(alloc: Global) -> Result<KeyBook, AllocError>
    ensures { IfOk result (λ keys. keys ≡ []) }
{
    KeyBook::read(alloc, "").map_err(|_| AllocError)
}

// Whether lines in which nothing is signed state the block: then they do so on each channel and by all keys.
fn is_said_by_any(alloc: Global, block: &Block<'_>, lines: &Bytes) -> Result<bool, AllocError>
    ensures { IfOk result (λ said. said ≡ true → (keys : List Entry) (channel : List ℕ) → txs_of block.now.version keys channel lines.now ≡ Ok block.now.txs) }
{
    let channel = Name::from_slice(alloc, b"-")?;
    let keys = no_keys(alloc)?;
    let signing = Signing {
        channel: &channel,
        keys: &keys,
    };
    let txs = block.txs.as_slice();
    Ok(says(alloc, &signing, block.version, lines.as_slice(), txs)?)
}

/// The script that a block is shown as if no channel and no keys are known: a `raw` line for each transaction, with
/// comments of what can be read of it. An `Err` is out of memory; time and memory are linear in the block. Drafted
/// again on any channel by any keys, it gives the block's transactions to the byte.
pub fn raw_script(
    alloc: Global,
    before: Option<&Header>,
    block: &Block<'_>,
) -> Result<Bytes, AllocError>
    requires count { length block.now.txs ≤ max_txs }
    requires each { AllByRecursion IsTx block.now.txs }
    ensures { IfOk result (λ text. (keys : List Entry) (channel : List ℕ) → Shows keys channel block.now.version block.now.txs text) }
{
    let lines = lines_of(alloc, None, before, block).map_err(memory)?;
    if is_said_by_any(alloc, block, &lines)? {
        return Ok(lines);
    }
    Ok(raw_lines(alloc, block.txs.as_slice())?)
}
