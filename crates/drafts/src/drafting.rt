//! From a script's text to the bytes of its block.
ghost use Rattle.std.specs.Prelude.{◌≡◌, ◌+◌, ◌<◌, ◌≤◌, ◌^◌, ◌⊎◌, length, Ok, Err, IfOk, IfErr, IfSome};
ghost use Rattle.std.specs.List.{AllByRecursion};
ghost use Rattle.values.specs.Memory.{GivesUnless};
ghost use Rattle.transaction.specs.Items.{SpellsItem};
ghost use Rattle.block.specs.Grammar.{IsTx};
ghost use Rattle.block.specs.Limits.{max_txs};
ghost use Rattle.transaction.specs.declared.block_version.BlockVersion.TheVariants.{V2};
ghost use Rattle.scripts.specs.Within.{IsDraft, IsItem};
ghost use Rattle.drafts.specs.declared.fault.DraftFault.TheVariants.{Memory};
ghost use Rattle.drafts.specs.DraftBlock as spec;
ghost use Rattle.drafts.specs.DraftItem.{drafted_item};
ghost use Rattle.drafts.specs.Drafted.{Makes, MakesAll, AreMade, IsDrafted};

use crate::block_bytes::block_bytes;
use crate::fault::DraftFault;
use crate::item::encode_draft;
use block::{BlockVersion, Header};
use key_book::KeyBook;
use scripts::{Draft, Item, read};
use std::alloc::Global;
use transaction::EncodeFault;
use values::{Bytes, Items, Name};

fn draft_bytes(
    alloc: Global,
    channel: &Name,
    keys: &KeyBook,
    draft: &Draft,
) -> Result<Bytes, DraftFault>
    requires { IsDraft V2 keys.now draft.now }
    ensures bytes { GivesUnless Memory result (spec.draft_bytes keys.now channel.now draft.now) }
    ensures spelled { IfOk result (λ bytes. SpellsItem V2 bytes (drafted_item keys.now channel.now draft.now)) }
{
    match encode_draft(alloc, channel, keys, draft) {
        Ok(bytes) => Ok(bytes),
        Err(EncodeFault::TooLarge) => Err(DraftFault::Line(draft.line())),
        Err(EncodeFault::Memory) => Err(DraftFault::Memory),
    }
}

fn item_bytes(
    alloc: Global,
    channel: &Name,
    keys: &KeyBook,
    item: &Item,
) -> Result<Bytes, DraftFault>
    requires { IsItem V2 keys.now item.now }
    ensures bytes { GivesUnless Memory result (spec.item_bytes keys.now channel.now item.now) }
    ensures makes { IfOk result (λ bytes. Makes V2 keys.now channel.now item.now bytes) }
{
    match item {
        Item::Raw(bytes) => Ok(bytes.copy(alloc)?),
        Item::Drafted(draft) => draft_bytes(alloc, channel, keys, draft),
    }
}

fn items_bytes(
    alloc: Global,
    channel: &Name,
    keys: &KeyBook,
    items: &[Item],
) -> Result<Vec<Bytes>, DraftFault>
    requires { AllByRecursion (IsItem V2 keys.now) items.now }
    ensures makes { IfOk result (λ txs. MakesAll V2 keys.now channel.now items.now txs.items) }
    ensures ok { IfOk result (λ txs. spec.items_bytes keys.now channel.now items.now ≡ Ok txs.items) }
    ensures err { IfErr result (λ fault. (fault ≡ Memory) ⊎ (spec.items_bytes keys.now channel.now items.now ≡ Err fault)) }
{
    let mut txs = Vec::new(alloc);
    for item in items {
        txs.push(item_bytes(alloc, channel, keys, item)?)?;
    }
    Ok(txs)
}

/// What a script for a block of this version puts in its places on a channel, in order. A drafted transaction or update
/// gets its id, and the signatures of its endorsers and its creator by the book's keys; a raw one is taken as it is.
/// [`scripts::read`] describes how a script is read, and [`draft`] makes the block.
///
/// The fault is `Line` with the first faulty line, unless memory runs out before. A transaction that is too long,
/// completely or in a part, is a fault of its `tx` line, and known once it has ended: a faulty line further on comes
/// after it, one within it before it; an update likewise. A block of version 1 has no updates: their lines are faulty
/// there.
///
/// Linear in the text and the block, and for each endorser in the body that it signs, with two look-ups in the book for
/// each signer; the memory is linear in the text and the block.
pub fn draft_txs(
    alloc: Global,
    channel: &Name,
    keys: &KeyBook,
    version: BlockVersion,
    text: &str,
) -> Result<Items<Bytes>, DraftFault>
    // Exactly these, or the first faulty line.
    ensures txs { GivesUnless Memory result (spec.txs_of version keys.now channel.now text.now) }
    // One for each transaction and update of the script, which its bytes encode.
    ensures made { IfOk result (λ txs. AreMade version keys.now channel.now text.now txs) }
    // As many as a block may have, each as long as it may be.
    ensures count { IfOk result (λ txs. length txs ≤ max_txs) }
    ensures each { IfOk result (λ txs. AllByRecursion IsTx txs) }
{
    let script = read(alloc, version, text, keys)?;
    let txs = items_bytes(alloc, channel, keys, script.items.as_slice())?;
    match script.fault {
        Some(line) => Err(DraftFault::Line(line)),
        None => Ok(Items::from_vec(txs)),
    }
}

/// The block of this version that a script drafts on a channel, in bytes: after the header of the block before, or
/// block 0 if there is none. [`draft_txs`] describes its contents, and the fault.
///
/// Costs as much as that, and is linear in the block.
pub fn draft(
    alloc: Global,
    channel: &Name,
    keys: &KeyBook,
    version: BlockVersion,
    previous: Option<Header>,
    text: &str,
) -> Result<Bytes, DraftFault>
    requires { IfSome previous (λ h. h.number + 1 < 2 ^ 64) }
    // Exactly these bytes, or the first faulty line.
    ensures drafted { GivesUnless Memory result (spec.drafted keys.now channel.now version previous text.now) }
    // They encode the block that has the script's transactions and updates and follows the header.
    ensures block { IfOk result (λ bytes. IsDrafted keys.now channel.now version previous text.now bytes) }
{
    let txs = draft_txs(alloc, channel, keys, version, text)?;
    Ok(block_bytes(alloc, version, previous, txs.as_slice())?)
}
