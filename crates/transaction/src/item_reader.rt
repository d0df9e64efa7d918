ghost use Rattle.std.specs.Prelude.{◌≡◌, ℕ, List, Some, None, IfOk, Ok, Err};
ghost use Rattle.values.specs.Memory.{GivesUnless};
ghost use Rattle.transaction.specs.declared.fault.TxFault.TheVariants.{Form, Memory};
ghost use Rattle.transaction.specs.declared.item.Item.{Item};
ghost use Rattle.transaction.specs.Combined.{byte_at};
ghost use Rattle.transaction.specs.Reading.{Gives};
ghost use Rattle.transaction.specs.UpdateReading.{mark_of, update_at, whole_update_at};
ghost use Rattle.transaction.specs.Items.{SpellsItem, item_of};

use crate::block_version::BlockVersion;
use crate::fault::TxFault;
use crate::field::{read_bytes16, read_name};
use crate::item::Item;
use crate::limits::MAX_TX_BYTES;
use crate::opening::{OpeningFields, read_opening};
use crate::reader::{read_bare_tx, read_endorsements};
use crate::spelled_item::SpelledItem;
use crate::update::Update;
use std::alloc::Global;

fn read_mark(bytes: &[u8]) -> Result<((), &[u8]), TxFault>
    ensures { Gives (λ x. (x.0, x.1.now)) result (byte_at mark_of bytes.now) }
{
    match bytes {
        [0, rest @ ..] => Ok(((), rest)),
        _ => Err(TxFault::Form),
    }
}

#[tactic(auto, unfolding(crate::specs::UpdateReading::update_at))]
fn read_update(alloc: Global, bytes: &[u8]) -> Result<(Update<'_>, &[u8]), TxFault>
    ensures { Gives (λ x. (x.0, x.1.now)) result (update_at bytes.now) }
{
    let (_mark, rest) = read_mark(bytes)?;
    let (opening, rest) = read_opening(rest)?;
    let (namespace, rest) = read_name(rest)?;
    let (policy, rest) = read_bytes16(rest)?;
    let (endorsements, rest) = read_endorsements(alloc, rest)?;
    let (signature, rest) = read_bytes16(rest)?;
    let OpeningFields {
        channel,
        id,
        creator,
        nonce,
    } = opening;
    let update = Update {
        channel,
        id,
        creator,
        nonce,
        namespace,
        policy,
        endorsements,
        signature,
    };
    Ok((update, rest))
}

#[tactic(auto, unfolding(crate::specs::UpdateReading::whole_update_at))]
fn read_bare_update(alloc: Global, bytes: &[u8]) -> Result<Update<'_>, TxFault>
    ensures { Gives (λ u. u) result (whole_update_at bytes.now) }
{
    if MAX_TX_BYTES < bytes.len() {
        return Err(TxFault::Form);
    }
    let (update, rest) = read_update(alloc, bytes)?;
    if !rest.is_empty() {
        return Err(TxFault::Form);
    }
    Ok(update)
}

fn read_bare_item(alloc: Global, version: BlockVersion, bytes: &[u8]) -> Result<Item<'_>, TxFault>
    ensures { Gives (λ i. i) result (item_of version bytes.now) }
{
    match (version, bytes) {
        (BlockVersion::V2, [0, ..]) => Ok(Item::Update(read_bare_update(alloc, bytes)?)),
        _ => Ok(Item::Tx(read_bare_tx(alloc, bytes)?)),
    }
}

fn read_whole_item(
    alloc: Global,
    version: BlockVersion,
    bytes: &[u8],
) -> Result<SpelledItem<'_>, TxFault>
    ensures { Gives (λ i. i) result (item_of version bytes.now) }
{
    match read_bare_item(alloc, version, bytes) {
        Ok(item) => Ok(SpelledItem::new(item, bytes)),
        Err(fault) => Err(fault),
    }
}

/// The item that the bytes spell in a block of this version, all of the bytes, which it lends: a transaction, or an
/// update of a definition, which version 2 alone has. One pass; nothing is copied but the id, and no count or length is
/// believed before the bytes are there.
///
/// Memory is for its lists alone: at most 12 bytes for each byte of an item, and at most 23 for each byte of what is
/// refused, beside what the heap adds to each. A list gets its room once, for no more items than the bytes behind its
/// count can spell.
pub fn decode_item(
    alloc: Global,
    version: BlockVersion,
    bytes: &[u8],
) -> Result<SpelledItem<'_>, TxFault>
    // The bytes spell what is answered, no other item has this spelling, and it has no other.
    ensures found { IfOk result (λ item. SpellsItem version bytes.now item) }
    ensures one_item { IfOk result (λ item. (other : Item) → SpellsItem version bytes.now other → other ≡ item) }
    ensures one_spelling { IfOk result (λ item. (other : List ℕ) → SpellsItem version other item → other ≡ bytes.now) }
    // An item that is spelled is answered, and Form only where none is.
    ensures spelled { (item : Item) → SpellsItem version bytes.now item → GivesUnless Memory result (Ok item) }
    ensures form { result ≡ Err Form → (item : Item) → ¬ SpellsItem version bytes.now item }
    // Both once more, in terms of the function that the rules of validation name.
    ensures reading { IfOk result (λ item. item_of version bytes.now ≡ Some item) }
    ensures no_reading { result ≡ Err Form → item_of version bytes.now ≡ None }
{
    read_whole_item(alloc, version, bytes)
}
