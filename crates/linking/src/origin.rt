//! Where an item comes from.
ghost use Rattle.std.specs.Prelude.{◌≡◌, IfOk};
ghost use Rattle.transaction.specs.Items.{item_of};
ghost use Rattle.rules.specs.Candidate as candidate;
ghost use Rattle.rules.specs.Candidate.{origin_of};

use channel::Configuration;
use header_hash::tx_id;
use policy_eval::Verify;
use rules::EarlyFlag;
use std::alloc::{AllocError, Global};
use transaction::{BlockVersion, Identity, Item, SpelledItem, TxFault, TxId, decode_item};
use values::{NameRef, Slice};

/// The item that the bytes spell in a block of this version, or none.
pub fn decoded_item(
    alloc: Global,
    version: BlockVersion,
    bytes: &[u8],
) -> Result<Option<SpelledItem<'_>>, AllocError>
    ensures { IfOk result (λ item. item ≡ item_of version bytes.now) }
{
    match decode_item(alloc, version, bytes) {
        Ok(item) => Ok(Some(item)),
        Err(TxFault::Form) => Ok(None),
        Err(TxFault::Memory) => Err(AllocError),
    }
}

/// What an item says of where it comes from, the creator's message aside.
#[derive(Clone, Copy)]
pub struct Origin<'s, 'a> {
    pub channel: &'s NameRef<'a>,
    pub id: &'s TxId,
    pub creator: &'s Identity<'a>,
    pub nonce: &'s Slice<'a>,
    pub signature: &'s Slice<'a>,
}

/// What an item says of where it comes from, lent of it.
pub fn origin_of<'s, 'a>(item: &'s Item<'a>) -> Origin<'s, 'a>
    ensures channel { result.channel.now ≡ (origin_of item.now).channel }
    ensures id { result.id.now ≡ (origin_of item.now).id }
    ensures creator { result.creator.now ≡ (origin_of item.now).creator }
    ensures nonce { result.nonce.now ≡ (origin_of item.now).nonce }
    ensures signature { result.signature.now ≡ (origin_of item.now).signature }
{
    match item {
        Item::Tx(tx) => Origin {
            channel: &tx.channel,
            id: &tx.id,
            creator: &tx.creator,
            nonce: &tx.nonce,
            signature: &tx.signature,
        },
        Item::Update(update) => Origin {
            channel: &update.channel,
            id: &update.id,
            creator: &update.creator,
            nonce: &update.nonce,
            signature: &update.signature,
        },
    }
}

/// The first fault in where it comes from: its channel, its creator's signature over all bytes before it, its id. The verifier is
/// called where the channel is this one, the id is hashed where it accepts.
pub fn origin_fault<V: Verify>(
    channel: &Configuration,
    verifier: &V,
    item: &SpelledItem<'_>,
) -> Option<EarlyFlag>
    ensures { result ≡ candidate.origin_fault channel.now (V.accepts verifier.now) item.now }
{
    let origin = origin_of(item.item());
    if !origin.channel.is_same(&channel.name().lend()) {
        return Some(EarlyFlag::TargetChainNotFound);
    }
    let message = item.creator_message();
    if !verifier.verify(origin.creator, message, origin.signature.as_slice()) {
        return Some(EarlyFlag::BadCreatorSignature);
    }
    if *origin.id != tx_id(origin.nonce.as_slice(), item.creator_bytes()) {
        return Some(EarlyFlag::BadProposalTxId);
    }
    None
}
