//! The bytes of a drafted transaction or update.
ghost use Rattle.std.specs.Prelude.{◌≡◌, ◌<◌, ◌^◌, [], length, IsTrue, IfOk, OnOk};
ghost use Rattle.values.specs.Name.{is_name};
ghost use Rattle.transaction.specs.Grammar.{AreEndorsements};
ghost use Rattle.transaction.specs.Items.{SpellsItem, item_body_bytes};
ghost use Rattle.transaction.specs.declared.block_version.BlockVersion.TheVariants.{V2};
ghost use Rattle.scripts.specs.Within.{IsWithin};
ghost use Rattle.drafts.specs.DraftItem as spec;
ghost use Rattle.drafts.specs.Encoding.{Encodes};

use crate::item_encoding::{encode_item, encode_item_body, encode_item_signed};
use crate::signing::{Signed, endorse_all, identity_bytes, lend_all, sign};
use header_hash::tx_id;
use key_book::KeyBook;
use scripts::{Content, Draft, OwnedNsSet};
use std::alloc::{AllocError, Global};
use transaction::{EncodeFault, Endorsement, Item, NsSet, Tx, Update};
use values::{Bytes, Items, Name, NameRef, Slice};

fn lend_namespaces<'a>(
    alloc: Global,
    namespaces: &'a [OwnedNsSet],
) -> Result<Items<NsSet<'a>>, AllocError>
    ensures { IfOk result (λ lent. lent ≡ namespaces.now) }
{
    let mut lent = Items::new(alloc);
    for namespace in namespaces {
        lent.push(namespace.lend(alloc)?)?;
    }
    Ok(lent)
}

// The draft's transaction or update with these signatures.
fn item_with<'a>(
    alloc: Global,
    channel: &'a Name,
    draft: &'a Draft,
    endorsements: Items<Endorsement<'a>>,
    signature: Slice<'a>,
) -> Result<Item<'a>, AllocError>
    requires { IsWithin draft.now }
    ensures value { IfOk result (λ item. item ≡ spec.with_signatures channel.now draft.now endorsements.entry signature.entry) }
    ensures named { OnOk result (IsTrue (is_name channel.now)) }
{
    let creator = identity_bytes(alloc, &draft.creator())?;
    let id = tx_id(draft.nonce().as_slice(), creator.as_slice());
    match draft.content() {
        Content::Tx(namespaces) => Ok(Item::Tx(Tx {
            channel: NameRef::new(channel.as_slice()),
            id,
            creator: draft.creator(),
            nonce: draft.nonce().lend(),
            chaincode: draft.chaincode(),
            namespaces: lend_namespaces(alloc, namespaces.as_slice())?,
            endorsements,
            signature,
        })),
        Content::Update(policy) => Ok(Item::Update(Update {
            channel: NameRef::new(channel.as_slice()),
            id,
            creator: draft.creator(),
            nonce: draft.nonce().lend(),
            namespace: draft.chaincode(),
            policy: policy.lend(),
            endorsements,
            signature,
        })),
    }
}

fn body_of(alloc: Global, channel: &Name, draft: &Draft) -> Result<Bytes, EncodeFault>
    requires { IsWithin draft.now }
    ensures { Encodes result (item_body_bytes (spec.unsigned channel.now draft.now)) }
{
    let item = item_with(alloc, channel, draft, Items::new(alloc), Slice::new(&[]))?;
    encode_item_body(alloc, &item)
}

// What the creator signs.
fn message_of(
    alloc: Global,
    channel: &Name,
    draft: &Draft,
    endorsements: &[Signed<'_>],
) -> Result<Bytes, EncodeFault>
    requires draft { IsWithin draft.now }
    requires endorsements { AreEndorsements endorsements.now }
    ensures { Encodes result (spec.item_signed_bytes (spec.with_signatures channel.now draft.now endorsements.now [])) }
{
    let endorsements = lend_all(alloc, endorsements)?;
    let item = item_with(alloc, channel, draft, endorsements, Slice::new(&[]))?;
    encode_item_signed(alloc, &item)
}

fn whole_of(
    alloc: Global,
    channel: &Name,
    draft: &Draft,
    endorsements: &[Signed<'_>],
    signature: &Bytes,
) -> Result<Bytes, EncodeFault>
    requires draft { IsWithin draft.now }
    requires endorsements { AreEndorsements endorsements.now }
    requires signature { length signature.now < 2 ^ 16 }
    ensures encodes { Encodes result (spec.item_whole_bytes (spec.with_signatures channel.now draft.now endorsements.now signature.now)) }
    ensures spelled { IfOk result (λ bytes. SpellsItem V2 bytes (spec.with_signatures channel.now draft.now endorsements.now signature.now)) }
{
    let endorsements = lend_all(alloc, endorsements)?;
    let item = item_with(alloc, channel, draft, endorsements, signature.lend())?;
    encode_item(alloc, &item)
}

// The bytes of what a draft makes. The body is encoded for its endorsers, for its creator and as it is.
pub(crate) fn encode_draft(
    alloc: Global,
    channel: &Name,
    keys: &KeyBook,
    draft: &Draft,
) -> Result<Bytes, EncodeFault>
    requires { IsWithin draft.now }
    ensures encodes { Encodes result (spec.item_whole_bytes (spec.drafted_item keys.now channel.now draft.now)) }
    ensures spelled { IfOk result (λ bytes. SpellsItem V2 bytes (spec.drafted_item keys.now channel.now draft.now)) }
{
    let body = body_of(alloc, channel, draft)?;
    let endorsements = endorse_all(alloc, keys, body.into_vec(), draft.endorsers())?;
    let message = message_of(alloc, channel, draft, endorsements.as_slice())?;
    let signature = sign(alloc, keys, &draft.creator(), message.as_slice())?;
    whole_of(alloc, channel, draft, endorsements.as_slice(), &signature)
}
