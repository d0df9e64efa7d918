//! The requests of a block.
ghost use Rattle.std.specs.Prelude.{◌≡◌, ◌⊎◌, ◌++◌, map, Some, IfOk, IfErr, OnOk};
ghost use Rattle.block.specs.declared.fault.BlockFault.TheVariants.{Memory};
ghost use Rattle.block.specs.Faults.{HasFault};
ghost use Rattle.transaction.specs.Items.{item_of};
ghost use Rattle.signature_requests.specs.Requests.{creator_request, requests_of, requests_in, AreRequests};

use crate::endorsers::push_endorsers;
use crate::message::Message;
use crate::request::Request;
use block::{BlockFault, decode_block};
use linking::{decoded_item, origin_of};
use std::alloc::{AllocError, Global};
use transaction::{BlockVersion, SpelledItem};
use values::{Items, Slice};

fn creator_request<'a>(item: &SpelledItem<'a>) -> Request<'a>
    ensures { result ≡ creator_request item.now }
{
    let origin = origin_of(item.item());
    Request {
        identity: origin.creator.reborrow(),
        message: Message::whole(item.creator_message()),
        signature: origin.signature.reborrow(),
    }
}

fn push_item<'a>(requests: &mut Vec<Request<'a>>, item: &SpelledItem<'a>) -> Result<(), AllocError>
    ensures { OnOk result (requests.new.items ≡ requests.old.items ++ requests_of (Some item.now)) }
{
    requests.push(creator_request(item))?;
    push_endorsers(requests, item)?;
    Ok(())
}

/// Adds the requests of a place of a block of this version.
fn push_place<'a>(
    alloc: Global,
    requests: &mut Vec<Request<'a>>,
    version: BlockVersion,
    bytes: &'a [u8],
) -> Result<(), AllocError>
    ensures { OnOk result (requests.new.items ≡ requests.old.items ++ requests_of (item_of version bytes.now)) }
{
    let Some(item) = decoded_item(alloc, version, bytes)? else {
        return Ok(());
    };
    push_item(requests, &item)?;
    Ok(())
}

/// The requests of transactions and updates of a block of this version, or of any piece of one, in order: of each that its bytes
/// spell its creator's, and then its endorsers', one for each endorsement.
///
/// Reads each item once, linear in its bytes, and copies no bytes. Memory: the list, and the lists of one item at a time.
pub fn requests_of_txs<'a>(
    alloc: Global,
    version: BlockVersion,
    txs: &[Slice<'a>],
) -> Result<Items<Request<'a>>, AllocError>
    ensures { IfOk result (λ requests. requests ≡ requests_in (map (item_of version) txs.now)) }
{
    let mut requests = Vec::new(alloc);
    for bytes in txs {
        push_place(alloc, &mut requests, version, bytes.as_slice())?;
    }
    Ok(Items::from_vec(requests))
}

/// The requests of the block that the bytes spell, of its items in order, or the first fault of bytes that spell none. A step asks
/// nothing else, whatever its channel and its world; it may ask less.
///
/// Costs what [`decode_block`] does and what [`requests_of_txs`] does for its transactions.
pub fn requests(alloc: Global, bytes: &[u8]) -> Result<Items<Request<'_>>, BlockFault>
    ensures listed { IfOk result (AreRequests bytes.now) }
    ensures fault { IfErr result (λ fault. (fault ≡ Memory) ⊎ HasFault bytes.now fault) }
{
    let block = decode_block(alloc, bytes)?;
    let listed = requests_of_txs(alloc, block.version, block.txs.as_slice())?;
    Ok(listed)
}
