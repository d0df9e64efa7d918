//! The requests of an item's endorsers. Their identities' bytes are lent from where the endorsements are spelled.
ghost use Rattle.std.specs.Prelude.{◌≡◌, ℕ, List, ◌++◌, map, OnOk};
ghost use Rattle.std.specs.List.{flat_map};
ghost use Rattle.transaction.specs.Grammar.{identity_bytes, endorsement_bytes};
ghost use Rattle.transaction.specs.Items.{item_body_bytes};
ghost use Rattle.signature_requests.specs.Requests.{endorser_request, endorsements_of};
ghost use Rattle.signature_requests.specs.Spelling.{BeginsWith};

use crate::message::Message;
use crate::request::Request;
use std::alloc::AllocError;
use transaction::{Endorsement, Item, SpelledItem};

fn endorsements_of<'s, 'a>(item: &'s Item<'a>) -> &'s [Endorsement<'a>]
    ensures { result.now ≡ endorsements_of item.now }
{
    match item {
        Item::Tx(tx) => tx.endorsements.as_slice(),
        Item::Update(update) => update.endorsements.as_slice(),
    }
}

/// The bytes that spell its endorsements one behind the other, without their count.
fn spelled_endorsements<'a>(item: &SpelledItem<'a>) -> &'a [u8]
    ensures { result.now ≡ flat_map endorsement_bytes (endorsements_of item.now) }
{
    let signed = item.creator_message();
    let body = item.body();
    &signed[body.len() + 1..]
}

/// The endorser's identity bytes, with which its endorsement begins, and what stands behind the endorsement.
fn split_endorsement<'a>(bytes: &'a [u8], endorsement: &Endorsement<'_>) -> (&'a [u8], &'a [u8])
    requires { BeginsWith (endorsement_bytes endorsement.now) bytes.now }
    ensures identity { result.0.now ≡ identity_bytes endorsement.now.endorser }
    ensures behind { (rest : List ℕ) → bytes.now ≡ endorsement_bytes endorsement.now ++ rest → result.1.now ≡ rest }
{
    let endorser = &endorsement.endorser;
    let identity_len = 3 + endorser.org.len() + endorser.label.len();
    let (identity, rest) = bytes.split_at(identity_len);
    (identity, &rest[2 + endorsement.signature.len()..])
}

fn endorser_request<'a>(
    body: &'a [u8],
    identity: &'a [u8],
    endorsement: &Endorsement<'a>,
) -> Request<'a>
    requires { identity.now ≡ identity_bytes endorsement.now.endorser }
    ensures { result ≡ endorser_request body.now endorsement.now }
{
    Request {
        identity: endorsement.endorser.reborrow(),
        message: Message::of_parts(body, identity),
        signature: endorsement.signature.reborrow(),
    }
}

/// Adds the requests of endorsers over a body, whose endorsements are spelled one behind the other.
fn push_each<'a>(
    requests: &mut Vec<Request<'a>>,
    body: &'a [u8],
    spelled: &'a [u8],
    endorsements: &[Endorsement<'a>],
) -> Result<(), AllocError>
    requires { spelled.now ≡ flat_map endorsement_bytes endorsements.now }
    ensures { OnOk result (requests.new.items ≡ requests.old.items ++ map (endorser_request body.now) endorsements.now) }
{
    let mut left = spelled;
    for endorsement in endorsements {
        let (identity, behind) = split_endorsement(left, endorsement);
        left = behind;
        requests.push(endorser_request(body, identity, endorsement))?;
    }
    Ok(())
}

/// Adds the requests of the item's endorsers.
pub(crate) fn push_endorsers<'a>(
    requests: &mut Vec<Request<'a>>,
    item: &SpelledItem<'a>,
) -> Result<(), AllocError>
    ensures { OnOk result (requests.new.items ≡ requests.old.items ++ map (endorser_request (item_body_bytes item.now)) (endorsements_of item.now)) }
{
    let endorsements = endorsements_of(item.item());
    push_each(
        requests,
        item.body(),
        spelled_endorsements(item),
        endorsements,
    )?;
    Ok(())
}
