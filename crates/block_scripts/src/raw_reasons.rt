//! Comments that state why no lines state a transaction which can be read.
use crate::item_lines::ends_a_line;
use crate::signing::Signing;
use cli_lines::{LineFault, write_identity};
use header_hash::tx_id;
use key_book::KeyBook;
use policy_eval::Verify;
use std::alloc::Global;
use std::io;
use std::io::Write;
use text_lines::Word;
use transaction::{
    EncodeFault, Endorsement, Identity, Item, NsSet, SpelledItem, TxId, append_identity,
};
use values::{Name, NameRef, Slice};

// What a transaction and an update have in common: all fields but what they change.
#[derive(Clone, Copy)]
struct Envelope<'i, 'a> {
    channel: &'i NameRef<'a>,
    id: &'i TxId,
    creator: &'i Identity<'a>,
    nonce: &'i Slice<'a>,
    endorsements: &'i [Endorsement<'a>],
    signature: &'i Slice<'a>,
}

fn envelope_of<'i, 'a>(item: &'i Item<'a>) -> Envelope<'i, 'a> {
    match item {
        Item::Tx(tx) => Envelope {
            channel: &tx.channel,
            id: &tx.id,
            creator: &tx.creator,
            nonce: &tx.nonce,
            endorsements: tx.endorsements.as_slice(),
            signature: &tx.signature,
        },
        Item::Update(update) => Envelope {
            channel: &update.channel,
            id: &update.id,
            creator: &update.creator,
            nonce: &update.nonce,
            endorsements: update.endorsements.as_slice(),
            signature: &update.signature,
        },
    }
}

fn write_signer_reason<W: Write>(
    out: &mut W,
    keys: &KeyBook,
    who: &str,
    signer: &Identity<'_>,
    message: &[u8],
    signature: &[u8],
) -> io::Result<()> {
    if keys.verify(signer, message, signature) {
        return Ok(());
    }
    write!(out, "# raw, for the {who} ")?;
    write_identity(out, signer)?;
    if keys.contains(signer) {
        writeln!(out, " has another signature than by the key book")
    } else {
        writeln!(out, " isn't in the key book")
    }
}

// The message has the body, and meanwhile the endorser's bytes after it.
fn write_endorser_reason<W: Write>(
    out: &mut W,
    keys: &KeyBook,
    message: &mut Vec<u8>,
    endorsement: &Endorsement<'_>,
) -> Result<(), LineFault> {
    let len = message.len();
    let signer = &endorsement.endorser;
    match append_identity(message, signer) {
        Ok(()) => {}
        Err(EncodeFault::Memory) => return Err(LineFault::Memory),
        // What was read has an encoding.
        Err(EncodeFault::TooLarge) => return Ok(()),
    }
    let signature = endorsement.signature.as_slice();
    write_signer_reason(out, keys, "endorser", signer, message.as_slice(), signature)?;
    message.truncate(len);
    Ok(())
}

fn write_endorser_reasons<W: Write>(
    alloc: Global,
    out: &mut W,
    keys: &KeyBook,
    body: &[u8],
    endorsements: &[Endorsement<'_>],
) -> Result<(), LineFault> {
    let mut message = Vec::from_slice(alloc, body)?;
    for endorsement in endorsements {
        write_endorser_reason(out, keys, &mut message, endorsement)?;
    }
    Ok(())
}

fn write_text_reason<W: Write>(out: &mut W, text: &Slice<'_>) -> io::Result<()> {
    if ends_a_line(text.as_slice()) {
        return Ok(());
    }
    let word = Word(text.as_slice());
    writeln!(out, "# raw, for no line ends with the policy's text {word}")
}

fn write_namespace_reasons<W: Write>(out: &mut W, namespace: &NsSet<'_>) -> io::Result<()> {
    for write in namespace.policy_writes.as_slice() {
        if let Some(text) = &write.policy {
            write_text_reason(out, text)?;
        }
    }
    Ok(())
}

fn write_text_reasons<W: Write>(out: &mut W, item: &Item<'_>) -> io::Result<()> {
    match item {
        Item::Tx(tx) => {
            for namespace in tx.namespaces.as_slice() {
                write_namespace_reasons(out, namespace)?;
            }
            Ok(())
        }
        Item::Update(update) => write_text_reason(out, &update.policy),
    }
}

fn write_opening_reasons<W: Write>(
    out: &mut W,
    channel: &Name,
    envelope: &Envelope<'_, '_>,
    creator: &[u8],
) -> io::Result<()> {
    if envelope.channel.as_slice() != channel.as_slice() {
        let other = Word(envelope.channel.as_slice());
        writeln!(out, "# raw, for it is of channel {other}")?;
    }
    let id = tx_id(envelope.nonce.as_slice(), creator);
    if id.as_slice() != envelope.id.as_slice() {
        let id = Word(&id);
        writeln!(out, "# raw, for its nonce and creator give the id {id}")?;
    }
    Ok(())
}

/// Writes what keeps lines from stating it: another channel, another id than its own, signatures that the book doesn't
/// give, and texts with which no line ends.
pub(crate) fn write_raw_reasons<W: Write>(
    alloc: Global,
    out: &mut W,
    signing: &Signing<'_>,
    spelled: &SpelledItem<'_>,
) -> Result<(), LineFault> {
    let Signing { channel, keys } = *signing;
    let item = spelled.item();
    let envelope = envelope_of(item);
    write_opening_reasons(out, channel, &envelope, spelled.creator_bytes())?;
    write_text_reasons(out, item)?;
    write_endorser_reasons(alloc, out, keys, spelled.body(), envelope.endorsements)?;
    let (message, signature) = (spelled.creator_message(), envelope.signature.as_slice());
    write_signer_reason(out, keys, "creator", envelope.creator, message, signature)?;
    Ok(())
}
