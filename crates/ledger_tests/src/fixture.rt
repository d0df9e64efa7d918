//! A peer that takes blocks, and what tests make and look up.

use chain_vectors::CHANNEL;
use channel::{Channel, ChannelFault};
use key_book::{KeyBook, KeyBookFault};
use ledger::Ledger;
use policy::Definitions;
use policy_eval::Verify;
use reasons::Reason;
use rules::{Accepted, Flag, Refused, Row};
use std::alloc::{AllocError, Global};
use test_support::{Failed, Text};
use values::{Items, Key, KeyRef, Name, NameRef, is_key, is_name};
use world::World;

/// The bytes of the identity `Org1:client:c0`.
pub const CREATOR: &[u8] = b"\x04Org1\x01\x02c0";

/// The name, owned. The error is `Missing` where the bytes are none.
pub fn name(alloc: Global, bytes: &[u8]) -> Result<Name, Failed> {
    if !is_name(bytes) {
        return Err(Failed::Missing("a name"));
    }
    Ok(Name::from_slice(alloc, bytes)?)
}

/// The key, owned. The error is `Missing` where the bytes are none.
pub fn key(alloc: Global, bytes: &[u8]) -> Result<Key, Failed> {
    if !is_key(bytes) {
        return Err(Failed::Missing("a key"));
    }
    Ok(Key::from_slice(alloc, bytes)?)
}

/// The name. The error is `Missing` where the bytes are none.
pub fn lent_name(bytes: &[u8]) -> Result<NameRef<'_>, Failed> {
    if !is_name(bytes) {
        return Err(Failed::Missing("a name"));
    }
    Ok(NameRef::new(bytes))
}

/// The key. The error is `Missing` where the bytes are none.
pub fn lent_key(bytes: &[u8]) -> Result<KeyRef<'_>, Failed> {
    if !is_key(bytes) {
        return Err(Failed::Missing("a key"));
    }
    Ok(KeyRef::new(bytes))
}

/// The row at a key, if there is one.
pub fn row_at<'a>(
    world: &'a World,
    namespace: &[u8],
    at: &[u8],
) -> Result<Option<&'a Row>, Failed> {
    let namespace = lent_name(namespace)?;
    let at = lent_key(at)?;
    Ok(world.row(&namespace, &at))
}

/// The text of the row's own policy, which is empty where it has none.
pub fn policy_text(alloc: Global, row: &Row) -> Result<String, AllocError> {
    match &row.policy {
        None => Ok(String::new(alloc)),
        Some(policy) => policy.get().text(alloc),
    }
}

/// Whether the flags have these numbers.
pub fn are_numbered(flags: &[Flag], numbers: &[u8]) -> bool {
    flags.len() == numbers.len()
        && flags
            .iter()
            .zip(numbers)
            .all(|(flag, number)| flag.number() == *number)
}

/// Whether the reasons are of flags with these numbers.
pub fn have_flags(reasons: &[Reason], numbers: &[u8]) -> bool {
    for (reason, number) in reasons.iter().zip(numbers) {
        if reason.flag().number() != *number {
            return false;
        }
    }
    reasons.len() == numbers.len()
}

/// The text of a chaincode's policy, which is empty where it has none.
pub fn definition_text(
    alloc: Global,
    definitions: &Definitions,
    chaincode: &[u8],
) -> Result<String, Failed> {
    match definitions.of(&lent_name(chaincode)?) {
        None => Ok(String::new(alloc)),
        Some(policy) => Ok(policy.text(alloc)?),
    }
}

/// The channel of all chains with this line more.
pub fn channel_with(alloc: Global, line: &str) -> Result<Channel, Failed> {
    let text = format!(in alloc; "{CHANNEL}{line}")?;
    Ok(read_channel(alloc, text.as_str())?)
}

fn read_channel(alloc: Global, text: &str) -> Result<Channel, ChannelFault> {
    Channel::read(alloc, text)
}

/// The book of these lines.
pub fn read_keys(alloc: Global, lines: &str) -> Result<KeyBook, KeyBookFault> {
    KeyBook::read(alloc, lines)
}

/// The ledger of this channel.
fn ledger_of(alloc: Global, channel: Channel) -> Ledger {
    Ledger::open(alloc, channel)
}

/// The ledger of the channel that has this line more.
pub fn ledger_with(alloc: Global, line: &str) -> Result<Ledger, Failed> {
    let channel = channel_with(alloc, line)?;
    Ok(ledger_of(alloc, channel))
}

/// The ledger of a channel without chaincodes.
pub fn bare_ledger(alloc: Global) -> Result<Ledger, Failed> {
    let channel = read_channel(alloc, "channel ch")?;
    Ok(ledger_of(alloc, channel))
}

/// Hands in the bytes of the next block.
pub fn submitted<V: Verify>(
    ledger: &mut Ledger,
    bytes: &[u8],
    verifier: &V,
) -> Result<Accepted, Refused> {
    ledger.submit_one(bytes, verifier)
}

/// The reasons of the next block.
pub fn explained<V: Verify>(
    ledger: &Ledger,
    bytes: &[u8],
    verifier: &V,
) -> Result<Items<Reason>, Refused> {
    ledger.explain(bytes, verifier)
}

/// Takes the next block, and tells whether its flags have these numbers.
pub fn is_taken_by<V: Verify>(
    ledger: &mut Ledger,
    bytes: &[u8],
    verifier: &V,
    flags: &[u8],
) -> Result<bool, Refused> {
    let accepted = submitted(ledger, bytes, verifier)?;
    Ok(are_numbered(accepted.flags.as_slice(), flags))
}

/// Says what it is that isn't as wanted.
pub fn named(name: &'static str, checked: Result<(), Failed>) -> Result<(), Failed> {
    match checked {
        Err(Failed::Unlike) => Err(Failed::Missing(name)),
        other => other,
    }
}

/// Says the number of what isn't as wanted.
pub fn numbered(number: u64, checked: Result<(), Failed>) -> Result<(), Failed> {
    match checked {
        Err(Failed::Unlike) => Err(Failed::Fault(Text::of(&number))),
        other => other,
    }
}

/// A ledger of that channel.
#[derive(Drop)]
pub struct Peer {
    ledger: Ledger,
}

impl Peer {
    /// Of the channel of all chains.
    pub fn open(alloc: Global) -> Result<Peer, Failed> {
        Peer::with_line(alloc, "")
    }

    /// Of the channel that has this line more.
    pub fn with_line(alloc: Global, line: &str) -> Result<Peer, Failed> {
        let ledger = ledger_with(alloc, line)?;
        Ok(Peer { ledger })
    }

    /// What the ledger holds.
    pub fn world(&self) -> &World {
        self.ledger.view()
    }

    /// Hands in the bytes of the next block.
    pub fn submit<V: Verify>(&mut self, bytes: &[u8], verifier: &V) -> Result<Accepted, Refused> {
        submitted(&mut self.ledger, bytes, verifier)
    }

    /// Why the bytes aren't taken, if they aren't.
    pub fn refusal_of<V: Verify>(&mut self, bytes: &[u8], verifier: &V) -> Option<Refused> {
        submitted(&mut self.ledger, bytes, verifier).err()
    }

    /// Takes the next block, and tells whether its flags have these numbers.
    pub fn is_taken<V: Verify>(
        &mut self,
        bytes: &[u8],
        verifier: &V,
        flags: &[u8],
    ) -> Result<bool, Refused> {
        is_taken_by(&mut self.ledger, bytes, verifier, flags)
    }
}
