//! What the creator and an endorser of an update sign, put together by hand from the grammar.

use crate::fixture::{Peer, named, numbered, read_keys};
use crate::scripted::next_block;
use crate::spoiling::raw_line_of;
use crate::update_rows::ADMIN;
use block::BlockVersion;
use header_hash::tx_id;
use key_book::KeyBook;
use policy_eval::Verify;
use std::alloc::{AllocError, Global};
use test_support::{Failed, check};
use transaction::Identity;
use values::Bytes;
use world::World;

// The bytes of the identity `Org1:admin:a0`.
const SIGNER: &[u8] = b"\x04Org1\0\x02a0";

// Behind the id: creator, nonce, chaincode and policy.
const BEHIND_ID: &[u8] = b"\x04Org1\0\x02a0\x02n2\x02cc\0\x0fOR('Org2.peer')";

const ENDORSEMENTS: &[u8] = b"\x01\x04Org1\0\x02a0\0\x01e";

// The endorsement and the creator's signature.
const REST: &[u8] = b"\x01\x04Org1\0\x02a0\0\x01e\0\x01c";

/// A verifier by which `c` is the creator's signature, over this message alone, and `e` the endorser's.
#[derive(Drop)]
struct Messages {
    creator: Bytes,
    endorser: Bytes,
}

impl Verify for Messages {
    ghost use Rattle.std.specs.Prelude.{◌∷◌, [], ◌&&◌, ◌||◌};
    ghost use Rattle.std.specs.Str.{bytes_eq};

    ghost accepts = { λ m _ message signature. (bytes_eq message m.creator && bytes_eq signature (99 ∷ []))
        || (bytes_eq message m.endorser && bytes_eq signature (101 ∷ [])) };

    fn verify(&self, _identity: &Identity<'_>, message: &[u8], signature: &[u8]) -> bool {
        message == self.creator.as_slice() && signature == b"c".as_slice()
            || message == self.endorser.as_slice() && signature == b"e".as_slice()
    }
}

/// What may be signed.
#[derive(Clone, Copy)]
enum Message {
    Body,
    /// What the endorser is to sign.
    Endorser,
    /// What the creator is to sign.
    Creator,
    Whole,
}

fn behind_body(message: Message) -> &'static [u8] {
    match message {
        Message::Body => b"",
        Message::Endorser => SIGNER,
        Message::Creator => ENDORSEMENTS,
        Message::Whole => REST,
    }
}

fn put_body(bytes: &mut Vec<u8>) -> Result<(), AllocError> {
    bytes.extend_from_slice(b"\0\x02ch")?;
    bytes.extend_from_slice(&tx_id(b"n2", SIGNER))?;
    bytes.extend_from_slice(BEHIND_ID)
}

fn put(bytes: &mut Vec<u8>, message: Message) -> Result<(), AllocError> {
    put_body(bytes)?;
    bytes.extend_from_slice(behind_body(message))
}

fn bytes_of(alloc: Global, message: Message) -> Result<Bytes, AllocError> {
    let mut bytes = Vec::new(alloc);
    put(&mut bytes, message)?;
    Ok(Bytes::from_vec(bytes))
}

fn messages_of(alloc: Global, creator: Message, endorser: Message) -> Result<Messages, AllocError> {
    let creator = bytes_of(alloc, creator)?;
    let endorser = bytes_of(alloc, endorser)?;
    Ok(Messages { creator, endorser })
}

fn drafted(alloc: Global, world: &World, line: &str) -> Result<Bytes, Failed> {
    let keys = read_keys(alloc, "")?;
    next_block(alloc, &keys, BlockVersion::V2, world, line)
}

fn line(alloc: Global) -> Result<String, AllocError> {
    let update = bytes_of(alloc, Message::Whole)?;
    raw_line_of(alloc, update.as_slice())
}

// The block of the update.
fn block(alloc: Global, world: &World) -> Result<Bytes, Failed> {
    let line = line(alloc)?;
    drafted(alloc, world, line.as_str())
}

fn check_taken(
    alloc: Global,
    peer: &mut Peer,
    messages: &Messages,
    flag: u8,
) -> Result<(), Failed> {
    let block = block(alloc, peer.world())?;
    check(peer.is_taken(block.as_slice(), messages, &[flag])?)
}

fn check_flag(alloc: Global, messages: &Messages, flag: u8) -> Result<(), Failed> {
    let mut peer = Peer::with_line(alloc, ADMIN)?;
    check_taken(alloc, &mut peer, messages, flag)
}

// Wants this flag of the update where its signatures are over these messages.
fn check_signed(
    alloc: Global,
    creator: Message,
    endorser: Message,
    flag: u8,
) -> Result<(), Failed> {
    let messages = messages_of(alloc, creator, endorser)?;
    check_flag(alloc, &messages, flag)
}

fn signed() -> &'static [(Message, Message, u8)] {
    &SIGNED
}

static SIGNED: [(Message, Message, u8); 6] = [
    (Message::Creator, Message::Endorser, 0),
    (Message::Body, Message::Endorser, 4),
    (Message::Whole, Message::Endorser, 4),
    (Message::Endorser, Message::Endorser, 4),
    (Message::Creator, Message::Body, 6),
    (Message::Creator, Message::Creator, 6),
];

fn check_length(alloc: Global) -> Result<(), Failed> {
    let body = bytes_of(alloc, Message::Body)?;
    named("100 bytes", check(body.len() == 100))
}

#[test]
fn what_is_signed(rt: HostRuntime) -> Result<(), Failed> {
    check_length(rt.alloc())?;
    for (number, &(creator, endorser, flag)) in signed().iter().enumerate() {
        let checked = check_signed(rt.alloc(), creator, endorser, flag);
        numbered(number as u64, checked)?;
    }
    Ok(())
}
