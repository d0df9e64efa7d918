//! Chains at random by two ledgers: one takes the bytes of each block, the other takes blocks that were all prepared
//! before the first one was submitted, in the opposite order, some of them twice.

use crate::alike::{is_same_block, is_same_entry, is_same_row};
use crate::fixture::{Peer, ledger_with, lent_key, lent_name, numbered};
use crate::forgers::{Books, read_books};
use crate::random_chains::{all_ids, block_at_random};
use crate::random_scripts::{NONCES, keys, namespaces};
use ahead::{NotPrepared, PreparedBlock, prepare_for, submit_prepared};
use chain_vectors::CHANNEL;
use ledger::Ledger;
use rules::{Accepted, Refused};
use std::alloc::{AllocError, Global};
use std::ops::Range;
use test_support::{Failed, Random, check};
use transaction::TxId;
use world::World;

type Answer = Result<Accepted, Refused>;

/// The blocks of a chain, and what the first ledger answered to each.
#[derive(Drop)]
struct Drawn {
    peer: Peer,
    blocks: Vec<Vec<u8>>,
    answers: Vec<Answer>,
}

fn draw_next(
    alloc: Global,
    random: &mut Random,
    books: &Books,
    drawn: &mut Drawn,
    nonces: &mut Vec<u8>,
) -> Result<(), Failed> {
    let bytes = block_at_random(alloc, random, &books.signing, drawn.peer.world(), nonces)?;
    drawn
        .answers
        .push(drawn.peer.submit(&bytes, &books.verifying))?;
    drawn.blocks.push(bytes)?;
    Ok(())
}

// 1 to 5 blocks.
fn drawn(alloc: Global, random: &mut Random, books: &Books) -> Result<Drawn, Failed> {
    let mut drawn = Drawn {
        peer: Peer::open(alloc)?,
        blocks: Vec::new(alloc),
        answers: Vec::new(alloc),
    };
    let mut nonces = Vec::from_slice(alloc, &[NONCES])?;
    for _ in 0..=random.below(5) {
        draw_next(alloc, random, books, &mut drawn, &mut nonces)?;
    }
    Ok(drawn)
}

type MadeBlock<'b> = Result<PreparedBlock<'b>, NotPrepared>;

fn made<'b>(alloc: Global, bytes: &'b [u8], books: &Books) -> MadeBlock<'b> {
    prepare_for(alloc, CHANNEL, bytes, &books.verifying)
}

// All blocks, the last one first. One in four is prepared twice, and the first of both is dropped.
fn all_made<'b>(
    alloc: Global,
    random: &mut Random,
    blocks: &'b [Vec<u8>],
    books: &Books,
) -> Result<Vec<MadeBlock<'b>>, AllocError> {
    let mut all = Vec::with_capacity(alloc, blocks.len())?;
    for bytes in blocks.iter().rev() {
        if random.one_of(4) {
            drop(made(alloc, bytes, books));
        }
        all.push(made(alloc, bytes, books))?;
    }
    Ok(all)
}

fn answer_to(ledger: &mut Ledger, made: MadeBlock<'_>) -> Option<Answer> {
    match made {
        Ok(prepared) => submit_prepared(ledger, CHANNEL.as_bytes(), prepared),
        Err(NotPrepared::Block(refused)) => Some(Err(refused)),
        Err(NotPrepared::Channel(_)) => None,
    }
}

fn is_same_answer(one: &Answer, other: &Answer) -> bool {
    match (one, other) {
        (Ok(one), Ok(other)) => {
            one.number == other.number
                && one.header_hash == other.header_hash
                && one.commit_hash == other.commit_hash
                && one.flags.as_slice() == other.flags.as_slice()
        }
        (Err(one), Err(other)) => one == other,
        _ => false,
    }
}

fn check_answers(
    ledger: &mut Ledger,
    mut all: Vec<MadeBlock<'_>>,
    answers: &[Answer],
) -> Result<(), Failed> {
    for wanted in answers {
        let Some(made) = all.pop() else {
            return Err(Failed::Missing("a block"));
        };
        match answer_to(ledger, made) {
            Some(answer) => check(is_same_answer(&answer, wanted))?,
            None => return Err(Failed::Missing("an answer")),
        }
    }
    check(all.is_empty())
}

fn is_same_history(one: &World, other: &World, namespace: &str, at: &[u8]) -> Result<bool, Failed> {
    let (namespace, at) = (lent_name(namespace.as_bytes())?, lent_key(at)?);
    let mut left = other.history(&namespace, &at);
    for entry in one.history(&namespace, &at) {
        match left.next() {
            Some(wanted) if is_same_entry(&entry.entry()?, &wanted.entry()?) => {}
            _ => return Ok(false),
        }
    }
    Ok(left.next().is_none())
}

fn check_row(
    alloc: Global,
    one: &World,
    other: &World,
    namespace: &str,
    at: &[u8],
) -> Result<(), Failed> {
    let (name, key) = (lent_name(namespace.as_bytes())?, lent_key(at)?);
    check(is_same_row(alloc, one.row(&name, &key), other.row(&name, &key))?)?;
    check(is_same_history(one, other, namespace, at)?)
}

fn check_rows(alloc: Global, one: &World, other: &World) -> Result<(), Failed> {
    for namespace in namespaces() {
        for at in keys() {
            check_row(alloc, one, other, namespace, at)?;
        }
    }
    Ok(())
}

fn check_blocks(one: &World, other: &World) -> Result<(), Failed> {
    check(one.height() == other.height() && one.commit_hash() == other.commit_hash())?;
    for number in 0..=one.height() {
        check(is_same_block(one.block(number), other.block(number)))?;
    }
    Ok(())
}

fn check_worlds(alloc: Global, one: &World, other: &World, ids: &[TxId]) -> Result<(), Failed> {
    check_blocks(one, other)?;
    check_rows(alloc, one, other)?;
    for id in ids {
        check(one.flag_of(id) == other.flag_of(id))?;
    }
    Ok(())
}

fn check_prepared(
    alloc: Global,
    random: &mut Random,
    drawn: &Drawn,
    books: &Books,
    ids: &[TxId],
) -> Result<(), Failed> {
    let all = all_made(alloc, random, &drawn.blocks, books)?;
    let mut ledger = ledger_with(alloc, "")?;
    check_answers(&mut ledger, all, &drawn.answers)?;
    check_worlds(alloc, ledger.view(), drawn.peer.world(), ids)
}

fn check_seed(alloc: Global, seed: u64, books: &Books, ids: &[TxId]) -> Result<(), Failed> {
    let mut random = Random::new(seed);
    let drawn = drawn(alloc, &mut random, books)?;
    check_prepared(alloc, &mut random, &drawn, books, ids)
}

fn check_seeds(alloc: Global, seeds: Range<u64>) -> Result<(), Failed> {
    let books = read_books(alloc)?;
    let ids = all_ids(alloc)?;
    for seed in seeds {
        numbered(seed, check_seed(alloc, seed, &books, &ids))?;
    }
    Ok(())
}

#[test]
fn prepared_blocks_are_taken_as_their_bytes_are(rt: HostRuntime) -> Result<(), Failed> {
    check_seeds(rt.alloc(), 5001..6001)
}
