//! A block is pre-checked in parts, which several threads may do at once, and joined.
ghost use Rattle.std.specs.Prelude.{◌≡◌, ◌<◌, ◌≤◌, ◌/◌, length, map, IfOk, IfSome};
ghost use Rattle.header_hash.specs.Hashes.{data_hash_of};
ghost use Rattle.intake.specs.Place.{taken_of, shown};
ghost use Rattle.pieces.specs.Pieces.{Fits};
ghost use Rattle.rules.specs.Commit.{items_of};
ghost use Rattle.intake_workers.specs.Parts.{part_of, IsTakenPart, all_of_parts};

use crate::part::Part;
use crate::taking::{IntakeRules, TakenIn, hash_of, take_txs};
use gates::Gate;
use intake::Taken;
use linking::DecodedBlock;
use policy_eval::Verify;
use std::alloc::{AllocError, Global};
use values::{Hash, Slice};

/// The results for a part; those of the first one have the block's data hash.
#[derive(Drop)]
pub struct TakenPart<'a> {
    pub hash: Option<Hash>,
    pub items: Vec<Taken<'a>>,
}

/// How many transactions the first of these parts has.
fn len_of_first(txs: usize, parts: usize) -> usize
    requires { 0 < parts }
    ensures len { result ≡ txs / parts }
    ensures fits { result ≤ txs }
{
    txs / parts
}

/// The transactions of a part, and the place of the first one.
fn txs_of<'t, 'a>(txs: &'t [Slice<'a>], part: Part) -> (usize, &'t [Slice<'a>])
    ensures { result.1.now ≡ part_of part.count part.number txs.now }
{
    let mut rest = txs;
    let mut left = part.count;
    for _ in 0..part.number {
        let len = len_of_first(rest.len(), left);
        rest = &rest[len..];
        left -= 1;
    }
    let len = len_of_first(rest.len(), left);
    (txs.len().saturating_sub(rest.len()), &rest[..len])
}

/// The block's hash with its first part, and none with another.
fn hash_with(block: &DecodedBlock<'_>, part: Part) -> Option<Hash>
    ensures { IfSome result (λ hash. hash ≡ data_hash_of block.now.txs) }
{
    if part.number == 0 {
        Some(hash_of(block))
    } else {
        None
    }
}

/// Pre-checks a part of a block, and with the first one hashes the whole block. Linear in the bytes that it hashes and
/// in the part's signatures. The only `Err` is out of memory.
pub fn take_in_part<'a, V: Verify, G: Gate>(
    alloc: Global,
    rules: &IntakeRules<'_, V, G>,
    block: &DecodedBlock<'a>,
    part: Part,
) -> Result<TakenPart<'a>, AllocError>
    ensures { IfOk result (λ taken. IsTakenPart rules.now.channel.now (V.accepts rules.now.verifier.now) block.now part.count part.number taken) }
{
    let hash = hash_with(block, part);
    let (start, txs) = txs_of(block.txs(), part);
    let items = take_txs(alloc, rules, block.version(), start, txs, false)?;
    Ok(TakenPart { hash, items })
}

/// The block's hash, which came with its first part.
fn hash_in(block: &DecodedBlock<'_>, parts: &[TakenPart<'_>]) -> Hash
    requires { Fits (λ number part. IfSome part.hash (λ hash. hash ≡ data_hash_of block.now.txs)) parts.now }
    ensures { result ≡ data_hash_of block.now.txs }
{
    if parts.len() > 0 {
        if let Some(hash) = parts[0].hash {
            return hash;
        }
    }
    hash_of(block)
}

/// The items of parts, one after the other, this many in all.
fn items_of_parts<'a>(
    alloc: Global,
    items: usize,
    parts: Vec<TakenPart<'a>>,
) -> Result<Vec<Taken<'a>>, AllocError>
    ensures { IfOk result (λ all. all.items ≡ all_of_parts parts.entry.items) }
{
    let mut all = Vec::with_capacity(alloc, items)?;
    for part in parts {
        let mut items = part.items;
        all.append(&mut items)?;
    }
    Ok(all)
}

/// Joins the results for all parts of a block, in their order. One pass over its items. The only `Err` is out of
/// memory.
pub fn join_parts<'a, V: Verify, G: Gate>(
    alloc: Global,
    rules: &IntakeRules<'_, V, G>,
    block: DecodedBlock<'a>,
    parts: Vec<TakenPart<'a>>,
) -> Result<TakenIn<'a>, AllocError>
    requires some { 0 < length parts.items }
    requires parts { Fits (IsTakenPart rules.now.channel.now (V.accepts rules.now.verifier.now) block (length parts.items)) parts.items }
    ensures block { IfOk result (λ t. t.block ≡ block.entry) }
    ensures items { IfOk result (λ t. map shown t.items.items ≡ map (taken_of rules.now.channel.now (V.accepts rules.now.verifier.now)) (items_of block.entry)) }
{
    // the rules by which the parts were pre-checked, for the contract
    let _rules = rules;
    let hash = hash_in(&block, parts.as_slice());
    let items = items_of_parts(alloc, block.txs().len(), parts)?;
    Ok(TakenIn {
        block: block.with_data_hash(hash),
        items,
    })
}
