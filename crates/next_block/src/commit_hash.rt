//! The commit hash of the next block.
ghost use Rattle.std.specs.Prelude.{◌≡◌, ◌++◌, ◌∷◌, [], length, string_bytes, slice_get, IfOk, OnOk};
ghost use Rattle.std.specs.List.{flat_map};
ghost use Rattle.byteorder.specs.Endian.{big_bytes};
ghost use Rattle.transaction.specs.Grammar.{listed, optional};
ghost use Rattle.rules.specs.CommitBytes.{commit_hash_before, definition_bytes, version_number};
ghost use Rattle.rules.specs.Delta.{definitions_in};
ghost use Rattle.rules.specs.Flags.{number_of};
ghost use Rattle.next_block.specs.PendingDelta.{hash_by_parts};

use header_hash::commit_hash;
use rules::{Flag, NewDefinition};
use std::alloc::{AllocError, Global};
use transaction::{BlockVersion, put_counted8, put_counted16, put_length32, put_u64};
use values::Hash;

// Version, number, and the count of flags.
const LEAST_BYTES: usize = 13;

/// What a commit hash is made of, but for the one before it.
#[derive(Clone, Copy)]
pub(crate) struct CommitParts<'a> {
    pub version: BlockVersion,
    pub number: u64,
    pub flags: &'a [Flag],
    /// The rows that the block makes differ, spelled.
    pub update: &'a [u8],
    /// The first one counts: a block has one at most.
    pub definitions: &'a [NewDefinition],
}

fn version_number(version: BlockVersion) -> u8
    ensures { result ≡ version_number version }
{
    match version {
        BlockVersion::V1 => 1,
        BlockVersion::V2 => 2,
    }
}

fn put_numbers(out: &mut Vec<u8>, flags: &[Flag]) -> Result<(), AllocError>
    ensures { OnOk result (out.new.items ≡ out.old.items ++ flat_map (λ f. number_of f ∷ []) flags.now) }
{
    for flag in flags {
        out.push(flag.number())?;
    }
    Ok(())
}

fn put_flags(out: &mut Vec<u8>, flags: &[Flag]) -> Result<(), AllocError>
    ensures { OnOk result (out.new.items ≡ out.old.items ++ listed 4 (λ f. number_of f ∷ []) flags.now) }
{
    put_length32(out, flags.len())?;
    put_numbers(out, flags)
}

fn put_definition(
    alloc: Global,
    out: &mut Vec<u8>,
    definition: &NewDefinition,
) -> Result<(), AllocError>
    ensures { OnOk result (out.new.items ≡ out.old.items ++ definition_bytes (definition.now.chaincode, definition.now.policy)) }
{
    let text = definition.policy.get().text(alloc)?;
    put_counted8(out, definition.chaincode.as_slice())?;
    put_counted16(out, text.as_bytes())
}

/// The first of these definitions, if there is one: a block has one at most.
fn put_definitions(
    alloc: Global,
    out: &mut Vec<u8>,
    definitions: &[NewDefinition],
) -> Result<(), AllocError>
    ensures { OnOk result (out.new.items ≡ out.old.items ++ optional definition_bytes (slice_get (definitions_in definitions.now) 0)) }
{
    match definitions.first() {
        None => {
            out.push(0)?;
            Ok(())
        }
        Some(definition) => {
            out.push(1)?;
            put_definition(alloc, out, definition)
        }
    }
}

fn put_place(out: &mut Vec<u8>, version: BlockVersion, number: u64) -> Result<(), AllocError>
    ensures { OnOk result (out.new.items ≡ out.old.items ++ version_number version ∷ big_bytes 8 number) }
{
    out.push(version_number(version))?;
    put_u64(out, number)
}

/// What comes before the update.
fn head_bytes(alloc: Global, parts: &CommitParts<'_>) -> Result<Vec<u8>, AllocError>
    ensures { IfOk result (λ bytes. bytes.items ≡ version_number parts.now.version ∷ (big_bytes 8 parts.now.number ++ listed 4 (λ f. number_of f ∷ []) parts.now.flags.now)) }
{
    let mut out = Vec::with_capacity(alloc, parts.flags.len().saturating_add(LEAST_BYTES))?;
    put_place(&mut out, parts.version, parts.number)?;
    put_flags(&mut out, parts.flags)?;
    Ok(out)
}

/// What comes after the update.
fn tail_bytes(alloc: Global, parts: &CommitParts<'_>) -> Result<Vec<u8>, AllocError>
    ensures { IfOk result (λ bytes. bytes.items ≡ optional definition_bytes (slice_get (definitions_in parts.now.definitions.now) 0)) }
{
    let mut out = Vec::new(alloc);
    put_definitions(alloc, &mut out, parts.definitions)?;
    Ok(out)
}

/// What stands for the commit hash before a block.
fn before(last: Option<Hash>) -> Hash
    ensures { result ≡ commit_hash_before last }
{
    match last {
        None => [0; 32],
        Some(hash) => hash,
    }
}

/// The commit hash of a block of these parts, after one with the last commit hash or as the first block: SHA-256 of that
/// hash, or of 32 zeros, and the parts, encoded. Takes memory for those but the update, which isn't copied.
pub(crate) fn next_commit_hash(
    alloc: Global,
    last: Option<Hash>,
    parts: &CommitParts<'_>,
) -> Result<Hash, AllocError>
    ensures { IfOk result (λ hash. hash ≡ hash_by_parts last parts.now.version parts.now.number parts.now.flags.now parts.now.update.now (definitions_in parts.now.definitions.now)) }
{
    let head = head_bytes(alloc, parts)?;
    let tail = tail_bytes(alloc, parts)?;
    Ok(commit_hash(
        &before(last),
        head.as_slice(),
        parts.update,
        tail.as_slice(),
    ))
}
