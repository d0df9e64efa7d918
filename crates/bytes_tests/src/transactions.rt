//! Transactions and identities, whose bytes were written by hand from the grammar.

use places::is_all_found;
use std::alloc::Global;
use transaction::{
    EncodeFault, Endorsement, NsSet, Range, Read, Role, SpelledTx, Tx, TxFault, Version, Write,
    decode_tx, encode_body, encode_signed, encode_tx,
};
use values::{Bytes, Slice};

mod faults;
mod identities;
mod limits;
mod lists;
mod places;

// Channel `ch`, creator `Org1:client:c0`, nonce `n1`, chaincode `cc`, one namespace `cc` with a read
// of `k1` at (0, 0) and a write of `k3` with the value `v`, one endorsement of `Org1:peer:p0`.
pub(crate) const EXAMPLE: &[u8; 200] = b"\x02ch\
    \x05\x05\x05\x05\x05\x05\x05\x05\x05\x05\x05\x05\x05\x05\x05\x05\x05\x05\x05\x05\x05\x05\x05\x05\x05\x05\x05\x05\x05\x05\x05\x05\
    \x05\x05\x05\x05\x05\x05\x05\x05\x05\x05\x05\x05\x05\x05\x05\x05\x05\x05\x05\x05\x05\x05\x05\x05\x05\x05\x05\x05\x05\x05\x05\x05\
    \x04Org1\x01\x02c0\x02n1\x02cc\0\x01\x02cc\
    \0\x01\0\x02k1\x01\0\0\0\0\0\0\0\0\0\0\0\0\
    \0\0\0\x01\0\x02k3\x01\0\0\0\x01v\0\0\
    \x01\x04Org1\x02\x02p0\0\x20\
    \x07\x07\x07\x07\x07\x07\x07\x07\x07\x07\x07\x07\x07\x07\x07\x07\x07\x07\x07\x07\x07\x07\x07\x07\x07\x07\x07\x07\x07\x07\x07\x07\
    \0\x20\
    \x07\x07\x07\x07\x07\x07\x07\x07\x07\x07\x07\x07\x07\x07\x07\x07\x07\x07\x07\x07\x07\x07\x07\x07\x07\x07\x07\x07\x07\x07\x07\x07";

// Two namespaces, one with two ranges, a delete and two policy writes; no endorsements and no signature.
const EVERYTHING: &[u8; 149] = b"\x01c\
    \0\0\0\0\0\0\0\0\0\0\0\0\0\0\0\0\0\0\0\0\0\0\0\0\0\0\0\0\0\0\0\0\0\0\0\0\0\0\0\0\0\0\0\0\0\0\0\0\0\0\0\0\0\0\0\0\0\0\0\0\0\0\0\0\
    \x01O\0\0\0\x01c\0\x02\x01a\0\x01\0\x01k\0\
    \0\x02\0\0\0\x01z\x01\0\0\
    \0\x01a\0\0\0\0\x01\0\x01b\0\0\0\0\0\0\0\x07\0\0\0\x03\
    \0\x01\0\x01d\0\0\x02\0\x01e\0\0\x01e\x01\0\x02OR\
    \x01b\0\0\0\0\0\0\0\0\0\0\0";

fn example() -> &'static [u8] {
    EXAMPLE
}

// How long what was written is, if it is a beginning of the bytes.
pub(crate) fn beginning(written: Result<Bytes, EncodeFault>, bytes: &[u8]) -> Option<usize> {
    match written {
        Ok(written) if bytes.starts_with(written.as_slice()) => Some(written.len()),
        _ => None,
    }
}

// How long its body, what is signed of it, and all of it are, if they are beginnings of the bytes.
fn lens(tx: &Tx<'_>, alloc: Global, bytes: &[u8]) -> [Option<usize>; 3] {
    [
        beginning(encode_body(alloc, tx), bytes),
        beginning(encode_signed(alloc, tx), bytes),
        beginning(encode_tx(alloc, tx), bytes),
    ]
}

// A transaction's bytes, how long its body and what is signed of it are, and its creator's bytes.
type Row = (&'static [u8], usize, usize, &'static [u8]);

fn rows() -> &'static [Row] {
    &ROWS
}

static ROWS: [Row; 2] = [
    (EXAMPLE, 122, 166, b"\x04Org1\x01\x02c0"),
    (EVERYTHING, 146, 147, b"\x01O\0\0"),
];

fn are_parts(spelled: &SpelledTx<'_>, row: &Row) -> bool {
    let &(bytes, body, signed, creator) = row;
    bytes.get(..body) == Some(spelled.body())
        && bytes.get(..signed) == Some(spelled.creator_message())
        && creator == spelled.creator_bytes()
}

fn is_written(spelled: &SpelledTx<'_>, alloc: Global, row: &Row) -> bool {
    let &(bytes, body, signed, _) = row;
    lens(spelled.tx(), alloc, bytes) == [Some(body), Some(signed), Some(bytes.len())]
}

// Whether all is read, found and written as the row states.
fn is_both_ways(alloc: Global, row: &Row) -> Result<bool, TxFault> {
    let spelled = decode_tx(alloc, row.0)?;
    Ok(
        are_parts(&spelled, row)
            && is_written(&spelled, alloc, row)
            && is_all_found(row.0, &spelled),
    )
}

#[test]
fn the_examples_both_ways(rt: HostRuntime) -> Result<(), TxFault> {
    for (number, row) in rows().iter().enumerate() {
        assert!(rt; is_both_ways(rt.alloc(), row)?, "row {number}");
    }
    Ok(())
}

// Its channel, chaincode, nonce and signature.
fn texts<'a>(tx: &Tx<'a>) -> [&'a [u8]; 4] {
    [
        tx.channel.as_slice(),
        tx.chaincode.as_slice(),
        tx.nonce.as_slice(),
        tx.signature.as_slice(),
    ]
}

fn are_fields(tx: &Tx<'_>) -> bool {
    texts(tx) == [b"ch".as_slice(), b"cc", b"n1", &[7; 32]]
        && tx.id == [5; 64]
        && tx.creator.role == Role::Client
}

fn is_read(read: &Read<'_>) -> bool {
    read.key.as_slice() == b"k1".as_slice() && read.version == Some(Version { block: 0, tx: 0 })
}

fn is_v(value: &Option<Slice<'_>>) -> bool {
    match value {
        Some(value) => value.as_slice() == b"v".as_slice(),
        None => false,
    }
}

fn is_write(write: &Write<'_>) -> bool {
    write.key.as_slice() == b"k3".as_slice() && is_v(&write.value)
}

fn are_reads(reads: &[Read<'_>]) -> bool {
    match reads {
        [read] => is_read(read),
        _ => false,
    }
}

fn are_writes(writes: &[Write<'_>]) -> bool {
    match writes {
        [write] => is_write(write),
        _ => false,
    }
}

fn is_set(set: &NsSet<'_>) -> bool {
    set.name.as_slice() == b"cc".as_slice()
        && are_reads(set.reads.as_slice())
        && set.ranges.is_empty()
        && are_writes(set.writes.as_slice())
        && set.policy_writes.is_empty()
}

fn are_sets(sets: &[NsSet<'_>]) -> bool {
    match sets {
        [set] => is_set(set),
        _ => false,
    }
}

fn are_endorsements(endorsements: &[Endorsement<'_>]) -> bool {
    match endorsements {
        [endorsement] => endorsement.endorser.label.as_slice() == b"p0".as_slice(),
        _ => false,
    }
}

fn is_example(alloc: Global) -> Result<bool, TxFault> {
    let tx = decode_tx(alloc, EXAMPLE)?.into_tx();
    Ok(
        are_fields(&tx)
            && are_sets(tx.namespaces.as_slice())
            && are_endorsements(tx.endorsements.as_slice()),
    )
}

fn is_range(range: &Range<'_>) -> bool {
    match range.results.as_slice() {
        [] => range.exhausted,
        [result] => !range.exhausted && result.version == Version { block: 7, tx: 3 },
        _ => false,
    }
}

fn are_ranges(ranges: &[Range<'_>]) -> bool {
    match ranges {
        [first, second] => is_range(first) && is_range(second),
        _ => false,
    }
}

fn is_delete(writes: &[Write<'_>]) -> bool {
    match writes {
        [write] => write.value.is_none(),
        _ => false,
    }
}

fn is_everything(alloc: Global) -> Result<bool, TxFault> {
    let tx = decode_tx(alloc, EVERYTHING)?.into_tx();
    Ok(match tx.namespaces.as_slice() {
        [first, second] => {
            are_ranges(first.ranges.as_slice())
                && is_delete(first.writes.as_slice())
                && second.ranges.is_empty()
                && second.writes.is_empty()
        }
        _ => false,
    })
}

#[test]
fn what_the_examples_say(rt: HostRuntime) -> Result<(), TxFault> {
    assert!(rt; is_example(rt.alloc())?);
    // All that a namespace has.
    assert!(rt; is_everything(rt.alloc())?);
    Ok(())
}
