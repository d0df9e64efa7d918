//! Policies of 256 principals, and 64 signers.

use super::answers::{Answer, is_text_answered};
use super::{body, push_counted, push_endorsement, signers_of};
use crate::parts::{Parts, text_of};
use policy_eval::Signers;
use std::alloc::{AllocError, Global};
use transaction::TxFault;

// 64 peers of A.
fn push_many(alloc: Global, bytes: &mut Vec<u8>) -> Result<(), AllocError> {
    bytes.push(64)?;
    for i in 0..64u8 {
        let identity = [1, b'A', 2, 2, b'0' + i / 10, b'0' + i % 10];
        push_endorsement(alloc, bytes, &identity, body(), &identity)?;
    }
    push_counted(bytes, b"")
}

// The bytes of a transaction that they endorsed.
fn endorsed_by_many(alloc: Global) -> Result<Vec<u8>, AllocError> {
    let mut bytes = Vec::from_slice(alloc, body())?;
    push_many(alloc, &mut bytes)?;
    Ok(bytes)
}

fn answers() -> &'static [(Parts, Answer)] {
    &ANSWERS
}

static ANSWERS: [(Parts, Answer); 7] = [
    // Many nested principals that hold: 32 gates, each in the one before it behind 8 principals.
    (
        &[
            (
                "OR('A.peer','A.peer','A.peer','A.peer','A.peer','A.peer','A.peer','A.peer',",
                31,
            ),
            (
                "OR('A.peer','A.peer','A.peer','A.peer','A.peer','A.peer','A.peer','A.peer'",
                1,
            ),
            (")", 32),
        ],
        Answer::InOrder(0, 64),
    ),
    (
        &[
            (
                "OutOf(8,'A.peer','A.peer','A.peer','A.peer','A.peer','A.peer','A.peer','A.peer',",
                31,
            ),
            (
                "OutOf(8,'A.peer','A.peer','A.peer','A.peer','A.peer','A.peer','A.peer','A.peer'",
                1,
            ),
            (")", 32),
        ],
        Answer::InOrder(0, 64),
    ),
    // Many principals that hold: 31 gates of 8 principals, and 8 principals beside them. Eight gates take all signers; but of
    // those that fail each gives its seven back, and the last eight principals take theirs.
    (
        &[
            ("OutOf(8,", 1),
            (
                "AND('A.peer','A.peer','A.peer','A.peer','A.peer','A.peer','A.peer','A.peer'),",
                31,
            ),
            (
                "'A.peer','A.peer','A.peer','A.peer','A.peer','A.peer','A.peer','A.peer')",
                1,
            ),
        ],
        Answer::InOrder(0, 64),
    ),
    (
        &[
            ("OutOf(8,", 1),
            (
                "AND('A.peer','A.peer','A.peer','A.peer','A.peer','A.peer','A.peer','B.peer'),",
                31,
            ),
            (
                "'A.peer','A.peer','A.peer','A.peer','A.peer','A.peer','A.peer','A.peer')",
                1,
            ),
        ],
        Answer::InOrder(248, 8),
    ),
    // Many principals that fail.
    (
        &[
            (
                "AND('A.peer','A.peer','A.peer','A.peer','A.peer','A.peer','A.peer','A.peer',",
                31,
            ),
            (
                "AND('A.peer','A.peer','A.peer','A.peer','A.peer','A.peer','A.peer','A.peer'",
                1,
            ),
            (")", 32),
        ],
        Answer::Refused,
    ),
    (
        &[
            ("OutOf(9,", 1),
            (
                "AND('A.peer','A.peer','A.peer','A.peer','A.peer','A.peer','A.peer','A.peer'),",
                31,
            ),
            (
                "'A.peer','A.peer','A.peer','A.peer','A.peer','A.peer','A.peer','A.peer')",
                1,
            ),
        ],
        Answer::Refused,
    ),
    (
        &[
            ("OutOf(9,", 1),
            (
                "AND('A.peer','A.peer','A.peer','A.peer','A.peer','A.peer','A.peer','B.peer'),",
                31,
            ),
            (
                "'A.peer','A.peer','A.peer','A.peer','A.peer','A.peer','A.peer','A.peer')",
                1,
            ),
        ],
        Answer::Refused,
    ),
];

fn is_so(
    alloc: Global,
    signers: &Signers<'_>,
    parts: Parts,
    wanted: Answer,
) -> Result<bool, TxFault> {
    let text = text_of(alloc, parts)?;
    is_text_answered(alloc, text.as_str(), signers, wanted)
}

// How many rows are so, up to the first that isn't.
fn so(alloc: Global, signers: &Signers<'_>) -> Result<usize, TxFault> {
    for (row, &(parts, wanted)) in answers().iter().enumerate() {
        if !is_so(alloc, signers, parts, wanted)? {
            return Ok(row);
        }
    }
    Ok(answers().len())
}

// The number of signers, and how many rows are so for them.
fn so_of_many(alloc: Global) -> Result<(usize, usize), TxFault> {
    let bytes = endorsed_by_many(alloc)?;
    let signers = signers_of(alloc, &bytes)?;
    Ok((signers.len(), so(alloc, &signers)?))
}

#[test]
fn many_principals_and_sixty_four_signers(rt: HostRuntime) -> Result<(), TxFault> {
    assert!(rt; so_of_many(rt.alloc())? == (64, 7));
    Ok(())
}
