use super::answers::{Answer, is_text_answered};
use super::{endorsed, signers_of};
use std::alloc::Global;
use transaction::TxFault;

// An identity, and that its signature is good.
type Endorsement = (&'static [u8], bool);

const P0: Endorsement = (super::P0, true);

const P1: Endorsement = (super::P1, true);

const ADMIN: Endorsement = (super::ADMIN, true);

const A: Endorsement = (b"\x01A\x02\x01p", true);

const B: Endorsement = (b"\x01B\x02\x01p", true);

const C: Endorsement = (b"\x01C\x02\x01p", true);

const CLIENT: Endorsement = (b"\x04Org1\x01\x01c", true);

const ORDERER: Endorsement = (b"\x04Org1\x03\x01o", true);

fn is_answered_by(
    alloc: Global,
    bytes: &[u8],
    text: &str,
    wanted: Answer,
) -> Result<bool, TxFault> {
    let signers = signers_of(alloc, bytes)?;
    is_text_answered(alloc, text, &signers, wanted)
}

fn is_answered(
    alloc: Global,
    endorsements: &[Endorsement],
    text: &str,
    wanted: Answer,
) -> Result<bool, TxFault> {
    let bytes = endorsed(alloc, endorsements)?;
    is_answered_by(alloc, &bytes, text, wanted)
}

fn answers() -> &'static [(&'static str, &'static [Endorsement], Answer)] {
    &ANSWERS
}

static ANSWERS: [(&str, &[Endorsement], Answer); 20] = [
    // Policies that hold.
    (
        "AND('Org1.peer','Org1.peer')",
        &[P0, P1],
        Answer::Pairs(&[(0, 0), (1, 1)]),
    ),
    (
        "AND('Org1.member','Org1.admin')",
        &[P0, ADMIN],
        Answer::Pairs(&[(0, 0), (1, 1)]),
    ),
    (
        "OR(AND('Org1.peer','Org2.peer'),'Org1.peer')",
        &[P0],
        Answer::Pairs(&[(2, 0)]),
    ),
    (
        "OutOf(2,AND('A.peer','C.peer','B.peer'),'A.peer','C.peer')",
        &[A, C],
        Answer::Pairs(&[(3, 0), (4, 1)]),
    ),
    (
        "AND('Org1.client','Org1.orderer')",
        &[ORDERER, P0, CLIENT],
        Answer::Pairs(&[(0, 2), (1, 0)]),
    ),
    ("'Org1.member'", &[A, ORDERER, P0], Answer::Pairs(&[(0, 1)])),
    (
        "OR('A.peer','B.peer')",
        &[B, A],
        Answer::Pairs(&[(0, 1), (1, 0)]),
    ),
    ("OR('A.peer','B.peer')", &[B], Answer::Pairs(&[(1, 0)])),
    (
        "AND('A.peer','B.peer','C.peer')",
        &[C, B, A],
        Answer::Pairs(&[(0, 2), (1, 1), (2, 0)]),
    ),
    // The gate in the middle takes p1 and gives it back.
    (
        "OutOf(2,'Org1.peer',AND('Org1.peer','Org2.peer'),'Org1.peer')",
        &[P0, P1],
        Answer::Pairs(&[(0, 0), (3, 1)]),
    ),
    // The inner gate holds, and lies in one that fails.
    (
        "OR(AND(OR('Org1.peer'),'Org2.peer'),'Org1.peer')",
        &[P0],
        Answer::Pairs(&[(2, 0)]),
    ),
    // Policies that fail.
    ("AND('Org1.peer','Org1.peer')", &[P0], Answer::Refused),
    ("AND('Org1.peer','Org1.peer')", &[P0, P0], Answer::Refused),
    (
        "AND('Org1.member','Org1.admin')",
        &[ADMIN, P0],
        Answer::Refused,
    ),
    (
        "AND(OR('Org1.peer','Org1.peer'),'Org1.peer')",
        &[P0, P1],
        Answer::Refused,
    ),
    (
        "OutOf(2,AND('A.peer','C.peer','B.peer'),'A.peer','C.peer')",
        &[A, C, B],
        Answer::Refused,
    ),
    ("'Org1.peer'", &[], Answer::Refused),
    ("'Org1.peer'", &[ADMIN, CLIENT, ORDERER, A], Answer::Refused),
    ("'Org.peer'", &[P0], Answer::Refused),
    (
        "OutOf(2,'A.peer','B.peer','C.peer')",
        &[B, P0, P1],
        Answer::Refused,
    ),
];

// To be run with memory, too, that is refused at any one call, as the tests of signers.
#[test]
fn policies_that_hold_and_policies_that_fail(rt: HostRuntime) -> Result<(), TxFault> {
    for (row, &(text, endorsements, wanted)) in answers().iter().enumerate() {
        assert!(rt;
            is_answered(rt.alloc(), endorsements, text, wanted)?,
            "row {row}"
        );
    }
    Ok(())
}
