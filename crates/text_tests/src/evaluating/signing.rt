use super::updates::{have_signed_item, update_body};
use super::{ADMIN, P0, P1, are_spelled, body, endorsed, signers_of};
use std::alloc::Global;
use transaction::TxFault;

// As P0, but for the organization, the role or the label.
const ORG2: &[u8] = b"\x04Org2\x02\x02p0";

const CLIENT: &[u8] = b"\x04Org1\x01\x02p0";

const UNNAMED: &[u8] = b"\x04Org1\x02\0";

fn signed() -> &'static [(&'static [(&'static [u8], bool)], &'static [u8])] {
    &SIGNED
}

static SIGNED: [(&[(&[u8], bool)], &[u8]); 11] = [
    (&[], b""),
    (&[(P0, true)], P0),
    (&[(P0, false)], b""),
    (&[(P0, true), (P0, true)], P0),
    (&[(P0, true), (P0, false), (P1, false)], P0),
    (
        &[(P0, false), (P1, true), (P0, true)],
        b"\x04Org1\x02\x02p1\x04Org1\x02\x02p0",
    ),
    (
        &[(P0, true), (P1, true), (P0, true)],
        b"\x04Org1\x02\x02p0\x04Org1\x02\x02p1",
    ),
    (
        &[(P0, true), (ORG2, true), (CLIENT, true), (UNNAMED, true)],
        b"\x04Org1\x02\x02p0\x04Org2\x02\x02p0\x04Org1\x01\x02p0\x04Org1\x02\0",
    ),
    (&[(ADMIN, false), (P1, true), (P1, false)], P1),
    (
        &[(P0, true), (P1, false), (P1, true)],
        b"\x04Org1\x02\x02p0\x04Org1\x02\x02p1",
    ),
    (
        &[(P0, true), (P1, true)],
        b"\x04Org1\x02\x02p0\x04Org1\x02\x02p1",
    ),
];

fn are_signers(alloc: Global, bytes: &[u8], wanted: &[u8]) -> Result<bool, TxFault> {
    let signers = signers_of(alloc, bytes)?;
    are_spelled(alloc, &signers, wanted)
}

fn have_signed(
    alloc: Global,
    endorsements: &[(&[u8], bool)],
    wanted: &[u8],
) -> Result<bool, TxFault> {
    let bytes = endorsed(alloc, endorsements)?;
    are_signers(alloc, &bytes, wanted)
}

// Whether they have signed it as a transaction and as an update.
fn have_signed_each(
    alloc: Global,
    endorsements: &[(&[u8], bool)],
    wanted: &[u8],
) -> Result<bool, TxFault> {
    let is_so = have_signed(alloc, endorsements, wanted)?;
    let is_so_of_tx = have_signed_item(alloc, body(), endorsements, wanted)?;
    let is_so_of_update = have_signed_item(alloc, update_body(), endorsements, wanted)?;
    Ok(is_so && is_so_of_tx && is_so_of_update)
}

// Whether these have signed where the last of 64 signatures is as given, and those before it are refused.
fn have_signed_at_last(alloc: Global, is_good: bool, wanted: &[u8]) -> Result<bool, TxFault> {
    let mut endorsements = [(P0, false); 64];
    endorsements[63] = (P0, is_good);
    have_signed(alloc, &endorsements, wanted)
}

// To be run with memory, too, that is refused at any one call: the preparation then ends the test by `?`, and
// what is tested answers the error, and as wanted when it is asked again.
#[test]
fn who_signed(rt: HostRuntime) -> Result<(), TxFault> {
    for (row, &(endorsements, wanted)) in signed().iter().enumerate() {
        assert!(rt;
            have_signed_each(rt.alloc(), endorsements, wanted)?,
            "row {row}"
        );
    }
    assert!(rt; have_signed_at_last(rt.alloc(), false, b"")?);
    assert!(rt; have_signed_at_last(rt.alloc(), true, P0)?);
    Ok(())
}
