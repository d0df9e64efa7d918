//! What a small block changes: a removal of a missing key is no change.

use crate::cases::{FLAGGED, JobCase, KEYS, KeyUse, NOTHING, NewValue, RowCase, TxCase, UNUSED};
use crate::outcome::{Outcome, comes_out};
use rules::Flag;
use test_support::Failed;
use transaction::Version;

fn write_of(value: NewValue) -> KeyUse {
    KeyUse {
        read: None,
        value: Some(value),
        policy: None,
    }
}

fn tx_of(uses: [KeyUse; KEYS]) -> TxCase {
    let mut tx = FLAGGED;
    tx.is_open = true;
    tx.sets[0].uses = uses;
    tx
}

// Of the keys b, d, f, h and j only the fourth has a row before the block. The first transaction deletes d and h and
// puts f, which the second one deletes; that one puts j.
fn deletes() -> JobCase {
    let put = write_of(NewValue::Put);
    let delete = write_of(NewValue::Delete);
    let mut case = NOTHING;
    case.rows[0][3] = Some(RowCase {
        version: Version { block: 0, tx: 0 },
        policy: None,
    });
    case.txs[0] = tx_of([UNUSED, delete, put, delete, UNUSED, UNUSED]);
    case.txs[1] = tx_of([UNUSED, UNUSED, delete, UNUSED, put, UNUSED]);
    case.count = 2;
    case
}

#[test]
fn what_is_not_there_is_not_removed(rt: HostRuntime) -> Result<(), Failed> {
    // In the keys' order h is removed and j is put; each write and delete is in a history all the same.
    let wanted = Outcome {
        flags: &[Flag::Valid, Flag::Valid],
        changes: &[(b"h", false), (b"j", true)],
        entries: 5,
        definition: None,
    };
    assert!(rt; comes_out(rt.alloc(), &deletes(), &wanted)?);
    Ok(())
}
