use super::{ADMIN, P0, P1, endorsed};
use policy_eval::{Verify, signers};
use std::alloc::Global;
use std::cell::Cell;
use transaction::{Identity, SpelledTx, TxFault, decode_tx};

// Gives every signature the same answer, and counts what it is asked.
#[derive(Drop)]
struct Counter {
    answer: bool,
    calls: Cell<usize>,
}

impl Verify for Counter {
    ghost accepts = { λ counter _ _ _. counter.answer };

    fn verify(&self, _identity: &Identity<'_>, _message: &[u8], _signature: &[u8]) -> bool {
        self.calls.set(self.calls.get().wrapping_add(1));
        self.answer
    }
}

fn endorsements() -> &'static [(&'static [u8], bool)] {
    &ENDORSEMENTS
}

static ENDORSEMENTS: [(&[u8], bool); 5] = [
    (P0, true),
    (P1, true),
    (P0, true),
    (ADMIN, true),
    (P0, true),
];

// Whether there are so many signers where each signature gets this answer, and it is asked so often.
fn is_asked(
    alloc: Global,
    spelled: &SpelledTx<'_>,
    answer: bool,
    count: usize,
    calls: usize,
) -> Result<bool, TxFault> {
    let counter = Counter {
        answer,
        calls: Cell::new(0),
    };
    let found = signers(alloc, spelled.tx(), &counter)?.len();
    Ok(found == count && counter.calls.get() == calls)
}

fn are_asked(alloc: Global, answer: bool, count: usize, calls: usize) -> Result<bool, TxFault> {
    let bytes = endorsed(alloc, endorsements())?;
    let spelled = decode_tx(alloc, &bytes)?;
    is_asked(alloc, &spelled, answer, count, calls)
}

// Once for each endorsement, but not where the endorser has signed already.
#[test]
fn calls_of_the_verifier(rt: HostRuntime) -> Result<(), TxFault> {
    assert!(rt; are_asked(rt.alloc(), true, 3, 3)?);
    assert!(rt; are_asked(rt.alloc(), false, 0, 5)?);
    Ok(())
}
