//! Whether what a check returns for a transaction is right, by every assignment of the unknown verdicts.

use crate::cases::{JobCase, KeyPlace, TXS, TxCase};
use crate::verdicts::{
    Assignment, endorsement_depends, is_endorsed, read_verdict, reads_depend, state_under,
    version_at, writes_at,
};
use key_chains::Decision;
use rules::{Flag, ReadVerdict};
use transaction::Version;

/// What is known of each transaction.
#[derive(Clone, Copy)]
pub struct KnownCase {
    pub endorsed: [Option<bool>; TXS],
    pub flags: [Option<Flag>; TXS],
}

const ASSIGNMENTS: u32 = 64;

fn assignment(number: u32) -> Assignment {
    [
        number % 2 == 1,
        number / 2 % 2 == 1,
        number / 4 % 2 == 1,
        number / 8 % 2 == 1,
        number / 16 % 2 == 1,
        number / 32 % 2 == 1,
    ]
}

/// What is known of which transactions count in the reads of later ones.
fn validity(flags: &[Option<Flag>; TXS]) -> [Option<bool>; TXS] {
    let mut valid = [None; TXS];
    for h in 0..TXS {
        if let Some(flag) = flags[h] {
            valid[h] = Some(flag == Flag::Valid);
        }
    }
    valid
}

/// Whether the assignment is of the transactions before i, and agrees with what is known of them.
fn agrees(called: &Assignment, i: usize, known: &[Option<bool>; TXS]) -> bool {
    for h in 0..TXS {
        let wanted = if h < i { known[h] } else { Some(false) };
        if wanted.is_some() && wanted != Some(called[h]) {
            return false;
        }
    }
    true
}

fn is_sure_endorsement(
    case: &JobCase,
    tx: &TxCase,
    i: usize,
    known: &[Option<bool>; TXS],
    verdict: bool,
) -> bool {
    for number in 0..ASSIGNMENTS {
        let called = assignment(number);
        if agrees(&called, i, known) && is_endorsed(case, tx, &called) != verdict {
            return false;
        }
    }
    true
}

fn is_sure_verdict(
    case: &JobCase,
    tx: &TxCase,
    i: usize,
    known: &[Option<bool>; TXS],
    verdict: ReadVerdict,
) -> bool {
    for number in 0..ASSIGNMENTS {
        let called = assignment(number);
        if agrees(&called, i, known) && read_verdict(case, tx, &called) != verdict {
            return false;
        }
    }
    true
}

fn is_sure_version(
    case: &JobCase,
    place: KeyPlace,
    i: usize,
    known: &[Option<bool>; TXS],
    version: Option<Version>,
) -> bool {
    for number in 0..ASSIGNMENTS {
        let called = assignment(number);
        if agrees(&called, i, known) && version_at(&state_under(case, &called), place) != version {
            return false;
        }
    }
    true
}

/// The transaction at place h, if it is before i and isn't known.
fn unknown_before<'a>(
    case: &'a JobCase,
    i: usize,
    known: &[Option<bool>; TXS],
    h: u32,
) -> Option<&'a TxCase> {
    let h = h as usize;
    if h < TXS && h < i && known[h].is_none() {
        return Some(&case.txs[h]);
    }
    None
}

/// Whether the result is that of every assignment of the unknown verdicts, or names one that the check depends on.
pub fn is_right_of_endorsement(
    case: &JobCase,
    tx: &TxCase,
    i: usize,
    known: &KnownCase,
    said: Decision<bool>,
) -> bool {
    match said {
        Decision::Sure(verdict) => is_sure_endorsement(case, tx, i, &known.endorsed, verdict),
        Decision::Blocked(h) => match unknown_before(case, i, &known.endorsed, h) {
            None => false,
            Some(earlier) => endorsement_depends(tx, earlier),
        },
    }
}

/// Whether the verdict is that of every assignment of the unknown verdicts, or names one that the check depends on.
pub fn is_right_of_reads(
    case: &JobCase,
    tx: &TxCase,
    i: usize,
    known: &KnownCase,
    said: Decision<ReadVerdict>,
) -> bool {
    let valid = validity(&known.flags);
    match said {
        Decision::Sure(verdict) => is_sure_verdict(case, tx, i, &valid, verdict),
        Decision::Blocked(h) => match unknown_before(case, i, &valid, h) {
            None => false,
            Some(earlier) => reads_depend(tx, earlier),
        },
    }
}

/// Whether the version is that of every assignment of the unknown verdicts, or names one that it depends on.
pub fn is_right_of_version(
    case: &JobCase,
    place: KeyPlace,
    i: usize,
    known: &KnownCase,
    said: Decision<Option<Version>>,
) -> bool {
    let valid = validity(&known.flags);
    match said {
        Decision::Sure(version) => is_sure_version(case, place, i, &valid, version),
        Decision::Blocked(h) => match unknown_before(case, i, &valid, h) {
            None => false,
            Some(earlier) => earlier.is_open && writes_at(earlier, place),
        },
    }
}
