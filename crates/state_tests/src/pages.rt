//! Rows that are put, changed and deleted, and the pages that hold them.

use crate::steps::{Call, Changes, Step, apply, are_all, are_sizes, are_steps, batch_of};
use state_db::{Batch, StateDb};
use std::alloc::Global;
use test_support::{Failed, Outcome, begins};

fn scenarios() -> &'static [(&'static str, &'static [Step])] {
    &SCENARIOS
}

const SIX_HUNDRED: Step = Step::Apply(Changes::Puts(0, 600));

static SCENARIOS: [(&str, &[Step]); 12] = [
    (
        "no rows",
        &[
            Step::Apply(Changes::Calls(&[])),
            Step::Sizes(&[]),
            Step::Value(b"k000", None),
            Step::Between(b"cc", b"", b"", &[]),
        ],
    ),
    (
        "six hundred rows",
        &[SIX_HUNDRED, Step::Spread(600, 3, 599), Step::All(0, 600)],
    ),
    (
        "rows in order fill their pages",
        &[
            SIX_HUNDRED,
            Step::Sizes(&[256, 256, 88]),
            Step::Apply(Changes::Puts(600, 1000)),
            Step::Sizes(&[256, 256, 256, 232]),
            Step::All(0, 1000),
        ],
    ),
    (
        "rows between others split their pages",
        &[
            Step::Apply(Changes::PutsOfEachSecond(0, 1000)),
            Step::Apply(Changes::PutsOfEachSecond(1, 1000)),
            Step::Spread(1000, 4, 1000),
            Step::All(0, 1000),
        ],
    ),
    (
        "bounds",
        &[
            SIX_HUNDRED,
            Step::Between(b"cc", b"k250", b"k260", K25),
            Step::Between(b"cc", b"k5985", b"", &[b"k599"]),
            Step::Between(b"cc", b"", b"k001", &[b"k000"]),
            Step::Between(b"cc", b"k600", b"", &[]),
            Step::Between(b"cc", b"k300", b"k300", &[]),
            Step::Between(b"cc", b"k301", b"k300", &[]),
            Step::Between(b"c", b"", b"", &[]),
            Step::Between(b"cd", b"", b"", &[]),
        ],
    ),
    (
        "first rows deleted",
        &[
            SIX_HUNDRED,
            Step::Apply(Changes::Deletes(0, 256)),
            Step::All(256, 600),
            Step::Value(b"k255", None),
            Step::Value(b"k256", Some(b"k256")),
        ],
    ),
    (
        "all rows deleted",
        &[
            SIX_HUNDRED,
            Step::Apply(Changes::Deletes(0, 600)),
            Step::Sizes(&[]),
            Step::Apply(Changes::Puts(0, 1)),
            Step::Sizes(&[1]),
        ],
    ),
    (
        "the first row deleted",
        &[
            SIX_HUNDRED,
            Step::Sizes(&[256, 256, 88]),
            Step::Apply(Changes::Deletes(0, 1)),
            Step::Sizes(&[255, 256, 88]),
        ],
    ),
    (
        "the last row deleted",
        &[
            SIX_HUNDRED,
            Step::Sizes(&[256, 256, 88]),
            Step::Apply(Changes::Deletes(599, 600)),
            Step::Sizes(&[256, 256, 87]),
        ],
    ),
    (
        "a page of one row",
        &[
            SIX_HUNDRED,
            Step::Apply(Changes::Deletes(1, 256)),
            Step::Sizes(&[1, 256, 88]),
            Step::Apply(Changes::Deletes(0, 1)),
            Step::Sizes(&[256, 88]),
        ],
    ),
    (
        "the last call of a key stands",
        &[
            SIX_HUNDRED,
            Step::Apply(Changes::Calls(&[
                (b"cc", b"k300", Some(b"first")),
                (b"cc", b"k100", None),
                (b"cc", b"k100", Some(b"again")),
                (b"cc", b"k300", Some(b"second")),
                (b"cc", b"k400", Some(b"gone")),
                (b"cc", b"k400", None),
                (b"cc", b"k4", None),
            ])),
            Step::Value(b"k100", Some(b"again")),
            Step::Value(b"k300", Some(b"second")),
            Step::Value(b"k400", None),
            Step::Value(b"k401", Some(b"k401")),
        ],
    ),
    (
        "long common beginnings",
        &[
            Step::Apply(Changes::Calls(CALLS_OF_ALIKE)),
            Step::Between(b"cc", b"", b"", ALIKE),
            Step::Between(
                b"cc",
                b"a-key-of-many-bytes-1",
                b"a-key-of-many-bytes-2",
                &[b"a-key-of-many-bytes-1"],
            ),
            Step::Between(b"c", b"", b"", &[b"c"]),
            Step::Between(b"cc1", b"", b"", &[b"x"]),
            Step::Value(b"\0\0", Some(b"\0\0")),
            Step::Value(b"\0\0\0", None),
            Step::Own(ALIKE),
            Step::Value(b"a-key-of-many-bytes-\0\0\0", None),
        ],
    ),
];

const K25: &[&[u8]] = &[
    b"k250", b"k251", b"k252", b"k253", b"k254", b"k255", b"k256", b"k257", b"k258", b"k259",
];

// Keys in order that begin alike, beyond what a head holds.
const ALIKE: &[&[u8]] = &[
    b"\0",
    b"\0\0",
    b"a-key-of-many-byte\0",
    b"a-key-of-many-bytes",
    b"a-key-of-many-bytes-",
    b"a-key-of-many-bytes-\0",
    b"a-key-of-many-bytes-\0\0",
    b"a-key-of-many-bytes-1",
    b"a-key-of-many-bytes-2",
];

// Puts them, the last first, and keys of namespaces that begin alike.
const CALLS_OF_ALIKE: &[Call] = &[
    (
        b"cc",
        b"a-key-of-many-bytes-2",
        Some(b"a-key-of-many-bytes-2"),
    ),
    (
        b"cc",
        b"a-key-of-many-bytes-1",
        Some(b"a-key-of-many-bytes-1"),
    ),
    (
        b"cc",
        b"a-key-of-many-bytes-\0\0",
        Some(b"a-key-of-many-bytes-\0\0"),
    ),
    (
        b"cc",
        b"a-key-of-many-bytes-\0",
        Some(b"a-key-of-many-bytes-\0"),
    ),
    (
        b"cc",
        b"a-key-of-many-bytes-",
        Some(b"a-key-of-many-bytes-"),
    ),
    (b"cc", b"a-key-of-many-bytes", Some(b"a-key-of-many-bytes")),
    (
        b"cc",
        b"a-key-of-many-byte\0",
        Some(b"a-key-of-many-byte\0"),
    ),
    (b"cc", b"\0\0", Some(b"\0\0")),
    (b"cc", b"\0", Some(b"\0")),
    (b"cc1", b"x", Some(b"x")),
    (b"c", b"c", Some(b"c")),
    (b"cb", b"z", Some(b"z")),
];

#[test]
fn rows_in_their_pages(rt: HostRuntime) -> Result<(), Failed> {
    for &(scenario, steps) in scenarios() {
        assert!(rt; are_steps(rt.alloc(), steps)?, "{scenario}");
    }
    Ok(())
}

fn is_as_before(state: &StateDb) -> Result<bool, Failed> {
    Ok(are_sizes(state, &[256]) && are_all(state, 100, 356)?)
}

fn outcome_of_apply(alloc: Global, state: &mut StateDb, batch: &Batch) -> Result<Outcome, Failed> {
    begins(alloc)?;
    let is_refused = state.apply(batch).is_err();
    if is_refused {
        if !is_as_before(state)? {
            return Ok(Outcome::Wrong);
        }
        state.apply(batch)?;
    }
    match (is_refused, are_all(state, 0, 600)?) {
        (false, true) => Ok(Outcome::Done),
        (true, true) => Ok(Outcome::MadeGood),
        (_, false) => Ok(Outcome::Wrong),
    }
}

fn outcome_of_six_hundred(alloc: Global, state: &mut StateDb) -> Result<Outcome, Failed> {
    // a full page, before which and behind which rows are put
    apply(alloc, state, Changes::Puts(100, 356))?;
    let batch = batch_of(alloc, Changes::Puts(0, 600))?;
    outcome_of_apply(alloc, state, &batch)
}

/// What comes of a batch.
pub fn outcome(alloc: Global) -> Result<Outcome, Failed> {
    let mut state = StateDb::new(alloc);
    outcome_of_six_hundred(alloc, &mut state)
}

// To be tried with memory that is refused at any one allocation of the second `apply`, by `bench/refused_memory.py`: then
// the state is as before, and takes the same batch next. Where it is refused before or after, it ends by `?`.
#[test]
fn six_hundred_rows_in_a_batch(rt: HostRuntime) -> Result<(), Failed> {
    assert!(rt; outcome(rt.alloc())? == Outcome::Done);
    Ok(())
}
