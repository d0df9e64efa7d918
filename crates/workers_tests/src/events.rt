//! Lists of checks, and the flags that they find.

use crate::asking::{Numbers, found, numbers};
use crate::building::Ground;
use crate::rows::{BlockCase, flagged, readers_and_writers, updates};
use dependency::NOT_VALIDATED;
use rules::Event;
use std::alloc::Global;
use test_support::Failed;

/// The block whose checks are listed.
#[derive(Clone, Copy)]
enum Of {
    ReadersAndWriters,
    Flagged,
    Update,
    RefusedUpdate,
}

impl Of {
    fn case(self) -> &'static BlockCase {
        match self {
            Of::ReadersAndWriters => readers_and_writers(),
            Of::Flagged => flagged(),
            Of::Update => &updates()[0],
            Of::RefusedUpdate => &updates()[1],
        }
    }
}

// A list, and the flags up to the last one that is known.
type Checks = (Of, &'static [Event], &'static [u8]);

fn found_on(alloc: Global, ground: &Ground, events: &[Event]) -> Result<Numbers, Failed> {
    let job = ground.job(alloc)?;
    found(alloc, &job, events)
}

// The flags that these checks of a block find.
fn found_in(alloc: Global, case: &BlockCase, events: &[Event]) -> Result<Numbers, Failed> {
    let ground = Ground::of(alloc, case.rows, case.script)?;
    found_on(alloc, &ground, events)
}

fn lists() -> &'static [Checks] {
    &LISTS
}

const UNKNOWN: u8 = NOT_VALIDATED;

static LISTS: [Checks; 16] = [
    // readers behind writers
    (Of::ReadersAndWriters, &[], &[]),
    (
        Of::ReadersAndWriters,
        &[Event::Reads(1), Event::Endorse(0), Event::Reads(0)],
        &[0],
    ),
    (
        Of::ReadersAndWriters,
        &[
            Event::Reads(1),
            Event::Endorse(0),
            Event::Reads(0),
            Event::Endorse(1),
            Event::Reads(1),
            Event::Reads(1),
            Event::Endorse(9),
        ],
        &[0, 11],
    ),
    // nobody writes what the last one reads
    (
        Of::ReadersAndWriters,
        &[Event::Endorse(4), Event::Reads(4)],
        &[UNKNOWN, UNKNOWN, UNKNOWN, UNKNOWN, 0],
    ),
    // what the first and the third write is read, and nothing is known of them
    (
        Of::ReadersAndWriters,
        &[Event::Endorse(3), Event::Reads(3)],
        &[],
    ),
    (
        Of::ReadersAndWriters,
        &[
            Event::Endorse(0),
            Event::Endorse(2),
            Event::Endorse(3),
            Event::Reads(0),
            Event::Reads(2),
            Event::Reads(3),
        ],
        &[0, UNKNOWN, 0, 11],
    ),
    // flags that no check decides
    (Of::Flagged, &[], &[2, 25]),
    (
        Of::Flagged,
        &[
            Event::Endorse(0),
            Event::Reads(0),
            Event::Reads(1),
            Event::Endorse(2),
            Event::Reads(2),
        ],
        &[2, 25, 0],
    ),
    // behind the first three lists the flag of an update isn't known
    (Of::Update, &[Event::Endorse(0)], &[]),
    (Of::Update, &[Event::Reads(0)], &[]),
    (Of::Update, &[Event::Reads(0), Event::Endorse(0)], &[]),
    (Of::Update, &[Event::Endorse(0), Event::Reads(0)], &[0]),
    (Of::RefusedUpdate, &[Event::Endorse(0)], &[]),
    (Of::RefusedUpdate, &[Event::Reads(0)], &[]),
    (
        Of::RefusedUpdate,
        &[Event::Reads(0), Event::Endorse(0)],
        &[],
    ),
    (
        Of::RefusedUpdate,
        &[Event::Endorse(0), Event::Reads(0)],
        &[6],
    ),
];

// Whether the list finds these flags, and no other ones.
fn are_found(alloc: Global, checks: &Checks) -> Result<bool, Failed> {
    let (of, events, flags) = *checks;
    Ok(found_in(alloc, of.case(), events)? == numbers(flags))
}

#[test]
fn checks_in_lists(rt: HostRuntime) -> Result<(), Failed> {
    for (row, checks) in lists().iter().enumerate() {
        assert!(rt; are_found(rt.alloc(), checks)?, "list {row}");
    }
    Ok(())
}
