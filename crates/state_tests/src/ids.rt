//! Ids, and where they were used first.

use rules::{FirstUse, Flag, NewUse};
use std::alloc::Global;
use std::hash::{FoldHasher, Hasher};
use test_support::Failed;
use txid_index::TxIds;
use values::{Items, Shared};

/// What is done, and what has to be so.
#[derive(Clone, Copy)]
enum Step {
    Reserve(usize),
    // one list of uses, each an id and a place
    Add(&'static [(u8, u32)]),
    Room(usize),
    // an id and the place of its first use, if it was used
    First(u8, Option<u32>),
    // which ids of a block are marked
    Marks(&'static [bool]),
}

// How ids end that have one hash, those of the letters 1, 2 and 3.
static ALIKE: [[u8; 8]; 3] = [*b"00327928", *b"00450748", *b"03334139"];

// Any other id is 64 times its letter.
fn id_of(letter: u8) -> [u8; 64] {
    match ALIKE.get(letter.wrapping_sub(b'1') as usize) {
        None => [letter; 64],
        Some(end) => {
            let mut id = [b'0'; 64];
            id[56..].copy_from_slice(end);
            id
        }
    }
}

// A use in block 7.
fn use_at(place: u32) -> FirstUse {
    FirstUse {
        block: 7,
        place,
        flag: Flag::Valid,
    }
}

fn listed(alloc: Global, uses: &[(u8, u32)]) -> Result<Shared<Items<NewUse>>, Failed> {
    let mut list = Items::new(alloc);
    for (letter, place) in uses {
        list.push(NewUse {
            id: id_of(*letter),
            first_use: use_at(*place),
        })?;
    }
    Ok(Shared::new(alloc, list)?)
}

fn add(alloc: Global, ids: &mut TxIds, uses: &[(u8, u32)]) -> Result<bool, Failed> {
    let list = listed(alloc, uses)?;
    if ids.room() < list.get().len() {
        return Err(Failed::Missing("room"));
    }
    ids.add(list);
    Ok(true)
}

fn is_first(ids: &TxIds, letter: u8, place: Option<u32>) -> bool {
    let expected = match place {
        None => None,
        Some(place) => Some(use_at(place)),
    };
    ids.first_use(&id_of(letter)) == expected
}

// Of a block of these ids, and of places without one.
fn are_marks(alloc: Global, ids: &TxIds, marks: &[bool]) -> Result<bool, Failed> {
    let block = [
        None,
        Some(id_of(b'b')),
        Some(id_of(b'a')),
        Some(id_of(b'b')),
        None,
        Some(id_of(b'c')),
    ];
    Ok(ids.mark(alloc, &block)?.as_slice() == marks)
}

fn is_step(alloc: Global, ids: &mut TxIds, step: Step) -> Result<bool, Failed> {
    match step {
        Step::Reserve(room) => {
            ids.reserve(room)?;
            Ok(true)
        }
        Step::Add(uses) => add(alloc, ids, uses),
        Step::Room(room) => Ok(ids.room() == room),
        Step::First(letter, place) => Ok(is_first(ids, letter, place)),
        Step::Marks(marks) => are_marks(alloc, ids, marks),
    }
}

fn are_steps_of(alloc: Global, ids: &mut TxIds, steps: &[Step]) -> Result<bool, Failed> {
    for step in steps {
        if !is_step(alloc, ids, *step)? {
            return Ok(false);
        }
    }
    Ok(true)
}

fn are_steps(alloc: Global, steps: &[Step]) -> Result<bool, Failed> {
    let mut ids = TxIds::new(alloc);
    are_steps_of(alloc, &mut ids, steps)
}

fn scenarios() -> &'static [(&'static str, &'static [Step])] {
    &SCENARIOS
}

static SCENARIOS: [(&str, &[Step]); 5] = [
    (
        "no room is asked for",
        &[
            Step::Reserve(0),
            Step::Room(0),
            Step::First(b'a', None),
            Step::Add(&[]),
            Step::First(b'a', None),
        ],
    ),
    (
        "the first use stays, in a list and behind it",
        &[
            Step::Reserve(3),
            Step::Room(3),
            Step::Add(&[(b'a', 1), (b'a', 2)]),
            Step::Room(0),
            Step::Reserve(2),
            Step::Add(&[(b'b', 3), (b'a', 4)]),
            Step::First(b'a', Some(1)),
            Step::First(b'b', Some(3)),
            Step::First(b'c', None),
        ],
    ),
    (
        "ids of one hash are told apart, in one list",
        &[
            Step::Reserve(4),
            Step::Add(&[(b'1', 1), (b'2', 2), (b'1', 3), (b'2', 4)]),
            Step::First(b'1', Some(1)),
            Step::First(b'2', Some(2)),
            Step::First(b'3', None),
        ],
    ),
    (
        "and in several",
        &[
            Step::Reserve(1),
            Step::Add(&[(b'2', 1)]),
            Step::First(b'1', None),
            Step::Reserve(2),
            Step::Add(&[(b'1', 2), (b'a', 3)]),
            Step::Reserve(3),
            Step::Add(&[(b'1', 4), (b'2', 5), (b'3', 6)]),
            Step::First(b'1', Some(2)),
            Step::First(b'2', Some(1)),
            Step::First(b'3', Some(6)),
            Step::First(b'a', Some(3)),
        ],
    ),
    (
        "ids of a block are marked",
        &[
            Step::Reserve(1),
            Step::Add(&[(b'a', 0)]),
            Step::Marks(&[false, false, true, true, false, false]),
        ],
    ),
];

fn hash_of(letter: u8) -> u64 {
    let mut hasher = FoldHasher::default();
    hasher.write(&id_of(letter));
    hasher.finish() % (1 << 32)
}

#[test]
fn ids_have_one_hash(rt: HostRuntime) {
    assert!(rt; hash_of(b'1') == hash_of(b'2') && hash_of(b'2') == hash_of(b'3'));
    assert!(rt; hash_of(b'1') != hash_of(b'a'));
}

#[test]
fn uses_of_ids(rt: HostRuntime) -> Result<(), Failed> {
    for &(scenario, steps) in scenarios() {
        assert!(rt; are_steps(rt.alloc(), steps)?, "{scenario}");
    }
    Ok(())
}
