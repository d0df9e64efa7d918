//! Many lists of checks in no good order, with repeats and numbers out of range.

use crate::asking::{Numbers, TXS, found, numbers};
use crate::building::Ground;
use crate::rows::{BlockCase, blocks};
use dependency::NOT_VALIDATED;
use key_chains::Job;
use rules::Event;
use std::alloc::Global;
use test_support::Failed;

const LISTS: u32 = 10_000;

const CHECKS: usize = 40;

/// A linear congruence.
#[derive(Clone, Copy)]
struct Schedules {
    x: u64,
}

impl Schedules {
    fn new() -> Schedules {
        Schedules { x: 1 }
    }

    fn event(&mut self) -> Event {
        let drawn = (self.x / 65536 % 12) as u32;
        self.x = self.x.wrapping_mul(1_103_515_245).wrapping_add(12_345) % 2_147_483_648;
        if drawn < 6 {
            Event::Endorse(drawn)
        } else {
            Event::Reads(drawn - 6)
        }
    }

    fn list(&mut self) -> [Event; CHECKS] {
        let mut list = [Event::Endorse(0); CHECKS];
        for event in &mut list {
            *event = self.event();
        }
        list
    }
}

// The list, and behind it the endorsement check of each transaction, and then the read check of each.
fn completed(list: &[Event; CHECKS]) -> [Event; CHECKS + 2 * TXS] {
    let mut all = [Event::Endorse(0); CHECKS + 2 * TXS];
    for (place, event) in all.iter_mut().zip(list) {
        *place = *event;
    }
    for i in 0..TXS {
        all[CHECKS + i] = Event::Endorse(i as u32);
        all[CHECKS + TXS + i] = Event::Reads(i as u32);
    }
    all
}

fn is_known(flag: u8) -> bool {
    flag != NOT_VALIDATED
}

// Whether each flag that is known is that of the block.
fn are_right(found: &Numbers, wanted: &Numbers) -> bool {
    for i in 0..TXS {
        if is_known(found[i]) && found[i] != wanted[i] {
            return false;
        }
    }
    true
}

/// What was seen of lists.
#[derive(Clone, Copy)]
struct Seen {
    /// Those behind which each known flag is right, and all are known and right with all checks behind them.
    right: u32,
    /// Those that found all flags, and those that didn't.
    full: u32,
    partial: u32,
}

fn add_one(count: &mut u32) {
    *count = count.saturating_add(1);
}

impl Seen {
    fn count(&mut self, found: &Numbers, behind_all: &Numbers, wanted: &Numbers) {
        if are_right(found, wanted) && behind_all == wanted {
            add_one(&mut self.right);
        }
        if found == wanted {
            add_one(&mut self.full);
        } else {
            add_one(&mut self.partial);
        }
    }
}

fn seen_of(alloc: Global, job: &Job<'_, '_>, flags: &[u8]) -> Result<Seen, Failed> {
    let wanted = numbers(flags);
    let mut schedules = Schedules::new();
    let mut seen = Seen {
        right: 0,
        full: 0,
        partial: 0,
    };
    for _ in 0..LISTS {
        let list = schedules.list();
        let found_by_it = found(alloc, job, &list)?;
        let behind_all = found(alloc, job, &completed(&list))?;
        seen.count(&found_by_it, &behind_all, &wanted);
    }
    Ok(seen)
}

fn seen_on(alloc: Global, ground: &Ground, flags: &[u8]) -> Result<Seen, Failed> {
    let job = ground.job(alloc)?;
    seen_of(alloc, &job, flags)
}

fn seen_in(alloc: Global, case: &BlockCase) -> Result<Seen, Failed> {
    let ground = Ground::of(alloc, case.rows, case.script)?;
    seen_on(alloc, &ground, case.flags)
}

#[test]
fn lists_at_random(rt: HostRuntime) -> Result<(), Failed> {
    for case in blocks() {
        let seen = seen_in(rt.alloc(), case)?;
        assert!(rt; seen.right == LISTS && seen.full > 0 && seen.partial > 0);
    }
    Ok(())
}
