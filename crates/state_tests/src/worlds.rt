//! Worlds that deltas at random are applied to, and what they are to hold.

use crate::deltas::{Drawing, delta, six_hundred_puts};
use crate::fixture::{bound, name, numbered};
use crate::held::{
    definitions_are_noted, hash_of, ids_are_noted, is_behind, is_noted_behind, key_is_noted,
    ranges_are_noted,
};
use crate::noted::{KEYS, NAMESPACE, Noted};
use policy::Definitions;
use rules::Delta;
use std::alloc::{AllocError, Global};
use test_support::{Failed, Outcome, begins};
use world::{RangeAnswer, ReadyDelta, World};

const BLOCKS: u32 = 2000;

// Of those that are applied to two worlds.
const SHARED_BLOCKS: u32 = 200;

fn apply(world: &mut World, delta: &Delta) -> Result<(), Failed> {
    Ok(world.apply(delta)?)
}

fn give(world: &mut World, ready: ReadyDelta) -> Result<(), Failed> {
    match world.apply_or_return(ready) {
        Ok(()) => Ok(()),
        Err(_) => Err(Failed::from(AllocError)),
    }
}

fn make_room(ready: &ReadyDelta, first: &mut World, second: &mut World) -> Result<(), AllocError> {
    let room = ready.room_in(first);
    first.reserve(room)?;
    second.reserve(room)
}

// As a publisher does: both have room, then the first is lent the delta, and the second is given it.
fn apply_to_both(
    alloc: Global,
    delta: Delta,
    first: &mut World,
    second: &mut World,
) -> Result<(), Failed> {
    let ready = ReadyDelta::new(alloc, delta)?;
    let definitions = first.definitions_behind(ready.delta())?;
    make_room(&ready, first, second)?;
    first.apply_ready(&ready, &definitions)?;
    match second.apply_given(ready, &definitions) {
        Ok(()) => Ok(()),
        Err(_) => Err(Failed::from(AllocError)),
    }
}

// Where memory is refused nothing is to have changed behind block 0, and the delta is applied once more.
fn outcome_of_lending(
    alloc: Global,
    delta: &Delta,
    world: &mut World,
    before: &Noted,
) -> Result<Outcome, Failed> {
    begins(alloc)?;
    if apply(world, delta).is_ok() {
        return Ok(Outcome::Done);
    }
    if !is_noted_behind(alloc, world, before, 0)? {
        return Ok(Outcome::Wrong);
    }
    apply(world, delta)?;
    Ok(Outcome::MadeGood)
}

// Of a delta that came back. It is given once more, where nothing has changed.
fn outcome_of_return(
    alloc: Global,
    back: ReadyDelta,
    world: &mut World,
    before: &Noted,
) -> Result<Outcome, Failed> {
    if !is_noted_behind(alloc, world, before, 0)? {
        return Ok(Outcome::Wrong);
    }
    give(world, back)?;
    Ok(Outcome::MadeGood)
}

fn outcome_of_gift(
    alloc: Global,
    delta: Delta,
    world: &mut World,
    before: &Noted,
) -> Result<Outcome, Failed> {
    let ready = ReadyDelta::new(alloc, delta)?;
    begins(alloc)?;
    match world.apply_or_return(ready) {
        Ok(()) => Ok(Outcome::Done),
        Err(back) => outcome_of_return(alloc, back, world, before),
    }
}

/// How a delta comes to a world.
#[derive(Clone, Copy)]
enum Way {
    Lent,
    Given,
}

/// A world, and what it is to hold.
#[derive(Drop)]
struct Worlds {
    drawing: Drawing,
    noted: Noted,
    world: World,
}

impl Worlds {
    fn new(alloc: Global) -> Worlds {
        Worlds {
            drawing: Drawing::new(),
            noted: Noted::new(alloc),
            world: World::new(alloc, Definitions::new(alloc)),
        }
    }

    // A delta at random, of which each list has up to `most`. What it does is noted.
    fn next(&mut self, alloc: Global, most: u8, block: u32) -> Result<Delta, Failed> {
        let hash = hash_of(block);
        delta(alloc, &mut self.drawing, &mut self.noted, most, hash)
    }

    fn apply_next(&mut self, alloc: Global, most: u8, block: u32) -> Result<(), Failed> {
        let next = self.next(alloc, most, block)?;
        apply(&mut self.world, &next)
    }

    fn apply_next_to_both(
        &mut self,
        alloc: Global,
        second: &mut World,
        block: u32,
    ) -> Result<(), Failed> {
        let next = self.next(alloc, 4, block)?;
        apply_to_both(alloc, next, &mut self.world, second)
    }

    // Whether the world holds what it is to hold behind a block: all ids, a key and ranges at random.
    fn is_right(&mut self, alloc: Global, block: u32) -> Result<bool, Failed> {
        let at = self.drawing.key();
        let start = self.drawing.up_to(KEYS as u8);
        let end = self.drawing.up_to(KEYS as u8);
        let is_key = key_is_noted(&self.world, &self.noted, at)?;
        let are_ranges = ranges_are_noted(alloc, &self.world, &self.noted, (start, end))?;
        let are_definitions = definitions_are_noted(alloc, &self.world, &self.noted)?;
        let are_ids = ids_are_noted(&self.world, &self.noted);
        Ok(is_key && are_ranges && are_definitions && are_ids && is_behind(&self.world, block))
    }

    // Whether each key is as noted behind this block.
    fn is_right_at_last(&self, alloc: Global, block: u32) -> Result<bool, Failed> {
        is_noted_behind(alloc, &self.world, &self.noted, block)
    }

    // How many blocks are applied rightly.
    fn blocks_applied(&mut self, alloc: Global) -> Result<u32, Failed> {
        for block in 0..BLOCKS {
            self.apply_next(alloc, 4, block)?;
            if !self.is_right(alloc, block)? {
                return Ok(block);
            }
        }
        if !self.is_right_at_last(alloc, BLOCKS - 1)? {
            return Ok(BLOCKS - 1);
        }
        Ok(BLOCKS)
    }

    fn blocks_shared(&mut self, alloc: Global, second: &mut World) -> Result<u32, Failed> {
        for block in 0..SHARED_BLOCKS {
            self.apply_next_to_both(alloc, second, block)?;
            if !self.is_right(alloc, block)? {
                return Ok(block);
            }
        }
        if !self.is_right_at_last(alloc, SHARED_BLOCKS - 1)?
            || !is_noted_behind(alloc, second, &self.noted, SHARED_BLOCKS - 1)?
        {
            return Ok(SHARED_BLOCKS - 1);
        }
        Ok(SHARED_BLOCKS)
    }

    fn is_kept(&self, block: u32) -> bool {
        match self.world.block(block as u64) {
            None => false,
            Some(kept) => kept.header_hash == hash_of(block),
        }
    }

    fn are_two_kept(&mut self, alloc: Global) -> Result<bool, Failed> {
        self.apply_next(alloc, 0, 0)?;
        self.apply_next(alloc, 0, 1)?;
        Ok(self.is_kept(0) && self.is_kept(1) && self.world.block(2).is_none())
    }

    fn outcome_of_next(
        &mut self,
        alloc: Global,
        way: Way,
        before: &Noted,
    ) -> Result<Outcome, Failed> {
        let next = self.next(alloc, 40, 1)?;
        match way {
            Way::Lent => outcome_of_lending(alloc, &next, &mut self.world, before),
            Way::Given => outcome_of_gift(alloc, next, &mut self.world, before),
        }
    }

    // Of the second delta.
    fn outcome(&mut self, alloc: Global, way: Way) -> Result<Outcome, Failed> {
        self.apply_next(alloc, 40, 0)?;
        let before = self.noted.copy(alloc)?;
        let outcome = self.outcome_of_next(alloc, way, &before)?;
        if !self.is_right_at_last(alloc, 1)? {
            return Ok(Outcome::Wrong);
        }
        Ok(outcome)
    }
}

fn blocks_applied(alloc: Global) -> Result<u32, Failed> {
    let mut worlds = Worlds::new(alloc);
    worlds.blocks_applied(alloc)
}

#[test]
fn random_deltas(rt: HostRuntime) -> Result<(), Failed> {
    let blocks = blocks_applied(rt.alloc())?;
    assert!(rt; blocks == BLOCKS, "behind block {blocks}");
    Ok(())
}

fn are_two_kept(alloc: Global) -> Result<bool, Failed> {
    let mut worlds = Worlds::new(alloc);
    worlds.are_two_kept(alloc)
}

#[test]
fn blocks_are_kept(rt: HostRuntime) -> Result<(), Failed> {
    assert!(rt; are_two_kept(rt.alloc())?);
    Ok(())
}

fn blocks_shared(alloc: Global) -> Result<u32, Failed> {
    let mut worlds = Worlds::new(alloc);
    let mut second = World::new(alloc, Definitions::new(alloc));
    worlds.blocks_shared(alloc, &mut second)
}

#[test]
fn one_batch_serves_two_worlds(rt: HostRuntime) -> Result<(), Failed> {
    let blocks = blocks_shared(rt.alloc())?;
    assert!(rt; blocks == SHARED_BLOCKS, "behind block {blocks}");
    Ok(())
}

fn outcome_of(alloc: Global, way: Way) -> Result<Outcome, Failed> {
    let mut worlds = Worlds::new(alloc);
    worlds.outcome(alloc, way)
}

/// What comes of a delta that is lent.
pub fn outcome(alloc: Global) -> Result<Outcome, Failed> {
    outcome_of(alloc, Way::Lent)
}

/// What comes of a delta that is given away.
pub fn outcome_of_giving(alloc: Global) -> Result<Outcome, Failed> {
    outcome_of(alloc, Way::Given)
}

// To be tried with memory that is refused at any one allocation of the second `apply`, by `bench/refused_memory.py`. Where it
// is refused before or after, it ends by `?`.
#[test]
fn a_delta_at_last(rt: HostRuntime) -> Result<(), Failed> {
    assert!(rt; outcome(rt.alloc())? == Outcome::Done);
    Ok(())
}

// A delta that is given away and comes back, with refused memory too.
#[test]
fn a_delta_that_comes_back(rt: HostRuntime) -> Result<(), Failed> {
    assert!(rt; outcome_of_giving(rt.alloc())? == Outcome::Done);
    Ok(())
}

fn is_first_half(answer: &RangeAnswer<'_>) -> bool {
    let mut number: u32 = 0;
    for row in answer.rows.iter() {
        if row.key().as_slice() != numbered(number).as_slice() {
            return false;
        }
        number = number.wrapping_add(1);
    }
    answer.more && number == 300
}

fn is_half_answered(alloc: Global, world: &World) -> Result<bool, Failed> {
    let all = bound(b"")?;
    let answer = world.range(alloc, &name(NAMESPACE)?, &all, &all, 300)?;
    Ok(is_first_half(&answer))
}

fn put_six_hundred(alloc: Global, world: &mut World) -> Result<(), Failed> {
    let delta = six_hundred_puts(alloc)?;
    apply(world, &delta)
}

fn is_range_of_300(alloc: Global) -> Result<bool, Failed> {
    let mut world = World::new(alloc, Definitions::new(alloc));
    put_six_hundred(alloc, &mut world)?;
    is_half_answered(alloc, &world)
}

#[test]
fn a_range_of_300(rt: HostRuntime) -> Result<(), Failed> {
    assert!(rt; is_range_of_300(rt.alloc())?);
    Ok(())
}
