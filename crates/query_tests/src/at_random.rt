//! Blocks at random, and spoiled ones around them.

use crate::blocks::Drafter;
use crate::spoiling::spoiled;
use crate::story::Story;
use crate::updates::script_of_updates;
use block::BlockVersion;
use std::alloc::Global;
use test_support::{Failed, Random, script};
use values::Bytes;
use world::World;

// The rows that the scripts at random expect.
const FIRST: &str = "
tx Org1:client:c0 first cc
ns cc
write a v
write b v
policy b 'Org1.peer'
write c v
policy c AND('Org1.peer','Org2.peer')
endorse Org1:peer:p0
";

/// What the blocks are, and what stands around them.
#[derive(Clone, Copy)]
pub struct AtRandom {
    /// So many spoiled blocks stand before each right one,
    pub before: u32,
    /// and so many behind it.
    pub behind: u32,
    pub has_updates: bool,
    /// Whether a story notes what they use, and which updates in them are valid.
    pub is_noted: bool,
}

// That of the last block, or seldom a newer one.
fn version_at_random(random: &mut Random, world: &World) -> BlockVersion {
    if random.one_of(8) {
        BlockVersion::V2
    } else {
        world.version()
    }
}

fn next_block(
    alloc: Global,
    drafter: &Drafter,
    random: &mut Random,
    has_updates: bool,
) -> Result<Bytes, Failed> {
    if drafter.world().height() == 0 {
        return drafter.drafted(BlockVersion::V1, FIRST);
    }
    if has_updates && random.one_of(2) {
        return drafter.drafted_of(BlockVersion::V2, script_of_updates(alloc, random));
    }
    let script = script(alloc, random);
    drafter.drafted_of(version_at_random(random, drafter.world()), script)
}

// How many definitions the block changes. What it uses is noted.
fn note(story: &mut Story, bytes: &Bytes) -> Result<usize, Failed> {
    let delta = story.drafter.delta(bytes)?;
    story.uses.extend_from_slice(delta.uses.get().as_slice())?;
    Ok(delta.definitions.len())
}

// The bytes of the block before, or what any block begins with.
fn bytes_of(before: &Option<Bytes>) -> &[u8] {
    match before {
        Some(bytes) => bytes.as_slice(),
        None => b"FBK1",
    }
}

fn next_spoiled(story: &mut Story, bytes: &Bytes) -> Result<Bytes, Failed> {
    let other = bytes_of(&story.before);
    spoiled(story.alloc, &mut story.random, bytes.as_slice(), other)
}

fn add_spoiled(story: &mut Story, bytes: &Bytes, count: u32) -> Result<(), Failed> {
    for _ in 0..count {
        let spoiled = next_spoiled(story, bytes)?;
        story.add(spoiled)?;
    }
    Ok(())
}

// Whether the last block has these bytes, and no spoiled one stands in its place.
fn is_last(world: &World, bytes: &Bytes) -> bool {
    match world.block(world.height().saturating_sub(1)) {
        Some(kept) => kept.bytes.get().is_same(bytes),
        None => false,
    }
}

// The block itself.
fn add_right(story: &mut Story, bytes: &Bytes, updates: usize) -> Result<(), Failed> {
    story.add(bytes.copy(story.alloc)?)?;
    story.before = Some(bytes.copy(story.alloc)?);
    if is_last(story.drafter.world(), bytes) {
        story.updated = story.updated.saturating_add(updates);
    }
    Ok(())
}

fn add_block(story: &mut Story, bytes: &Bytes, kind: AtRandom) -> Result<(), Failed> {
    let updates = if kind.is_noted {
        note(story, bytes)?
    } else {
        0
    };
    add_spoiled(story, bytes, kind.before)?;
    add_right(story, bytes, updates)?;
    add_spoiled(story, bytes, kind.behind)
}

/// The next block, and what stands around it.
pub fn add_next(story: &mut Story, kind: AtRandom) -> Result<(), Failed> {
    let bytes = next_block(
        story.alloc,
        &story.drafter,
        &mut story.random,
        kind.has_updates,
    )?;
    add_block(story, &bytes, kind)
}
