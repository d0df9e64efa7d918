use crate::fixture::definition_text;
use crate::scripted::ScriptedPeer;
use crate::shown::{is_row, shown};
use crate::update_rows::FIRST_POLICY;
use block::BlockVersion;
use chain_vectors::LeftRow;
use rules::Refused;
use std::alloc::Global;
use test_support::{Failed, Outcome, begins, check};
use values::Bytes;
use world::World;

const FIRST: &str = "\
tx Org1:client:c0 n1 cc
ns cc
write a v
write c v
endorse Org1:peer:p0
";

// A write, a policy write and a range.
const THREE: &str = "\
tx Org1:client:c0 n2 cc
ns cc
write k value
endorse Org1:peer:p0
tx Org1:client:c0 n3 cc
ns cc
policy a AND('Org1.peer','Org2.peer')
endorse Org1:peer:p0
tx Org1:client:c0 n4 cc
ns cc
range b d all
result c 0 0
endorse Org1:peer:p0
";

/// The second block: its version, which the first one has too, its script, its flags, and what it leaves at `k` and as the policy
/// of `cc`.
struct Second {
    version: BlockVersion,
    script: &'static str,
    flags: &'static [u8],
    row: Option<LeftRow>,
    policy: &'static str,
}

static TXS: Second = Second {
    version: BlockVersion::V1,
    script: THREE,
    flags: &[0, 0, 0],
    row: Some(LeftRow {
        value: b"value",
        block: 1,
        tx: 0,
        policy: "",
    }),
    policy: FIRST_POLICY,
};

static UPDATE: Second = Second {
    version: BlockVersion::V2,
    script: "update Org1:client:c0 n2 cc AND('Org1.peer','Org2.peer')\nendorse Org1:peer:p0\n",
    flags: &[0],
    row: None,
    policy: "AND('Org1.peer','Org2.peer')",
};

// Wants the world as it was shown before, in which `k` isn't written.
fn check_as_before(alloc: Global, world: &World, before: &[u8]) -> Result<(), Failed> {
    let shown = shown(alloc, world)?;
    check(shown.as_slice() == before)?;
    check(is_row(alloc, world, b"cc", b"k", &None)?)
}

fn check_policy(alloc: Global, world: &World, policy: &str) -> Result<(), Failed> {
    let text = definition_text(alloc, world.definitions(), b"cc")?;
    check(text.as_str() == policy)
}

fn check_behind_both(alloc: Global, world: &World, second: &Second) -> Result<(), Failed> {
    check(world.height() == 2)?;
    check(is_row(alloc, world, b"cc", b"k", &second.row)?)?;
    check_policy(alloc, world, second.policy)
}

// Wants that the refused bytes changed nothing, and the same are taken next.
fn check_made_good(
    alloc: Global,
    peer: &mut ScriptedPeer,
    second: &Second,
    before: &[u8],
) -> Result<(), Failed> {
    check_as_before(alloc, peer.world(), before)?;
    check(peer.is_taken(alloc, second.script, second.flags)?)?;
    check_behind_both(alloc, peer.world(), second)
}

fn outcome_of_submit(
    alloc: Global,
    peer: &mut ScriptedPeer,
    second: &Second,
    before: &[u8],
    block: &Bytes,
) -> Result<Outcome, Failed> {
    begins(alloc)?;
    match peer.refusal_of(block.as_slice()) {
        None => {
            check_behind_both(alloc, peer.world(), second)?;
            Ok(Outcome::Done)
        }
        Some(Refused::Memory) => {
            check_made_good(alloc, peer, second, before)?;
            Ok(Outcome::MadeGood)
        }
        Some(_) => Ok(Outcome::Wrong),
    }
}

fn outcome_of_block(
    alloc: Global,
    peer: &mut ScriptedPeer,
    second: &Second,
    before: &[u8],
) -> Result<Outcome, Failed> {
    let block = peer.block(alloc, second.script)?;
    outcome_of_submit(alloc, peer, second, before, &block)
}

fn outcome_behind_first(
    alloc: Global,
    peer: &mut ScriptedPeer,
    second: &Second,
) -> Result<Outcome, Failed> {
    let before = shown(alloc, peer.world())?;
    outcome_of_block(alloc, peer, second, &before)
}

fn outcome_by(alloc: Global, peer: &mut ScriptedPeer, second: &Second) -> Result<Outcome, Failed> {
    check(peer.is_taken(alloc, FIRST, &[0])?)?;
    check_policy(alloc, peer.world(), FIRST_POLICY)?;
    outcome_behind_first(alloc, peer, second)
}

fn outcome_of_second(alloc: Global, second: &Second) -> Result<Outcome, Failed> {
    let admin = "admin OR('Org1.peer','Org2.peer')\n";
    let mut peer = ScriptedPeer::with_line(alloc, second.version, admin)?;
    outcome_by(alloc, &mut peer, second)
}

/// What comes of a block of three transactions.
pub fn outcome(alloc: Global) -> Result<Outcome, Failed> {
    outcome_of_second(alloc, &TXS)
}

/// What comes of a block of an update.
pub fn outcome_of_update(alloc: Global) -> Result<Outcome, Failed> {
    outcome_of_second(alloc, &UPDATE)
}

// To be tried with memory that is refused at any one allocation of the submit, by `bench/refused_memory.py`: then the world
// is as before, and takes the same bytes next. Where it is refused before or after, it ends by `?`.
#[test]
fn three_transactions(rt: HostRuntime) -> Result<(), Failed> {
    assert!(rt; outcome(rt.alloc())? == Outcome::Done);
    Ok(())
}

#[test]
fn an_update(rt: HostRuntime) -> Result<(), Failed> {
    assert!(rt; outcome_of_update(rt.alloc())? == Outcome::Done);
    Ok(())
}
