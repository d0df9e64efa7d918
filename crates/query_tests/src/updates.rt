//! Updates of definitions by committers, as the ledger takes them.

use crate::at_random::AtRandom;
use crate::committing::{Blocks, Course, check_seeds};
use std::alloc::{AllocError, Global};
use test_support::{Failed, Random};

// The last has no definition.
const CHAINCODES: [&str; 4] = ["cc", "cc", "dd", "zz"];

// The last is no policy.
const POLICIES: [&str; 6] = [
    "'Org1.peer'",
    "'Org2.peer'",
    "AND('Org1.peer','Org2.peer')",
    "OR('Org1.peer','Org2.peer')",
    "'Org9.peer'",
    "AND(",
];

// One in eight without an endorsement.
fn put_update(alloc: Global, script: &mut String, random: &mut Random) -> Result<(), AllocError> {
    let nonce = random.below(100);
    let chaincode = CHAINCODES[random.below(4) as usize];
    let policy = POLICIES[random.below(6) as usize];
    let line = format!(in alloc; "update Org1:client:c0 u{nonce} {chaincode} {policy}\n")?;
    script.push_str(line.as_str())?;
    if random.one_of(8) {
        return Ok(());
    }
    script.push_str("endorse Org2:peer:q0\n")
}

/// A script of an update alone, or seldom with another one, or bytes that are none, beside it.
pub fn script_of_updates(alloc: Global, random: &mut Random) -> Result<String, AllocError> {
    let mut script = String::new(alloc);
    put_update(alloc, &mut script, random)?;
    match random.below(8) {
        0 => put_update(alloc, &mut script, random)?,
        1 => script.push_str("raw\n")?,
        _ => {}
    }
    Ok(script)
}

const ONE_BY_ONE: Course = Course {
    times: 5,
    blocks: 1,
    kind: Blocks::AtRandom(AtRandom {
        before: 2,
        behind: 0,
        has_updates: true,
        is_noted: true,
    }),
    is_run: false,
};

#[test]
fn updates_as_the_ledger(rt: HostRuntime) -> Result<(), Failed> {
    let updated = check_seeds(&rt, rt.alloc(), 80, ONE_BY_ONE, 23)?;
    assert!(rt; updated >= 50, "{updated}");
    Ok(())
}

const AT_ONCE: Course = Course {
    times: 1,
    blocks: 5,
    kind: Blocks::AtRandom(AtRandom {
        before: 3,
        behind: 3,
        has_updates: true,
        is_noted: false,
    }),
    is_run: true,
};

#[test]
fn runs_of_updates_as_the_ledger(rt: HostRuntime) -> Result<(), Failed> {
    assert!(rt; check_seeds(&rt, rt.alloc(), 50, AT_ONCE, 29)? == 0);
    Ok(())
}
