use crate::random::Random;
use std::alloc::{AllocError, Global};

const KEYS: [&str; 5] = ["a", "b", "c", "d", "e"];

const RANGES: [&str; 8] = [
    "range % % all\nresult a 0 0\nresult b 0 0\nresult c 0 0\n",
    "range % c all\nresult a 0 0\nresult b 0 0\n",
    "range b % all\nresult b 0 0\nresult c 0 0\n",
    "range a d part\nresult a 0 0\nresult b 0 0\n",
    "range a % part\nresult b 0 0\n",
    "range b c all\nresult b 1 0\n",
    "range d % all\n",
    "range % % part\n",
];

const POLICIES: [&str; 3] = ["'Org1.peer'", "OR('Org1.peer','Org2.peer')", "'Org2.peer'"];

fn put(
    alloc: Global,
    script: &mut String,
    kind: &str,
    key: &str,
    rest: &str,
) -> Result<(), AllocError> {
    let line = format!(in alloc; "{kind} {key}{rest}\n")?;
    script.push_str(line.as_str())
}

fn put_read(
    alloc: Global,
    script: &mut String,
    random: &mut Random,
    at: usize,
) -> Result<(), AllocError> {
    let key = KEYS[at % 5];
    if random.one_of(5) {
        let tx = random.below(4);
        let version = format!(in alloc; " 1 {tx}")?;
        return put(alloc, script, "read", key, version.as_str());
    }
    // mostly as it is before the block
    let is_there = at < 3 && !random.one_of(12);
    put(
        alloc,
        script,
        "read",
        key,
        if is_there { " 0 0" } else { " absent" },
    )
}

fn put_write(
    alloc: Global,
    script: &mut String,
    random: &mut Random,
    at: usize,
) -> Result<(), AllocError> {
    let key = KEYS[at % 5];
    if random.one_of(3) {
        put(alloc, script, "delete", key, "")
    } else {
        put(alloc, script, "write", key, " v")
    }
}

fn put_policy(
    alloc: Global,
    script: &mut String,
    random: &mut Random,
    at: usize,
) -> Result<(), AllocError> {
    let key = KEYS[at % 5];
    if random.one_of(3) {
        return put(alloc, script, "nopolicy", key, "");
    }
    let text = POLICIES[random.below(3) as usize % 3];
    script.push_str("policy ")?;
    put(alloc, script, key, text, "")
}

fn put_uses(alloc: Global, script: &mut String, random: &mut Random) -> Result<(), AllocError> {
    for at in 0..5 {
        if random.one_of(4) {
            put_read(alloc, script, random, at)?;
        }
        if random.one_of(4) {
            put_write(alloc, script, random, at)?;
        }
        if random.one_of(10) {
            put_policy(alloc, script, random, at)?;
        }
    }
    Ok(())
}

fn put_tx(
    alloc: Global,
    script: &mut String,
    random: &mut Random,
    number: u8,
) -> Result<(), AllocError> {
    if random.one_of(16) {
        return script.push_str("raw\n");
    }
    let first = format!(in alloc; "tx Org1:client:c0 n{number} cc\nns cc\n")?;
    script.push_str(first.as_str())?;
    put_uses(alloc, script, random)?;
    if random.one_of(4) {
        script.push_str(RANGES[random.below(8) as usize % 8])?;
    }
    if !random.one_of(8) {
        script.push_str("endorse Org1:peer:p0\n")?;
    }
    if !random.one_of(3) {
        script.push_str("endorse Org2:peer:q0\n")?;
    }
    Ok(())
}

/// A script of one to twelve transactions of `Org1:client:c0` on the chaincode `cc`, endorsed by `Org1:peer:p0` and
/// `Org2:peer:q0`, by one or by none of them.
pub fn script(alloc: Global, random: &mut Random) -> Result<String, AllocError> {
    let mut script = String::new(alloc);
    for number in 0..=random.below(12) {
        put_tx(alloc, &mut script, random, number)?;
    }
    Ok(script)
}
