//! Channels of the longest parts and the most chaincodes, and beyond.

use super::{LONGEST, fault_of, is_channel, is_defined};
use channel::{Channel, ChannelFault};
use policy::{Definitions, PolicyFault};
use std::alloc::{AllocError, Global};

// The part so many times between two others.
fn repeated(
    alloc: Global,
    front: &str,
    part: &str,
    count: u32,
    back: &str,
) -> Result<String, AllocError> {
    let mut text = String::from_str(alloc, front)?;
    for _ in 0..count {
        text.push_str(part)?;
    }
    text.push_str(back)?;
    Ok(text)
}

// Whether a policy of the most bytes is read. `OR(` and `'A.peer')` have 12 bytes.
fn is_longest_read(alloc: Global) -> Result<bool, ChannelFault> {
    let text = repeated(
        alloc,
        "channel ch\nchaincode cc OR(",
        " ",
        4084,
        "'A.peer')\n",
    )?;
    is_channel(alloc, text.as_str(), "ch", &[("cc", "OR('A.peer')")])
}

fn fault_of_repeated(
    alloc: Global,
    front: &str,
    part: &str,
    count: u32,
    back: &str,
) -> Result<Option<ChannelFault>, AllocError> {
    let text = repeated(alloc, front, part, count, back)?;
    Ok(fault_of(alloc, text.as_str()))
}

fn beyond_limits() -> &'static [(&'static str, &'static str, u32, &'static str, ChannelFault)] {
    &BEYOND_LIMITS
}

static BEYOND_LIMITS: [(&str, &str, u32, &str, ChannelFault); 4] = [
    (
        "channel ch\nchaincode cc OR( ",
        " ",
        4084,
        "'A.peer')\n",
        ChannelFault::Policy(2, PolicyFault::TooLarge),
    ),
    // 32 gates have 96 bytes.
    (
        "chaincode cc ",
        "OR(",
        33,
        "'A.peer'",
        ChannelFault::Policy(1, PolicyFault::TooDeep { at: 96 }),
    ),
    // Names.
    ("channel ", LONGEST, 1, "m\n", ChannelFault::Line(1)),
    (
        "channel ch\nchaincode ",
        LONGEST,
        1,
        "m 'A.peer'\n",
        ChannelFault::Line(2),
    ),
];

#[test]
fn limits_of_policies_and_names(rt: HostRuntime) -> Result<(), ChannelFault> {
    assert!(rt; LONGEST.len() == 64);
    assert!(rt; is_longest_read(rt.alloc())?);
    for &(front, part, count, back, fault) in beyond_limits() {
        let found = fault_of_repeated(rt.alloc(), front, part, count, back)?;
        assert!(rt; found == Some(fault), "{front:?}");
    }
    Ok(())
}

// Behind a channel and 256 chaincodes: the next line is line 258.
fn behind_256() -> &'static [(&'static str, ChannelFault)] {
    &BEHIND_256
}

static BEHIND_256: [(&str, ChannelFault); 11] = [
    ("chaincode one 'A.peer'\n", ChannelFault::TooMany(258)),
    ("chaincode c7 'A.peer'\n", ChannelFault::Repeated(258)),
    ("chaincode c7 AND(\n", ChannelFault::Repeated(258)),
    (
        "chaincode one AND(\n",
        ChannelFault::Policy(258, PolicyFault::Syntax { at: 4 }),
    ),
    (
        "chaincode one 'A.boss'\n",
        ChannelFault::Policy(258, PolicyFault::Role { at: 0 }),
    ),
    ("chaincode one\n", ChannelFault::Line(258)),
    ("chaincode o/e 'A.peer'\n", ChannelFault::Line(258)),
    ("channel ch\n", ChannelFault::Repeated(258)),
    (
        "admin AND(\n",
        ChannelFault::Policy(258, PolicyFault::Syntax { at: 4 }),
    ),
    // an admin policy is none of a chaincode
    (
        "admin 'A.admin'\nchaincode one 'A.peer'\n",
        ChannelFault::TooMany(259),
    ),
    (
        "\n# x\n chaincode one 'A.peer'\nnonsense\n",
        ChannelFault::TooMany(260),
    ),
];

// A channel with chaincodes c0 to c255.
fn full(alloc: Global) -> Result<String, AllocError> {
    let mut text = String::from_str(alloc, "channel ch\n")?;
    for i in 0..256u16 {
        let line = format!(in alloc; "chaincode c{i} 'O{i}.peer'\n")?;
        text.push_str(line.as_str())?;
    }
    Ok(text)
}

fn has_256(alloc: Global, definitions: &Definitions) -> Result<bool, AllocError> {
    let is_so = is_defined(alloc, definitions, "c255", "'O255.peer'")?;
    Ok(is_so && definitions.len() == 256)
}

fn is_full(alloc: Global, text: &str) -> Result<bool, ChannelFault> {
    let channel = Channel::read(alloc, text)?;
    Ok(has_256(alloc, channel.configuration().definitions())?)
}

fn is_full_with_admin(alloc: Global) -> Result<bool, ChannelFault> {
    let mut text = full(alloc)?;
    text.push_str("admin 'A.admin'\n")?;
    is_full(alloc, text.as_str())
}

#[test]
fn many_chaincodes(rt: HostRuntime) -> Result<(), ChannelFault> {
    assert!(rt; is_full_with_admin(rt.alloc())?);
    Ok(())
}

fn fault_behind(alloc: Global, full: &str, last: &str) -> Result<Option<ChannelFault>, AllocError> {
    let text = repeated(alloc, full, last, 1, "")?;
    Ok(fault_of(alloc, text.as_str()))
}

// The first lines behind which another fault comes than is wanted.
fn first_other(alloc: Global, full: &str) -> Result<Option<&'static str>, AllocError> {
    for &(last, fault) in behind_256() {
        if fault_behind(alloc, full, last)? != Some(fault) {
            return Ok(Some(last));
        }
    }
    Ok(None)
}

fn first_other_behind_256(alloc: Global) -> Result<Option<&'static str>, AllocError> {
    let full = full(alloc)?;
    first_other(alloc, full.as_str())
}

#[test]
fn one_chaincode_more(rt: HostRuntime) -> Result<(), AllocError> {
    assert!(rt; first_other_behind_256(rt.alloc())?.is_none());
    Ok(())
}
