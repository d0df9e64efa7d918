//! The expected values were worked out by hand from the rules of a channel text and of policies.

mod limits;
pub mod memory;

use channel::{Channel, ChannelFault, Configuration};
use policy::{Definitions, Policy, PolicyFault};
use std::alloc::{AllocError, Global};
use values::{NameRef, is_name};

fn fault_of(alloc: Global, text: &str) -> Option<ChannelFault> {
    Channel::read(alloc, text).err()
}

fn is_text(alloc: Global, policy: Option<&Policy>, canonical: &str) -> Result<bool, AllocError> {
    match policy {
        Some(policy) => Ok(policy.text(alloc)?.as_str() == canonical),
        None => Ok(false),
    }
}

// Whether the chaincode is defined with a policy of this canonical text.
fn is_defined(
    alloc: Global,
    definitions: &Definitions,
    chaincode: &str,
    canonical: &str,
) -> Result<bool, AllocError> {
    if !is_name(chaincode.as_bytes()) {
        return Ok(false);
    }
    let name = NameRef::new(chaincode.as_bytes());
    is_text(alloc, definitions.of(&name), canonical)
}

// Chaincodes with the canonical texts of their policies.
type Defined = &'static [(&'static str, &'static str)];

// Whether these chaincodes are defined so, and no other.
fn are_defined(alloc: Global, found: &Definitions, wanted: Defined) -> Result<bool, AllocError> {
    for (chaincode, canonical) in wanted {
        if !is_defined(alloc, found, chaincode, canonical)? {
            return Ok(false);
        }
    }
    Ok(found.len() == wanted.len())
}

// Whether the configuration has this name and both have these chaincodes.
fn are_parts(
    alloc: Global,
    configuration: &Configuration,
    copied: &Definitions,
    name: &str,
    wanted: Defined,
) -> Result<bool, AllocError> {
    let is_so = are_defined(alloc, configuration.definitions(), wanted)?
        && configuration.name().as_slice() == name.as_bytes();
    Ok(is_so && are_defined(alloc, copied, wanted)?)
}

fn is_channel(
    alloc: Global,
    text: &str,
    name: &str,
    wanted: Defined,
) -> Result<bool, ChannelFault> {
    let channel = Channel::read(alloc, text)?;
    let is_named = channel.name().as_slice() == name.as_bytes();
    let (configuration, copied) = channel.into_parts();
    Ok(is_named && are_parts(alloc, &configuration, &copied, name, wanted)?)
}

// Texts, and what they say.
fn read_channels() -> &'static [(&'static str, &'static str, Defined)] {
    &CHANNELS
}

// 64 letters.
const LONGEST: &str = "abcdefghijklmnopqrstuvwxyzabcdefghijklmnopqrstuvwxyzabcdefghijkl";

static CHANNELS: [(&str, &str, Defined); 6] = [
    ("channel ch", "ch", &[]),
    (
        "# of two organizations\n\n  channel   ch  \r\nchaincode  cc   OR('Org1.peer',  \"Org2.peer\") \n#chaincode dd X\nchaincode dd And( 'A.admin' , 'B.admin' )",
        "ch",
        &[
            ("cc", "OR('Org1.peer','Org2.peer')"),
            ("dd", "AND('A.admin','B.admin')"),
        ],
    ),
    // The channel's line may be the last, and may share a chaincode's name.
    (
        "chaincode ch 'A.peer'\nchannel ch\n",
        "ch",
        &[("ch", "'A.peer'")],
    ),
    // Names differ by their case, and one may begin another.
    (
        "channel a\nchaincode cc 'A.peer'\nchaincode c 'B.peer'\nchaincode CC 'C.peer'\n",
        "a",
        &[("c", "'B.peer'"), ("cc", "'A.peer'"), ("CC", "'C.peer'")],
    ),
    // The others' lines say what they say without the admin's.
    (
        "chaincode cc 'A.peer'\nadmin 'A.admin'\nchannel ch\nchaincode dd 'B.peer'\n",
        "ch",
        &[("cc", "'A.peer'"), ("dd", "'B.peer'")],
    ),
    (
        "channel abcdefghijklmnopqrstuvwxyzabcdefghijklmnopqrstuvwxyzabcdefghijkl\nchaincode abcdefghijklmnopqrstuvwxyzabcdefghijklmnopqrstuvwxyzabcdefghijkl 'A.peer'",
        LONGEST,
        &[(LONGEST, "'A.peer'")],
    ),
];

#[test]
fn channels(rt: HostRuntime) -> Result<(), ChannelFault> {
    for &(text, name, wanted) in read_channels() {
        assert!(rt; is_channel(rt.alloc(), text, name, wanted)?, "{text:?}");
    }
    Ok(())
}

// Texts, and the admin policy's canonical text where there is one.
fn admins() -> &'static [(&'static str, Option<&'static str>)] {
    &ADMINS
}

static ADMINS: [(&str, Option<&str>); 8] = [
    ("channel ch\n", None),
    // a comment, and a chaincode of that name
    (
        "channel ch\n# admin 'A.admin'\nchaincode admin 'A.peer'\n",
        None,
    ),
    // in front of the others, between them, behind them
    (
        "admin OR('Org1.admin')\nchannel ch\nchaincode cc 'A.peer'\n",
        Some("OR('Org1.admin')"),
    ),
    (
        "channel ch\nadmin 'A.admin'\nchaincode cc 'A.peer'\n",
        Some("'A.admin'"),
    ),
    (
        "channel ch\nchaincode cc 'A.peer'\nadmin 'A.admin'",
        Some("'A.admin'"),
    ),
    ("channel admin\nadmin  'A.admin'\n", Some("'A.admin'")),
    (
        "  admin   And( 'A.admin' ,  \"B.admin\" )  \r\nchannel ch\n",
        Some("AND('A.admin','B.admin')"),
    ),
    // any role may update
    (
        "channel ch\nadmin OutOf(2,'A.peer','B.client','C.orderer')\n",
        Some("OutOf(2,'A.peer','B.client','C.orderer')"),
    ),
];

fn is_admin(
    alloc: Global,
    found: Option<&Policy>,
    admin: Option<&str>,
) -> Result<bool, AllocError> {
    match admin {
        Some(canonical) => is_text(alloc, found, canonical),
        None => Ok(found.is_none()),
    }
}

fn has_admin(alloc: Global, text: &str, admin: Option<&str>) -> Result<bool, ChannelFault> {
    let channel = Channel::read(alloc, text)?;
    Ok(is_admin(alloc, channel.configuration().admin(), admin)?)
}

#[test]
fn admin_policies(rt: HostRuntime) -> Result<(), ChannelFault> {
    for &(text, admin) in admins() {
        assert!(rt; has_admin(rt.alloc(), text, admin)?, "{text:?}");
    }
    Ok(())
}

fn forms() -> &'static [(&'static str, ChannelFault)] {
    &FAULTS_OF_FORM
}

static FAULTS_OF_FORM: [(&str, ChannelFault); 42] = [
    ("", ChannelFault::NoChannel),
    ("\n# channel ch\n", ChannelFault::NoChannel),
    ("chaincode cc 'A.peer'\n", ChannelFault::NoChannel),
    ("channel\n", ChannelFault::Line(1)),
    ("channel a b\n", ChannelFault::Line(1)),
    ("Channel a\n", ChannelFault::Line(1)),
    ("channela\n", ChannelFault::Line(1)),
    ("channel a/b\n", ChannelFault::Line(1)),
    ("channel ch # x\n", ChannelFault::Line(1)),
    ("\nchannel\tch\n", ChannelFault::Line(2)),
    ("\tchannel ch\n", ChannelFault::Line(1)),
    ("\u{feff}channel ch\n", ChannelFault::Line(1)),
    ("channel ch\r", ChannelFault::Line(1)),
    ("channel ch\n\r", ChannelFault::Line(2)),
    ("channel ch\r\r\n", ChannelFault::Line(1)),
    ("channel ch\nchaincode\n", ChannelFault::Line(2)),
    ("channel ch\nchaincode cc\n", ChannelFault::Line(2)),
    ("channel ch\nchaincode cc   \n", ChannelFault::Line(2)),
    (
        "channel ch\nchaincode c\u{e4} 'A.peer'\n",
        ChannelFault::Line(2),
    ),
    ("channel ch\nchannel ch\n", ChannelFault::Repeated(2)),
    ("channel ch\nchannel other\nx\n", ChannelFault::Repeated(2)),
    // a bad name goes before the repetition
    ("channel ch\nchannel a b\n", ChannelFault::Line(2)),
    (
        "chaincode cc 'A.peer'\nchaincode dd 'A.peer'\nchaincode cc 'B.peer'\n",
        ChannelFault::Repeated(3),
    ),
    // the first line that has a fault
    (
        "channel ch\nchannel ch\nnonsense\n",
        ChannelFault::Repeated(2),
    ),
    ("nonsense\nchannel ch\nchannel ch\n", ChannelFault::Line(1)),
    ("admin 'A.admin'\n", ChannelFault::NoChannel),
    ("channel ch\nadmin\n", ChannelFault::Line(2)),
    ("channel ch\nadmin   \n", ChannelFault::Line(2)),
    ("channel ch\nadmin", ChannelFault::Line(2)),
    ("channel ch\nAdmin 'A.admin'\n", ChannelFault::Line(2)),
    ("channel ch\nadmins 'A.admin'\n", ChannelFault::Line(2)),
    ("channel ch\nadmin'A.admin'\n", ChannelFault::Line(2)),
    ("channel ch\nadmin\t'A.admin'\n", ChannelFault::Line(2)),
    ("\tadmin 'A.admin'\n", ChannelFault::Line(1)),
    (
        "admin 'A.admin'\nadmin 'A.admin'\n",
        ChannelFault::Repeated(2),
    ),
    (
        "admin 'A.admin'\nchannel ch\nchaincode cc 'A.peer'\nadmin 'B.admin'\n",
        ChannelFault::Repeated(4),
    ),
    // a repetition goes before its policy, and a missing policy before the repetition
    ("admin 'A.admin'\nadmin AND(\n", ChannelFault::Repeated(2)),
    ("admin 'A.admin'\nadmin\n", ChannelFault::Line(2)),
    (
        "channel ch\nadmin 'A.admin'\nadmin 'B.admin'\nnonsense\n",
        ChannelFault::Repeated(3),
    ),
    // A line's form and a repetition go before its policy.
    ("chaincode c/c AND(\n", ChannelFault::Line(1)),
    (
        "chaincode cc 'A.peer'\nchaincode cc AND(\n",
        ChannelFault::Repeated(2),
    ),
    ("nonsense\nchaincode cc AND(\n", ChannelFault::Line(1)),
];

#[test]
fn faults_of_form(rt: HostRuntime) {
    for &(text, fault) in forms() {
        assert!(rt; fault_of(rt.alloc(), text) == Some(fault), "{text:?}");
    }
}

// A place counts from where the policy begins.
fn policies() -> &'static [(&'static str, u64, PolicyFault)] {
    &FAULTS_OF_POLICIES
}

static FAULTS_OF_POLICIES: [(&str, u64, PolicyFault); 20] = [
    (
        "channel ch\nchaincode cc AND(\n",
        2,
        PolicyFault::Syntax { at: 4 },
    ),
    ("chaincode cc p\n", 1, PolicyFault::Syntax { at: 0 }),
    ("chaincode cc   AND(   \n", 1, PolicyFault::Syntax { at: 4 }),
    (
        "chaincode cc 'A.peer' # x\n",
        1,
        PolicyFault::Syntax { at: 9 },
    ),
    (
        "chaincode cc 'A.peer'\t\n",
        1,
        PolicyFault::Syntax { at: 8 },
    ),
    (
        "chaincode cc 'A.peer'\r\r\n",
        1,
        PolicyFault::Syntax { at: 8 },
    ),
    ("chaincode cc 'A.peer'\r", 1, PolicyFault::Syntax { at: 8 }),
    (
        "chaincode cc dd 'A.peer'\n",
        1,
        PolicyFault::Syntax { at: 0 },
    ),
    (
        "#\n\nchaincode cc OR('A.peer', 'A.boss')",
        3,
        PolicyFault::Role { at: 13 },
    ),
    (
        "chaincode cc '\u{e4}.peer'\n",
        1,
        PolicyFault::Role { at: 0 },
    ),
    (
        "chaincode cc OutOf(3,'A.peer','B.peer')\n",
        1,
        PolicyFault::Threshold { at: 25 },
    ),
    // the first line that has a fault
    (
        "chaincode cc AND(\nnonsense\n",
        1,
        PolicyFault::Syntax { at: 4 },
    ),
    (
        "channel ch\nchaincode cc AND(\nchannel ch\n",
        2,
        PolicyFault::Syntax { at: 4 },
    ),
    ("channel ch\nadmin AND(\n", 2, PolicyFault::Syntax { at: 4 }),
    ("admin   AND(   \n", 1, PolicyFault::Syntax { at: 4 }),
    ("admin 'A.admin' # x\n", 1, PolicyFault::Syntax { at: 10 }),
    ("admin 'A.admin'\t\n", 1, PolicyFault::Syntax { at: 9 }),
    (
        "#\n\nadmin OR('A.admin', 'A.boss')",
        3,
        PolicyFault::Role { at: 14 },
    ),
    (
        "admin OutOf(3,'A.admin','B.admin')\n",
        1,
        PolicyFault::Threshold { at: 27 },
    ),
    (
        "channel ch\nadmin AND(\nadmin 'A.admin'\n",
        2,
        PolicyFault::Syntax { at: 4 },
    ),
];

#[test]
fn faults_of_policies(rt: HostRuntime) {
    for &(text, line, fault) in policies() {
        let wanted = ChannelFault::Policy(line, fault);
        assert!(rt; fault_of(rt.alloc(), text) == Some(wanted), "{text:?}");
    }
}
