use super::fault_of;
use super::texts::is_text;
use crate::parts::{Parts, text_of};
use policy::PolicyFault;
use std::alloc::Global;

#[derive(Clone, Copy)]
enum Limit {
    Fine,
    /// A policy that is written so.
    Written(Parts),
    Fault(PolicyFault),
}

fn limits() -> &'static [(Parts, Limit)] {
    &LIMITS
}

const AS_MANY: Parts = &[("OutOf(256,", 1), ("'A.peer',", 255), ("'A.peer')", 1)];

const AND: Parts = &[("AND(", 1), ("'A.peer',", 255), ("'A.peer')", 1)];

const ONE_FEWER: Parts = &[("OutOf(255,", 1), ("'A.peer',", 255), ("'A.peer')", 1)];

static LIMITS: [(Parts, Limit); 31] = [
    // `OR(` 32 times has 96 bytes.
    (&[("OR(", 32), ("'A.peer'", 1), (")", 32)], Limit::Fine),
    (
        &[("OR(", 33), ("'A.peer'", 1), (")", 33)],
        Limit::Fault(PolicyFault::TooDeep { at: 96 }),
    ),
    (
        &[("OR(", 32), ("OR", 1)],
        Limit::Fault(PolicyFault::TooDeep { at: 96 }),
    ),
    (
        &[("OR(", 32), ("outof x", 1)],
        Limit::Fault(PolicyFault::TooDeep { at: 96 }),
    ),
    (
        &[("OR(", 32), ("oR", 1)],
        Limit::Fault(PolicyFault::Syntax { at: 96 }),
    ),
    (
        &[("OR(", 32), ("'A.peer', AND('A.peer')", 1), (")", 32)],
        Limit::Fault(PolicyFault::TooDeep { at: 106 }),
    ),
    (
        &[("OR(", 32), ("'A.peer'),'A.peer'", 1), (")", 31)],
        Limit::Fine,
    ),
    (
        &[("OR(", 31), ("OR('A.peer'),OR('A.peer')", 1), (")", 31)],
        Limit::Fine,
    ),
    // 256 times `'A.peer',` behind `OR(` end at byte 2307.
    (
        &[("OR(", 1), ("'A.peer',", 255), ("'A.peer')", 1)],
        Limit::Fine,
    ),
    (
        &[("OR(", 1), ("'A.peer',", 256), ("'A.peer')", 1)],
        Limit::Fault(PolicyFault::TooLarge),
    ),
    (
        &[("OR(", 1), ("'A.peer',", 256), ("'A.peer'", 1)],
        Limit::Fault(PolicyFault::TooLarge),
    ),
    (
        &[("OR(", 1), ("'A.peer',", 256), ("'A.boss')", 1)],
        Limit::Fault(PolicyFault::Role { at: 2307 }),
    ),
    (
        &[("OR(", 1), ("'A.peer',", 256), ("'A.peer", 1)],
        Limit::Fault(PolicyFault::Syntax { at: 2314 }),
    ),
    (
        &[("OR(", 1), ("'A.peer',", 256), ("x'A.peer')", 1)],
        Limit::Fault(PolicyFault::Syntax { at: 2307 }),
    ),
    (
        &[("OR(", 1), ("'A.peer',", 256), (")", 1)],
        Limit::Fault(PolicyFault::Syntax { at: 2307 }),
    ),
    (
        &[("OR(", 1), ("'A.peer',", 256), ("OR('A.peer'))", 1)],
        Limit::Fault(PolicyFault::TooLarge),
    ),
    (
        &[("OR(", 1), ("'A.peer',", 256), ("OR('A.boss'))", 1)],
        Limit::Fault(PolicyFault::Role { at: 2310 }),
    ),
    (
        &[("OR(", 1), ("'A.peer',", 255), ("OR('A.peer'))", 1)],
        Limit::Fine,
    ),
    (
        &[
            ("OR(", 1),
            ("'A.peer',", 255),
            ("OR('A.peer','A.peer'))", 1),
        ],
        Limit::Fault(PolicyFault::TooLarge),
    ),
    (
        &[("OR(", 1), ("'A.peer',", 255), ("OutOf(2,'A.peer'))", 1)],
        Limit::Fault(PolicyFault::Threshold { at: 2314 }),
    ),
    // Bytes.
    (&[(" ", 4088), ("'A.peer'", 1)], Limit::Fine),
    (
        &[(" ", 4089), ("'A.peer'", 1)],
        Limit::Fault(PolicyFault::TooLarge),
    ),
    (
        &[(" ", 4096)],
        Limit::Fault(PolicyFault::Syntax { at: 4096 }),
    ),
    (&[(" ", 4097)], Limit::Fault(PolicyFault::TooLarge)),
    (
        &[(" ", 4089), ("'A.boss'", 1)],
        Limit::Fault(PolicyFault::TooLarge),
    ),
    (
        &[(" ", 4095), ("'", 1)],
        Limit::Fault(PolicyFault::Syntax { at: 4096 }),
    ),
    // An organization of 64 bytes.
    (&[("'", 1), ("a", 64), (".peer'", 1)], Limit::Fine),
    (
        &[("'", 1), ("a", 65), (".peer'", 1)],
        Limit::Fault(PolicyFault::Role { at: 0 }),
    ),
    // A gate of 256 members.
    (AS_MANY, Limit::Written(AND)),
    (ONE_FEWER, Limit::Written(ONE_FEWER)),
    (
        &[("OutOf(257,", 1), ("'A.peer',", 255), ("'A.peer')", 1)],
        Limit::Fault(PolicyFault::Threshold { at: 2313 }),
    ),
];

fn is_written(alloc: Global, text: &str, parts: Parts) -> Result<bool, PolicyFault> {
    let canonical = text_of(alloc, parts)?;
    is_text(alloc, text, canonical.as_str())
}

fn is_read_so(alloc: Global, text: &str, limit: Limit) -> Result<bool, PolicyFault> {
    match limit {
        Limit::Fine => Ok(fault_of(alloc, text).is_none()),
        Limit::Written(parts) => is_written(alloc, text, parts),
        Limit::Fault(fault) => Ok(fault_of(alloc, text) == Some(fault)),
    }
}

fn is_so(alloc: Global, parts: Parts, limit: Limit) -> Result<bool, PolicyFault> {
    let text = text_of(alloc, parts)?;
    is_read_so(alloc, text.as_str(), limit)
}

#[test]
fn gates_principals_bytes_and_members(rt: HostRuntime) -> Result<(), PolicyFault> {
    for (row, &(parts, limit)) in limits().iter().enumerate() {
        assert!(rt; is_so(rt.alloc(), parts, limit)?, "row {row}");
    }
    Ok(())
}
