use super::texts::has_text;
use policy::{Policy, PolicyFault, policy_reading};
use std::alloc::Global;

// Bytes, and the canonical text of the policy that they spell. Outside of quotes a byte that is no text is the fault; inside,
// the opening quote; and a quote that isn't closed, at the end.
fn read_bytes() -> &'static [(&'static [u8], Result<&'static str, PolicyFault>)] {
    &BYTES
}

static BYTES: [(&[u8], Result<&str, PolicyFault>); 9] = [
    (
        b"and(\"A.peer\" , 'B.admin')",
        Ok("AND('A.peer','B.admin')"),
    ),
    (b"\xff", Err(PolicyFault::Syntax { at: 0 })),
    (b"AND('A.peer',\xc3)", Err(PolicyFault::Syntax { at: 13 })),
    (b"'A.peer'\x80", Err(PolicyFault::Syntax { at: 8 })),
    (b"AND\xff('A.peer')", Err(PolicyFault::Syntax { at: 3 })),
    (b"'\xff.peer'", Err(PolicyFault::Role { at: 0 })),
    (b"AND('A.\xe2\x28peer')", Err(PolicyFault::Role { at: 4 })),
    (
        b"OR('A.peer', \"B\xff.peer\")",
        Err(PolicyFault::Role { at: 13 }),
    ),
    (b"'A\xff.peer", Err(PolicyFault::Syntax { at: 8 })),
];

fn is_so(
    alloc: Global,
    bytes: &[u8],
    wanted: Result<&str, PolicyFault>,
) -> Result<bool, PolicyFault> {
    match Policy::parse_bytes(alloc, bytes) {
        Ok(policy) => match wanted {
            Ok(canonical) => has_text(alloc, &policy, canonical),
            Err(_) => Ok(false),
        },
        Err(fault) => Ok(wanted == Err(fault)),
    }
}

#[test]
fn bytes_of_a_policy_and_bytes_that_are_no_text(rt: HostRuntime) -> Result<(), PolicyFault> {
    policy_reading();
    for &(bytes, wanted) in read_bytes() {
        assert!(rt; is_so(rt.alloc(), bytes, wanted)?, "{bytes:?}");
    }
    Ok(())
}
