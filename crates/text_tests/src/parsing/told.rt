use policy::PolicyFault;
use std::alloc::{AllocError, Global};

fn told() -> &'static [(PolicyFault, &'static str)] {
    &TOLD
}

static TOLD: [(PolicyFault, &str); 6] = [
    (
        PolicyFault::TooLarge,
        "a policy of more than 4096 bytes or 256 principals",
    ),
    (
        PolicyFault::Syntax { at: 15 },
        "the policy's byte 15 can't stand there",
    ),
    (
        PolicyFault::Role { at: 4 },
        "no organization and role in the quotes at the policy's byte 4",
    ),
    (
        PolicyFault::Threshold { at: 300 },
        "the gate that ends at the policy's byte 300 asks for none of its members or for too many",
    ),
    (
        PolicyFault::TooDeep { at: 96 },
        "a gate inside 32 others at the policy's byte 96",
    ),
    (PolicyFault::Memory, "out of memory"),
];

fn is_told(alloc: Global, fault: PolicyFault, text: &str) -> Result<bool, AllocError> {
    let told = format!(in alloc; "{fault}")?;
    Ok(told.as_str() == text)
}

#[test]
fn each_fault_is_told(rt: HostRuntime) -> Result<(), AllocError> {
    for &(fault, text) in told() {
        assert!(rt; is_told(rt.alloc(), fault, text)?, "{text}");
    }
    Ok(())
}
