use policy::{Expression, Node, Policy, PolicyFault, PolicyRole, one_reading};
use std::alloc::Global;

// A text, and the canonical text of what it spells.
fn spelled() -> &'static [(&'static str, &'static str)] {
    &SPELLED
}

static SPELLED: [(&str, &str); 34] = [
    // Principals.
    ("'A.peer'", "'A.peer'"),
    ("\"A.peer\"", "'A.peer'"),
    (" 'a.b.c.member' ", "'a.b.c.member'"),
    ("'.-_.peer'", "'.-_.peer'"),
    ("'a..peer'", "'a..peer'"),
    ("'..peer'", "'..peer'"),
    ("'member.member'", "'member.member'"),
    ("'A.peer.admin'", "'A.peer.admin'"),
    ("'0.orderer'", "'0.orderer'"),
    // The nine spellings of the words.
    ("AND('A.peer','B.peer')", "AND('A.peer','B.peer')"),
    ("And('A.peer','B.peer')", "AND('A.peer','B.peer')"),
    ("and('A.peer','B.peer')", "AND('A.peer','B.peer')"),
    ("OR('A.peer','B.peer')", "OR('A.peer','B.peer')"),
    ("Or('A.peer','B.peer')", "OR('A.peer','B.peer')"),
    ("or('A.peer','B.peer')", "OR('A.peer','B.peer')"),
    (
        "OutOf(2,'A.peer','B.peer','C.peer')",
        "OutOf(2,'A.peer','B.peer','C.peer')",
    ),
    (
        "outof(2,'A.peer','B.peer','C.peer')",
        "OutOf(2,'A.peer','B.peer','C.peer')",
    ),
    (
        "OUTOF(2,'A.peer','B.peer','C.peer')",
        "OutOf(2,'A.peer','B.peer','C.peer')",
    ),
    // Thresholds.
    ("AND('A.peer')", "OR('A.peer')"),
    ("OR('A.peer')", "OR('A.peer')"),
    ("OutOf(1,'A.peer')", "OR('A.peer')"),
    ("OutOf(1,'A.peer','B.peer')", "OR('A.peer','B.peer')"),
    ("OutOf(2,'A.peer','B.peer')", "AND('A.peer','B.peer')"),
    (
        "OutOf(03,'A.peer','B.peer','C.peer')",
        "AND('A.peer','B.peer','C.peer')",
    ),
    (
        "OutOf(002,'A.peer','B.peer','C.peer')",
        "OutOf(2,'A.peer','B.peer','C.peer')",
    ),
    (
        "OutOf(001,'A.client','B.orderer')",
        "OR('A.client','B.orderer')",
    ),
    // Members.
    (
        "OR('A.member','A.admin','A.client','A.peer','A.orderer')",
        "OR('A.member','A.admin','A.client','A.peer','A.orderer')",
    ),
    ("OR('A.peer','A.peer')", "OR('A.peer','A.peer')"),
    (
        "OR(AND('A.peer',\"B.peer\"),OutOf(2,'A.admin','B.admin','C.admin'))",
        "OR(AND('A.peer','B.peer'),OutOf(2,'A.admin','B.admin','C.admin'))",
    ),
    ("AND(OR('A.peer'),'B.peer')", "AND(OR('A.peer'),'B.peer')"),
    // Spaces.
    (
        "and( \"Org1.peer\" , OutOf(1,'Org2.admin') )",
        "AND('Org1.peer',OR('Org2.admin'))",
    ),
    (
        "  OutOf  (  2  ,  'A.peer'  ,  'B.peer'  ,  'C.peer'  )  ",
        "OutOf(2,'A.peer','B.peer','C.peer')",
    ),
    ("OR ('A.peer' ,'B.peer' )", "OR('A.peer','B.peer')"),
    ("AND( OR( 'A.peer' ) )", "OR(OR('A.peer'))"),
];

pub(super) fn has_text(
    alloc: Global,
    policy: &Policy,
    canonical: &str,
) -> Result<bool, PolicyFault> {
    Ok(policy.text(alloc)?.as_str() == canonical)
}

pub(super) fn is_text(alloc: Global, text: &str, canonical: &str) -> Result<bool, PolicyFault> {
    let policy = Policy::parse(alloc, text)?;
    has_text(alloc, &policy, canonical)
}

#[test]
fn texts_and_canonical_texts(rt: HostRuntime) -> Result<(), PolicyFault> {
    for &(text, canonical) in spelled() {
        assert!(rt; is_text(rt.alloc(), text, canonical)?, "{text}");
        assert!(rt; is_text(rt.alloc(), canonical, canonical)?, "{canonical}");
    }
    Ok(())
}

// The threshold and the number of members of a gate.
fn gate_of(expression: &Expression) -> Option<(u16, usize)> {
    match &expression.node {
        Node::Signed(_) => None,
        Node::Gate { threshold, members } => Some((*threshold, members.len())),
    }
}

const NESTED: &str = "OutOf(2,'A.peer',AND('B.admin','C.client'),'D.member')";

fn is_copied(alloc: Global, policy: &Policy) -> Result<bool, PolicyFault> {
    let copied = policy.copy(alloc)?;
    has_text(alloc, &copied, NESTED)
}

fn has_copy_and_gate(alloc: Global) -> Result<bool, PolicyFault> {
    let policy = Policy::parse(alloc, NESTED)?;
    Ok(gate_of(policy.root()) == Some((2, 3)) && is_copied(alloc, &policy)?)
}

fn is_signed_by(expression: &Expression, org: &[u8], role: PolicyRole) -> bool {
    match &expression.node {
        Node::Signed(principal) => principal.org.as_slice() == org && principal.role == role,
        Node::Gate { .. } => false,
    }
}

fn is_principal(
    alloc: Global,
    text: &str,
    org: &[u8],
    role: PolicyRole,
) -> Result<bool, PolicyFault> {
    let policy = Policy::parse(alloc, text)?;
    Ok(is_signed_by(policy.root(), org, role))
}

#[test]
fn a_copy_has_the_same_tree_and_a_principal_an_organization_and_a_role(
    rt: HostRuntime,
) -> Result<(), PolicyFault> {
    one_reading();
    assert!(rt; has_copy_and_gate(rt.alloc())?);
    assert!(rt; is_principal(rt.alloc(), "'a.b.admin'", b"a.b", PolicyRole::Admin)?);
    Ok(())
}
