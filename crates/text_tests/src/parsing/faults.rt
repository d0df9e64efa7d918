use super::fault_of;
use policy::PolicyFault;
use std::alloc::Global;

// Texts that are faulty by their syntax, and the place.
fn syntax_rows() -> &'static [(&'static str, usize)] {
    &SYNTAX
}

static SYNTAX: [(&str, usize); 80] = [
    // The text ends too early.
    ("", 0),
    (" ", 1),
    ("   ", 3),
    ("AND", 3),
    ("AND(", 4),
    ("AND('Org1.peer'", 15),
    ("AND('A.peer',", 13),
    ("OutOf", 5),
    ("OutOf(", 6),
    ("OutOf(1", 7),
    ("OutOf(1,", 8),
    ("OutOf(9,'A.peer'", 16),
    // A quote isn't closed where a principal may begin.
    ("'", 1),
    ("\"", 1),
    ("'A.peer", 7),
    ("  'A.peer ", 10),
    ("AND('Org1.peer", 14),
    ("AND('A.peer','", 14),
    ("'A.peer\"", 8),
    ("\"A.peer'", 8),
    ("'A.peer\u{2019}", 10),
    ("'A.boss", 7),
    // Nor where none may begin: the quote itself.
    ("AND '", 4),
    ("AND('A.peer'\"", 12),
    ("'A.peer' '", 9),
    ("OutOf('", 6),
    ("OutOf(1 \"A.peer", 8),
    // Something else stands there.
    ("(", 0),
    (")", 0),
    (",", 0),
    ("1", 0),
    ("('A.peer')", 0),
    ("A.peer", 0),
    ("AND()", 4),
    ("AND('A.peer',)", 13),
    ("AND(,'A.peer')", 4),
    ("AND('A.peer' 'B.peer')", 13),
    ("AND('A.peer' 'B.boss')", 13),
    ("AND 'A.boss'", 4),
    ("AND1('A.peer')", 3),
    ("AND;('A.peer')", 3),
    ("AND('A.peer';'B.peer')", 12),
    ("AND AND('A.peer')", 4),
    ("OutOf()", 6),
    ("OutOf(1)", 7),
    ("OutOf(1,)", 8),
    ("OutOf(,'A.peer')", 6),
    ("OutOf('A.peer')", 6),
    ("OutOf(1 'A.peer')", 8),
    ("OutOf(1 0,'A.peer')", 8),
    ("OutOf(-1,'A.peer')", 6),
    ("OutOf(1.5,'A.peer')", 7),
    ("OutOf(1x,'A.peer')", 7),
    ("OutOf(1000,'A.peer')", 6),
    ("OutOf(0001,'A.peer')", 6),
    // A wrong capital, and other words.
    ("aND('A.peer')", 0),
    ("ANd('A.peer')", 0),
    ("AnD('A.peer')", 0),
    ("aNd('A.peer')", 0),
    ("oR('A.peer')", 0),
    ("outOf(1,'A.peer')", 0),
    ("Outof(1,'A.peer')", 0),
    ("OUTOf(1,'A.peer')", 0),
    ("OuTOf(1,'A.peer')", 0),
    ("ANDx('A.peer')", 0),
    ("NOT('A.peer')", 0),
    ("A ND('A.peer')", 0),
    ("Out Of(1,'A.peer')", 0),
    // Something stands behind the end.
    ("'A.peer' x", 9),
    ("'A.peer')", 8),
    ("'A.peer''B.peer'", 8),
    ("'A.peer','B.peer'", 8),
    ("AND('A.peer'))", 13),
    // No space but 0x20, and nothing beyond ASCII.
    ("\t'A.peer'", 0),
    ("AND(\t'A.peer')", 4),
    ("'A.peer'\n", 8),
    ("\u{a0}'A.peer'", 0),
    ("\u{e9}", 0),
    ("AND('A.peer',\u{e9})", 13),
    ("'A.peer'\u{0}", 8),
];

// Texts with quotes round what is no principal, and the place.
fn role_rows() -> &'static [(&'static str, usize)] {
    &ROLE
}

static ROLE: [(&str, usize); 26] = [
    ("AND('Org1.boss')", 4),
    ("''", 0),
    ("'.'", 0),
    ("'A.'", 0),
    ("'.peer'", 0),
    ("'peer'", 0),
    ("'A.peer.'", 0),
    ("'A.Peer'", 0),
    ("'A.PEER'", 0),
    ("'A.peers'", 0),
    ("'A.xpeer'", 0),
    ("'Apeer'", 0),
    ("'A peer'", 0),
    ("'A .peer'", 0),
    ("' A.peer'", 0),
    ("'A.peer '", 0),
    ("'A\t.peer'", 0),
    ("'A.p\"eer'", 0),
    ("\"A'.peer\"", 0),
    ("'\u{e9}.peer'", 0),
    ("'A/B.peer'", 0),
    ("  AND( 'Org1 .peer' )", 7),
    // The first fault from the left.
    ("AND('A.boss',", 4),
    ("AND('A.boss' 'B.boss'", 4),
    ("OutOf(9,'A.peer','B.boss')", 17),
    // An organization of 65 bytes.
    (
        "'aaaaaaaaaaaaaaaaaaaaaaaaaaaaaaaaaaaaaaaaaaaaaaaaaaaaaaaaaaaaaaaaa.peer'",
        0,
    ),
];

// Gates that ask for none of their members or for too many, and the place.
fn threshold_rows() -> &'static [(&'static str, usize)] {
    &THRESHOLD
}

static THRESHOLD: [(&str, usize); 10] = [
    ("OutOf(3,'A.peer','B.peer')", 25),
    ("OutOf(0,'A.peer')", 16),
    ("OutOf(000,'A.peer')", 18),
    ("OutOf(2,'A.peer')", 16),
    ("OutOf(2,'A.peer'  )", 18),
    ("OutOf(999,'A.peer')", 18),
    ("OutOf(9,'A.peer') x", 16),
    ("OutOf(9,'A.peer'))", 16),
    ("AND(OutOf(0,'A.peer'),'B.boss')", 20),
    ("OutOf(9,OutOf(0,'A.peer'))", 24),
];

#[derive(Clone, Copy)]
enum Kind {
    Syntax,
    Role,
    Threshold,
}

fn fault_at(kind: Kind, at: usize) -> PolicyFault {
    match kind {
        Kind::Syntax => PolicyFault::Syntax { at },
        Kind::Role => PolicyFault::Role { at },
        Kind::Threshold => PolicyFault::Threshold { at },
    }
}

// The first text that hasn't the fault at its place.
fn first_other(
    alloc: Global,
    kind: Kind,
    rows: &'static [(&'static str, usize)],
) -> Option<&'static str> {
    for &(text, at) in rows {
        if fault_of(alloc, text) != Some(fault_at(kind, at)) {
            return Some(text);
        }
    }
    None
}

#[test]
fn syntax_role_and_threshold(rt: HostRuntime) {
    assert!(rt; first_other(rt.alloc(), Kind::Syntax, syntax_rows()).is_none());
    assert!(rt; first_other(rt.alloc(), Kind::Role, role_rows()).is_none());
    assert!(rt; first_other(rt.alloc(), Kind::Threshold, threshold_rows()).is_none());
}
