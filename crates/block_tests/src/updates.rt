//! The results of an update that is alone in its block.

use crate::asking::{Said, said_of};
use crate::cases::{JobCase, NOTHING, Rule, Signed, UpdateCase};
use crate::outcome::{Outcome, comes_out};
use crate::rows::UNKNOWN;
use key_chains::Decision;
use rules::{Flag, ReadVerdict};
use std::alloc::Global;
use test_support::Failed;

// The admin policy, which peers signed, and whether the update is valid.
type Row = (Option<Rule>, bool, bool, bool);

fn rows() -> &'static [Row] {
    &ROWS
}

// The chaincode's own policy requires either: it isn't used.
static ROWS: [Row; 8] = [
    (Some(Rule::First), true, false, true),
    (Some(Rule::First), false, true, false),
    (Some(Rule::Second), false, true, true),
    (Some(Rule::Both), true, true, true),
    (Some(Rule::Both), true, false, false),
    (Some(Rule::Either), false, false, false),
    (Some(Rule::Either), false, true, true),
    (None, true, true, false),
];

fn case_of(row: &Row) -> JobCase {
    let &(admin, first, second, _) = row;
    let mut case = NOTHING;
    case.update = Some(UpdateCase {
        admin,
        policy: Rule::Both,
        signed: Signed { first, second },
    });
    case
}

// A valid update gives its definition, another one nothing.
fn outcome_of(is_valid: bool) -> Outcome {
    Outcome {
        flags: if is_valid {
            &[Flag::Valid]
        } else {
            &[Flag::InvalidConfigTransaction]
        },
        changes: &[],
        entries: 0,
        definition: if is_valid { Some(Rule::Both) } else { None },
    }
}

// What both checks return for the update, and the version of a key before it.
fn is_said(said: &Said, is_endorsed: bool) -> bool {
    said.endorsement == Decision::Sure(is_endorsed)
        && said.reads == Decision::Sure(ReadVerdict::Good)
        && said.version == Decision::Sure(None)
}

fn is_judged(alloc: Global, row: &Row) -> Result<bool, Failed> {
    let case = case_of(row);
    let said = said_of(alloc, &case, &UNKNOWN, 0)?;
    if !is_said(&said, row.3) {
        return Ok(false);
    }
    comes_out(alloc, &case, &outcome_of(row.3))
}

#[test]
fn the_admin_policy_decides(rt: HostRuntime) -> Result<(), Failed> {
    for (number, row) in rows().iter().enumerate() {
        assert!(rt; is_judged(rt.alloc(), row)?, "row {number}");
    }
    Ok(())
}
