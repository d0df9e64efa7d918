//! The rules on the state, given whether each earlier transaction counts.

use crate::cases::{
    BLOCK, DEFINITIONS, JobCase, KEYS, KeyPlace, KeyUse, LETTERS, NAMESPACES, NewValue, Query,
    RowCase, Rule, SetCase, Signed, TXS, TxCase,
};
use rules::ReadVerdict;
use transaction::Version;

/// Yes or no for each transaction. It is no for those that aren't before the one that is checked.
pub type Assignment = [bool; TXS];

/// The version of each key.
pub type State = [[Option<Version>; KEYS]; NAMESPACES];

fn version_of(row: Option<RowCase>) -> Option<Version> {
    match row {
        None => None,
        Some(row) => Some(row.version),
    }
}

fn state_before(case: &JobCase) -> State {
    let mut state = [[None; KEYS]; NAMESPACES];
    for n in 0..NAMESPACES {
        for k in 0..KEYS {
            state[n][k] = version_of(case.rows[n][k]);
        }
    }
    state
}

fn version_after(before: Option<Version>, used: &KeyUse, version: Version) -> Option<Version> {
    match (used.value, used.policy) {
        (Some(NewValue::Put), _) => Some(version),
        (Some(NewValue::Delete), _) => None,
        (None, Some(_)) if before.is_some() => Some(version),
        _ => before,
    }
}

fn apply(state: &mut State, tx: &TxCase, version: Version) {
    for n in 0..NAMESPACES {
        for k in 0..KEYS {
            state[n][k] = version_after(state[n][k], &tx.sets[n].uses[k], version);
        }
    }
}

/// The state after the open transactions that are called yes are applied in order.
pub fn state_under(case: &JobCase, called: &Assignment) -> State {
    let mut state = state_before(case);
    for h in 0..TXS {
        if called[h] && case.txs[h].is_open {
            let version = Version {
                block: BLOCK,
                tx: h as u32,
            };
            apply(&mut state, &case.txs[h], version);
        }
    }
    state
}

/// The version of the row at a place, if there is one.
pub fn version_at(state: &State, place: KeyPlace) -> Option<Version> {
    state[place.namespace()][place.key()]
}

/// Whether the transaction writes a value or a policy there.
pub fn writes_at(tx: &TxCase, place: KeyPlace) -> bool {
    tx.sets[place.namespace()].uses[place.key()].is_write()
}

fn reads_hold(set: &SetCase, versions: &[Option<Version>; KEYS]) -> bool {
    for k in 0..KEYS {
        if let Some(read) = set.uses[k].read {
            if read != versions[k] {
                return false;
            }
        }
    }
    true
}

fn query_holds(query: &Query, versions: &[Option<Version>; KEYS]) -> bool {
    for k in 0..KEYS {
        if query.is_compared(LETTERS[k]) && query.results[k] != versions[k] {
            return false;
        }
    }
    true
}

fn set_verdict(set: &SetCase, versions: &[Option<Version>; KEYS]) -> ReadVerdict {
    if !reads_hold(set, versions) {
        return ReadVerdict::Stale;
    }
    match &set.query {
        Some(query) if !query_holds(query, versions) => ReadVerdict::Phantom,
        _ => ReadVerdict::Good,
    }
}

/// What a transaction's reads find, the first fault of its namespaces. A flagged one has none.
pub fn read_verdict(case: &JobCase, tx: &TxCase, called: &Assignment) -> ReadVerdict {
    if !tx.is_open {
        return ReadVerdict::Good;
    }
    let state = state_under(case, called);
    for n in 0..NAMESPACES {
        let verdict = set_verdict(&tx.sets[n], &state[n]);
        if verdict != ReadVerdict::Good {
            return verdict;
        }
    }
    ReadVerdict::Good
}

fn is_met(rule: Rule, signed: Signed) -> bool {
    match rule {
        Rule::First => signed.first,
        Rule::Second => signed.second,
        Rule::Both => signed.first && signed.second,
        Rule::Either => signed.first || signed.second,
    }
}

fn governing(row: Option<RowCase>, definition: Rule) -> Rule {
    match row {
        Some(
            RowCase {
                policy: Some(own),
                ..
            },
        ) => own,
        _ => definition,
    }
}

/// Of each key, whether its policy was written.
type Touched = [[bool; KEYS]; NAMESPACES];

fn touch(touched: &mut Touched, tx: &TxCase) {
    for n in 0..NAMESPACES {
        for k in 0..KEYS {
            if tx.sets[n].uses[k].policy.is_some() {
                touched[n][k] = true;
            }
        }
    }
}

/// By the open transactions that are called yes.
fn touched_under(case: &JobCase, called: &Assignment) -> Touched {
    let mut touched = [[false; KEYS]; NAMESPACES];
    for h in 0..TXS {
        if called[h] && case.txs[h].is_open {
            touch(&mut touched, &case.txs[h]);
        }
    }
    touched
}

/// Whether each key of a namespace that is written may be written.
fn may_write_all(
    set: &SetCase,
    signed: Signed,
    rows: &[Option<RowCase>; KEYS],
    touched: &[bool; KEYS],
    definition: Rule,
) -> bool {
    for k in 0..KEYS {
        if set.uses[k].is_write()
            && (touched[k] || !is_met(governing(rows[k], definition), signed))
        {
            return false;
        }
    }
    true
}

fn has_writes(set: &SetCase) -> bool {
    for used in &set.uses {
        if used.is_write() {
            return true;
        }
    }
    false
}

/// Whether a transaction passes the endorsement rule. A flagged one doesn't.
pub fn is_endorsed(case: &JobCase, tx: &TxCase, called: &Assignment) -> bool {
    let touched = touched_under(case, called);
    for n in 0..NAMESPACES {
        let rows = &case.rows[n];
        if !may_write_all(&tx.sets[n], tx.signed, rows, &touched[n], DEFINITIONS[n]) {
            return false;
        }
    }
    tx.is_open && (has_writes(&tx.sets[0]) || is_met(DEFINITIONS[0], tx.signed))
}

/// Whether the earlier one writes the policy of a key that this one writes.
pub fn endorsement_depends(tx: &TxCase, earlier: &TxCase) -> bool {
    for n in 0..NAMESPACES {
        for k in 0..KEYS {
            if tx.sets[n].uses[k].is_write() && earlier.sets[n].uses[k].policy.is_some() {
                return tx.is_open && earlier.is_open;
            }
        }
    }
    false
}

/// Whether a key of the namespace is read, or lies in the compared part of the range.
fn looks_at(set: &SetCase, used: &KeyUse, letter: u8) -> bool {
    let is_compared = match &set.query {
        None => false,
        Some(query) => query.is_compared(letter),
    };
    used.read.is_some() || is_compared
}

/// Whether the earlier one writes a key that this one looks at.
pub fn reads_depend(tx: &TxCase, earlier: &TxCase) -> bool {
    for n in 0..NAMESPACES {
        let set = &tx.sets[n];
        for k in 0..KEYS {
            if looks_at(set, &set.uses[k], LETTERS[k]) && earlier.sets[n].uses[k].is_write() {
                return tx.is_open && earlier.is_open;
            }
        }
    }
    false
}
