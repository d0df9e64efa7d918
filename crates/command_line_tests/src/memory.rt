//! Each subcommand where memory is refused: it ends behind whole lines of what it says otherwise, and when it is called
//! again it says all.

use crate::drafted::first_script_files;
use crate::drafted::vectors::{answers, first_block, second_block, third_block};
use crate::explained::sample;
use crate::explained::vectors::{counts, graph, lines};
use crate::files::{File, MemoryFiles, OneOut};
use crate::fixture::{CHANNEL, End, Row, answered, is_said};
use crate::json::odd_files;
use crate::json::vectors::answers as objects;
use crate::signatures::keys;
use command_line::Files;
use std::alloc::AllocError;
use std::sync::Wait;
use std::sync::atomic::{AtomicU32, Ordering};
use std::thread::Threads;
use test_support::{Failed, Outcome, begins};

/// How much of its lines a run says.
#[derive(Clone, Copy, PartialEq, Eq)]
enum Said {
    All,
    // memory ran out behind whole lines
    Front,
    Other,
}

fn is_front(ended: &End, lines: &str) -> bool {
    let out = ended.out.as_slice();
    ended.status == 4
        && ended.err.as_slice() == b"out of memory\n".as_slice()
        && lines.as_bytes().starts_with(out)
        && (out.is_empty() || out.ends_with(b"\n"))
}

fn said_of(ended: &End, row: &Row<'_>) -> Said {
    if is_said(ended, row) {
        Said::All
    } else if is_front(ended, row.2) {
        Said::Front
    } else {
        Said::Other
    }
}

fn told<F: Files + Sync>(
    rt: &(impl AllocGlobal + Threads + Wait + Sync),
    files: &F,
    row: &Row<'_>,
) -> Result<Said, AllocError> {
    let ended = answered(rt, files, row.0)?;
    Ok(said_of(&ended, row))
}

fn outcome_of_row(
    rt: &(impl AllocGlobal + Threads + Wait + Sync),
    files: &[File<'_>],
    row: &Row<'_>,
) -> Result<Outcome, Failed> {
    begins(rt.alloc())?;
    let first = told(rt, &MemoryFiles(files), row)?;
    if first == Said::All {
        return Ok(Outcome::Done);
    }
    let again = told(rt, &MemoryFiles(files), row)?;
    if first == Said::Front && again == Said::All {
        Ok(Outcome::MadeGood)
    } else {
        Ok(Outcome::Wrong)
    }
}

fn row_of(rows: &'static [Row<'static>], words: &str) -> Result<&'static Row<'static>, Failed> {
    for row in rows {
        if row.0 == words {
            return Ok(row);
        }
    }
    Err(Failed::Missing("an answer"))
}

fn outcome_of_answer(
    rt: &(impl AllocGlobal + Threads + Wait + Sync),
    words: &str,
) -> Result<Outcome, Failed> {
    let files = [
        ("c", CHANNEL),
        ("k", keys()),
        ("b0", first_block()),
        ("b1", second_block()),
        ("b2", third_block()),
    ];
    outcome_of_row(rt, &files, row_of(answers(), words)?)
}

const RUN: &str = "run --workers 2 --readers 2 b0 b0 b1 k";

const GET: &str = "get --ns cc --key k1 b0 b0";

const SCAN: &str = "scan --ns cc --start % --end % --limit 2 b0 b1";

const HISTORY: &str = "history --ns cc --key a%20%25 b0 b1";

const DEFINITION: &str = "definition --ns cc b0 b1 b2";

const SHOW: &str = "show b0 b1 b2";

static ASKED: [&str; 6] = [RUN, GET, SCAN, HISTORY, DEFINITION, SHOW];

const RUN_OBJECTS: &str = "run --workers 2 --readers 2 --hashes b0 b1 --json";

const GET_OBJECTS: &str = "get --json --ns cc --key %22a%5C b0 b1";

const SCAN_OBJECTS: &str = "scan --json --ns cc --limit 2 b0 b1";

const HISTORY_OBJECTS: &str = "history --json --ns cc --key deleted b0 b1";

const DEFINITION_OBJECT: &str = "definition --json --ns cc";

const EXPLAIN_OBJECTS: &str = "explain --json b0 b1";

const CONFLICTS_OBJECTS: &str = "conflicts --json --from 1 b0 b1";

static OBJECTS_ASKED: [&str; 7] = [
    RUN_OBJECTS,
    GET_OBJECTS,
    SCAN_OBJECTS,
    HISTORY_OBJECTS,
    DEFINITION_OBJECT,
    EXPLAIN_OBJECTS,
    CONFLICTS_OBJECTS,
];

pub(crate) fn outcome_of_explain(
    rt: &(impl AllocGlobal + Threads + Wait + Sync),
) -> Result<Outcome, Failed> {
    let row = ("explain b0 b1 b2 b3 b4 b5 b6", 0, lines(), "");
    outcome_of_row(rt, &sample(), &row)
}

fn outcome_of_graph(rt: &(impl AllocGlobal + Threads + Wait + Sync)) -> Result<Outcome, Failed> {
    let row = ("explain --dot b0 b1 b2 b3 b4 b5 b6", 0, graph(), "");
    outcome_of_row(rt, &sample(), &row)
}

fn outcome_of_objects(
    rt: &(impl AllocGlobal + Threads + Wait + Sync),
    words: &str,
) -> Result<Outcome, Failed> {
    outcome_of_row(rt, &odd_files(), row_of(objects(), words)?)
}

pub(crate) fn outcome_of_conflicts(
    rt: &(impl AllocGlobal + Threads + Wait + Sync),
) -> Result<Outcome, Failed> {
    let row = ("conflicts b0 b1 b2 b3 b4 b5 b6", 0, counts(), "");
    outcome_of_row(rt, &sample(), &row)
}

// An id whose transaction stands in the first of these blocks.
const BY_ID: &str = "explain --id 4d941d69b676a61aff49cd6e78f11d3727d68eebad17b933dd85233f09067498 \
    --ids b0 b1 b2 b3 b4 b5";

const EARLIER: &str = "\
block 5 0a1eff09c2c419abd3992ce5aa2b039907bc3632a6e268c49b8761fd37f4816e
earlier 0 0 0 VALID
";

pub(crate) fn outcome_of_id(
    rt: &(impl AllocGlobal + Threads + Wait + Sync),
) -> Result<Outcome, Failed> {
    let row = (BY_ID, 0, EARLIER, "");
    outcome_of_row(rt, &sample(), &row)
}

// Whether the block is written once, or where memory ran out not at all and then when it is drafted again.
pub(crate) fn outcome_of_draft(
    rt: &(impl AllocGlobal + Threads + Wait + Sync),
) -> Result<Outcome, Failed> {
    let files = first_script_files();
    let written = AtomicU32::new(0);
    let files = OneOut {
        files: MemoryFiles(&files),
        out: ("out", first_block()),
        room: usize::MAX,
        written: &written,
    };
    let row = ("draft s out", 0, "", "");
    begins(rt.alloc())?;
    let first = (told(rt, &files, &row)?, written.load(Ordering::SeqCst));
    if first == (Said::All, 1) {
        return Ok(Outcome::Done);
    }
    let again = (told(rt, &files, &row)?, written.load(Ordering::SeqCst));
    if first == (Said::Front, 0) && again == (Said::All, 1) {
        Ok(Outcome::MadeGood)
    } else {
        Ok(Outcome::Wrong)
    }
}

// To be tried with memory that is refused at any one allocation, by `bench/refused_memory.py`.
#[test]
fn each_subcommand(rt: HostRuntime) -> Result<(), Failed> {
    for words in &ASKED {
        assert!(rt;
            outcome_of_answer(&rt, words)? == Outcome::Done,
            "{words:?}"
        );
    }
    for words in &OBJECTS_ASKED {
        assert!(rt;
            outcome_of_objects(&rt, words)? == Outcome::Done,
            "{words:?}"
        );
    }
    assert!(rt; outcome_of_explain(&rt)? == Outcome::Done);
    assert!(rt; outcome_of_graph(&rt)? == Outcome::Done);
    assert!(rt; outcome_of_id(&rt)? == Outcome::Done);
    assert!(rt; outcome_of_conflicts(&rt)? == Outcome::Done);
    assert!(rt; outcome_of_draft(&rt)? == Outcome::Done);
    Ok(())
}
