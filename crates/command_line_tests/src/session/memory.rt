//! A session where memory is refused once: that answer is a front of its lines and the fault, and all others are as
//! they are otherwise.

use crate::explained::sample;
use crate::fixture::End;
use crate::session::held;
use std::alloc::AllocError;
use std::sync::Wait;
use std::thread::Threads;
use test_support::{Failed, Outcome, begins};

// The last line commits, so that no other depends on whether it did.
static LINES: &[u8] = b"height
get --ns cc --key car1
scan --ns cc
scan --ns cc --limit 1 --start car1
history --ns cc --key car1
definition --ns cc
# nothing
explain b2
explain --ids --tx 0 b2
explain --dot b2
conflicts
conflicts --top 1
help get
get --ns cc
run nothing
explain nothing
frobnicate
run --hashes b2
";

const FAULT: &str = "fault out of memory";

// The lines of an answer, where it ends, and what is behind it; none where nothing is left.
fn first_answer(out: &str) -> Option<(&str, &str, &str)> {
    let (lines, behind) = match out.strip_prefix("end ") {
        Some(behind) => ("", behind),
        None => {
            let (lines, behind) = out.split_once("\nend ")?;
            (lines, behind)
        }
    };
    let (status, rest) = behind.split_once('\n')?;
    Some((lines, status, rest))
}

// Whether these are a front of the answer's lines, and the fault.
fn is_cut(lines: &str, wanted: &str) -> bool {
    match lines.strip_suffix(FAULT) {
        Some(front) => wanted.starts_with(front) && (front.is_empty() || front.ends_with('\n')),
        None => false,
    }
}

// Whether all answers are as wanted but one, which is cut.
fn has_one_cut(out: &str, wanted: &str) -> bool {
    let (mut out, mut wanted, mut cuts) = (out, wanted, 0);
    for _ in 0..LINES.len() {
        match (first_answer(out), first_answer(wanted)) {
            (Some((lines, status, rest)), Some((own, own_status, own_rest))) => {
                if status == "4" && is_cut(lines, own) {
                    cuts += 1;
                } else if lines != own || status != own_status {
                    return false;
                }
                (out, wanted) = (rest, own_rest);
            }
            (None, None) => break,
            _ => return false,
        }
    }
    cuts == 1 && out.is_empty()
}

// Whether memory was refused before the first answer.
fn is_before_all(ended: &End, wanted: &str) -> bool {
    ended.status == 4
        && ended.err.as_slice() == b"out of memory\n".as_slice()
        && wanted.as_bytes().starts_with(&ended.out)
        && (ended.out.is_empty() || ended.out.ends_with(b"\n"))
}

fn is_made_good(ended: &End, wanted: &str) -> Result<bool, Failed> {
    let out = std::str::from_utf8(&ended.out)?;
    Ok((ended.status == 0 && has_one_cut(out, wanted)) || is_before_all(ended, wanted))
}

fn session(rt: &(impl AllocGlobal + Threads + Wait + Sync)) -> Result<End, AllocError> {
    held(rt, &sample(), "session --workers 2 b0 b1", LINES)
}

pub(crate) fn outcome_of_session(
    rt: &(impl AllocGlobal + Threads + Wait + Sync),
) -> Result<Outcome, Failed> {
    let wanted = session(rt)?;
    begins(rt.alloc())?;
    let first = session(rt)?;
    if first.out.as_slice() == wanted.out.as_slice() && first.status == wanted.status {
        return Ok(Outcome::Done);
    }
    let again = session(rt)?;
    let is_said = again.out.as_slice() == wanted.out.as_slice() && again.status == wanted.status;
    if is_said && is_made_good(&first, std::str::from_utf8(&wanted.out)?)? {
        Ok(Outcome::MadeGood)
    } else {
        Ok(Outcome::Wrong)
    }
}

// To be tried with memory that is refused at any one allocation, by `bench/refused_memory.py`.
#[test]
fn a_session_with_memory(rt: HostRuntime) -> Result<(), Failed> {
    assert!(rt; outcome_of_session(&rt)? == Outcome::Done);
    Ok(())
}
