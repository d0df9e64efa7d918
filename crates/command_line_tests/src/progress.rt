//! What is told to a person who waits: by a clock that goes on by so many milliseconds at each look.

use crate::files::{File, MemoryFiles};
use crate::fixture::{ACCEPTED_0, CHANNEL, FIRST_BLOCK, KEYS, words_of};
use crate::full::Full;
use command_line::{Progress, ProgressLine, program};
use std::alloc::{AllocError, Global};
use std::io;
use std::sync::Wait;
use std::sync::atomic::{AtomicU64, Ordering};
use std::thread::Threads;
use std::time::{Clock, Duration};

#[derive(Drop)]
struct Steps {
    now: AtomicU64,
    step: u64,
}

impl Steps {
    fn of(step: u64) -> Steps {
        Steps {
            now: AtomicU64::new(0),
            step,
        }
    }
}

impl Clock for Steps {
    fn monotonic(&self) -> io::Result<Duration> {
        Ok(Duration::from_millis(self.now.fetch_add(self.step, Ordering::SeqCst)))
    }

    fn since_1970(&self) -> io::Result<Duration> {
        Ok(Duration::from_millis(0))
    }
}

// The milliseconds of a look, how many of ten blocks are told of, whether the line is wanted, and what is shown.
type Row = (u64, usize, bool, &'static str);

fn rows() -> &'static [Row] {
    &ROWS
}

static ROWS: [Row; 6] = [
    (400, 2, true, ""),
    (400, 3, true, "\r2 of 10 blocks are in\r\u{1b}[K"),
    (
        400,
        4,
        true,
        "\r2 of 10 blocks are in\r3 of 10 blocks are in\r\u{1b}[K",
    ),
    (40, 27, true, "\r24 of 10 blocks are in\r\u{1b}[K"),
    (
        40,
        28,
        true,
        "\r24 of 10 blocks are in\r27 of 10 blocks are in\r\u{1b}[K",
    ),
    (400, 10, false, ""),
];

fn shown(alloc: Global, row: &Row) -> Vec<u8> {
    let (step, count, wanted, _) = *row;
    let clock = Steps::of(step);
    let mut text = Vec::new(alloc);
    let mut line = ProgressLine::new(&clock, &mut text, wanted);
    for done in 0..count {
        line.blocks_in(done, 10);
    }
    line.clear();
    line.clear();
    text
}

#[test]
fn one_line_from_a_second_on(rt: HostRuntime) {
    for row in rows() {
        assert!(rt;
            shown(rt.alloc(), row).as_slice() == row.3.as_bytes(),
            "{}",
            row.1
        );
    }
}

fn is_left_alone(alloc: Global) -> bool {
    let clock = Steps::of(2_000);
    let mut full = Full::after(alloc, 0);
    let mut line = ProgressLine::new(&clock, &mut full, true);
    line.blocks_in(0, 10);
    line.blocks_in(1, 10);
    line.silence();
    line.blocks_in(2, 10);
    // one write has failed, and no other was tried
    full.failures == usize::MAX - 1
}

#[test]
fn a_terminal_that_fails_is_left_alone(rt: HostRuntime) {
    assert!(rt; is_left_alone(rt.alloc()));
}

// Words, what is printed, and what is shown meanwhile.
type Told = (&'static str, &'static str, &'static str);

fn told() -> &'static [Told] {
    &TOLD
}

static TOLD: [Told; 6] = [
    ("run b", ACCEPTED_0, "\r0 of 1 blocks are in\r\u{1b}[K"),
    ("run --quiet b", ACCEPTED_0, ""),
    (
        "get --ns cc --key k b b",
        "height 1\nabsent\n",
        "\r0 of 2 blocks are in\r1 of 2 blocks are in\r\u{1b}[K",
    ),
    ("get --quiet --ns cc --key k b b", "height 1\nabsent\n", ""),
    (
        "explain b",
        "block 0 9cae6f5c10756febc407bba95fc23853774c1f65f10354895bfdab6443d66ed3\n",
        "",
    ),
    ("conflicts b", "", "\r0 of 1 blocks are in\r\u{1b}[K"),
];

static FILES: [File<'static>; 3] = [("c", CHANNEL), ("k", KEYS), ("b", FIRST_BLOCK)];

fn is_told(
    rt: &(impl AllocGlobal + Threads + Wait + Sync),
    told: &Told,
) -> Result<bool, AllocError> {
    let (words, printed, shown) = *told;
    let words = words_of(rt.alloc(), words)?;
    let clock = Steps::of(2_000);
    let (mut out, mut err) = (Vec::new(rt.alloc()), Vec::new(rt.alloc()));
    let mut text = Vec::new(rt.alloc());
    let mut line = ProgressLine::new(&clock, &mut text, true);
    program(
        rt,
        &words,
        &MemoryFiles(&FILES),
        &mut io::empty(),
        &mut out,
        &mut err,
        &mut line,
    );
    Ok(
        out.as_slice() == printed.as_bytes()
            && err.is_empty()
            && text.as_slice() == shown.as_bytes(),
    )
}

#[test]
fn what_is_printed_stays(rt: HostRuntime) -> Result<(), AllocError> {
    for row in told() {
        assert!(rt; is_told(&rt, row)?, "{}", row.0);
    }
    Ok(())
}
