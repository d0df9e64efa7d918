//! What is told to a person who waits while blocks are handed in.
use std::io::Write;
use std::time::{Clock, Duration};

/// Who is told how far the work is. Nothing that is done or printed depends on it.
pub trait Progress {
    /// So many blocks of so many are in.
    fn blocks_in(&mut self, done: usize, all: usize);

    /// What was shown goes away, before other lines and at the end.
    fn clear(&mut self);

    /// Nothing is told from now on.
    fn silence(&mut self);
}

/// Is told nothing.
#[derive(Clone, Copy, Debug)]
pub struct Silent;

impl Progress for Silent {
    fn blocks_in(&mut self, _done: usize, _all: usize) {}

    fn clear(&mut self) {}

    fn silence(&mut self) {}
}

// In milliseconds.
const FIRST: u64 = 1_000;

const NEXT: u64 = 100;

/// One line on a terminal, from one second on, and at most ten times a second.
#[derive(Drop)]
pub struct ProgressLine<'a, C, W> {
    clock: &'a C,
    out: W,
    /// When the line is written next; never where it isn't wanted, or the clock or the terminal fails.
    due: Option<Duration>,
    shown: bool,
}

fn later<C: Clock>(clock: &C, millis: u64) -> Option<Duration> {
    clock
        .monotonic()
        .ok()?
        .checked_add(Duration::from_millis(millis))
}

impl<'a, C: Clock, W: Write> ProgressLine<'a, C, W> {
    /// To be written to `out` if it is wanted.
    pub fn new(clock: &'a C, out: W, wanted: bool) -> ProgressLine<'a, C, W> {
        let due = if wanted { later(clock, FIRST) } else { None };
        ProgressLine {
            clock,
            out,
            due,
            shown: false,
        }
    }

    // Where no line is wanted the clock isn't looked at.
    fn is_due(&self) -> bool {
        let Some(due) = self.due else {
            return false;
        };
        self.clock.monotonic().is_ok_and(|now| due <= now)
    }
}

impl<C: Clock, W: Write> Progress for ProgressLine<'_, C, W> {
    fn blocks_in(&mut self, done: usize, all: usize) {
        if !self.is_due() {
            return;
        }
        let written = write!(self.out, "\r{done} of {all} blocks are in");
        self.shown = true;
        self.due = match written {
            Ok(()) => later(self.clock, NEXT),
            Err(_) => None,
        };
    }

    fn clear(&mut self) {
        if self.shown {
            let _ = write!(self.out, "\r\u{1b}[K");
            self.shown = false;
        }
    }

    fn silence(&mut self) {
        self.due = None;
    }
}
