//! How many threads a run has.
ghost use Rattle.std.specs.Prelude.{◌≤◌};

use crate::arguments::{Argument, Form, number_of};
use clap::ArgMatches;

const MOST_WORKERS: u16 = 64;

const MOST_READERS: u16 = 32;

pub(crate) const WORKERS: Argument = Argument {
    name: "workers",
    value_name: "N",
    help: "Threads that check a block, from 1 to 64",
    form: Form::Count {
        default: "1",
        least: 1,
        most: MOST_WORKERS,
    },
};

pub(crate) const READERS: Argument = Argument {
    name: "readers",
    value_name: "N",
    help: "Threads that query meanwhile, from 0 to 32",
    form: Form::Count {
        default: "0",
        least: 0,
        most: MOST_READERS,
    },
};

/// Numbers of threads within the bounds of a committer.
#[derive(Drop)]
pub struct Parallelism {
    pub workers: usize,
    pub readers: usize,
    ghost some_workers: { 1 ≤ workers },
    ghost few_workers: { workers ≤ 64 },
    ghost few_readers: { readers ≤ 32 },
}

impl Parallelism {
    // Clap has looked at the bounds already.
    fn within(workers: u16, readers: u16) -> Option<Parallelism> {
        if workers < 1 || workers > MOST_WORKERS || readers > MOST_READERS {
            return None;
        }
        Some(Parallelism {
            workers: usize::from(workers),
            readers: usize::from(readers),
        })
    }

    /// So many workers as the option says, and no readers.
    pub(crate) fn of_workers(matches: &ArgMatches<'_>) -> Option<Parallelism> {
        Parallelism::within(number_of(matches, "workers")?, 0)
    }

    /// What the options say.
    pub(crate) fn from_matches(matches: &ArgMatches<'_>) -> Option<Parallelism> {
        Parallelism::within(
            number_of(matches, "workers")?,
            number_of(matches, "readers")?,
        )
    }
}
