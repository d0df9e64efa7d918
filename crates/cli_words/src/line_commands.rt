//! The commands that a session's lines may have, for clap.
use crate::arguments::{Argument, Form, KEY, NAMESPACE};
use crate::conflict_counts::{FROM, TOP};
use crate::explain::{ALL, DOT, ID, IDS, TX};
use crate::paths::SOME_BLOCKS;
use crate::run::HASHES;
use crate::scan::{END, LIMIT, START};
use crate::subcommand::{Subcommand, with_subcommands};
use clap::Command;
use std::alloc::{AllocError, Global};

// The block that is explained.
const BLOCK: Argument = Argument {
    name: "block",
    value_name: "BLOCK",
    help: "The file of the next block, as a word",
    form: Form::Positional,
};

static RUN: Subcommand = Subcommand {
    name: "run",
    about: "Commit blocks, whose files are words",
    example: "",
    arguments: &[HASHES, SOME_BLOCKS],
};

static GET: Subcommand = Subcommand {
    name: "get",
    about: "Look up what a key holds",
    example: "",
    arguments: &[NAMESPACE, KEY],
};

static SCAN: Subcommand = Subcommand {
    name: "scan",
    about: "List the keys of a namespace, in their order, and what they hold",
    example: "",
    arguments: &[NAMESPACE, START, END, LIMIT],
};

static HISTORY: Subcommand = Subcommand {
    name: "history",
    about: "See what was written to a key",
    example: "",
    arguments: &[NAMESPACE, KEY],
};

static DEFINITION: Subcommand = Subcommand {
    name: "definition",
    about: "See the endorsement policy of a chaincode",
    example: "",
    arguments: &[NAMESPACE],
};

static EXPLAIN: Subcommand = Subcommand {
    name: "explain",
    about: "Learn why each transaction of the next block would have its flag",
    example: "",
    arguments: &[TX, ID, IDS, DOT, ALL, BLOCK],
};

static CONFLICTS: Subcommand = Subcommand {
    name: "conflicts",
    about: "Count what made transactions invalid: flags, keys, chaincodes",
    example: "",
    arguments: &[TOP, FROM],
};

static HEIGHT: Subcommand = Subcommand {
    name: "height",
    about: "See how many blocks were accepted",
    example: "",
    arguments: &[],
};

static QUIT: Subcommand = Subcommand {
    name: "quit",
    about: "End the session",
    example: "",
    arguments: &[],
};

fn subcommand_for(name: &str) -> Option<&'static Subcommand> {
    match name {
        "run" => Some(&RUN),
        "get" => Some(&GET),
        "scan" => Some(&SCAN),
        "history" => Some(&HISTORY),
        "definition" => Some(&DEFINITION),
        "explain" => Some(&EXPLAIN),
        "conflicts" => Some(&CONFLICTS),
        "height" => Some(&HEIGHT),
        "quit" => Some(&QUIT),
        _ => None,
    }
}

/// The command of this name alone, so that a line costs no more than its own; none if there is none.
pub(crate) fn command_for<'a>(
    alloc: Global,
    name: &str,
) -> Result<Option<Command<'a>>, AllocError> {
    match subcommand_for(name) {
        Some(subcommand) => Ok(Some(subcommand.command(alloc)?)),
        None => Ok(None),
    }
}

/// All commands under one.
pub(crate) fn whole_command<'a>(alloc: Global) -> Result<Command<'a>, AllocError> {
    let command = Command::new(alloc, "session")
        .no_binary_name(true)
        .about("The lines of a session")
        .subcommand_required(true);
    let subcommands = [
        &RUN,
        &GET,
        &SCAN,
        &HISTORY,
        &DEFINITION,
        &EXPLAIN,
        &CONFLICTS,
        &HEIGHT,
        &QUIT,
    ];
    with_subcommands(alloc, command, &subcommands)
}
