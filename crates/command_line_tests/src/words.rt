//! The words of the command.

use crate::files::MemoryFiles;
use crate::fixture::{CHANNEL, End, FIRST_BLOCK, KEYS, Scene, ended, unlike_of};
use command_line::without_words;
use std::alloc::AllocError;
use std::io;
use std::io::ErrorKind;
use std::str::from_utf8;
use std::sync::Wait;
use std::thread::Threads;

mod mixed;

const COMMAND: &str = "Usage: fabcommit <COMMAND>\n";

const RUN: &str = "Usage: fabcommit run [OPTIONS] --channel <FILE> --keys <FILE> <BLOCK>...\n";

// Where a required argument is missing, without the others.
const LEAST_RUN: &str = "Usage: fabcommit run --channel <FILE> --keys <FILE> <BLOCK>...\n";

const DRAFT: &str =
    "Usage: fabcommit draft [OPTIONS] --channel <FILE> --keys <FILE> <SCRIPT> <OUT>\n";

const GET: &str =
    "Usage: fabcommit get [OPTIONS] --channel <FILE> --keys <FILE> --ns <NAME> --key <WORD> [BLOCK]...\n";

const SCAN: &str =
    "Usage: fabcommit scan [OPTIONS] --channel <FILE> --keys <FILE> --ns <NAME> [BLOCK]...\n";

const HISTORY: &str =
    "Usage: fabcommit history [OPTIONS] --channel <FILE> --keys <FILE> --ns <NAME> --key <WORD> [BLOCK]...\n";

const DEFINITION: &str =
    "Usage: fabcommit definition [OPTIONS] --channel <FILE> --keys <FILE> --ns <NAME> [BLOCK]...\n";

const EXPLAIN: &str =
    "Usage: fabcommit explain [OPTIONS] --channel <FILE> --keys <FILE> <BLOCK>...\n";

const SESSION: &str =
    "Usage: fabcommit session [OPTIONS] --channel <FILE> --keys <FILE> [BLOCK]...\n";

const CONFLICTS: &str =
    "Usage: fabcommit conflicts [OPTIONS] --channel <FILE> --keys <FILE> <BLOCK>...\n";

const SHOW: &str = "Usage: fabcommit show [OPTIONS] <BLOCK>...\n";

const LEAST_SHOW: &str = "Usage: fabcommit show <BLOCK>...\n";

// Words behind the program's name, and two texts that what is said of them has.
type Row = (&'static [&'static str], &'static str, &'static str);

fn mistaken() -> &'static [Row] {
    &MISTAKES
}

static MISTAKES: [Row; 35] = [
    (
        &[],
        "'fabcommit' requires a subcommand but one was not provided",
        COMMAND,
    ),
    (&["walk"], "unrecognized subcommand 'walk'", COMMAND),
    (&["show"], "\n  <BLOCK>...\n", LEAST_SHOW),
    (
        &["run"],
        "the following required arguments were not provided:",
        LEAST_RUN,
    ),
    (
        &["run", "--keys", "k", "b"],
        "\n  --channel <FILE>\n",
        LEAST_RUN,
    ),
    (
        &["run", "--channel", "c", "b"],
        "\n  --keys <FILE>\n",
        LEAST_RUN,
    ),
    (
        &["run", "--channel", "c", "--keys", "k"],
        "\n  <BLOCK>...\n",
        LEAST_RUN,
    ),
    (
        &["run", "--channel", "c", "--keys", "k", "-w", "b"],
        "unexpected argument '-w' found",
        RUN,
    ),
    (
        &["run", "--keys", "k", "--keys", "k"],
        "'--keys <FILE>' cannot be used multiple times",
        RUN,
    ),
    (
        &["draft", "--channel", "c", "--keys", "k", "s"],
        "\n  <OUT>\n",
        "fabcommit draft",
    ),
    (
        &["draft", "--channel", "c", "--keys", "k", "s", "o", "p"],
        "unexpected argument 'p' found",
        "fabcommit draft",
    ),
    (
        &["draft", "--format", "3"],
        "invalid value '3' for '--format <N>': 3 is not in 1..=2",
        "--help",
    ),
    (
        &[
            "draft",
            "--channel",
            "c",
            "--keys",
            "k",
            "--format",
            "+1",
            "s",
            "o",
        ],
        "a number is written with digits alone",
        COMMAND,
    ),
    (
        &["get", "--channel", "c", "--keys", "k", "--ns", "cc"],
        "\n  --key <WORD>\n",
        "fabcommit get",
    ),
    (
        &["scan", "--channel", "c", "--keys", "k", "b"],
        "\n  --ns <NAME>\n",
        "fabcommit scan",
    ),
    (
        &["history", "--channel", "c", "--keys", "k", "--key", "k"],
        "\n  --ns <NAME>\n",
        "fabcommit history",
    ),
    (
        &["definition", "--channel", "c", "--keys", "k", "b"],
        "\n  --ns <NAME>\n",
        "fabcommit definition",
    ),
    (
        &["definition", "--key", "k"],
        "unexpected argument '--key' found",
        "fabcommit definition",
    ),
    (
        &["scan", "--limit", "0"],
        "invalid value '0' for '--limit <N>': 0 is not in 1..=65535",
        "--help",
    ),
    (
        &["scan", "--limit", "65536"],
        "invalid value '65536' for '--limit <N>': 65536 is not in 1..=65535",
        "--help",
    ),
    (
        &[
            "scan",
            "--channel",
            "c",
            "--keys",
            "k",
            "--ns",
            "n",
            "--limit",
            "+2",
        ],
        "a number is written with digits alone",
        COMMAND,
    ),
    (
        &["explain", "--channel", "c", "--keys", "k", "--tx", "0"],
        "\n  <BLOCK>...\n",
        "fabcommit explain",
    ),
    (
        &["explain", "--tx", "4096"],
        "invalid value '4096' for '--tx <N>': 4096 is not in 0..=4095",
        "--help",
    ),
    (
        &[
            "explain",
            "--channel",
            "c",
            "--keys",
            "k",
            "--tx",
            "+2",
            "b",
        ],
        "a number is written with digits alone",
        COMMAND,
    ),
    (
        &[
            "explain",
            "--channel",
            "c",
            "--keys",
            "k",
            "--tx",
            "2",
            "--id",
            "x",
            "b",
        ],
        "--tx and --id don't go together",
        COMMAND,
    ),
    (
        &["explain", "--id", "x", "--id", "x"],
        "'--id <ID>' cannot be used multiple times",
        EXPLAIN,
    ),
    (
        &["conflicts", "--channel", "c", "--keys", "k", "--top", "1"],
        "\n  <BLOCK>...\n",
        "fabcommit conflicts",
    ),
    (
        &["conflicts", "--top", "65536"],
        "invalid value '65536' for '--top <N>': 65536 is not in 0..=65535",
        "--help",
    ),
    (
        &["conflicts", "--from", "18446744073709551616"],
        "invalid value '18446744073709551616' for '--from <N>'",
        "--help",
    ),
    (
        &[
            "conflicts",
            "--channel",
            "c",
            "--keys",
            "k",
            "--from",
            "+2",
            "b",
        ],
        "a number is written with digits alone",
        COMMAND,
    ),
    (
        &["run", "--workers", "0"],
        "invalid value '0' for '--workers <N>': 0 is not in 1..=64",
        "--help",
    ),
    (
        &["run", "--workers", "65"],
        "invalid value '65' for '--workers <N>': 65 is not in 1..=64",
        "--help",
    ),
    (
        &["run", "--readers", "33"],
        "invalid value '33' for '--readers <N>': 33 is not in 0..=32",
        "--help",
    ),
    (
        &["run", "--readers", "two"],
        "invalid value 'two' for '--readers <N>': invalid digit found in string",
        "--help",
    ),
    (
        &[
            "run",
            "--channel",
            "c",
            "--keys",
            "k",
            "--workers",
            "+2",
            "b",
        ],
        "a number is written with digits alone",
        COMMAND,
    ),
];

fn helped() -> &'static [Row] {
    &HELP
}

static HELP: [Row; 21] = [
    (
        &["--version"],
        "fabcommit 0.2.0, for blocks of versions 1 and 2\n",
        "",
    ),
    (
        &["help"],
        "\n  explain     Learn why each transaction",
        COMMAND,
    ),
    (&["--help"], "\nCommands:\n  draft ", COMMAND),
    (&["help"], "\nExample, from a script to what", COMMAND),
    (&["draft", "-h"], "\nExample:\n  fabcommit draft ", DRAFT),
    (&["get", "--help"], "\nExample:\n  fabcommit get ", GET),
    (&["help", "scan"], "[default: 100]\n", SCAN),
    (
        &["history", "-h"],
        "\nExample:\n  fabcommit history ",
        HISTORY,
    ),
    (
        &["definition", "-h"],
        "\nExample:\n  fabcommit definition ",
        DEFINITION,
    ),
    (&["help", "draft"], "update ", DRAFT),
    (
        &["help", "show"],
        "\nExample, to change a block:\n  fabcommit show ",
        SHOW,
    ),
    (
        &["explain", "-h"],
        "\nExample:\n  fabcommit explain ",
        EXPLAIN,
    ),
    (&["help", "explain"], "\n      --ids ", EXPLAIN),
    (&["help", "explain"], "| dot -Tsvg > block1.svg\n", EXPLAIN),
    (&["help", "get"], "--json block0.blk block1.blk | jq ", GET),
    (&["conflicts", "-h"], "\n  fabcommit conflicts ", CONFLICTS),
    (
        &["session", "-h"],
        " | fabcommit session --channel ",
        SESSION,
    ),
    (&["help", "session"], "\n  end STATUS ", SESSION),
    (
        &["run", "--help"],
        "\nOptions:\n      --channel <FILE>",
        RUN,
    ),
    (
        &["help", "run"],
        "\n  Workers share the transactions of a block",
        RUN,
    ),
    (
        &["run", "--channel", "no such", "-h"],
        "\n  <BLOCK>...",
        RUN,
    ),
];

// Whether the text begins with a front, and has two others.
fn says(said: &[u8], front: &str, text: &str, usage: &str) -> bool {
    match from_utf8(said) {
        Ok(said) => said.starts_with(front) && said.contains(text) && said.contains(usage),
        Err(_) => false,
    }
}

// How a run on these words behind the program's name ends.
fn ended_of(
    rt: &(impl AllocGlobal + Threads + Wait + Sync),
    words: &[&'static str],
) -> Result<End, AllocError> {
    let mut all = vec![in rt.alloc(); "/usr/bin/anything"]?;
    all.extend_from_slice(words)?;
    Ok(ended(rt, &MemoryFiles(&[]), &all))
}

fn is_refused(ended: &End, text: &str, usage: &str) -> bool {
    ended.status == 2 && ended.out.is_empty() && says(&ended.err, "error: ", text, usage)
}

fn is_mistake(
    rt: &(impl AllocGlobal + Threads + Wait + Sync),
    row: &Row,
) -> Result<bool, AllocError> {
    let (words, text, usage) = *row;
    let ended = ended_of(rt, words)?;
    Ok(is_refused(&ended, text, usage))
}

#[test]
fn mistakes(rt: HostRuntime) -> Result<(), AllocError> {
    for row in mistaken() {
        assert!(rt; is_mistake(&rt, row)?, "{:?}", row.0);
    }
    Ok(())
}

fn is_help(rt: &(impl AllocGlobal + Threads + Wait + Sync), row: &Row) -> Result<bool, AllocError> {
    let (words, text, usage) = *row;
    let ended = ended_of(rt, words)?;
    Ok(ended.status == 0 && ended.err.is_empty() && says(&ended.out, "", text, usage))
}

#[test]
fn help(rt: HostRuntime) -> Result<(), AllocError> {
    for row in helped() {
        assert!(rt; is_help(&rt, row)?, "{:?}", row.0);
    }
    Ok(())
}

// Help of each subcommand fits a terminal of so many columns, but for the line that clap makes of all that is required.
const COLUMNS: usize = 80;

fn subcommands() -> &'static [&'static str] {
    &[
        "draft",
        "run",
        "get",
        "scan",
        "history",
        "definition",
        "explain",
        "conflicts",
        "show",
        "help",
    ]
}

fn fits(
    rt: &(impl AllocGlobal + Threads + Wait + Sync),
    name: &'static str,
) -> Result<bool, AllocError> {
    let ended = ended_of(rt, &["help", name])?;
    let mut lines = ended.out.as_slice().split(|byte| *byte == b'\n');
    Ok(ended.status == 0 && lines.all(|line| line.len() <= COLUMNS || line.starts_with(b"Usage: ")))
}

#[test]
fn help_fits_a_terminal(rt: HostRuntime) -> Result<(), AllocError> {
    for name in subcommands() {
        assert!(rt; fits(&rt, name)?, "{name}");
    }
    Ok(())
}

const LINES: &str = "accepted 0 9cae6f5c10756febc407bba95fc23853774c1f65f10354895bfdab6443d66ed3
refused 2 C1 B1
";

fn scenes() -> &'static [Scene<'static>] {
    &SCENES
}

static SCENES: [Scene; 1] = [(
    &[("c", CHANNEL), ("k", KEYS), ("b", FIRST_BLOCK), ("-x", b"")],
    &[
        ("run b --channel c --keys=k -- -x", 1, LINES, ""),
        ("run --keys k --channel=c -- b -x", 1, LINES, ""),
        ("run b --keys k c --channel c", 1, LINES, ""),
    ],
)];

#[test]
fn options_between_and_behind_blocks(rt: HostRuntime) -> Result<(), AllocError> {
    let unlike = unlike_of(&rt, scenes())?;
    assert!(rt; unlike.is_none(), "{unlike:?}");
    Ok(())
}

// Whether the program that has no words of this kind ends with this status and this beginning of what is wrong.
fn is_told(rt: &impl AllocGlobal, kind: ErrorKind, status: u8, text: &str) -> bool {
    let (mut out, mut err) = (Vec::new(rt.alloc()), Vec::new(rt.alloc()));
    let error = io::Error::from(kind);
    let got = without_words(rt, &error, &mut out, &mut err);
    got == status && out.is_empty() && says(&err, text, "", "")
}

static KINDS: [(ErrorKind, u8, &str); 2] = [
    (
        ErrorKind::InvalidData,
        2,
        "error: invalid UTF-8 was detected in one or more arguments\n",
    ),
    (ErrorKind::OutOfMemory, 4, "out of memory\n"),
];

#[test]
fn no_words(rt: HostRuntime) {
    for (kind, status, text) in &KINDS {
        assert!(rt; is_told(&rt, *kind, *status, text));
    }
}
