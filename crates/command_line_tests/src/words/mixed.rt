//! Options of graphs with those of lines.

use crate::words::{COMMAND, ended_of, is_refused};
use std::alloc::AllocError;
use std::sync::Wait;
use std::thread::Threads;

// What a graph and lines don't share.
fn mixed() -> &'static [&'static [&'static str]] {
    &MIXED
}

static MIXED: [&[&str]; 6] = [
    &["--dot", "--ids"],
    &["--dot", "--json"],
    &["--dot", "--tx", "0"],
    &["--all", "--dot", "--id", "x"],
    &["--all"],
    &["--all", "--json"],
];

// Whether explaining the block with these options is a mistake.
fn is_mixed(
    rt: &(impl AllocGlobal + Threads + Wait + Sync),
    options: &[&'static str],
) -> Result<bool, AllocError> {
    let files = ["explain", "--channel", "c", "--keys", "k", "b"];
    let mut words = Vec::from_slice(rt.alloc(), &files)?;
    words.extend_from_slice(options)?;
    let text = "--dot goes with --all, and with none of --tx, --id, --ids and --json";
    Ok(is_refused(&ended_of(rt, &words)?, text, COMMAND))
}

#[test]
fn graphs_and_lines_are_not_mixed(rt: HostRuntime) -> Result<(), AllocError> {
    for options in mixed() {
        assert!(rt; is_mixed(&rt, options)?, "{options:?}");
    }
    Ok(())
}
