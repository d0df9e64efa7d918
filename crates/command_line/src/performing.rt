ghost use Rattle.std.specs.Prelude.{IfOk, IfErr};
ghost use Rattle.command_line.specs.Ending.{EndsEarly};
ghost use Rattle.command_line.specs.Printed.{Does};

use crate::run::run_blocks;
use crate::session::hold_session;
use cli_words::Asked;
use command_files::{Fault, Files};
use ledger_commands::{
    Progress, draft_block, print_conflicts, print_definition, print_history, print_reasons,
    print_row, print_rows, print_scripts,
};
use std::io::{Read, Write};
use std::sync::Wait;
use std::thread::Threads;

/// Does what is asked for. Returns what the process ends with, unless a fault ends it before. `run`
/// and `session` have threads, and `session` alone reads the input.
pub(crate) fn perform<
    'a,
    R: AllocGlobal + Threads + Wait + Sync,
    F: Files + Sync,
    I: Read,
    W: Write,
    P: Progress,
>(
    asked: &Asked<'a>,
    rt: &R,
    files: &F,
    input: &mut I,
    out: &mut W,
    progress: &mut P,
) -> Result<u8, Fault<'a>>
    ensures ok { IfOk result (λ status. Does (F.holds files.now) (F.written files.now) asked.now (W.contents out.old) status (W.contents out.new)) }
    ensures err { IfErr result (EndsEarly (F.holds files.now) (F.unreadable files.now) (F.unwritable files.now) asked.now (W.contents out.old) (W.contents out.new)) }
{
    let alloc = rt.alloc();
    if asked.is_quiet() {
        progress.silence();
    }
    match asked {
        Asked::Draft(words) => draft_block(alloc, files, words),
        Asked::Run(words) => run_blocks(rt, files, words, out, progress),
        Asked::Get(words) => print_row(alloc, files, words, out, progress),
        Asked::Scan(words) => print_rows(alloc, files, words, out, progress),
        Asked::History(words) => print_history(alloc, files, words, out, progress),
        Asked::Definition(words) => print_definition(alloc, files, words, out, progress),
        Asked::Show(words) => print_scripts(alloc, files, words, out, progress),
        Asked::Explain(words) => print_reasons(alloc, files, words, out, progress),
        Asked::Conflicts(words) => print_conflicts(alloc, files, words, out, progress),
        Asked::Session(words) => hold_session(rt, files, words, input, out, progress),
    }
}
