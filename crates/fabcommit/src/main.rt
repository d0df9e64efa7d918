//! `fabcommit`: the program of `command_line` over this process's words, files and standard streams.
#![tactic(auto)]

use command_line::{DiskFiles, ProgressLine, program, without_words};
use std::io::IsTerminal;
use std::process::ExitCode;
use std::{env, io};

fn words(rt: &HostRuntime) -> io::Result<Vec<String>> {
    Ok(env::args(rt)?.collect(rt.alloc())?)
}

fn main(rt: HostRuntime) -> ExitCode {
    let (mut out, mut err) = (rt.stdout(), rt.stderr());
    ExitCode::from(match words(&rt) {
        Ok(words) => {
            let files = DiskFiles::new(&rt);
            let is_watched = err.is_terminal();
            let mut progress = ProgressLine::new(&rt, rt.stderr(), is_watched);
            program(
                &rt,
                words.as_slice(),
                &files,
                &mut rt.stdin(),
                &mut out,
                &mut err,
                &mut progress,
            )
        }
        Err(error) => without_words(&rt, &error, &mut out, &mut err),
    })
}
