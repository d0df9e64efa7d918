//! Sessions: how lines of the input are answered.

use crate::explained::sample;
use crate::files::{File, MemoryFiles};
use crate::fixture::{CHANNEL, End, FIRST_BLOCK, KEYS, answered, ended_reading, words_of};
use crate::full::{FAULT, Full, ends_reading};
use crate::session::inputs::Failing;
use std::alloc::{AllocError, Global};
use std::sync::Wait;
use std::thread::Threads;
use test_support::{Failed, check};

mod inputs;
mod memory;
pub(crate) mod rows;

/// Words but for the program's name, an input, a status, and what standard output and standard error are given.
pub(crate) type Row = (&'static str, &'static [u8], u8, &'static str, &'static str);

static FILES: [File<'static>; 4] = [
    ("c", CHANNEL),
    ("k", KEYS),
    ("b", FIRST_BLOCK),
    ("my block%.blk", FIRST_BLOCK),
];

/// How a session on these words and this input ends.
pub(crate) fn held(
    rt: &(impl AllocGlobal + Threads + Wait + Sync),
    files: &[File<'_>],
    words: &str,
    input: &[u8],
) -> Result<End, AllocError> {
    let words = words_of(rt.alloc(), words)?;
    let mut input = input;
    Ok(ended_reading(rt, &MemoryFiles(files), &words, &mut input))
}

fn is_held(rt: &(impl AllocGlobal + Threads + Wait + Sync), row: &Row) -> Result<bool, AllocError> {
    let (words, input, status, out, err) = *row;
    let ended = held(rt, &FILES, words, input)?;
    Ok(
        ended.status == status
            && ended.out.as_slice() == out.as_bytes()
            && ended.err.as_slice() == err.as_bytes(),
    )
}

#[test]
fn lines_and_their_answers(rt: HostRuntime) -> Result<(), AllocError> {
    for (number, row) in rows::all().iter().enumerate() {
        assert!(rt; is_held(&rt, row)?, "row {number}");
    }
    Ok(())
}

// ---- each answer is that of the call

static ASKED: [&str; 9] = [
    "get --ns cc --key car1",
    "get --ns cc --key nothing",
    "scan --ns cc",
    "scan --ns cc --start car1 --limit 1",
    "history --ns cc --key car1",
    "definition --ns cc",
    "definition --ns other",
    "conflicts",
    "conflicts --top 1 --from 1",
];

static PATHS: [&str; 7] = ["b0", "b1", "b2", "b3", "b4", "b5", "b6"];

// What a session is to print.
#[derive(Drop)]
struct Wanted {
    input: String,
    out: String,
    /// The blocks so far.
    blocks: String,
}

impl Wanted {
    fn nothing(alloc: Global) -> Result<Wanted, AllocError> {
        Ok(Wanted {
            input: String::new(alloc),
            out: String::from_str(alloc, "end 0\n")?,
            blocks: String::new(alloc),
        })
    }

    // A line, whose answer has these lines and this status.
    fn add(&mut self, line: &str, answer: &[u8], status: u8) -> Result<(), Failed> {
        self.input.push_str(line)?;
        self.input.push_str("\n")?;
        self.out.push_str(std::str::from_utf8(answer)?)?;
        self.out
            .push_str(if status == 0 { "end 0\n" } else { "end 1\n" })?;
        Ok(())
    }

    // The same line over the blocks so far, as a call.
    fn ask(
        &mut self,
        rt: &(impl AllocGlobal + Threads + Wait + Sync),
        line: &str,
        more: &str,
    ) -> Result<(), Failed> {
        let blocks = self.blocks.as_str();
        let call = format!(in rt.alloc(); "{line}{blocks}{more}")?;
        let ended = answered(rt, &MemoryFiles(&sample()), call.as_str())?;
        let line = format!(in rt.alloc(); "{line}{more}")?;
        self.add(line.as_str(), &ended.out, ended.status)
    }

    // The block of this path: its reasons, then its own lines.
    fn take(
        &mut self,
        rt: &(impl AllocGlobal + Threads + Wait + Sync),
        path: &str,
    ) -> Result<(), Failed> {
        let more = format!(in rt.alloc(); " {path}")?;
        self.ask(rt, "explain --ids", more.as_str())?;
        let before = self.ran(rt, "")?;
        let after = self.ran(rt, more.as_str())?;
        let own = after.out.get(before.out.len()..).unwrap_or(b"none");
        let line = format!(in rt.alloc(); "run --hashes {path}")?;
        self.add(line.as_str(), own, 0)?;
        self.blocks.push_str(more.as_str())?;
        Ok(())
    }

    // How `run` ends on the blocks so far and more; nothing is printed of none.
    fn ran(
        &self,
        rt: &(impl AllocGlobal + Threads + Wait + Sync),
        more: &str,
    ) -> Result<End, AllocError> {
        let blocks = self.blocks.as_str();
        let call = format!(in rt.alloc(); "run --hashes{blocks}{more}")?;
        answered(rt, &MemoryFiles(&sample()), call.as_str())
    }
}

fn ask_all(
    rt: &(impl AllocGlobal + Threads + Wait + Sync),
    wanted: &mut Wanted,
) -> Result<(), Failed> {
    for line in &ASKED {
        wanted.ask(rt, line, "")?;
    }
    Ok(())
}

// Whether each line is answered as the call is over the blocks before it.
fn answers_as_calls(
    rt: &(impl AllocGlobal + Threads + Wait + Sync),
    words: &str,
) -> Result<bool, Failed> {
    let mut wanted = Wanted::nothing(rt.alloc())?;
    for path in &PATHS {
        wanted.take(rt, path)?;
        ask_all(rt, &mut wanted)?;
    }
    let ended = held(rt, &sample(), words, wanted.input.as_bytes())?;
    Ok(ended.status == 0 && ended.out.as_slice() == wanted.out.as_bytes() && ended.err.is_empty())
}

#[test]
fn answers_are_those_of_calls(rt: HostRuntime) -> Result<(), Failed> {
    check(answers_as_calls(&rt, "session")?)
}

#[test]
fn answers_are_those_of_calls_by_three_workers(rt: HostRuntime) -> Result<(), Failed> {
    check(answers_as_calls(&rt, "session --workers 3")?)
}

// ---- inputs and outputs that fail

const WORDS: [&str; 6] = ["fabcommit", "session", "--channel=c", "--keys=k", "b", "b"];

const INPUT: &[u8] = b"height\n# none\nget --ns cc --key k\nrun nothing\nrun b\nquit";

const ANSWERS: &str = "\
accepted 0 9cae6f5c10756febc407bba95fc23853774c1f65f10354895bfdab6443d66ed3
refused 2 C2 want 1 got 0
end 1
height 1
end 0
height 1
absent
end 0
fault cannot read nothing
end 3
refused 1 C2 want 1 got 0
end 1
end 0
";

// Whether a writer that takes so many bytes has the front of the answers.
fn is_cut(rt: &(impl AllocGlobal + Threads + Wait + Sync), room: usize) -> bool {
    let mut out = Full::after(rt.alloc(), room);
    let mut input = INPUT;
    ends_reading(
        rt,
        &MemoryFiles(&FILES),
        &WORDS,
        &mut input,
        &mut out,
        3,
        FAULT,
    ) && Some(out.taken.as_slice()) == ANSWERS.as_bytes().get(..room)
}

#[test]
fn an_output_that_fails(rt: HostRuntime) {
    for room in 0..ANSWERS.len() {
        assert!(rt; is_cut(&rt, room), "{room}");
    }
}

// Whether all is answered that an input has before it fails after so many bytes.
fn is_answered_before(
    rt: &(impl AllocGlobal + Threads + Wait + Sync),
    room: usize,
) -> Result<bool, Failed> {
    let mut input = Failing::after(INPUT.get(..room).unwrap_or(b""));
    let ended = ended_reading(rt, &MemoryFiles(&FILES), &WORDS, &mut input);
    let lines = INPUT[..room].iter().filter(|byte| **byte == b'\n').count();
    // a comment has no answer
    let answers = if lines > 1 { lines } else { lines + 1 };
    Ok(
        ended.status == 3
            && ended.err.as_slice() == b"cannot read standard input\n".as_slice()
            && ANSWERS.as_bytes().starts_with(&ended.out)
            && inputs::ends_in(&ended.out) == answers,
    )
}

#[test]
fn an_input_that_fails(rt: HostRuntime) -> Result<(), Failed> {
    for room in 0..INPUT.len() {
        assert!(rt; is_answered_before(&rt, room)?, "{room}");
    }
    Ok(())
}

// ---- long lines

const MAX_LINE: usize = 1 << 20;

// A comment of so many bytes, then a line.
fn after_comment(
    rt: &(impl AllocGlobal + Threads + Wait + Sync),
    len: usize,
    rest: &[u8],
) -> Result<End, AllocError> {
    let mut input = vec![in rt.alloc(); b'#'; len]?;
    input.extend_from_slice(rest)?;
    held(rt, &FILES, "session", &input)
}

#[test]
fn lines_that_are_long(rt: HostRuntime) -> Result<(), AllocError> {
    let longest = after_comment(&rt, MAX_LINE, b"\nheight\n")?;
    assert!(rt; longest.out.as_slice() == b"end 0\nheight 0\nend 0\n".as_slice());
    let longer = after_comment(&rt, MAX_LINE + 1, b"\nheight\n")?;
    assert!(rt;
        longer.out.as_slice() == b"end 0\nfault line too long\nend 2\nheight 0\nend 0\n".as_slice()
    );
    let much_longer = after_comment(&rt, 3 * MAX_LINE, b"")?;
    assert!(rt; much_longer.out.as_slice() == b"end 0\nfault line too long\nend 2\n".as_slice());
    Ok(())
}

// ---- help

// Whether this line is answered by lines of help, of which one is this.
fn is_helped(
    rt: &(impl AllocGlobal + Threads + Wait + Sync),
    words: &str,
    line: &[u8],
    wanted: &str,
    end: &str,
) -> Result<bool, Failed> {
    let ended = held(rt, &FILES, words, line)?;
    let out = std::str::from_utf8(&ended.out)?;
    Ok(
        ended.status == 0
            && out.contains(wanted)
            && out.ends_with(end)
            && inputs::ends_in(&ended.out) <= 2,
    )
}

#[test]
fn help_is_an_answer(rt: HostRuntime) -> Result<(), Failed> {
    check(is_helped(
        &rt,
        "session",
        b"help",
        "\nUsage: session <COMMAND>\n",
        "\nend 0\n",
    )?)?;
    check(is_helped(&rt, "session", b"get --help", "--key <WORD>", "\nend 0\n")?)?;
    let usage = "{\"kind\":\"help\",\"text\":\"Usage: session <COMMAND>\"}\n";
    check(is_helped(
        &rt,
        "session --json",
        b"help\n",
        usage,
        "\n{\"kind\":\"end\",\"status\":0}\n",
    )?)
}
