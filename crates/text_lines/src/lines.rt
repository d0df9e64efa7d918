ghost use Rattle.std.specs.Prelude.{◌≡◌, ◌==◌, ◌||◌, length, slice_index};
ghost use Rattle.text_lines.specs.Lines as spec;

use crate::parts::trimmed;
use std::marker::Model;
use std::str::Lines;

/// A line that says something.
#[derive(Clone, Copy)]
pub struct Statement<'a> {
    /// The line's number, counted from 1 over all lines.
    pub line: u64,
    /// The line without the spaces at both ends. Never empty.
    pub bytes: &'a [u8],
}

/// The lines of a text that say something, in order, seen as the list of those that are left.
///
/// A line ends with `\n`, which the last one may lack; a `\r` before it is dropped. A line that is
/// empty or begins with `#`, once the spaces (0x20) at both ends are dropped, says nothing. To go
/// over all is linear in the text, and takes no memory.
#[derive(Drop)]
pub struct Statements<'a> {
    lines: Lines<'a>,
    // How many lines were taken.
    taken: u64,
}

impl<'a> Model for Statements<'a> {
    ghost use Rattle.std.specs.Prelude.{◌+◌, ◌<◌, ◌^◌, List, length};
    ghost use Rattle.std.specs.Str.Iter.{lines_rest};
    ghost use Rattle.text_lines.specs.Lines as spec;
    ghost use Rattle.text_lines.specs.Statements.{statements_after};

    ghost Value = { List spec.Statement };

    ghost view = { λ s. statements_after s.taken (lines_rest s.lines) };

    ghost invariant = { λ s. s.taken + length (lines_rest s.lines) < 2 ^ 64 };
}

impl<'a> Statements<'a> {
    /// The lines of this text. Reads none yet.
    pub fn new(text: &'a str) -> Statements<'a>
        ensures { result ≡ spec.statements text.now }
    {
        Statements {
            lines: text.lines(),
            taken: 0,
        }
    }
}

fn says_nothing(line: &[u8]) -> bool
    ensures { result ≡ spec.says_nothing line.now }
{
    line.is_empty() || line[0] == b'#'
}

impl<'a> Iterator for Statements<'a> {
    ghost use Rattle.std.specs.Iterator.{YieldsFirstBy, item_count};
    ghost use Rattle.text_lines.specs.Statements.{view_of};

    type Item = Statement<'a>;

    ghost next_gives = { YieldsFirstBy view_of (λ left. left) };

    ghost remaining = { item_count (λ left. left) };

    fn next(&mut self) -> Option<Statement<'a>> {
        while let Some(line) = self.lines.next() {
            self.taken += 1;
            let bytes = trimmed(line.as_bytes());
            if !says_nothing(bytes) {
                return Some(Statement {
                    line: self.taken,
                    bytes,
                });
            }
        }
        None
    }
}
