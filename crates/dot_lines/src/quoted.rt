//! Words between quotes.
ghost use Rattle.std.specs.Prelude.{Some};
ghost use Rattle.std.specs.Fmt.{WritesOnOk};
ghost use Rattle.dot_lines.specs.Dot as spec;

use std::fmt;
use text_lines::Word;

/// Bytes that print as the word that encodes them, as it is written between the quotes of DOT: `"` and `\` after a `\`,
/// and `&` as `&amp;`.
#[derive(Clone, Copy)]
pub struct QuotedWord<'a>(pub &'a [u8]);

fn write_escaped<W: fmt::Write>(f: &mut fmt::Formatter<W>, byte: u8) -> fmt::Result
    ensures { WritesOnOk W.write_str_gives f.old result (spec.quoted_byte byte) f.new }
{
    match byte {
        b'"' => f.write_str("\\\""),
        b'\\' => f.write_str("\\\\"),
        b'&' => f.write_str("&amp;"),
        _ => {
            let byte = [byte];
            let word = Word(&byte);
            write!(f, "{word}")
        }
    }
}

impl fmt::Display for QuotedWord<'_> {
    ghost output = { λ word. Some (spec.quoted_word word.0.now) };

    fn fmt<W: fmt::Write>(&self, f: &mut fmt::Formatter<W>) -> fmt::Result {
        if self.0.is_empty() {
            return f.write_char('%');
        }
        for byte in self.0 {
            write_escaped(f, *byte)?;
        }
        Ok(())
    }
}
