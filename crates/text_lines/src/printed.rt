ghost use Rattle.std.specs.Prelude.{◌≡◌, ◌<◌, Some};
ghost use Rattle.std.specs.Fmt.{WritesOnOk};
ghost use Rattle.text_lines.specs.Printed as spec;

use crate::words::stands_for_itself;
use std::fmt;

/// Bytes that print as the word that spells them: `%` where there are none, else each byte from 0x21 to
/// 0x7e but `%` as itself, and any other as `%` and two upper-case hexadecimal digits.
#[derive(Clone, Copy)]
pub struct Word<'a>(pub &'a [u8]);

fn upper_digit(value: u8) -> char
    requires { value < 16 }
    ensures { result ≡ spec.upper_digit value }
{
    char::from(if value < 10 {
        b'0' + value
    } else {
        b'A' + (value - 10)
    })
}

fn write_byte<W: fmt::Write>(f: &mut fmt::Formatter<W>, byte: u8) -> fmt::Result
    ensures { WritesOnOk W.write_str_gives f.old result (spec.byte_spelling byte) f.new }
{
    if stands_for_itself(byte) {
        return f.write_char(char::from(byte));
    }
    f.write_char('%')?;
    f.write_char(upper_digit(byte / 16))?;
    f.write_char(upper_digit(byte % 16))
}

impl fmt::Display for Word<'_> {
    ghost output = { λ word. Some (spec.word_of word.0.now) };

    fn fmt<W: fmt::Write>(&self, f: &mut fmt::Formatter<W>) -> fmt::Result {
        if self.0.is_empty() {
            return f.write_char('%');
        }
        for byte in self.0 {
            write_byte(f, *byte)?;
        }
        Ok(())
    }
}
