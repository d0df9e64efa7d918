ghost use Rattle.std.specs.Prelude.{Some};
ghost use Rattle.cli_values.specs.Printed as spec;

use std::fmt;
use text_lines::Word;

/// A value, which prints as the word that encodes it; the value `deleted` as `%64eleted`, since a history has `deleted`
/// for a deletion. Takes no memory.
#[derive(Clone, Copy)]
pub struct ValueWord<'a>(pub &'a [u8]);

impl fmt::Display for ValueWord<'_> {
    ghost output = { λ value. Some (spec.value_word_of value.0.now) };

    fn fmt<W: fmt::Write>(&self, f: &mut fmt::Formatter<W>) -> fmt::Result {
        if self.0 == b"deleted".as_slice() {
            return f.write_str("%64eleted");
        }
        let word = Word(self.0);
        write!(f, "{word}")
    }
}
