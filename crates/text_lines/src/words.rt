ghost use Rattle.std.specs.Prelude.{◌≡◌, ◌<◌, length, IfOk, IfSome, option_map};
ghost use Rattle.text_lines.specs.Words as spec;
ghost use Rattle.text_lines.specs.Spelling.{first_spelled};

use std::alloc::{AllocError, Global};
use values::Bytes;

pub(crate) fn stands_for_itself(byte: u8) -> bool
    ensures { result ≡ spec.stands_for_itself byte }
{
    byte.is_ascii_graphic() && byte != b'%'
}

fn hex_byte(high: u8, low: u8) -> Option<u8>
    ensures { result ≡ spec.hex_byte high low }
{
    let mut byte = [0];
    hex::decode_to_slice([high, low], &mut byte).ok()?;
    Some(byte[0])
}

// The byte that is spelled first, and what follows its spelling.
fn first_byte(text: &[u8]) -> Option<(u8, &[u8])>
    ensures value { option_map (λ x. (x.0, x.1.now)) result ≡ first_spelled text.now }
    ensures shorter { IfSome result (λ x. length x.1.now < length text.now) }
{
    match text {
        [byte, after @ ..] if stands_for_itself(*byte) => Some((*byte, after)),
        [b'%', high, low, after @ ..] => Some((hex_byte(*high, *low)?, after)),
        _ => None,
    }
}

fn spelled(alloc: Global, text: &[u8]) -> Result<Option<Bytes>, AllocError>
    ensures { IfOk result (λ bytes. bytes ≡ spec.spelled text.now) }
{
    let mut bytes = Vec::with_capacity(alloc, text.len())?;
    let mut rest = text;
    while !rest.is_empty() {
        let Some((byte, after)) = first_byte(rest) else {
            return Ok(None);
        };
        bytes.push(byte)?;
        rest = after;
    }
    Ok(Some(Bytes::from_vec(bytes)))
}

/// The bytes that a word spells, or `None` where the text is no word: `%` alone is the empty
/// string; else each byte from 0x21 to 0x7e other than `%` stands for itself, and `%` with two
/// hexadecimal digits of either case for the byte of that value. The empty text is no word. Linear
/// in the text, and takes its length in memory at most.
pub fn read_word(alloc: Global, text: &[u8]) -> Result<Option<Bytes>, AllocError>
    ensures { IfOk result (λ bytes. bytes ≡ spec.word_bytes text.now) }
{
    match text {
        [] => Ok(None),
        b"%" => Ok(Some(Bytes::from_vec(Vec::new(alloc)))),
        _ => spelled(alloc, text),
    }
}
