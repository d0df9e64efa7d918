ghost use Rattle.std.specs.Prelude.{◌≡◌, ◌+◌, ◌==◌, ◌<◌, ◌≤◌, length, take, count_by, IfOk, IfErr};
ghost use Rattle.std.specs.Str.{IsUtf8};
ghost use Rattle.text_lines.specs.Utf8.{first_bad_line};

use std::str::from_utf8;

fn line_feeds(bytes: &[u8]) -> usize
    ensures count { result ≡ count_by (λ b. b == 10) bytes.now }
    ensures bound { result ≤ length bytes.now }
{
    bytes.iter().filter(|byte| **byte == b'\n').count()
}

/// The bytes as text, or the number of the first line, counted from 1, that isn't UTF-8: one more
/// than the line feeds before the first byte that `std::str::from_utf8` refuses. Linear in the
/// bytes, and takes no memory.
pub fn text_of(bytes: &[u8]) -> Result<&str, u64>
    ensures text { IfOk result (λ text. (text.now ≡ bytes.now) × IsUtf8 bytes.now) }
    ensures fault { IfErr result (λ line. ¬ (IsUtf8 bytes.now) × (line ≡ first_bad_line bytes.now)) }
{
    match from_utf8(bytes) {
        Ok(text) => Ok(text),
        Err(fault) => Err(line_feeds(&bytes[..fault.valid_up_to()]) as u64 + 1),
    }
}
