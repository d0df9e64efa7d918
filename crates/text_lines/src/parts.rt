ghost use Rattle.std.specs.Prelude.{◌≡◌, ◌≤◌, length, take_while, reverse};
ghost use Rattle.text_lines.specs.Lines as spec;

// How many spaces stand at the front.
fn front_spaces(line: &[u8]) -> usize
    ensures count { result ≡ length (take_while spec.is_space line.now) }
    ensures bound { result ≤ length line.now }
{
    line.iter().take_while(|byte| **byte == b' ').count()
}

// How many spaces stand at the end.
fn end_spaces(line: &[u8]) -> usize
    ensures count { result ≡ length (take_while spec.is_space (reverse line.now)) }
    ensures bound { result ≤ length line.now }
{
    line.iter().rev().take_while(|byte| **byte == b' ').count()
}

fn without_front_spaces(line: &[u8]) -> &[u8]
    ensures { result.now ≡ spec.without_front_spaces line.now }
{
    &line[front_spaces(line)..]
}

/// The line without the spaces (0x20) at both ends; any other byte stays. Linear in their number.
pub fn trimmed(line: &[u8]) -> &[u8]
    ensures { result.now ≡ spec.trimmed line.now }
{
    let line = without_front_spaces(line);
    &line[..line.len() - end_spaces(line)]
}

// How many bytes stand before the first space.
fn first_part_len(line: &[u8]) -> usize
    ensures count { result ≡ length (spec.first_part line.now) }
    ensures bound { result ≤ length line.now }
{
    line.iter().take_while(|byte| **byte != b' ').count()
}

/// The bytes before the first space, and what follows the spaces there. Either may be empty. Linear
/// in the length of the first part and the spaces.
pub fn first_part(line: &[u8]) -> (&[u8], &[u8])
    ensures first { result.0.now ≡ spec.first_part line.now }
    ensures after { result.1.now ≡ spec.after_first_part line.now }
{
    let (first, after) = line.split_at(first_part_len(line));
    (first, without_front_spaces(after))
}
