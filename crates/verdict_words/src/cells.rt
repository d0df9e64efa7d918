//! Verdicts as words.
ghost use Rattle.std.specs.Prelude.{◌≡◌};
ghost use Rattle.verdict_words.specs.Cells as cell;

use rules::Flag;

/// The word of a known endorsement verdict: 1 is no, 2 is yes.
pub(crate) fn endorsed_word(endorsed: bool) -> u64
    ensures { result ≡ cell.endorsed_word endorsed }
{
    if endorsed { 2 } else { 1 }
}

/// The endorsement verdict of a word; none where it is 0, unknown.
pub(crate) fn endorsed_in(word: u64) -> Option<bool>
    ensures { result ≡ cell.endorsed_in word }
{
    match word {
        0 => None,
        1 => Some(false),
        _ => Some(true),
    }
}

/// The word of a known flag: its number and 1.
pub(crate) fn flag_word(flag: Flag) -> u64
    ensures { result ≡ cell.flag_word flag }
{
    u64::from(flag.number()) + 1
}

/// The flag of a word; none where it is 0, unknown.
pub(crate) fn flag_in(word: u64) -> Option<Flag>
    ensures { result ≡ cell.flag_in word }
{
    match word {
        0 => None,
        word => Flag::numbered(word - 1),
    }
}
