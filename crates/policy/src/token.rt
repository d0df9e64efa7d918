ghost use Rattle.std.specs.Prelude.{◌≡◌, ◌≤◌, length};
ghost use Rattle.std.specs.List.{AllPass, prefix_len};
ghost use Rattle.std.specs.Char.{is_ascii_digit, is_ascii_alphabetic};
ghost use Rattle.policy.specs.Lexing.{seen, after_spaces, number_in, number_at, word_in, word_at, front_at};

use crate::organization::Organization;
use crate::quoted::quoted;
use crate::tree::PolicyRole;

/// The word that begins a gate.
#[derive(Clone, Copy)]
pub enum Word {
    All,
    Any,
    OutOf,
}

/// What stands at one place of the text.
#[derive(Clone, Copy)]
pub enum Token<'a> {
    /// The text ends.
    End,
    /// An opening parenthesis.
    Opening,
    /// A closing parenthesis.
    Closing,
    Comma,
    Word(Word),
    Number(u16),
    Principal(Organization<'a>, PolicyRole),
    /// What stands between quotes is no principal.
    NoPrincipal,
    /// No token begins so.
    Broken,
    /// The closing quote is missing.
    Unclosed,
}

/// The text behind its spaces.
pub fn skip_spaces(text: &[u8]) -> &[u8]
    ensures { result.now ≡ after_spaces text.now }
{
    let mut rest = text;
    while let [b' ', after @ ..] = rest {
        rest = after;
    }
    rest
}

/// The token at the front, where no space stands, and what follows it. Linear in the token.
#[tactic(auto, unfolding(crate::specs::Lexing::front_at))]
pub fn next_token(text: &[u8]) -> (Token<'_>, &[u8])
    ensures { (seen result.0, result.1.now) ≡ front_at text.now }
{
    match text {
        [] => (Token::End, text),
        [b'(', rest @ ..] => (Token::Opening, rest),
        [b')', rest @ ..] => (Token::Closing, rest),
        [b',', rest @ ..] => (Token::Comma, rest),
        [b'\'', rest @ ..] => quoted(b'\'', rest),
        [b'"', rest @ ..] => quoted(b'"', rest),
        [b'0'..=b'9', ..] => any_number(text),
        _ => any_word(text),
    }
}

#[tactic(auto, unfolding(crate::specs::Lexing::number_at))]
fn any_number(text: &[u8]) -> (Token<'_>, &[u8])
    ensures { (seen result.0, result.1.now) ≡ number_at text.now }
{
    let (digits, rest) = text.split_at(count_digits(text));
    (number_of(digits), rest)
}

fn count_digits(text: &[u8]) -> usize
    ensures within { result ≤ length text.now }
    ensures digits { result ≡ prefix_len is_ascii_digit text.now }
{
    text.iter().take_while(|b| b.is_ascii_digit()).count()
}

fn number_of(digits: &[u8]) -> Token<'_>
    requires { AllPass is_ascii_digit digits.now }
    ensures { seen result ≡ number_in digits.now }
{
    match digits {
        [a] => Token::Number((*a - b'0') as u16),
        [a, b] => Token::Number((*a - b'0') as u16 * 10 + (*b - b'0') as u16),
        [a, b, c] => {
            Token::Number((*a - b'0') as u16 * 100 + (*b - b'0') as u16 * 10 + (*c - b'0') as u16)
        }
        _ => Token::Broken,
    }
}

#[tactic(auto, unfolding(crate::specs::Lexing::word_at))]
fn any_word(text: &[u8]) -> (Token<'_>, &[u8])
    ensures { (seen result.0, result.1.now) ≡ word_at text.now }
{
    let (letters, rest) = text.split_at(count_letters(text));
    (word_of(letters), rest)
}

fn count_letters(text: &[u8]) -> usize
    ensures within { result ≤ length text.now }
    ensures letters { result ≡ prefix_len is_ascii_alphabetic text.now }
{
    text.iter().take_while(|b| b.is_ascii_alphabetic()).count()
}

#[tactic(auto, unfolding(crate::specs::Lexing::word_in))]
fn word_of(letters: &[u8]) -> Token<'_>
    ensures { seen result ≡ word_in letters.now }
{
    if letters == b"AND".as_slice()
        || letters == b"And".as_slice()
        || letters == b"and".as_slice()
    {
        Token::Word(Word::All)
    } else if letters == b"OR".as_slice()
        || letters == b"Or".as_slice()
        || letters == b"or".as_slice()
    {
        Token::Word(Word::Any)
    } else if letters == b"OutOf".as_slice()
        || letters == b"outof".as_slice()
        || letters == b"OUTOF".as_slice()
    {
        Token::Word(Word::OutOf)
    } else {
        Token::Broken
    }
}
