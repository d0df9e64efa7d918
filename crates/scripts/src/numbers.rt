ghost use Rattle.std.specs.Prelude.{◌≡◌, ◌≤◌, length, true};
ghost use Rattle.std.specs.Char.{is_ascii_digit};
ghost use Rattle.std.specs.List.{list_all};
ghost use Rattle.std.specs.Str.Parse.{digits_value};
ghost use Rattle.scripts.specs.Numbers as spec;

/// The most digits of a number.
pub(crate) const MAX_DIGITS: usize = 20;

fn are_digits(text: &[u8]) -> bool
    ensures { result ≡ list_all is_ascii_digit text.now }
{
    text.iter().all(|byte| byte.is_ascii_digit())
}

fn is_number(text: &[u8]) -> bool
    ensures { result ≡ spec.is_number text.now }
{
    let len = text.len();
    1 <= len && len <= MAX_DIGITS && are_digits(text)
}

fn value_of(digits: &[u8]) -> u128
    requires digits { list_all is_ascii_digit digits.now ≡ true }
    requires few { length digits.now ≤ 20 }
    ensures { result ≡ digits_value 10 digits.now }
{
    let mut value = 0;
    for digit in digits {
        value = value * 10 + u128::from(digit - b'0');
    }
    value
}

pub(crate) fn read_u64(text: &[u8]) -> Option<u64>
    ensures { result ≡ spec.number_of 64 text.now }
{
    if !is_number(text) {
        return None;
    }
    u64::try_from(value_of(text)).ok()
}

pub(crate) fn read_u32(text: &[u8]) -> Option<u32>
    ensures { result ≡ spec.number_of 32 text.now }
{
    if !is_number(text) {
        return None;
    }
    u32::try_from(value_of(text)).ok()
}
