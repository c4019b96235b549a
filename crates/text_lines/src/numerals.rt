//! Numbers in decimal digits.

ghost use Rattle.std.specs.Prelude.{◌≡◌, ◌<◌, true, length, option_map};
ghost use Rattle.std.specs.List.{list_all};
ghost use Rattle.std.specs.Char.{is_ascii_digit};
ghost use Rattle.std.specs.Str.Parse.{digits_value};
ghost use Rattle.text_lines.specs.Numerals.{field, is_plain, number, number_below};

use crate::cutting::cut;

/// A number below 2^32 in decimal digits without a leading zero.
pub fn number(digits: &[u8]) -> Option<u32>
    ensures { result ≡ number digits.now }
{
    if !is_plain(digits) {
        return None;
    }
    if digits.len() < 10 {
        return Some(short_value(digits));
    }
    match str::from_utf8(digits) {
        Ok(text) => text.parse::<u32>().ok(),
        Err(_) => None,
    }
}

/// The number that at most nine digits write, without a look at whether it fits.
fn short_value(digits: &[u8]) -> u32
    requires digits { list_all is_ascii_digit digits.now ≡ true }
    requires short { length digits.now < 10 }
    ensures { result ≡ digits_value 10 digits.now }
{
    let mut value = 0;
    for digit in digits {
        value = value * 10 + u32::from(*digit - b'0');
    }
    value
}

fn is_plain(digits: &[u8]) -> bool
    ensures { result ≡ is_plain digits.now }
{
    are_digits(digits) && !digits.is_empty() && (digits[0] != b'0' || digits.len() == 1)
}

/// Whether each of the bytes is a decimal digit.
pub fn are_digits(bytes: &[u8]) -> bool
    ensures { result ≡ list_all is_ascii_digit bytes.now }
{
    bytes.iter().all(|byte| byte.is_ascii_digit())
}

/// The number before the first `mark`, and the rest after it.
pub fn field(line: &[u8], mark: u8) -> Option<(u32, &[u8])>
    ensures { option_map (λ p. (p.0, p.1.now)) result ≡ field mark line.now }
{
    let (digits, rest) = cut(line, mark)?;
    let value = number(digits)?;
    Some((value, rest))
}

/// A number below a bound in decimal digits without a leading zero.
#[tactic(auto, unfolding(crate::specs::Numerals::number_below))]
pub fn number_below(digits: &[u8], bound: u32) -> Option<u32>
    ensures { result ≡ number_below bound digits.now }
{
    let value = number(digits)?;
    if value < bound { Some(value) } else { None }
}
