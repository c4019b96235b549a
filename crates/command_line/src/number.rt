//! Numbers as words write them.

ghost use Rattle.std.specs.Prelude.{◌≡◌, ◌≤◌, true, IfSome};
ghost use Rattle.std.specs.Str.Parse.{digits_value};
ghost use Rattle.command_line.specs.Requests.{is_number, number_in, number_of};
ghost use Rattle.command_line.specs.Settings.{between};

use text_lines::are_digits;

/// The number that a text writes, where it is from `least` to `greatest`.
pub fn number_between(least: u32, greatest: u32, text: &str) -> Option<u32>
    ensures value { result ≡ number_in (between least greatest) text.now }
    ensures least { IfSome result (λ number. least ≤ number) }
    ensures greatest { IfSome result (λ number. number ≤ greatest) }
{
    let number = number_of(text)?;
    if u64::from(least) <= number && number <= u64::from(greatest) {
        Some(number as u32)
    } else {
        None
    }
}

/// The number that a text writes in 1 to 10 digits.
pub(crate) fn number_of(text: &str) -> Option<u64>
    ensures { result ≡ number_of text.now }
{
    let digits = text.as_bytes();
    if is_number(digits) {
        Some(value_of(digits))
    } else {
        None
    }
}

fn is_number(digits: &[u8]) -> bool
    ensures { result ≡ is_number digits.now }
{
    are_digits(digits) && 1 <= digits.len() && digits.len() <= 10
}

/// The value of at most 10 digits.
fn value_of(digits: &[u8]) -> u64
    requires { is_number digits.now ≡ true }
    ensures { result ≡ digits_value 10 digits.now }
{
    let mut value = 0u64;
    for digit in digits {
        value = value * 10 + u64::from(*digit - b'0');
    }
    value
}
