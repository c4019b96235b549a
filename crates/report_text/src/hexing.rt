//! Numbers in hex digits.

ghost use Rattle.std.specs.Prelude.{◌≡◌, ◌<◌, length, option_map, IfOk, IfSome};
ghost use Rattle.report_text.specs.Hex.{byte_hex, hex_bytes, hex_digit, hex_number, hex_value, hex_word};

use std::alloc::{AllocError, Global};

/// The two digits of a byte.
pub(crate) fn byte_digits(byte: u8) -> [u8; 2]
    ensures { result ≡ byte_hex byte }
{
    [digit_of(byte / 16), digit_of(byte % 16)]
}

fn digit_of(value: u8) -> u8
    requires { value < 16 }
    ensures { result ≡ hex_digit value }
{
    if value < 10 {
        b'0' + value
    } else {
        b'a' + (value - 10)
    }
}

fn value_of(digit: u8) -> Option<u8>
    ensures value { result ≡ hex_value digit }
    ensures small { IfSome result (λ x. x < 16) }
{
    match digit {
        b'0'..=b'9' => Some(digit - b'0'),
        b'a'..=b'f' => Some(digit - b'a' + 10),
        _ => None,
    }
}

/// The word of eight digits.
pub(crate) fn hex_word(digits: &[u8]) -> Option<u32>
    ensures { result ≡ hex_word digits.now }
{
    if digits.len() != 8 {
        return None;
    }
    hex_number(digits)
}

fn hex_number(digits: &[u8]) -> Option<u32>
    requires { length digits.now ≡ 8 }
    ensures { result ≡ hex_number 0 digits.now }
{
    let mut read = 0u32;
    for digit in digits {
        let value = value_of(*digit)?;
        read = read * 16 + u32::from(value);
    }
    Some(read)
}

/// The bytes of pairs of digits.
#[tactic(auto, using(crate::proofs::HexValues::hex_pairs))]
pub(crate) fn hex_bytes(alloc: Global, digits: &[u8]) -> Result<Option<Vec<u8>>, AllocError>
    ensures { IfOk result (λ o. option_map (λ v. v.items) o ≡ hex_bytes digits.now) }
{
    let mut found = Vec::new(alloc);
    let mut rest = digits;
    'pairs: while let Some((a, tail)) = rest.split_first() {
        let Some((b, after)) = tail.split_first() else {
            return Ok(None);
        };
        let Some(x) = value_of(*a) else {
            return Ok(None);
        };
        let Some(y) = value_of(*b) else {
            return Ok(None);
        };
        found.push(x * 16 + y)?;
        rest = after;
    }
    Ok(Some(found))
}
