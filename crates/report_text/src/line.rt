//! A line that is put together before it goes out.

ghost use Rattle.std.specs.Prelude.{◌≡◌, ◌+◌, ◌*◌, ◌++◌, ◌≤◌, codes, decimal, length};
ghost use Rattle.std.specs.List.{flat_map};
ghost use Rattle.arrayvec.specs.ArrayVec.{array_vec_len};
ghost use Rattle.report_text.specs.Hex.{byte_hex, word_hex};

use crate::hexing::byte_digits;
use arrayvec::ArrayVec;
use itoa::Buffer;

/// Space for the longest line but that of the output.
pub type Line = ArrayVec<u8, 72>;

/// Space for the digits of the output that go out at once.
pub(crate) type Digits = ArrayVec<u8, 512>;

/// Adds a text that fits.
pub fn put(line: &mut Line, text: &[u8])
    requires { array_vec_len line.old + length text.now ≤ 72 }
    ensures text { line.new.items ≡ line.old.items ++ text.now }
    ensures len { array_vec_len line.new ≡ array_vec_len line.old + length text.now }
{
    let _ = line.try_extend_from_slice(text);
}

/// Adds a number in decimal digits.
pub(crate) fn put_number(line: &mut Line, number: u32)
    requires { array_vec_len line.old + 10 ≤ 72 }
    ensures text { line.new.items ≡ line.old.items ++ decimal number }
    ensures len { array_vec_len line.new ≤ array_vec_len line.old + 10 }
{
    let mut buffer = Buffer::new();
    put(line, buffer.format(number).as_bytes());
}

/// Adds a count in decimal digits.
pub(crate) fn put_count(line: &mut Line, count: u64)
    requires { array_vec_len line.old + 20 ≤ 72 }
    ensures text { line.new.items ≡ line.old.items ++ decimal count }
    ensures len { array_vec_len line.new ≤ array_vec_len line.old + 20 }
{
    let mut buffer = Buffer::new();
    put(line, buffer.format(count).as_bytes());
}

/// Adds a word in hex digits.
pub(crate) fn put_word(line: &mut Line, word: u32)
    requires { array_vec_len line.old + 8 ≤ 72 }
    ensures text { line.new.items ≡ line.old.items ++ word_hex word }
    ensures len { array_vec_len line.new ≡ array_vec_len line.old + 8 }
{
    put_byte(line, (word >> 24) as u8);
    put_byte(line, (word / 65536 % 256) as u8);
    put_byte(line, (word / 256 % 256) as u8);
    put_byte(line, (word % 256) as u8);
}

fn put_byte(line: &mut Line, byte: u8)
    requires { array_vec_len line.old + 2 ≤ 72 }
    ensures text { line.new.items ≡ line.old.items ++ byte_hex byte }
    ensures len { array_vec_len line.new ≡ array_vec_len line.old + 2 }
{
    put(line, &byte_digits(byte));
}

/// The digits of bytes.
pub(crate) fn digits_of(bytes: &[u8]) -> Digits
    requires { length bytes.now ≤ 256 }
    ensures { result.items ≡ flat_map byte_hex bytes.now }
{
    let mut digits = Digits::new();
    for byte in bytes {
        let [high, low] = byte_digits(*byte);
        digits.push(high);
        digits.push(low);
    }
    digits
}
