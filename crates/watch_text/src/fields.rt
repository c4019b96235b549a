//! Fields of a line.

ghost use Rattle.std.specs.Prelude.{◌≡◌, ◌<◌, ◌≤◌, ◌++◌, OnOk, codes, decimal};
ghost use Rattle.std.specs.List.{flat_map};
ghost use Rattle.std.specs.String.{string_bytes};
ghost use Rattle.script_text.specs.report_text.Hex.{byte_hex};
ghost use Rattle.watch_text.specs.Fields.{args_field, comma_before, items_field, items_text, more_items, name_field};
ghost use Rattle.watch_text.specs.Fields.{number_field, some_field, start_text, word_field};

use itoa::Buffer;
use std::alloc::AllocError;
use std::fmt::Write;

/// A text as it stands.
#[inline(always)]
pub(crate) fn put_text(line: &mut String, text: &str) -> Result<(), AllocError>
    ensures { OnOk result (string_bytes line.new ≡ string_bytes line.old ++ text.now) }
{
    line.push_str(text)
}

/// A digit.
#[inline(always)]
#[tactic(auto, using(std::proofs::lemmas::Fmt::decimal_digit))]
fn put_digit(line: &mut String, digit: u64) -> Result<(), AllocError>
    requires { digit < 10 }
    ensures { OnOk result (string_bytes line.new ≡ string_bytes line.old ++ decimal digit) }
{
    line.push(char::from(b'0' + digit as u8))
}

/// Two digits.
#[inline(always)]
fn put_two(line: &mut String, number: u64) -> Result<(), AllocError>
    requires { (10 ≤ number) × (number < 100) }
    ensures { OnOk result (string_bytes line.new ≡ string_bytes line.old ++ decimal number) }
{
    put_digit(line, number / 10)?;
    put_digit(line, number % 10)
}

/// Three digits.
#[inline(always)]
fn put_three(line: &mut String, number: u64) -> Result<(), AllocError>
    requires { (100 ≤ number) × (number < 1000) }
    ensures { OnOk result (string_bytes line.new ≡ string_bytes line.old ++ decimal number) }
{
    put_two(line, number / 10)?;
    put_digit(line, number % 10)
}

/// Any digits.
fn put_many(line: &mut String, number: u64) -> Result<(), AllocError>
    ensures { OnOk result (string_bytes line.new ≡ string_bytes line.old ++ decimal number) }
{
    let mut buffer = Buffer::new();
    line.push_str(buffer.format(number))
}

/// More digits than one.
fn put_long(line: &mut String, number: u64) -> Result<(), AllocError>
    requires { 10 ≤ number }
    ensures { OnOk result (string_bytes line.new ≡ string_bytes line.old ++ decimal number) }
{
    if number < 100 {
        put_two(line, number)
    } else if number < 1000 {
        put_three(line, number)
    } else {
        put_many(line, number)
    }
}

/// The digits of a number: most have one.
#[inline(always)]
pub(crate) fn put_digits(line: &mut String, number: u64) -> Result<(), AllocError>
    ensures { OnOk result (string_bytes line.new ≡ string_bytes line.old ++ decimal number) }
{
    if number < 10 {
        put_digit(line, number)
    } else {
        put_long(line, number)
    }
}

/// A number behind its key, as `,"tile":`, which is one text.
#[inline(always)]
pub(crate) fn put_field(line: &mut String, key: &str, number: u64) -> Result<(), AllocError>
    ensures { OnOk result (string_bytes line.new ≡ string_bytes line.old ++ (key.now ++ decimal number)) }
{
    put_text(line, key)?;
    put_digits(line, number)
}

/// A number under a name.
#[inline(always)]
pub(crate) fn put_number(line: &mut String, name: &str, number: u64) -> Result<(), AllocError>
    ensures { OnOk result (string_bytes line.new ≡ string_bytes line.old ++ number_field name.now number) }
{
    put_text(line, ",\"")?;
    put_text(line, name)?;
    put_text(line, "\":")?;
    put_digits(line, number)
}

/// Puts a field with a name and a number, where there is one; else nothing.
#[inline(always)]
pub(crate) fn put_some(line: &mut String, name: &str, number: Option<u64>) -> Result<(), AllocError>
    ensures { OnOk result (string_bytes line.new ≡ string_bytes line.old ++ some_field name.now number) }
{
    match number {
        None => Ok(()),
        Some(number) => put_number(line, name, number),
    }
}

/// A word under a name.
#[inline(always)]
pub(crate) fn put_word(line: &mut String, name: &str, word: &str) -> Result<(), AllocError>
    ensures { OnOk result (string_bytes line.new ≡ string_bytes line.old ++ word_field name.now word.now) }
{
    put_text(line, ",\"")?;
    put_text(line, name)?;
    put_text(line, "\":\"")?;
    put_text(line, word)?;
    put_text(line, "\"")
}

/// A word behind its key, as `,"do":"`, which is one text.
#[inline(always)]
pub(crate) fn put_word_field(line: &mut String, key: &str, word: &str) -> Result<(), AllocError>
    ensures { OnOk result (string_bytes line.new ≡ string_bytes line.old ++ (key.now ++ word.now ++ codes "\"")) }
{
    put_text(line, key)?;
    put_text(line, word)?;
    put_text(line, "\"")
}

/// The core, where there is one.
#[inline(always)]
pub(crate) fn put_core(line: &mut String, core: Option<u64>) -> Result<(), AllocError>
    ensures { OnOk result (string_bytes line.new ≡ string_bytes line.old ++ some_field (codes "core") core) }
{
    match core {
        None => Ok(()),
        Some(core) => put_field(line, ",\"core\":", core),
    }
}

/// A task's name: which turn created it (0: the image), and its place among those children.
pub(crate) fn put_name(line: &mut String, creator: u64, index: u32) -> Result<(), AllocError>
    ensures { OnOk result (string_bytes line.new ≡ string_bytes line.old ++ name_field creator index) }
{
    put_text(line, ",\"name\":[")?;
    put_digits(line, creator)?;
    put_text(line, ",")?;
    put_digits(line, u64::from(index))?;
    put_text(line, "]")
}

/// Three arguments.
fn put_args(line: &mut String, args: &[u32; 3]) -> Result<(), AllocError>
    ensures { OnOk result (string_bytes line.new ≡ string_bytes line.old ++ args_field args.now) }
{
    put_text(line, ",\"args\":[")?;
    put_digits(line, u64::from(args[0]))?;
    put_text(line, ",")?;
    put_digits(line, u64::from(args[1]))?;
    put_text(line, ",")?;
    put_digits(line, u64::from(args[2]))?;
    put_text(line, "]")
}

/// What a task starts with: its entry address, its timestamp, its arguments and its hint.
#[tactic(auto, unfolding(crate::specs::Fields::start_text))]
pub(crate) fn put_start(
    line: &mut String,
    entry: u32,
    ts: u32,
    args: &[u32; 3],
    hint: u32,
) -> Result<(), AllocError>
    ensures { OnOk result (string_bytes line.new ≡ string_bytes line.old ++ start_text entry ts args.now hint) }
{
    put_field(line, ",\"entry\":", u64::from(entry))?;
    put_field(line, ",\"ts\":", u64::from(ts))?;
    put_args(line, args)?;
    put_field(line, ",\"hint\":", u64::from(hint))
}

/// The comma before an item of this place, unless it is the first.
pub(crate) fn put_comma(line: &mut String, place: u32) -> Result<(), AllocError>
    ensures { OnOk result (string_bytes line.new ≡ string_bytes line.old ++ comma_before place) }
{
    if place == 0 {
        Ok(())
    } else {
        put_text(line, ",")
    }
}

/// The two hex digits of a byte.
#[tactic(auto, using(std::proofs::lemmas::Fmt::hex_byte))]
fn put_byte(line: &mut String, byte: u8) -> Result<(), AllocError>
    ensures { OnOk result (string_bytes line.new ≡ string_bytes line.old ++ byte_hex byte) }
{
    write!(line, "{byte:02x}")
}

/// The hex digits of bytes.
pub(crate) fn put_hex(line: &mut String, bytes: &[u8]) -> Result<(), AllocError>
    ensures { OnOk result (string_bytes line.new ≡ string_bytes line.old ++ flat_map byte_hex bytes.now) }
{
    for byte in bytes {
        put_byte(line, *byte)?;
    }
    Ok(())
}
