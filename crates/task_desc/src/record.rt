//! Descriptors as records of 64 bytes.

ghost use Rattle.std.specs.Prelude.{◌≡◌, true, ◌+◌, ◌≤◌, ◌^◌, ◌++◌, ◌&&◌, ◌==◌, nat_le, nat_lt, Some, take, drop};
ghost use Rattle.std.specs.Prelude.{length, replicate, IfSome};
ghost use Rattle.std.specs.Bool.{OnTrue};
ghost use Rattle.std.specs.List.{list_all};
ghost use Rattle.guest_image.specs.Numbers.{word_at, half_at, word_bytes, half_bytes};
ghost use Rattle.task_desc.specs.Record.{IsDesc, record_bytes, fields_of, is_record, desc_of};

use crate::calls::MAX_DEPTH;
use crate::desc::{Desc, Name};
use byteorder::{ByteOrder, LittleEndian};

/// How many bytes a record has.
pub const RECORD_BYTES: usize = 64;

/// Where the zeros begin that fill a record up.
const PADDING: usize = 36;

#[tactic(auto, unfolding(guest_image::specs::Numbers::word_at))]
fn word(bytes: &[u8; RECORD_BYTES], at: usize) -> u32
    requires { at + 4 ≤ RECORD_BYTES }
    ensures { result ≡ word_at bytes.now at }
{
    LittleEndian::read_u32(&bytes[at..])
}

#[tactic(auto, unfolding(guest_image::specs::Numbers::half_at))]
fn half(bytes: &[u8; RECORD_BYTES], at: usize) -> u16
    requires { at + 2 ≤ RECORD_BYTES }
    ensures { result ≡ half_at bytes.now at }
{
    LittleEndian::read_u16(&bytes[at..])
}

fn put_word(bytes: &mut [u8; RECORD_BYTES], at: usize, word: u32)
    requires { at + 4 ≤ RECORD_BYTES }
    ensures { bytes.new ≡ take at bytes.old ++ word_bytes word ++ drop (at + 4) bytes.old }
{
    LittleEndian::write_u32(&mut bytes[at..], word);
}

fn put_half(bytes: &mut [u8; RECORD_BYTES], at: usize, half: u16)
    requires { at + 2 ≤ RECORD_BYTES }
    ensures { bytes.new ≡ take at bytes.old ++ half_bytes half ++ drop (at + 2) bytes.old }
{
    LittleEndian::write_u16(&mut bytes[at..], half);
}

/// The record of a descriptor: its fields in their places, little-endian, followed by zeros.
pub fn put_desc(desc: &Desc) -> [u8; RECORD_BYTES]
    requires { IsDesc desc.now }
    ensures value { result ≡ record_bytes desc.now }
    ensures back { desc_of result ≡ Some desc.now }
{
    let mut record = [0; RECORD_BYTES];
    put_word(&mut record, 0, desc.entry);
    put_word(&mut record, 4, desc.ts);
    put_word(&mut record, 8, desc.args[0]);
    put_word(&mut record, 12, desc.args[1]);
    put_word(&mut record, 16, desc.args[2]);
    put_word(&mut record, 20, desc.hint);
    put_word(&mut record, 24, desc.name.creator);
    put_word(&mut record, 28, desc.name.index);
    put_half(&mut record, 32, u16::from(desc.depth));
    put_half(&mut record, 34, desc.kinds);
    record
}

/// The descriptor of a record; None exactly where the depth is not 1 to 16, `kinds` has a bit at or past the depth,
/// or a byte behind the fields is not 0.
#[tactic(auto, unfolding(crate::specs::Record::desc_of))]
pub fn get_desc(bytes: &[u8; RECORD_BYTES]) -> Option<Desc>
    ensures value { result ≡ desc_of bytes.now }
    ensures valid { IfSome result IsDesc }
    ensures back { IfSome result (λ desc. record_bytes desc ≡ bytes.now) }
{
    if is_valid(bytes) {
        Some(fields(bytes))
    } else {
        None
    }
}

/// Whether the bytes are those of a record.
#[tactic(auto, unfolding(crate::specs::Record::is_record, crate::specs::Record::fields_of))]
fn is_valid(bytes: &[u8; RECORD_BYTES]) -> bool
    ensures value { result ≡ is_record bytes.now }
    ensures shallow { OnTrue result (half_at bytes.now 32 ≤ MAX_DEPTH) }
{
    is_of_depth(half(bytes, 32), half(bytes, 34)) && is_zero(&bytes[PADDING..])
}

/// Whether the depth is that of a domain, and `kinds` has no bit at or past it.
fn is_of_depth(depth: u16, kinds: u16) -> bool
    ensures value { result ≡ (nat_le 1 depth && nat_le depth MAX_DEPTH && nat_lt kinds (2 ^ depth)) }
    ensures shallow { OnTrue result (depth ≤ MAX_DEPTH) }
{
    1 <= depth && depth <= u16::from(MAX_DEPTH) && u32::from(kinds) < 1 << depth
}

fn is_zero(bytes: &[u8]) -> bool
    ensures { result ≡ list_all (λ byte. byte == 0) bytes.now }
{
    bytes.iter().all(|byte| *byte == 0)
}

/// The descriptor whose fields these bytes of a record have.
#[tactic(auto, unfolding(crate::specs::Record::fields_of))]
fn fields(bytes: &[u8; RECORD_BYTES]) -> Desc
    requires { half_at bytes.now 32 ≤ MAX_DEPTH }
    ensures { result ≡ fields_of bytes.now }
{
    Desc {
        name: Name {
            creator: word(bytes, 24),
            index: word(bytes, 28),
        },
        entry: word(bytes, 0),
        ts: word(bytes, 4),
        args: [word(bytes, 8), word(bytes, 12), word(bytes, 16)],
        hint: word(bytes, 20),
        depth: half(bytes, 32) as u8,
        kinds: half(bytes, 34),
    }
}
