//! The lines of a report behind its first, one function for each kind: each takes a line without its end and gives
//! `None` where the line is not of its kind. docs/guest/FORMATS.md has the forms.

ghost use Rattle.std.specs.Prelude.{◌≡◌, option_map, IfOk};
ghost use Rattle.report_text.specs.Grammar.{end_in, entry_in, output_bytes, output_in, trap_in, window_in};

use crate::hexing::{hex_bytes, hex_word};
use crate::limits::{MAX_CAUSE, MAX_DEPTH, MAX_ENTRIES};
use crate::report::WindowWord;
use crate::serial_machine::{End, Entry};
use std::alloc::{AllocError, Global};
use task_desc::Name;
use text_lines::{behind, cut, field, number};

/// The n-th entry of the journal, `<n> <creator>.<index> <depth> <ts>`: n at most 1,000,000, the depth 1 to 16.
#[tactic(auto, unfolding(crate::specs::Grammar::entry_in))]
pub(crate) fn entry_in(n: u32, line: &[u8]) -> Option<Entry>
    ensures { result ≡ entry_in n line.now }
{
    let (place, rest) = field(line, b' ')?;
    let (creator, rest) = field(rest, b'.')?;
    let (index, rest) = field(rest, b' ')?;
    let (depth, rest) = field(rest, b' ')?;
    let ts = number(rest)?;
    if place == n && n <= MAX_ENTRIES && 1 <= depth && depth <= MAX_DEPTH {
        Some(Entry {
            name: Name { creator, index },
            depth: depth as u8,
            ts,
        })
    } else {
        None
    }
}

/// The emitted bytes, `output <bytes>`: two hexadecimal digits each, or `-` where there are none. `AllocError` where
/// memory runs out.
#[tactic(auto, unfolding(crate::specs::Grammar::output_in))]
pub(crate) fn output_in(alloc: Global, line: &[u8]) -> Result<Option<Vec<u8>>, AllocError>
    ensures { IfOk result (λ o. option_map (λ v. v.items) o ≡ output_in line.now) }
{
    match behind(line, b"output ".as_slice()) {
        None => Ok(None),
        Some(digits) => output_bytes(alloc, digits),
    }
}

/// The bytes behind the word `output`.
fn output_bytes(alloc: Global, digits: &[u8]) -> Result<Option<Vec<u8>>, AllocError>
    ensures { IfOk result (λ o. option_map (λ v. v.items) o ≡ output_bytes digits.now) }
{
    if digits == b"-".as_slice() {
        return Ok(Some(Vec::new(alloc)));
    }
    if digits.is_empty() {
        return Ok(None);
    }
    hex_bytes(alloc, digits)
}

/// A word of the window, `window <address> <value>`: eight hexadecimal digits each.
#[tactic(auto, unfolding(crate::specs::Grammar::window_in))]
pub(crate) fn window_in(line: &[u8]) -> Option<WindowWord>
    ensures { result ≡ window_in line.now }
{
    let words = behind(line, b"window ".as_slice())?;
    let (addr, value) = cut(words, b' ')?;
    let addr = hex_word(addr)?;
    let value = hex_word(value)?;
    Some(WindowWord { addr, value })
}

/// How the run ended: `end normal`, `end limit`, `end open` where it can go on, or `end trap` with what follows.
#[tactic(auto, unfolding(crate::specs::Grammar::end_in))]
pub(crate) fn end_in(line: &[u8]) -> Option<End>
    ensures { result ≡ end_in line.now }
{
    if line == b"end normal".as_slice() {
        return Some(End::Normal);
    }
    if line == b"end limit".as_slice() {
        return Some(End::Limit);
    }
    if line == b"end open".as_slice() {
        return Some(End::Unfinished);
    }
    trap_in(behind(line, b"end trap ".as_slice())?)
}

/// The trap that ended the run, `<cause> <pc> <creator>.<index>`: the cause 1 to 17, the address of the instruction in
/// eight hexadecimal digits, and the task's name.
#[tactic(auto, unfolding(crate::specs::Grammar::trap_in))]
fn trap_in(rest: &[u8]) -> Option<End>
    ensures { result ≡ trap_in rest.now }
{
    let (cause, rest) = field(rest, b' ')?;
    let (digits, rest) = cut(rest, b' ')?;
    let pc = hex_word(digits)?;
    let (creator, rest) = field(rest, b'.')?;
    let index = number(rest)?;
    if 1 <= cause && cause <= MAX_CAUSE {
        Some(End::Trap {
            name: Name { creator, index },
            cause: cause as u8,
            pc,
        })
    } else {
        None
    }
}
