//! The last records.

ghost use Rattle.std.specs.Prelude.{◌≡◌, ◌<◌, ◌≤◌, [], IfOk, slice_get, length};
ghost use Rattle.std.specs.List.{flat_map};
ghost use Rattle.trace_tap.specs.Numbers.{numbers_of_record, line_number as line_number_lem};
ghost use Rattle.trace_tap.specs.TapValues.{last_records};

use crate::record::Record;
use crate::tap::Tap;
use circular_buffer::HeapCircularBuffer;
use std::alloc::{AllocError, Global};

/// Keeps the last records. Its list has five numbers for each of them, the oldest first: the code of the deed, the
/// tile, the line plus 1 or 0 where there is none, the number of aborted tasks and that of commits.
#[derive(Drop)]
pub struct LastN {
    records: HeapCircularBuffer<Record>,
    ghost some: { 0 < records.capacity },
    ghost bounded: { records.capacity ≤ 4096 },
    ghost fits: { length records.items ≤ records.capacity },
}

impl LastN {
    /// A tap that keeps the last `n` records, 1 to 4,096, and has none yet.
    pub fn new(alloc: Global, n: u32) -> Result<LastN, AllocError>
        requires { (0 < n) × (n ≤ 4096) }
        ensures { IfOk result (λ tap. ⟦<LastN as Tap>⟧.notes tap ≡ last_records n []) }
    {
        Ok(LastN {
            records: HeapCircularBuffer::with_capacity(alloc, n as usize)?,
        })
    }
}

/// A line plus 1, or 0 where there is none.
fn line_number(line: Option<u32>) -> u64
    ensures { result ≡ line_number_lem line }
{
    match line {
        Some(line) => u64::from(line) + 1,
        None => 0,
    }
}

/// One of the five numbers of a record, by its place.
fn number_of(seen: &Record, place: u32) -> u64
    requires { place < 5 }
    ensures { slice_get (numbers_of_record seen.now) place ≡ Some result }
{
    match place {
        0 => u64::from(seen.deed.code()),
        1 => u64::from(seen.tile),
        2 => line_number(seen.line),
        3 => u64::from(seen.aborted),
        _ => u64::from(seen.commits),
    }
}

impl Tap for LastN {
    ghost notes = { λ tap. last_records tap.records.capacity (flat_map numbers_of_record tap.records.items) };

    #[tactic(auto, using(crate::proofs::Fives::added_is_noted))]
    fn note(&mut self, seen: &Record) {
        self.records.push_back(*seen);
    }

    #[tactic(auto, using(crate::proofs::Fives::five_for_each))]
    fn len(&self) -> u32 {
        5 * self.records.len() as u32
    }

    #[tactic(auto, using(crate::proofs::Fives::number_found, crate::proofs::Fives::number_missing))]
    fn at(&self, place: u32) -> Option<u64> {
        match self.records.get((place / 5) as usize) {
            Some(seen) => Some(number_of(seen, place % 5)),
            None => None,
        }
    }
}
