//! Aborts by memory line.

ghost use Rattle.std.specs.Prelude.{◌≡◌, ◌<◌, ◌≤◌, ◌+◌, IfOk, replicate, vec_len};
ghost use Rattle.trace_tap.specs.TapValues.{line_counts};

use crate::record::{Deed, Record};
use crate::tap::Tap;
use std::alloc::{AllocError, Global};

/// Counts the tasks that accesses aborted, by the line of the access. Its list has a count for each line, and one for
/// all lines after the last of these. A count stays at 2^64 - 1.
#[derive(Drop)]
pub struct LineProfile {
    lines: u32,
    counts: Vec<u64>,
    ghost bounded: { lines ≤ 65536 },
    ghost each_line: { vec_len counts ≡ lines + 1 },
}

impl LineProfile {
    /// A tap that counts by each of the first `lines` lines, 1 to 65,536, and has counted nothing yet.
    pub fn new(alloc: Global, lines: u32) -> Result<LineProfile, AllocError>
        requires { (0 < lines) × (lines ≤ 65536) }
        ensures { IfOk result
            (λ tap. ⟦<LineProfile as Tap>⟧.notes tap ≡ line_counts lines (replicate (lines + 1) 0)) }
    {
        Ok(LineProfile {
            lines,
            counts: vec![in alloc; 0; lines as usize + 1]?,
        })
    }
}

impl Tap for LineProfile {
    ghost notes = { λ tap. line_counts tap.lines tap.counts.items };

    fn note(&mut self, seen: &Record) {
        if let (Deed::Access, Some(line)) = (seen.deed, seen.line) {
            let place = line.min(self.lines) as usize;
            self.counts[place] = self.counts[place].saturating_add(u64::from(seen.aborted));
        }
    }

    fn len(&self) -> u32 {
        self.counts.len() as u32
    }

    fn at(&self, place: u32) -> Option<u64> {
        self.counts.get(place as usize).copied()
    }
}
