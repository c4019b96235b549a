//! The settings and their ranges.

ghost use Rattle.std.specs.Prelude.{◌≡◌, ◌↔◌, IsTrue};
ghost use Rattle.spec_state.specs.Settings.{IsValid, IsLine, IsBetween};

use crate::serial_machine::{MAX_BUDGET, MAX_COMMITS};
use line_table::FilterKind;

/// How large a machine is and how far it runs. Each number has a range, which [`valid`](Settings::valid) tests.
#[derive(Clone, Copy, Debug, PartialEq, Eq)]
pub struct Settings {
    /// How many tiles there are: 1 to 16.
    pub tiles: u32,
    /// How many cores each tile has: 1 to 4.
    pub cores: u32,
    /// How many tasks each task queue may hold: 4 to 256.
    pub task_queue: u32,
    /// How many finished tasks each commit queue may hold: 1 to 64.
    pub commit_queue: u32,
    /// How many bytes a line of memory has: 4, 8, 16, 32 or 64.
    pub line: u32,
    /// How many plain instructions a leg may have: 1 to 1,024.
    pub quantum: u32,
    /// How many host threads work on it: 0 to 16, where 0 stands for none but the caller's.
    pub workers: u32,
    /// How many tasks may commit: 1 to 1,000,000.
    pub commits: u32,
    /// How many instructions a task may execute: 1 to 65,536.
    pub budget: u32,
    /// How many commits a placer serves before the next one takes over: 1 to 1,000,000.
    pub phase: u32,
    /// The kind of each task's filter: how it maps lines to bits.
    pub filter: FilterKind,
}

impl Settings {
    /// Whether each number lies in its range.
    pub fn valid(&self) -> bool
        ensures { IsTrue result ↔ IsValid self.now }
    {
        is_in(self.tiles, 1, 16)
            && is_in(self.cores, 1, 4)
            && is_in(self.task_queue, 4, 256)
            && is_in(self.commit_queue, 1, 64)
            && is_line(self.line)
            && is_in(self.quantum, 1, 1024)
            && is_in(self.workers, 0, 16)
            && is_in(self.commits, 1, MAX_COMMITS)
            && is_in(self.budget, 1, MAX_BUDGET)
            && is_in(self.phase, 1, MAX_COMMITS)
    }
}

/// Whether the number lies in this range, its ends included.
fn is_in(number: u32, least: u32, greatest: u32) -> bool
    ensures { IsTrue result ↔ IsBetween number least greatest }
{
    least <= number && number <= greatest
}

/// Whether a line may have so many bytes.
fn is_line(bytes: u32) -> bool
    ensures { IsTrue result ↔ IsLine bytes }
{
    matches!(bytes, 4 | 8 | 16 | 32 | 64)
}
