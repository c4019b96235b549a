//! All that is counted of a run that is watched.

ghost use Rattle.std.specs.Prelude.{◌≡◌, ◌+◌, ℕ, sum_by};
ghost use Rattle.watch_counts.specs.Capped.{capped, capped_counts};
ghost use Rattle.watch_counts.specs.Counts.{counts_at};
ghost use Rattle.watch_counts.specs.Nothing.{no_counts};
ghost use Rattle.watch_counts.specs.Work.{used_by, work_left};

use crate::accesses::AccessCounts;
use crate::acts::ActCounts;
use crate::causes::CauseCounts;
use crate::domains::DomainCounts;
use crate::numbers::more;
use crate::places::{PlaceCounts, places_of, spilled_of};
use crate::spec_state::{State, TaskId};
use crate::stalls::StallCounts;
use crate::tiles::TileCounts;
use crate::work::WorkCounts;
use rv_core::Naming;

/// What is counted of a story. Each number stops at 2^64 - 1.
#[derive(Clone, Copy, Debug, PartialEq, Eq)]
pub struct Counts {
    /// The number of the last act in the log.
    pub acts: u64,
    /// The acts in the log, by what they did.
    pub told: ActCounts,
    /// Those that weren't asked for.
    pub passed: ActCounts,
    /// The events that were made.
    pub events: u64,
    /// The events that were made, by kind.
    pub made: ActCounts,
    /// The rounds that ended.
    pub rounds: u64,
    /// The acts that advanced the least task.
    pub advances: u64,
    /// Work.
    pub work: WorkCounts,
    /// The accesses of tasks that committed.
    pub committed: AccessCounts,
    /// The accesses of tasks that were aborted.
    pub undone: AccessCounts,
    /// The tasks that were aborted.
    pub taken: CauseCounts,
    /// Those of them that were discarded.
    pub discarded: CauseCounts,
    /// The tasks of the image that were placed in a block.
    pub opening: u64,
    /// The tasks that moved from a task queue to one.
    pub spilled: u64,
    /// What stalled.
    pub stalls: StallCounts,
    /// Of each core, whether its last step stalled, since the last dispatch to it: 4 places for each tile.
    pub stalled_cores: [bool; 64],
    /// Where tasks are now.
    pub standing: PlaceCounts,
    /// The sums of that over events, as each left it.
    pub over_events: PlaceCounts,
    /// The sums over rounds, as each left it.
    pub over_rounds: PlaceCounts,
    /// The greatest that an event left.
    pub greatest: PlaceCounts,
    /// The tasks that committed, by depth and kind of their domain.
    pub commits: DomainCounts,
    /// The subdomains that they made.
    pub domains: DomainCounts,
    /// The tasks that committed, by how many instructions they executed: at place k at least 2^k, and at all but the
    /// last one fewer than 2^(k + 1).
    pub lengths: [u64; 17],
    /// Work and tasks that were aborted, by tile.
    pub tiles: TileCounts,
}

/// The instructions that the task of an id has executed.
fn used_by<N: Naming>(state: &State<N>, id: usize) -> u64
    ensures { result ≡ used_by state.now.view id }
{
    match state.find(TaskId(id)) {
        None => 0,
        Some(task) => u64::from(task.core.core().used),
    }
}

/// A count, and the instructions that the tasks of these ids have executed.
fn more_used<N: Naming>(state: &State<N>, ids: &[usize], count: u64) -> u64
    ensures { (c : ℕ) → count ≡ capped c → result ≡ capped (c + sum_by (used_by state.now.view) ids.now) }
{
    let mut left = count;
    for id in ids {
        left = more(left, used_by(state, *id));
    }
    left
}

/// The instructions that uncommitted tasks have executed since their dispatch.
pub(crate) fn work_left<N: Naming>(state: &State<N>) -> u64
    ensures { result ≡ capped (work_left state.now.view) }
{
    let mut left = 0;
    for tile in 0..state.settings().tiles {
        left = more_used(state, state.queued_in(tile), left);
    }
    left
}

impl Counts {
    /// Where nothing was counted.
    fn none() -> Self
        ensures { result ≡ no_counts }
    {
        Counts {
            acts: 0,
            told: ActCounts::none(),
            passed: ActCounts::none(),
            events: 0,
            made: ActCounts::none(),
            rounds: 0,
            advances: 0,
            work: WorkCounts::none(),
            committed: AccessCounts::none(),
            undone: AccessCounts::none(),
            taken: CauseCounts::none(),
            discarded: CauseCounts::none(),
            opening: 0,
            spilled: 0,
            stalls: StallCounts::none(),
            stalled_cores: [false; 64],
            standing: PlaceCounts::none(),
            over_events: PlaceCounts::none(),
            over_rounds: PlaceCounts::none(),
            greatest: PlaceCounts::none(),
            commits: DomainCounts::none(),
            domains: DomainCounts::none(),
            lengths: [0; 17],
            tiles: TileCounts::none(),
        }
    }

    /// Before the first act, on the machine of an opening.
    pub fn new<N: Naming>(state: &State<N>) -> Self
        ensures { result ≡ capped_counts (counts_at state.now.view) }
    {
        let mut counts = Counts::none();
        counts.opening = spilled_of(state);
        counts.standing = places_of(state, &counts.stalled_cores);
        counts
    }
}
