//! Which task is the least: the first of the index, or the first of a block. No call takes memory.

ghost use Rattle.std.specs.Prelude.{◌≡◌, ◌<◌, ◌≤◌, ◌+◌, ◌↔◌, ℕ, length, Some, IsSome, IfSome, IsNone};
ghost use Rattle.spec_state.specs.declared.task.Task.{Task};
ghost use Rattle.spec_state.specs.Least.{IsLeast, IsAllCommitted};
ghost use Rattle.spec_state.specs.Queries.{IsQueued};
ghost use Rattle.spec_state.specs.Fronts.{IsFirstQueued, IsFirstSpilled, HoldNone, IsStanding};

use crate::state::State;
use crate::task::{Status, Task, TaskId, Where};
use fractal_vt::{Key, cmp};
use rv_core::Naming;

/// The key of a spilled task where it stands, and the tile in whose block that is.
#[derive(Clone, Copy)]
struct BlockFront<'a> {
    tile: u32,
    key: &'a Key,
}

/// How a queued task stands.
fn standing(id: TaskId, task: &Task) -> Where
    ensures { IsStanding result id task.now }
{
    match task.status {
        Status::Idle => Where::Idle(id),
        Status::Running { .. } => Where::Running(id),
        Status::Trapped { .. } => Where::Trapped(id),
        Status::Finished => Where::Finished(id),
    }
}

impl<N: Naming> State<N> {
    /// The first of the queued tasks.
    fn first_queued(&self) -> Option<TaskId>
        ensures some { IfSome result (λ id. (task : Task) × IsFirstQueued self.now.view id.0 task) }
        ensures none { IsNone result → (tile id : ℕ) → IsQueued self.now.view tile id → ⊥ }
    {
        self.index.is_in_order();
        match self.index.first() {
            Some(id) => Some(TaskId(id)),
            None => None,
        }
    }

    /// The first of the spilled tasks.
    fn first_front(&self) -> Option<BlockFront<'_>>
        ensures some { let blocks = self.now.view.blocks in
            IfSome result (λ f. IsFirstSpilled blocks (length blocks) f.tile f.key.now) }
        ensures none { IsNone result → HoldNone self.now.view.blocks (length self.now.view.blocks) }
    {
        match self.blocks.front() {
            Some((tile, key)) => Some(BlockFront {
                tile: tile as u32,
                key,
            }),
            None => None,
        }
    }

    /// The least uncommitted task, and how it stands; None exactly where no task is uncommitted. It costs a look at
    /// the index and one at the block that has the first of the spilled tasks.
    #[inline(always)]
    pub fn least(&self) -> Option<Where>
        ensures some { IfSome result (IsLeast self.now.view) }
        ensures none { IsNone result ↔ IsAllCommitted self.now.view }
    {
        match (self.first_queued(), self.first_front()) {
            (None, None) => None,
            (Some(id), None) => Some(standing(id, self.task(id))),
            (None, Some(front)) => Some(Where::Spilled(front.tile)),
            (Some(id), Some(front)) => {
                let task = self.task(id);
                if cmp(front.key, &task.key).is_lt() {
                    Some(Where::Spilled(front.tile))
                } else {
                    Some(standing(id, task))
                }
            }
        }
    }
}
