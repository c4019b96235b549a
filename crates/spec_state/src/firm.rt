//! Which tasks are firm, and their names. No call takes memory; those of a state cost what `least` does.

ghost use Rattle.std.specs.Prelude.{◌≡◌, ◌≤◌, ◌↔◌, IsTrue, IsNone, IsSome, IfSome, option_map};
ghost use Rattle.spec_state.specs.View.{task_at};
ghost use Rattle.spec_state.specs.Least.{IsHeir, IsFirm, HasName};
ghost use Rattle.spec_state.specs.Fronts.{IsFirmBy, dispatched_in, name_given};

use crate::state::State;
use crate::task::{Creator, Task, TaskId, Where};
use rv_core::Naming;
use task_desc::Name;

/// Whether the task's creator has committed, or is the dispatched least task.
pub(crate) fn is_firm(task: &Task, heir: Option<TaskId>) -> bool
    ensures { IsTrue result ↔ IsFirmBy (option_map (λ id. id.0) heir) task.now.creator }
{
    match task.creator {
        Creator::Committed { .. } => true,
        Creator::Live { task, .. } => heir == Some(task),
    }
}

/// The id of this least task where it is dispatched, else None.
fn dispatched_of(least: Option<Where>) -> Option<TaskId>
    ensures { option_map (λ id. id.0) result ≡ dispatched_in least }
{
    match least {
        Some(Where::Running(id) | Where::Trapped(id) | Where::Finished(id)) => Some(id),
        None | Some(Where::Idle(_) | Where::Spilled(_)) => None,
    }
}

/// The name that a firm task has from its creator, where so many tasks have committed: at most 1,000,000.
pub fn name_given(creator: Creator, count: u32) -> Name
    requires { count ≤ 1000000 }
    ensures { result ≡ name_given creator count }
{
    match creator {
        Creator::Committed { turn, index } => Name {
            creator: turn,
            index,
        },
        Creator::Live { index, .. } => Name {
            creator: count + 1,
            index,
        },
    }
}

impl<N: Naming> State<N> {
    /// The least task where that is dispatched: its commit is the next one, so its children's names are known.
    pub fn heir(&self) -> Option<TaskId>
        ensures { IsHeir self.now.view (option_map (λ id. id.0) result) }
    {
        self.is_stored();
        dispatched_of(self.least())
    }

    /// Whether the task is firm: its creator has committed, or is the dispatched least task.
    pub fn firm(&self, task: TaskId) -> bool
        requires live { IsSome (task_at self.now.view task.0) }
        ensures { IfSome (task_at self.now.view task.0) (λ t. IsTrue result ↔ IsFirm self.now.view t) }
    {
        is_firm(self.task(task), self.heir())
    }

    /// The task's name; None exactly where it isn't firm.
    pub fn name_of(&self, task: TaskId) -> Option<Name>
        requires live { IsSome (task_at self.now.view task.0) }
        ensures some { IfSome (task_at self.now.view task.0) (λ t. IfSome result (HasName self.now.view t.creator)) }
        ensures none { IfSome (task_at self.now.view task.0) (λ t. IsSome result ↔ IsFirm self.now.view t) }
    {
        self.is_stored();
        let found = self.task(task);
        if is_firm(found, self.heir()) {
            Some(name_given(found.creator, self.history.count()))
        } else {
            None
        }
    }
}
