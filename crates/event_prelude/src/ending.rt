//! Whether a run is over, and how it ended. No call takes memory.

ghost use Rattle.std.specs.Prelude.{◌≡◌, ◌≢◌, ◌↔◌, IsTrue, IsNone, IfSome, length};
ghost use Rattle.event_basis.specs.spec_law.Sound.{Sound};
ghost use Rattle.event_basis.specs.spec_state.declared.task.Where.TheVariants.{Trapped};
ghost use Rattle.event_basis.specs.spec_state.Least.{IsLeast, IsTheLeast, IsAllCommitted, HasName};
ghost use Rattle.event_basis.specs.spec_state.View.{task_at};
ghost use Rattle.event_basis.specs.Whereabouts.{IsUntrapped};
ghost use Rattle.event_basis.specs.event_def.End.{HasEnd, IsOver};

use crate::serial_machine::End;
use crate::spec_state::{State, Status, TaskId, Where};
use rv_core::Naming;
use task_desc::Name;

/// Whether as many tasks have committed as may.
fn is_at_limit<N: Naming>(state: &State<N>) -> bool
    ensures { IsTrue result ↔ (length state.now.view.history ≡ state.now.view.settings.commits) }
{
    state.history().len() == state.settings().commits as usize
}

/// The name of the least task.
fn least_name<N: Naming>(state: &State<N>, id: TaskId) -> Name
    requires sound { Sound N.image state.now.view }
    requires least { IsTheLeast state.now.view id.0 }
    ensures { IfSome (task_at state.now.view id.0) (λ t. HasName state.now.view t.creator result) }
{
    match state.name_of(id) {
        Some(name) => name,
        None => unreachable!(),
    }
}

/// The end of a run whose least task is trapped, where fewer have committed than may.
#[inline(never)]
fn trap_end<N: Naming>(state: &State<N>, id: TaskId) -> End
    requires sound { Sound N.image state.now.view }
    requires few { length state.now.view.history ≢ state.now.view.settings.commits }
    requires least { IsLeast state.now.view (Trapped id) }
    ensures { HasEnd state.now.view result }
{
    let name = least_name(state, id);
    let task = state.task(id);
    match task.status {
        Status::Trapped { cause, .. } => End::Trap {
            name,
            cause,
            pc: task.core.core().pc,
        },
        Status::Idle | Status::Running { .. } | Status::Finished => unreachable!(),
    }
}

/// The least task, where it is trapped.
fn trapped_in(least: Where) -> Option<TaskId>
    ensures some { IfSome result (λ id. least ≡ Trapped id) }
    ensures none { IsNone result → IsUntrapped least }
{
    match least {
        Where::Trapped(id) => Some(id),
        Where::Idle(_) | Where::Running(_) | Where::Finished(_) | Where::Spilled(_) => None,
    }
}

/// How the run ended, where `least` is the place of its least task; None where it goes on.
#[inline(always)]
pub fn end_with<N: Naming>(state: &State<N>, least: Option<Where>) -> Option<End>
    requires sound { Sound N.image state.now.view }
    requires some { IfSome least (IsLeast state.now.view) }
    requires none { IsNone least → IsAllCommitted state.now.view }
    ensures some { IfSome result (HasEnd state.now.view) }
    ensures none { IsNone result → IsOver state.now.view → ⊥ }
{
    match least {
        None => Some(End::Normal),
        Some(_) if is_at_limit(state) => Some(End::Limit),
        Some(stands) => match trapped_in(stands) {
            Some(id) => Some(trap_end(state, id)),
            None => None,
        },
    }
}

/// The least task, where the run goes on; None exactly where it is over. It costs what `least` does.
pub fn least_going<N: Naming>(state: &State<N>) -> Option<Where>
    requires sound { Sound N.image state.now.view }
    ensures some { IfSome result (λ least. (IsOver state.now.view → ⊥) × IsLeast state.now.view least) }
    ensures none { IsNone result → IsOver state.now.view }
{
    let least = state.least();
    match end_with(state, least) {
        Some(_) => None,
        None => least,
    }
}

/// How the run ended: with no task uncommitted, with as many committed as may, or at a trap of the least task; None
/// exactly where it goes on. It costs what `least` does.
pub fn end_of<N: Naming>(state: &State<N>) -> Option<End>
    requires sound { Sound N.image state.now.view }
    ensures some { IfSome result (HasEnd state.now.view) }
    ensures none { IsNone result ↔ (IsOver state.now.view → ⊥) }
{
    end_with(state, state.least())
}
