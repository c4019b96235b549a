//! What an event is about, as the machine stands before it.

ghost use Rattle.std.specs.Prelude.{◌≡◌, ◌<◌, ℕ, IfSome, IsNone, None, Some, option_map};
ghost use Rattle.rv_core.specs.LegValue.{LegValue};
ghost use Rattle.script_text.specs.spec_state.declared.task.Task.{Task};
ghost use Rattle.script_text.specs.spec_state.Changes.{TakesLeg, request_of};
ghost use Rattle.script_text.specs.spec_state.Least.{IsTheLeast};
ghost use Rattle.script_text.specs.event_def.Causes.{IsStale};
ghost use Rattle.script_text.specs.event_basis.Whereabouts.{queued_in};
ghost use Rattle.script_text.specs.step_script.Asking.{AskedIsInRange, asks_of};
ghost use Rattle.watch_text.specs.Moments.{IsAbout, IsAskedFor, task_of};

use crate::conflict_book::Legless;
use crate::event_step::taker;
use crate::spec_state::{State, TaskId, Where};
use crate::step_script::Asked;
use rv_core::{Leg, Naming};
use task_request::{Request, request_of};

/// What an event is about.
#[derive(Clone, Copy, Debug, PartialEq, Eq)]
pub struct About {
    /// The task that is dispatched, holds the core, is aborted or commits; None where no task is, and where tasks move
    /// between a queue and a block.
    pub task: Option<TaskId>,
    /// What the task on the core asks for at the end of the leg; None where it doesn't take the leg.
    pub request: Option<Request>,
}

/// The id of the task that an event is about.
pub(crate) fn task_of(about: &About) -> Option<usize>
    ensures { result ≡ task_of about.now }
{
    match about.task {
        None => None,
        Some(id) => Some(id.0),
    }
}

/// The id of the least task, where it is queued.
fn queued_in(least: Where) -> Option<TaskId>
    ensures { option_map (λ id. id.0) result ≡ queued_in least }
{
    match least {
        Where::Idle(id) | Where::Running(id) | Where::Trapped(id) | Where::Finished(id) => Some(id),
        Where::Spilled(_) => None,
    }
}

/// The least task, where it isn't spilled.
fn least_task<N: Naming>(state: &State<N>) -> Option<TaskId>
    ensures some { IfSome result (λ id. IsTheLeast state.now.view id.0) }
    ensures none { IsNone result → (id : ℕ) → IsTheLeast state.now.view id → ⊥ }
{
    match state.least() {
        None => None,
        Some(least) => queued_in(least),
    }
}

/// What a task asks for at the end of the leg that it takes.
fn asked_by<N: Naming>(state: &State<N>, id: TaskId, leg: &Leg<N>) -> Request
    requires takes { let view = state.now.view in
        (tile core : ℕ) × (task : Task) × TakesLeg view tile core leg.now id.0 task }
    ensures { let view = state.now.view in (tile core : ℕ) (task : Task)
        → TakesLeg view tile core leg.now id.0 task → request_of view task leg.now ≡ result }
{
    request_of(&state.ctx_of(id), leg.to(), &leg.stop())
}

/// What the task on a core asks for at the end of a leg; None exactly where it doesn't take the leg.
fn request_at<N: Naming>(state: &State<N>, tile: u32, core: u32, leg: &Leg<N>) -> Option<Request>
    requires tile { tile < state.now.view.settings.tiles }
    requires core { core < state.now.view.settings.cores }
    ensures some { let view = state.now.view in
        IfSome result (λ request. (id : ℕ) × (task : Task) × TakesLeg view tile core leg.now id task
        × (request_of view task leg.now ≡ request)) }
    ensures none { IsNone result → IsStale state.now.view tile core leg.now }
{
    match taker(state, tile, core, leg) {
        None => None,
        Some(id) => Some(asked_by(state, id, leg)),
    }
}

/// What a step is about whose leg the task on the core takes, as it does right after the leg was run.
pub fn about_taken<N: Naming>(state: &State<N>, tile: u32, core: u32, leg: &Leg<N>) -> About
    requires tile { tile < state.now.view.settings.tiles }
    requires core { core < state.now.view.settings.cores }
    requires takes { let view = state.now.view in
        (id : ℕ) × (task : Task) × TakesLeg view tile core leg.now id task }
    ensures task { IsAbout {N = N} state.now.view (asks_of (Asked.Ready tile core) leg.now) (task_of result) }
    ensures request { IsAskedFor {N = N} state.now.view (asks_of (Asked.Ready tile core) leg.now) result.request }
{
    match state.on_core(tile, core) {
        None => unreachable!(),
        Some(id) => About {
            task: Some(id),
            request: Some(asked_by(state, id, leg)),
        },
    }
}

/// What an event without a leg is about.
fn about_legless<N: Naming>(state: &State<N>, event: Legless) -> Option<TaskId>
    requires { AskedIsInRange N state.now.view.settings (Asked.Legless event) }
    ensures task { (leg : LegValue) → IsAbout {N = N} state.now.view (asks_of (Asked.Legless event) leg)
        (option_map (λ id. id.0) result) }
    ensures request { (leg : LegValue) → IsAskedFor {N = N} state.now.view (asks_of (Asked.Legless event) leg) None }
{
    match event {
        Legless::Dispatch { tile } => state.idle(tile),
        Legless::Abort { tile } => state.latest(tile),
        Legless::Commit => least_task(state),
        Legless::Coalesce { .. } => None,
        Legless::Split { .. } => None,
    }
}

/// What an act is about, where this is the leg that stands ready. The leg of a step is compared with the task.
pub fn about_of<N: Naming>(state: &State<N>, asked: &Asked, leg: &Leg<N>) -> About
    requires { AskedIsInRange N state.now.view.settings asked.now }
    ensures task { IsAbout {N = N} state.now.view (asks_of asked.now leg.now) (task_of result) }
    ensures request { IsAskedFor {N = N} state.now.view (asks_of asked.now leg.now) result.request }
{
    match *asked {
        Asked::Legless(event) => About {
            task: about_legless(state, event),
            request: None,
        },
        Asked::Ready { tile, core } => About {
            task: state.on_core(tile, core),
            request: request_at(state, tile, core, leg),
        },
        Asked::Says(_) => About {
            task: None,
            request: None,
        },
    }
}
