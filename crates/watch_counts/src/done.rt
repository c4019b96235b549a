//! What a task has done since its dispatch, as it stands before its commit.

ghost use Rattle.std.specs.Prelude.{◌≡◌, ◌+◌, ◌^◌, ◌<◌, IsSome, Some, cond, count_by, option_map};
ghost use Rattle.rv_core.specs.LegValue.{LegValue};
ghost use Rattle.watch_text.specs.spec_state.Told.{is_store};
ghost use Rattle.watch_text.specs.spec_state.View.{task_at};
ghost use Rattle.watch_text.specs.step_script.Asking.{asks_of};
ghost use Rattle.watch_text.specs.Changes.{task_if};
ghost use Rattle.watch_text.specs.Moments.{task_of};
ghost use Rattle.watch_counts.specs.Work.{done_by, done_of, length_place};

use crate::conflict_book::Legless;
use crate::spec_state::{State, TaskId};
use crate::step_script::Asked;
use guest_image::Kind;
use rv_core::Naming;
use undo_log::Access;
use watch_text::About;

/// What a task has done since its dispatch, and where.
#[derive(Clone, Copy, Debug, PartialEq, Eq)]
pub struct Done {
    /// Its tile.
    pub tile: u32,
    /// The instructions that it executed.
    pub used: u32,
    /// Its loads.
    pub loads: u64,
    /// Its stores.
    pub stores: u64,
    /// The bytes that it emitted.
    pub bytes: u64,
    /// How many domains are around its own.
    pub outer: u32,
    /// The kind of its domain.
    pub kind: Kind,
    /// The kind of its subdomain, if it has made one.
    pub sub: Option<Kind>,
}

/// How many of these accesses are stores.
fn stores_among(accesses: &[Access]) -> usize
    ensures { result ≡ count_by is_store accesses.now }
{
    let mut stores = 0;
    for place in 0..accesses.len() {
        if accesses[place].new.is_some() {
            stores += 1;
        }
    }
    stores
}

/// What the task of an id has done.
fn done_of<N: Naming>(state: &State<N>, id: TaskId) -> Done
    requires { IsSome (task_at state.now.view id.0) }
    ensures { option_map done_of (task_at state.now.view id.0) ≡ Some result }
{
    let task = state.task(id);
    let context = state.ctx_of(id);
    let accesses = task.log.accesses();
    let stores = stores_among(accesses);
    Done {
        tile: task.tile,
        used: task.core.core().used,
        loads: (accesses.len() as u64).saturating_sub(stores as u64),
        stores: stores as u64,
        bytes: task.bytes.as_slice().len() as u64,
        outer: task.key.domain.levels().len() as u32,
        kind: context.own,
        sub: task.sub,
    }
}

/// What the task of an id has done, where there is one.
fn done_if<N: Naming>(state: &State<N>, task: Option<TaskId>) -> Option<Done>
    ensures { result ≡ option_map done_of (task_if state.now.view (option_map (λ id. id.0) task)) }
{
    match task {
        None => None,
        Some(id) => match state.find(id) {
            None => None,
            Some(_) => Some(done_of(state, id)),
        },
    }
}

/// What the task has done that a commit is about, before the event; None of other acts.
pub fn done_by<N: Naming>(state: &State<N>, asked: &Asked, about: &About) -> Option<Done>
    ensures { (leg : LegValue) → result ≡ done_by {N = N} state.now.view (asks_of asked.now leg) (task_of about.now) }
{
    match *asked {
        Asked::Legless(Legless::Commit) => done_if(state, about.task),
        Asked::Legless(Legless::Dispatch { .. }) => None,
        Asked::Legless(Legless::Abort { .. }) => None,
        Asked::Legless(Legless::Coalesce { .. }) => None,
        Asked::Legless(Legless::Split { .. }) => None,
        Asked::Ready { .. } => None,
        Asked::Says(_) => None,
    }
}

/// The powers of two that bound the classes of tasks by length: a task has at most 65,536 instructions.
const POWERS: [u32; 16] = [
    2, 4, 8, 16, 32, 64, 128, 256, 512, 1_024, 2_048, 4_096, 8_192, 16_384, 32_768, 65_536,
];

/// One more where something holds.
fn one_if(count: usize, holds: bool) -> usize
    requires { count < 2 ^ 32 }
    ensures { result ≡ count + cond holds 1 0 }
{
    if holds { count + 1 } else { count }
}

/// The place of a task of so many instructions among such tasks: how many of these powers are at most as many.
pub(crate) fn length_place(used: u32) -> usize
    ensures { result ≡ length_place used }
{
    let mut found = 0;
    for place in 0..POWERS.len() {
        found = one_if(found, POWERS[place] <= used);
    }
    found
}
