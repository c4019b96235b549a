//! What the next call of a task depends on, what the type of a state keeps, and what a run leaves. No call takes
//! memory.

ghost use Rattle.std.specs.Prelude.{◌≡◌, ◌≤◌, ◌<◌, length, IsSome, IfSome};
ghost use Rattle.task_desc.specs.declared.calls.TheConstants.{MAX_CHILDREN, MAX_DEPTH};
ghost use Rattle.spec_state.specs.Settings.{IsValid};
ghost use Rattle.spec_state.specs.View.{task_at, loads};
ghost use Rattle.spec_state.specs.Tasks.{context_of, depth_of, kind_at, outer_kind, floor_in};
ghost use Rattle.spec_state.specs.Stored.{IsStored};

use crate::serial_machine::{Bytes, Journal};
use crate::state::State;
use crate::task::{Task, TaskId};
use fractal_vt::Vt;
use guest_image::Kind;
use rv_core::Naming;
use task_desc::Ctx;

/// What a run leaves of a state.
#[derive(Drop)]
pub struct Parts {
    /// The committed tasks, in the order of their commits.
    pub journal: Journal,
    /// The data memory as it stands, with the stores of all dispatched tasks.
    pub memory: Bytes,
    /// The bytes of the committed tasks.
    pub output: Bytes,
}

/// The kind of the domain behind so many others, from the outermost on.
#[tactic(auto, using(crate::proofs::Depths::kind_ordered, crate::proofs::Depths::kind_unordered))]
fn kind_behind(kinds: u16, outer: usize) -> Kind
    requires { outer < 16 }
    ensures { result ≡ kind_at outer kinds }
{
    if (kinds >> outer) % 2 == 1 {
        Kind::Ordered
    } else {
        Kind::Unordered
    }
}

/// The kind of the domain outside it, where there is one.
fn kind_outside(kinds: u16, outer: usize) -> Option<Kind>
    requires { outer < 16 }
    ensures { result ≡ outer_kind outer kinds }
{
    if outer == 0 {
        None
    } else {
        Some(kind_behind(kinds, outer - 1))
    }
}

/// The floor of a domain: the timestamp of its last level, or 0 where it has none.
#[tactic(auto, using(crate::proofs::Depths::floor_found))]
fn floor_of(domain: &Vt) -> u32
    ensures { result ≡ floor_in 0 domain.now }
{
    match domain.levels().split_last() {
        None => 0,
        Some((last, _)) => last.ts,
    }
}

/// What the next call of a task depends on.
fn context(version: u16, task: &Task) -> Ctx
    requires children { length task.now.spawns ≤ MAX_CHILDREN }
    requires depth { depth_of task.now ≤ MAX_DEPTH }
    ensures { result ≡ context_of version task.now }
{
    let outer = task.key.domain.levels().len();
    Ctx {
        version,
        depth: outer as u8 + 1,
        own: kind_behind(task.kinds, outer),
        outer: kind_outside(task.kinds, outer),
        ts: task.key.ts,
        floor: floor_of(&task.key.domain),
        sub: task.sub,
        children: task.spawns.as_slice().len() as u32,
        bytes: task.bytes.count(),
    }
}

impl<N: Naming> State<N> {
    /// Law: what the type of a state keeps of its view.
    pub fn is_stored(&self)
        ensures { IsStored N.image.data_size self.now.view }
    {
        let _ = &self.settings;
    }

    /// Law: the settings are valid, with the task budget and the commit limit that `N` names.
    pub fn has_limits(&self)
        ensures valid { IsValid self.now.view.settings }
        ensures budget { self.now.view.settings.budget ≡ N.budget }
        ensures commits { self.now.view.settings.commits ≡ N.commits }
    {
        let _ = &self.settings;
    }

    /// Law: there are as many loads as tiles.
    pub fn has_loads(&self)
        ensures { length (loads self.now.view) ≡ self.now.view.settings.tiles }
    {
        let _ = &self.settings;
    }

    /// What the next call of the task depends on.
    pub fn ctx_of(&self, task: TaskId) -> Ctx
        requires live { IsSome (task_at self.now.view task.0) }
        ensures { IfSome (task_at self.now.view task.0) (λ t. result ≡ context_of self.now.view.version t) }
    {
        self.is_stored();
        context(self.version, self.task(task))
    }

    /// Its journal, its memory and its output, as they stand. It takes no memory.
    pub fn into_parts(self) -> Parts
        ensures journal { result.journal ≡ self.view.history }
        ensures memory { result.memory ≡ self.view.memory }
        ensures output { result.output ≡ self.view.output }
    {
        let State {
            version: _,
            settings: _,
            tasks: _,
            memory,
            history,
            output,
            next: _,
            path: _,
            queues: _,
            finished: _,
            cores: _,
            blocks: _,
            index: _,
            arrivals: _,
            next_arrival: _,
            children: _,
            marks: _,
            members: _,
            numbers: _,
            effect: _,
            buffers: _,
            decoded: _,
            alloc: _,
            naming: _,
        } = self;
        Parts {
            journal: history.into_journal(),
            memory: Bytes::from_vec(memory.into_vec()),
            output,
        }
    }
}
