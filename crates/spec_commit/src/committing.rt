//! The commit of the least task.

ghost use Rattle.std.specs.Prelude.{◌≡◌, ◌≢◌, ◌<◌, ◌≤◌, ◌+◌, [], ◌∷◌, ◌++◌, ℕ, length};
ghost use Rattle.std.specs.Prelude.{IsSome, IfSome, IsOk, IfOk, OnOk, OnErr, Some, slice_get};
ghost use Rattle.fractal_vt.specs.declared.vt.TheConstants.{MAX_LEVELS};
ghost use Rattle.slab.specs.Slab.{get, slab_len};
ghost use Rattle.spec_state.specs.declared.task.Creator.TheVariants.{Committed};
ghost use Rattle.spec_state.specs.declared.task.Status.TheVariants.{Finished};
ghost use Rattle.spec_state.specs.declared.task.Task.{Task};
ghost use Rattle.spec_state.specs.Changes.{Commits, creator_after};
ghost use Rattle.spec_state.specs.Children.{AreNoted};
ghost use Rattle.spec_state.specs.Least.{IsLeastTask};
ghost use Rattle.spec_state.specs.StateValue.{CoversOutput};
ghost use Rattle.spec_state.specs.Tasks.{depth_of, own_level};
ghost use Rattle.spec_state.specs.View.{task_at};
ghost use Rattle.spec_commit.specs.Committing.{IsAdoptedOrSame, after_adoption};

use crate::serial_machine::Entry;
use fractal_vt::as_domain;
use kept_slab::KeptSlab;
use rv_core::Naming;
use spec_state::{Children, Creator, State, Task, TaskId};
use std::alloc::AllocError;
use task_desc::Name;

/// Makes the creator of a child of this task one that has committed as this one in number; another task stays.
fn adopt_one(task: &mut Task, id: usize, turn: u32)
    ensures { task.new ≡ record task.old { creator = creator_after id turn task.old.creator } }
{
    match task.creator {
        Creator::Live {
            task: creator,
            index,
        } if creator.0 == id => {
            task.creator = Creator::Committed { turn, index };
        }
        _ => {}
    }
}

/// Makes the creator of the task under `key` one that has committed as `turn`, where that creator is the task `id`; all
/// other tasks stay.
fn adopt_at(tasks: &mut KeptSlab<Task>, key: usize, id: usize, turn: u32)
    ensures changed { get tasks.new key ≡ after_adoption id turn (get tasks.old key) }
    ensures others { (k : ℕ) → k ≢ key → get tasks.new k ≡ get tasks.old k }
    ensures len { slab_len tasks.new ≡ slab_len tasks.old }
    ensures capacity { tasks.new.capacity ≡ tasks.old.capacity }
{
    if tasks.contains(key) {
        adopt_one(&mut tasks[key], id, turn);
    }
}

/// Makes the creator of each child of the task `id` one that has committed as `turn`. It costs a look at each slot.
fn adopt_all(tasks: &mut KeptSlab<Task>, id: usize, turn: u32)
    ensures each { (k : ℕ) → get tasks.new k ≡ after_adoption id turn (get tasks.old k) }
    ensures len { slab_len tasks.new ≡ slab_len tasks.old }
    ensures capacity { tasks.new.capacity ≡ tasks.old.capacity }
{
    for key in 0..tasks.capacity() {
        adopt_at(tasks, key, id, turn);
    }
}

/// Makes the creator of each child of the task `id` among these keys one that has committed as `turn`; each other task
/// stays.
fn adopt_noted(tasks: &mut KeptSlab<Task>, keys: &[u32], id: usize, turn: u32)
    ensures each { (k : ℕ) → IsAdoptedOrSame id turn (get tasks.old k) (get tasks.new k) }
    ensures noted { (place k : ℕ) → slice_get keys.now place ≡ Some k
        → get tasks.new k ≡ after_adoption id turn (get tasks.old k) }
    ensures len { slab_len tasks.new ≡ slab_len tasks.old }
    ensures capacity { tasks.new.capacity ≡ tasks.old.capacity }
{
    for key in keys {
        adopt_at(tasks, *key as usize, id, turn);
    }
}

/// Makes the creator of all children of the task `id` one that has committed as `turn`. It costs a look at each place
/// among its children, or at each slot where the notes aren't complete.
fn adopt(tasks: &mut KeptSlab<Task>, children: &Children, id: usize, turn: u32)
    requires noted { AreNoted tasks.old.slots children.now }
    ensures each { (k : ℕ) → get tasks.new k ≡ after_adoption id turn (get tasks.old k) }
    ensures len { slab_len tasks.new ≡ slab_len tasks.old }
    ensures capacity { tasks.new.capacity ≡ tasks.old.capacity }
{
    match children.of(id) {
        Some(keys) => adopt_noted(tasks, keys, id, turn),
        None => adopt_all(tasks, id, turn),
    }
}

/// Makes the creator of all children of a task that has just left the state the last commit.
fn adopt_children<N: Naming>(state: &mut State<N>, id: TaskId)
    ensures each { (k : ℕ) → task_at state.new.view k
        ≡ after_adoption id.0 (length state.old.view.history) (task_at state.old.view k) }
    ensures rest { state.new.view ≡ record state.old.view { tasks = state.new.view.tasks } }
    ensures effect { state.new.effect ≡ state.old.effect }
    ensures spare { state.new.spare ≡ state.old.spare }
{
    let turn = state.history.count();
    adopt(&mut state.tasks, &state.children, id.0, turn);
    state.children.forget(id.0);
}

/// The entry that a task with a committed creator has in the journal.
fn entry_of(task: &Task) -> Entry
    requires firm { (turn : ℕ) × (index : ℕ) × (task.now.creator ≡ Committed turn index) }
    requires shallow { length task.now.key.domain < MAX_LEVELS }
    ensures { (turn index : ℕ) → task.now.creator ≡ Committed turn index
        → result ≡ record {
          name = record { creator = turn; index = index };
          depth = depth_of task.now;
          ts = task.now.key.ts;
        } }
{
    match task.creator {
        Creator::Committed { turn, index } => Entry {
            name: Name {
                creator: turn,
                index,
            },
            depth: task.key.domain.levels().len() as u8 + 1,
            ts: task.key.ts,
        },
        Creator::Live { .. } => unreachable!(),
    }
}

/// Takes memory in the output for the bytes of a task. `AllocError` where memory runs out; the view stays in any case.
fn reserve_output<N: Naming>(state: &mut State<N>, id: TaskId) -> Result<(), AllocError>
    requires live { IsSome (task_at state.old.view id.0) }
    ensures view { state.new.view ≡ state.old.view }
    ensures covers { OnOk result (IfSome (task_at state.old.view id.0) (λ t.
        length state.old.view.output + length t.bytes ≤ state.new.spare.output)) }
    ensures enough { CoversOutput state.old id.0 → IsOk result }
    ensures err { OnErr result (state.new ≡ state.old) }
    ensures effect { state.new.effect ≡ state.old.effect }
    ensures spare { state.new.spare ≡ record state.old.spare { output = state.new.spare.output } }
{
    let wanted = state.output.as_slice().len() + state.task(id).bytes.as_slice().len();
    state.buffers.output.reserve(wanted)
}

/// Adds a task's entry to the journal and the task's bytes to the output, for which memory is spare, and makes its
/// levels the path.
fn enter_commit<N: Naming>(state: &mut State<N>, id: TaskId) -> Entry
    requires firm { IfSome (task_at state.old.view id.0) (λ task.
        (turn : ℕ) × (index : ℕ) × (task.creator ≡ Committed turn index)) }
    requires live { IsSome (task_at state.old.view id.0) }
    requires more { length state.old.view.history < state.old.view.settings.commits }
    requires output { CoversOutput state.old id.0 }
    requires closed { IfSome (task_at state.old.view id.0) (λ task. IsSome task.key.tb) }
    requires shallow { IfSome (task_at state.old.view id.0) (λ task. length task.key.domain < MAX_LEVELS) }
    ensures entry { IfSome (task_at state.old.view id.0) (λ task. (turn index : ℕ)
        → task.creator ≡ Committed turn index → result ≡ record {
          name = record { creator = turn; index = index };
          depth = depth_of task;
          ts = task.key.ts;
        }) }
    ensures view { IfSome (task_at state.old.view id.0) (λ task. state.new.view ≡ record state.old.view {
      history = state.old.view.history ++ result ∷ [];
      output = state.old.view.output ++ task.bytes;
      path = task.key.domain ++ own_level task ∷ [];
    }) }
    ensures effect { state.new.effect ≡ state.old.effect }
    ensures spare { state.new.spare ≡ record state.old.spare { output = state.new.spare.output } }
{
    let task = &state.tasks[id.0];
    let entry = entry_of(task);
    state.history.push(entry);
    state
        .output
        .append_with(&mut state.buffers.output, task.bytes.as_slice());
    state.path = as_domain(&task.key);
    entry
}

/// Commits the least task, which is finished and was made by the image or a committed task: its entry joins the
/// journal, its bytes the output, and its levels are the path. `AllocError` where memory for the bytes isn't spare
/// in the output and runs out; nothing has changed then.
pub fn commit_task<N: Naming>(state: &mut State<N>, id: TaskId) -> Result<Entry, AllocError>
    requires least { (task : Task) × IsLeastTask state.old.view id.0 task × (task.status ≡ Finished)
        × ((turn : ℕ) × (index : ℕ) × (task.creator ≡ Committed turn index)) }
    requires more { length state.old.view.history < state.old.view.settings.commits }
    ensures ok { IfOk result (λ entry. Commits state.old.view state.new.view
        × (state.new.view.history ≡ state.old.view.history ++ entry ∷ [])) }
    ensures err { OnErr result (state.new ≡ state.old) }
    ensures enough { CoversOutput state.old id.0 → IsOk result }
    ensures effect { state.new.effect ≡ state.old.effect }
    ensures spare { state.new.spare ≡ record state.old.spare { output = state.new.spare.output } }
{
    reserve_output(state, id)?;
    state.is_stored();
    let entry = enter_commit(state, id);
    state.take_out(id);
    adopt_children(state, id);
    Ok(entry)
}
