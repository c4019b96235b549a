//! The rollback of the stores of tasks.

ghost use Rattle.std.specs.Prelude.{◌≡◌, ◌≢◌, ◌≤◌, ℕ, List, Some, AllPairs, length, take};
ghost use Rattle.std.specs.List.Sorted.{IsPermutation};
ghost use Rattle.slab.specs.Slab.{get};
ghost use Rattle.undo_log.specs.Undo.{AllAccessible};
ghost use Rattle.spec_state.specs.declared.task.Task.{Task};
ghost use Rattle.memory_law.specs.Tasks.{IsByKey, undone_set};
ghost use Rattle.spec_state.specs.Groups.{logged_tasks};
ghost use Rattle.spec_state.specs.Aborts.{is_marked};
ghost use Rattle.spec_rollback.specs.Pulled.{ListsMarked};
ghost use Rattle.spec_rollback.specs.Undone.{ids_cmp, Falls, undone_one, undone_down};

use fractal_vt::cmp;
use kept_slab::KeptSlab;
use rv_core::Naming;
use spec_state::{State, Task};
use std::cmp::Ordering;
use undo_log::{Memory, undo};

/// Compares the tasks of two ids by their keys. An id with no task comes before all others.
fn compare(tasks: &KeptSlab<Task>, a: usize, b: usize) -> Ordering
    ensures { result ≡ ids_cmp tasks.now.slots a b }
{
    match (tasks.get(a), tasks.get(b)) {
        (Some(first), Some(second)) => cmp(&first.key, &second.key),
        (Some(_), None) => Ordering::Greater,
        (None, Some(_)) => Ordering::Less,
        (None, None) => Ordering::Equal,
    }
}

/// Puts the latest first.
fn sort_latest_first(tasks: &KeptSlab<Task>, ids: &mut [usize])
    ensures permutation { IsPermutation ids.old ids.new }
    ensures falls { Falls tasks.now.slots ids.new }
{
    ids.sort_unstable_by(|a, b| compare(tasks, *b, *a));
}

/// Undoes the log of the task, where it is there and dispatched.
fn undo_one(tasks: &KeptSlab<Task>, memory: &mut Memory, id: usize)
    requires logs { let size = length memory.old in
        (k : ℕ) (task : Task) → get tasks.now k ≡ Some task → AllAccessible size task.log }
    ensures undone { memory.new ≡ undone_one (get tasks.now id) memory.old }
    ensures size { length memory.new ≡ length memory.old }
{
    match tasks.get(id) {
        Some(task) => {
            if task.key.tb.is_some() {
                undo(memory, &task.log);
            }
        }
        None => {}
    }
}

/// Undoes the logs of these, the first one first.
fn undo_in_order(tasks: &KeptSlab<Task>, memory: &mut Memory, ids: &[usize])
    requires logs { let size = length memory.old in
        (k : ℕ) (task : Task) → get tasks.now k ≡ Some task → AllAccessible size task.log }
    ensures undone { memory.new ≡ undone_down tasks.now.slots ids.now memory.old }
    ensures size { length memory.new ≡ length memory.old }
{
    for id in ids {
        undo_one(tasks, memory, *id);
    }
}

/// Undoes the logs of the first `found` members, the latest first, which puts these in that order.
fn undo_latest_first(
    tasks: &KeptSlab<Task>,
    memory: &mut Memory,
    members: &mut [usize],
    found: usize,
)
    requires within { found ≤ length members.old }
    requires logs { let size = length memory.old in
        (k : ℕ) (task : Task) → get tasks.now k ≡ Some task → AllAccessible size task.log }
    ensures undone { memory.new ≡ undone_down tasks.now.slots (take found members.new) memory.old }
    ensures falls { Falls tasks.now.slots (take found members.new) }
    ensures permutation { IsPermutation (take found members.old) (take found members.new) }
    ensures count { length members.new ≡ length members.old }
    ensures size { length memory.new ≡ length memory.old }
{
    let ids = &mut members[..found];
    sort_latest_first(tasks, ids);
    undo_in_order(tasks, memory, ids);
}

/// Takes the stores of the marked tasks back, which are the first `found` members. These are in
/// falling order then.
pub(crate) fn undo_marked<N: Naming>(state: &mut State<N>, found: usize)
    requires listed { ListsMarked state.old.scratch found }
    ensures memory { let set = is_marked state.old.scratch.marks in
        let tasks = logged_tasks state.old.view in
        let memory = state.new.view.memory in
        (ids : List ℕ) → IsByKey tasks ids
        → memory ≡ undone_set set tasks ids state.old.view.memory }
    ensures rest { state.new.view ≡ record state.old.view { memory = state.new.view.memory } }
    ensures marks { state.new.scratch.marks ≡ state.old.scratch.marks }
    ensures listed { ListsMarked state.new.scratch found }
    ensures once { AllPairs (λ a b. a ≢ b) (take found state.new.scratch.members) }
    ensures spare { state.new.spare ≡ state.old.spare }
{
    undo_latest_first(
        &state.tasks,
        &mut state.memory,
        state.members.as_mut_slice(),
        found,
    );
}
