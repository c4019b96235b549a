//! The dispatch numbers in use, from 0 on.

ghost use Rattle.std.specs.Prelude.{◌≡◌, ◌≤◌, ℕ, All, map, length, option_map};
ghost use Rattle.std.specs.List.Sorted.{IsStrictlyIncreasing};
ghost use Rattle.spec_state.specs.declared.numbers.TheConstants.{MAX_NUMBERS_IN_USE};
ghost use Rattle.spill_store.specs.Fronts.{lists_in};
ghost use Rattle.spec_state.specs.Numbers.{Renumbers, renumbered_task};
ghost use Rattle.spill_store.specs.SpilledTasks.{renumbered_spilled, HoldsSpilled};
ghost use Rattle.spec_dispatch.specs.Numbered.{AreNumbersHeld};

use crate::table::fill;
use fractal_vt::{renumber as renumber_path, renumber_key};
use kept_slab::KeptSlab;
use rv_core::Naming;
use spec_state::{State, Task};
use spill_store::Blocks;

/// Replaces each tiebreaker of the task's key by its place in the table.
fn renumber_task(task: &mut Task, table: &[u64])
    requires { IsStrictlyIncreasing table.now }
    ensures { task.new ≡ renumbered_task table.now task.old }
{
    task.key = renumber_key(&task.key, table);
}

/// Replaces the tiebreakers of all tasks by their places in the table.
fn renumber_tasks(tasks: &mut KeptSlab<Task>, table: &[u64])
    requires { IsStrictlyIncreasing table.now }
    ensures slots { tasks.new.slots ≡ map (option_map (renumbered_task table.now)) tasks.old.slots }
    ensures capacity { tasks.new.capacity ≡ tasks.old.capacity }
{
    for slot in 0..tasks.capacity() {
        if let Some(task) = tasks.get_mut(slot) {
            renumber_task(task, table);
        }
    }
}

/// Replaces the tiebreakers of all spilled tasks by their places in the table.
fn renumber_blocks(blocks: &mut Blocks, table: &[u64])
    requires rising { IsStrictlyIncreasing table.now }
    requires held { All (HoldsSpilled table.now) (lists_in blocks.old.items) }
    ensures spilled { let was = lists_in blocks.old.items in
        lists_in blocks.new.items ≡ map (map (renumbered_spilled table.now)) was }
    ensures count { length blocks.new.items ≡ length blocks.old.items }
    ensures spare { map (λ block. block.spare) blocks.new.items ≡ map (λ block. block.spare) blocks.old.items }
{
    blocks.renumber(table);
}

/// Replaces each dispatch number in use by its place among them, counted from 0. Each is one of the path or of a
/// dispatched task. The next number is how many they are, fewer than there are numbers.
pub(crate) fn renumber<N: Naming>(state: &mut State<N>)
    requires held { AreNumbersHeld state.old.view }
    ensures renumbers { Renumbers state.old.view state.new.view }
    ensures few { state.new.view.next ≤ MAX_NUMBERS_IN_USE }
    ensures effect { state.new.effect ≡ state.old.effect }
    ensures spare { state.new.spare ≡ state.old.spare }
{
    fill(&mut state.numbers, &state.path, &state.tasks);
    let table = state.numbers.as_slice();
    renumber_tasks(&mut state.tasks, table);
    renumber_blocks(&mut state.blocks, table);
    state.index.renumber(table);
    state.path = renumber_path(&state.path, table);
    state.next = table.len() as u64;
}
