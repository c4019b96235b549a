//! The table of the dispatch numbers in use: those of the path and of the dispatched tasks.

ghost use Rattle.std.specs.Prelude.{◌≡◌, ◌+◌, ◌<◌, ◌≤◌, ◌↔◌, ◌∷◌, ◌++◌, [], ℕ, Contains, map, length, vec_len};
ghost use Rattle.std.specs.Prelude.{vec_capacity};
ghost use Rattle.std.specs.List.Sorted.{IsStrictlyIncreasing};
ghost use Rattle.fractal_vt.specs.declared.vt.TheConstants.{MAX_LEVELS};
ghost use Rattle.slab.specs.Slab.{slab_len, entries};
ghost use Rattle.spec_dispatch.specs.Table.{dispatch_numbers_of, held_numbers};

use fractal_vt::Vt;
use kept_slab::KeptSlab;
use spec_state::Task;

/// Adds a number at the end of a list that has the memory for it.
fn note(numbers: &mut Vec<u64>, number: u64)
    requires spare { vec_len numbers.old < vec_capacity numbers.old }
    ensures items { numbers.new.items ≡ numbers.old.items ++ number ∷ [] }
    ensures capacity { vec_capacity numbers.old ≤ vec_capacity numbers.new }
{
    match numbers.push(number) {
        Ok(()) => {}
        Err(_) => unreachable!(),
    }
}

/// Adds the tiebreakers of the path.
fn note_path(numbers: &mut Vec<u64>, path: &Vt)
    requires spare { vec_len numbers.old + length path.now ≤ vec_capacity numbers.old }
    ensures items { numbers.new.items ≡ numbers.old.items ++ map (λ level. level.tb) path.now }
    ensures capacity { vec_capacity numbers.old ≤ vec_capacity numbers.new }
{
    for level in path.levels() {
        note(numbers, level.tb);
    }
}

/// Adds the numbers of the dispatched tasks.
fn note_tasks(numbers: &mut Vec<u64>, tasks: &KeptSlab<Task>)
    requires spare { vec_len numbers.old + slab_len tasks.now ≤ vec_capacity numbers.old }
    ensures items { numbers.new.items ≡ numbers.old.items ++ dispatch_numbers_of (entries tasks.now) }
    ensures few { vec_len numbers.new ≤ vec_len numbers.old + slab_len tasks.now }
    ensures capacity { vec_capacity numbers.old ≤ vec_capacity numbers.new }
{
    for (_, task) in tasks.iter() {
        if let Some(number) = task.value().key.tb {
            note(numbers, number);
        }
    }
}

/// Puts the numbers in rising order, each once.
fn arrange(numbers: &mut Vec<u64>)
    ensures rising { IsStrictlyIncreasing numbers.new.items }
    ensures same { (number : ℕ) → Contains numbers.new.items number ↔ Contains numbers.old.items number }
    ensures no_more { vec_len numbers.new ≤ vec_len numbers.old }
    ensures capacity { vec_capacity numbers.old ≤ vec_capacity numbers.new }
{
    numbers.sort_unstable();
    numbers.dedup();
}

/// Fills the table with the numbers of the path and of the dispatched tasks, in rising order, each once. It has
/// the memory for them.
pub(crate) fn fill(table: &mut Vec<u64>, path: &Vt, tasks: &KeptSlab<Task>)
    requires spare { MAX_LEVELS + slab_len tasks.now ≤ vec_capacity table.old }
    ensures rising { IsStrictlyIncreasing table.new.items }
    ensures exact { (number : ℕ) → Contains table.new.items number ↔ Contains (held_numbers path.now tasks.now) number }
    ensures few { vec_len table.new ≤ MAX_LEVELS + slab_len tasks.now }
    ensures capacity { vec_capacity table.old ≤ vec_capacity table.new }
{
    // The levels of a path are at most so many.
    let _few = path.levels();
    table.clear();
    note_path(table, path);
    note_tasks(table, tasks);
    arrange(table);
}
