//! Marks of the tasks that are the first of a cascade, and a list of them.

ghost use Rattle.std.specs.Prelude.{◌≡◌, ◌<◌, ◌≤◌, ◌↔◌, ℕ, IsTrue, IsFalse, Some, IsSome, IfSome, length, true, false};
ghost use Rattle.std.specs.Prelude.{Option, option_map, slice_index, take};
ghost use Rattle.std.specs.List.Sorted.{IsPermutation};
ghost use Rattle.slab.specs.Slab.{get};
ghost use Rattle.abort_cascade.specs.Cascade.{Marked};
ghost use Rattle.abort_cascade.specs.Growth.{IsListOf};
ghost use Rattle.spec_state.specs.View.{task_at, core_ids};
ghost use Rattle.spec_rollback.specs.Marking.{has_line, conflicts, conflicts_at, IsSeen, IsInTile};
ghost use Rattle.spec_rollback.specs.Marking.{StandsIn, StandTasksIn, HoldTasks, ArePassed, IsListed};
ghost use Rattle.spec_rollback.specs.Marking.{Finds, FindsConflicts};

use fractal_vt::cmp;
use kept_slab::KeptSlab;
use rv_core::Naming;
use spec_state::{State, Task, TaskId};
use tile_queues::CommitQueue;

/// An access of a task, beside the tasks with which it may conflict.
#[derive(Drop)]
pub(crate) struct ConflictQuery<'a> {
    pub(crate) tasks: &'a KeptSlab<Task>,
    pub(crate) task: &'a Task,
    pub(crate) line: u32,
    pub(crate) write: bool,
}

/// Where the dispatched tasks stand: the cores and the commit queue of each tile.
#[derive(Drop)]
pub(crate) struct Dispatched<'a> {
    pub(crate) cores: &'a [Vec<Option<TaskId>>],
    pub(crate) finished: &'a [CommitQueue],
}

/// Whether a store, or else a load, of the line conflicts with a later task of this filter.
fn has_line(task: &Task, line: u32, write: bool) -> bool
    ensures { result ≡ has_line write task.now line }
{
    if write {
        task.has_touched(line)
    } else {
        task.has_written(line)
    }
}

/// Whether the access conflicts with the task of this id, if there is one.
fn conflicts(access: &ConflictQuery<'_>, id: usize) -> bool
    ensures { let a = access.now in
        result ≡ conflicts a.task.now a.line a.write (get a.tasks.now id) }
{
    match access.tasks.get(id) {
        None => false,
        Some(other) => {
            other.key.tb.is_some()
                && has_line(other, access.line, access.write)
                && cmp(&access.task.key, &other.key).is_lt()
        }
    }
}

/// Whether one look at the task's filter rules out that a store, or else a load, of the line conflicts with it; false
/// leaves it open.
fn rules_out(task: &Task, line: u32, write: bool) -> bool
    ensures { IsTrue result → has_line write task.now line ≡ false }
{
    if write {
        task.never_touched(line)
    } else {
        task.never_written(line)
    }
}

/// A place that may hold a task: a core, or one of a commit queue.
pub(crate) trait Holder: Copy {
    /// The id of the task that it holds, if it holds one.
    ghost held: { Self → Option ℕ };

    /// The id of the task that it holds, if it holds one.
    fn held(self) -> Option<usize>
        ensures { result ≡ held self };
}

impl Holder for Option<TaskId> {
    ghost use Rattle.std.specs.Prelude.{Option, option_map, slice_index, take};
    ghost use Rattle.std.specs.List.Sorted.{IsPermutation};

    ghost held = { option_map (λ id. id.0) };

    fn held(self) -> Option<usize> {
        self.map(|id| id.0)
    }
}

impl Holder for usize {
    ghost use Rattle.std.specs.Prelude.{Some};

    ghost held = { Some };

    fn held(self) -> Option<usize> {
        Some(self)
    }
}

/// Whether one look rules out that a store, or else a load, of the line conflicts with the held task; false leaves it
/// open.
fn passes_over(tasks: &KeptSlab<Task>, held: Option<usize>, line: u32, write: bool) -> bool
    requires { IfSome held (λ id. IsSome (get tasks.now id)) }
    ensures { IsTrue result → (task : Task) → (id : ℕ) → held ≡ Some id
        → conflicts task line write (get tasks.now id) ≡ false }
{
    match held {
        None => true,
        Some(id) => rules_out(&tasks[id], line, write),
    }
}

/// The first of these places from one on that isn't passed over; their number where there is none. Most are, so this
/// loop alone goes over them, and holds no more than it takes.
fn next_place<H: Holder>(
    tasks: &KeptSlab<Task>,
    holders: &[H],
    line: u32,
    write: bool,
    from: usize,
) -> usize
    requires from { from ≤ length holders.now }
    requires live { HoldTasks H.held holders.now tasks.now.slots }
    ensures within { result ≤ length holders.now }
    ensures from { from ≤ result }
    ensures passed { ArePassed H.held holders.now tasks.now.slots line write from result }
{
    let mut place = from;
    while place < holders.len() && passes_over(tasks, holders[place].held(), line, write) {
        place += 1;
    }
    place
}

/// Marks this id alone, and lists it.
fn mark_alone(id: usize, marks: &mut [bool], members: &mut [usize])
    requires within { id < length marks.old }
    requires members { length members.old ≡ length marks.old }
    ensures marks { (k : ℕ) → Marked marks.new k ↔ (k ≡ id) }
    ensures listed { IsListOf marks.new members.new 1 }
    ensures size { length marks.new ≡ length marks.old }
    ensures places { length members.new ≡ length members.old }
{
    marks.fill(false);
    marks[id] = true;
    members[0] = id;
}

/// Marks and lists an id more, where it isn't marked, and returns how many are listed then. Where none was listed
/// before, the old marks don't matter.
pub(crate) fn add(id: usize, marks: &mut [bool], members: &mut [usize], found: usize) -> usize
    requires within { id < length marks.old }
    requires members { length members.old ≡ length marks.old }
    requires listed { IsListed found marks.old members.old }
    ensures { Finds (λ k. true) (λ k. k ≡ id) found marks.old members.old result marks.new members.new }
{
    if found == 0 {
        mark_alone(id, marks, members);
        return 1;
    }
    if marks[id] {
        return found;
    }
    marks[id] = true;
    members[found] = id;
    found + 1
}

/// Marks and lists the id where the access conflicts with its task.
fn mark_id(
    access: &ConflictQuery<'_>,
    id: usize,
    marks: &mut [bool],
    members: &mut [usize],
    found: usize,
) -> usize
    requires marks { length access.now.tasks.now.slots ≤ length marks.old }
    requires members { length members.old ≡ length marks.old }
    requires listed { IsListed found marks.old members.old }
    ensures { let a = access.now in
        let test = conflicts_at a.tasks.now.slots a.task.now a.line a.write in
        Finds test (λ k. k ≡ id) found marks.old members.old result marks.new members.new }
{
    if conflicts(access, id) {
        add(id, marks, members, found)
    } else {
        found
    }
}

/// Marks and lists the held task, if there is one and the access conflicts with it, and returns how many are listed
/// then.
fn mark_held(
    access: &ConflictQuery<'_>,
    held: Option<usize>,
    marks: &mut [bool],
    members: &mut [usize],
    found: usize,
) -> usize
    requires marks { length access.now.tasks.now.slots ≤ length marks.old }
    requires members { length members.old ≡ length marks.old }
    requires listed { IsListed found marks.old members.old }
    ensures { let a = access.now in
        let test = conflicts_at a.tasks.now.slots a.task.now a.line a.write in
        Finds test (λ k. held ≡ Some k) found marks.old members.old result marks.new members.new }
{
    match held {
        Some(id) => mark_id(access, id, marks, members, found),
        None => found,
    }
}

/// Marks and lists the tasks of these holders with which the access conflicts, and returns how many are listed then.
fn mark_holders<H: Holder>(
    access: &ConflictQuery<'_>,
    holders: &[H],
    marks: &mut [bool],
    members: &mut [usize],
    found: usize,
) -> usize
    requires marks { length access.now.tasks.now.slots ≤ length marks.old }
    requires members { length members.old ≡ length marks.old }
    requires listed { IsListed found marks.old members.old }
    requires live { HoldTasks H.held holders.now access.now.tasks.now.slots }
    ensures { let a = access.now in
        let test = conflicts_at a.tasks.now.slots a.task.now a.line a.write in
        let these = IsSeen H.held holders.now (length holders.now) in
        Finds test these found marks.old members.old result marks.new members.new }
{
    let mut many = found;
    let mut place = next_place(access.tasks, holders, access.line, access.write, 0);
    while place < holders.len() {
        many = mark_held(access, holders[place].held(), marks, members, many);
        place = next_place(access.tasks, holders, access.line, access.write, place + 1);
    }
    many
}

/// Marks and lists the tasks on a tile's cores and in its commit queue with which the access conflicts, and returns how
/// many are listed then.
fn mark_tile(
    access: &ConflictQuery<'_>,
    cores: &[Option<TaskId>],
    ids: &[usize],
    marks: &mut [bool],
    members: &mut [usize],
    found: usize,
) -> usize
    requires marks { length access.now.tasks.now.slots ≤ length marks.old }
    requires members { length members.old ≡ length marks.old }
    requires listed { IsListed found marks.old members.old }
    requires cores { HoldTasks (option_map (λ id. id.0)) cores.now access.now.tasks.now.slots }
    requires ids { HoldTasks Some ids.now access.now.tasks.now.slots }
    ensures { let a = access.now in
        let test = conflicts_at a.tasks.now.slots a.task.now a.line a.write in
        let these = IsInTile (core_ids cores.now) ids.now in
        Finds test these found marks.old members.old result marks.new members.new }
{
    let many = mark_holders(access, cores, marks, members, found);
    mark_holders(access, ids, marks, members, many)
}

/// Marks and lists the dispatched tasks of all tiles with which the access conflicts, and returns how many are listed
/// then.
pub(crate) fn mark_tiles(
    access: &ConflictQuery<'_>,
    tiles: &Dispatched<'_>,
    marks: &mut [bool],
    members: &mut [usize],
    found: usize,
) -> usize
    requires marks { length access.now.tasks.now.slots ≤ length marks.old }
    requires members { length members.old ≡ length marks.old }
    requires listed { IsListed found marks.old members.old }
    requires live { StandTasksIn tiles.now access.now.tasks.now.slots }
    requires tiles { length tiles.now.finished.now ≡ length tiles.now.cores.now }
    ensures { let a = access.now in
        let test = conflicts_at a.tasks.now.slots a.task.now a.line a.write in
        Finds test (StandsIn tiles.now) found marks.old members.old result marks.new members.new }
{
    let mut many = found;
    for tile in 0..tiles.cores.len() {
        many = mark_tile(
            access,
            tiles.cores[tile].as_slice(),
            tiles.finished[tile].ids(),
            marks,
            members,
            many,
        );
    }
    many
}

/// Sorts the ids from a place on, the lowest first.
fn sort_from(ids: &mut [usize], from: usize)
    requires { from ≤ length ids.old }
    ensures permuted { IsPermutation ids.old ids.new }
    ensures stay { (k : ℕ) → k < from → slice_index ids.new k ≡ slice_index ids.old k }
    ensures len { length ids.new ≡ length ids.old }
{
    ids[from..].sort_unstable();
}

/// Sorts the listed ids from one place up to another, the lowest first, so that the order in which tasks are aborted
/// doesn't depend on their cores and queues.
pub(crate) fn sort_listed(members: &mut [usize], from: usize, upto: usize)
    requires from { from ≤ upto }
    requires upto { upto ≤ length members.old }
    ensures permuted { IsPermutation (take upto members.old) (take upto members.new) }
    ensures stay { (k : ℕ) → k < from → slice_index members.new k ≡ slice_index members.old k }
    ensures places { length members.new ≡ length members.old }
{
    sort_from(&mut members[..upto], from);
}

/// Marks and lists the dispatched tasks of all tiles with which the access conflicts, the lowest id first, where none
/// was listed before. It returns how many are listed.
fn mark_in_order(
    access: &ConflictQuery<'_>,
    tiles: &Dispatched<'_>,
    marks: &mut [bool],
    members: &mut [usize],
) -> usize
    requires marks { length access.now.tasks.now.slots ≤ length marks.old }
    requires members { length members.old ≡ length marks.old }
    requires live { StandTasksIn tiles.now access.now.tasks.now.slots }
    requires tiles { length tiles.now.finished.now ≡ length tiles.now.cores.now }
    ensures { let a = access.now in
        let test = conflicts_at a.tasks.now.slots a.task.now a.line a.write in
        Finds test (StandsIn tiles.now) 0 marks.old members.old result marks.new members.new }
{
    let many = mark_tiles(access, tiles, marks, members, 0);
    sort_listed(members, 0, many);
    many
}

/// Marks this task alone, and lists it.
pub(crate) fn mark_one<N: Naming>(state: &mut State<N>, task: TaskId)
    requires live { IsSome (task_at state.old.view task.0) }
    ensures marks { (id : ℕ) → Marked state.new.scratch.marks id ↔ (id ≡ task.0) }
    ensures listed { IsListOf state.new.scratch.marks state.new.scratch.members 1 }
    ensures view { state.new.view ≡ state.old.view }
    ensures spare { state.new.spare ≡ state.old.spare }
{
    // Each id is below the number of slots, and there are as many marks.
    let _slots = state.tasks.capacity();
    mark_alone(
        task.0,
        state.marks.as_mut_slice(),
        state.members.as_mut_slice(),
    );
}

/// Marks and lists the tasks with which an access of this task conflicts, and returns how many they are. It looks at
/// the dispatched tasks of all tiles, if any other task is dispatched.
pub(crate) fn mark_conflicts<N: Naming>(
    state: &mut State<N>,
    task: TaskId,
    line: u32,
    write: bool,
) -> usize
    requires live { IsSome (task_at state.old.view task.0) }
    ensures found { let marks = state.new.scratch.marks in
        let view = state.old.view in
        IfSome (task_at view task.0) (λ t. FindsConflicts view t line write result marks) }
    ensures listed { IsListed result state.new.scratch.marks state.new.scratch.members }
    ensures view { state.new.view ≡ state.old.view }
    ensures spare { state.new.spare ≡ state.old.spare }
{
    // The tasks of a run without workers are dispatched one at a time.
    if state.is_alone(task) {
        return 0;
    }
    // Each id is below the number of slots, and there are as many marks.
    let _slots = state.tasks.capacity();
    let access = ConflictQuery {
        tasks: &state.tasks,
        task: &state.tasks[task.0],
        line,
        write,
    };
    let tiles = Dispatched {
        cores: state.cores.as_slice(),
        finished: state.finished.as_slice(),
    };
    mark_in_order(
        &access,
        &tiles,
        state.marks.as_mut_slice(),
        state.members.as_mut_slice(),
    )
}
