//! What is aborted with a task, directly or through other tasks.

ghost use Rattle.std.specs.Prelude.{◌≡◌, ◌<◌, ◌≤◌, ℕ, Some, IsSome, length, slice_get};
ghost use Rattle.abort_cascade.specs.Cascade.{Marked, IsLeastClosed};
ghost use Rattle.abort_cascade.specs.Growth.{IsListOf};
ghost use Rattle.spec_state.specs.View.{task_at};
ghost use Rattle.spec_state.specs.Groups.{live_creator};
ghost use Rattle.spec_state.specs.Children.{AreNoted};
ghost use Rattle.spec_rollback.specs.Marking.{IsSeen, IsBelow, StandsIn, StandTasksIn, IsListed, Finds};
ghost use Rattle.spec_rollback.specs.Pulled.{is_creator, is_made_by, is_read_at, pull_in, store_conflicts_at};
ghost use Rattle.spec_rollback.specs.Pulled.{some_store_conflicts_at, ListsMarked};

use crate::marking::{ConflictQuery, Dispatched, add, mark_tiles, sort_listed};
use abort_cascade::{Spreader, close_listed};
use kept_slab::KeptSlab;
use rv_core::Naming;
use spec_state::{Children, Creator, State, Task, line_of};
use undo_log::Access;

/// Of the tasks of a slab, those that are aborted with one, where a line has `size` bytes.
#[derive(Drop)]
struct Cascade<'a> {
    size: u32,
    tasks: &'a KeptSlab<Task>,
    children: &'a Children,
    tiles: Dispatched<'a>,
}

/// Whether the uncommitted task of this id made the task.
fn is_made_by(task: &Task, id: usize) -> bool
    ensures { result ≡ is_creator id (live_creator task.now.creator) }
{
    match task.creator {
        Creator::Committed { .. } => false,
        Creator::Live { task: creator, .. } => creator.0 == id,
    }
}

/// Marks and lists the id where its task is a child of the task `creator`, and returns how many are listed then.
fn mark_child(
    tasks: &KeptSlab<Task>,
    creator: usize,
    id: usize,
    marks: &mut [bool],
    members: &mut [usize],
    found: usize,
) -> usize
    requires marks { length tasks.now.slots ≤ length marks.old }
    requires members { length members.old ≡ length marks.old }
    requires listed { IsListed found marks.old members.old }
    ensures { let test = is_made_by tasks.now.slots creator in
        Finds test (λ k. k ≡ id) found marks.old members.old result marks.new members.new }
{
    match tasks.get(id) {
        None => found,
        Some(task) => {
            if is_made_by(task, creator) {
                add(id, marks, members, found)
            } else {
                found
            }
        }
    }
}

/// Marks and lists those of these ids whose tasks are children of the task `creator`, and returns how many are listed
/// then.
fn mark_noted(
    tasks: &KeptSlab<Task>,
    creator: usize,
    ids: &[u32],
    marks: &mut [bool],
    members: &mut [usize],
    found: usize,
) -> usize
    requires marks { length tasks.now.slots ≤ length marks.old }
    requires members { length members.old ≡ length marks.old }
    requires listed { IsListed found marks.old members.old }
    ensures { let test = is_made_by tasks.now.slots creator in
        let these = IsSeen Some ids.now (length ids.now) in
        Finds test these found marks.old members.old result marks.new members.new }
{
    let mut many = found;
    for id in ids {
        many = mark_child(tasks, creator, *id as usize, marks, members, many);
    }
    many
}

/// Marks and lists all children of the task `creator`, by a look at each id that has a mark, and returns how many are
/// listed then.
fn mark_made(
    tasks: &KeptSlab<Task>,
    creator: usize,
    marks: &mut [bool],
    members: &mut [usize],
    found: usize,
) -> usize
    requires marks { length tasks.now.slots ≤ length marks.old }
    requires members { length members.old ≡ length marks.old }
    requires listed { IsListed found marks.old members.old }
    ensures { let test = is_made_by tasks.now.slots creator in
        let these = IsBelow (length marks.old) in
        Finds test these found marks.old members.old result marks.new members.new }
{
    let mut many = found;
    for id in 0..marks.len() {
        many = mark_child(tasks, creator, id, marks, members, many);
    }
    many
}

/// Marks and lists the tasks with which this access of a task conflicts, where it is a store, and returns how many are
/// listed then.
fn mark_store(
    cascade: &Cascade<'_>,
    writer: &Task,
    access: Access,
    marks: &mut [bool],
    members: &mut [usize],
    found: usize,
) -> usize
    requires marks { length cascade.now.tasks.now.slots ≤ length marks.old }
    requires members { length members.old ≡ length marks.old }
    requires listed { IsListed found marks.old members.old }
    requires tiles { length cascade.now.tiles.finished.now ≡ length cascade.now.tiles.cores.now }
    requires live { StandTasksIn cascade.now.tiles cascade.now.tasks.now.slots }
    ensures { let c = cascade.now in
        let test = store_conflicts_at c.size c.tasks.now.slots writer.now access in
        Finds test (StandsIn c.tiles) found marks.old members.old result marks.new members.new }
{
    if access.new.is_none() {
        return found;
    }
    let query = ConflictQuery {
        tasks: cascade.tasks,
        task: writer,
        line: line_of(access.offset, cascade.size),
        write: true,
    };
    mark_tiles(&query, &cascade.tiles, marks, members, found)
}

/// The access at a place of a log.
fn access_at(log: &[Access], place: usize) -> Access
    requires { place < length log.now }
    ensures { slice_get log.now place ≡ Some result }
{
    log[place]
}

/// Marks and lists the tasks with which a store of this log conflicts, and returns how many are listed then.
fn mark_stores(
    cascade: &Cascade<'_>,
    writer: &Task,
    log: &[Access],
    marks: &mut [bool],
    members: &mut [usize],
    found: usize,
) -> usize
    requires marks { length cascade.now.tasks.now.slots ≤ length marks.old }
    requires members { length members.old ≡ length marks.old }
    requires listed { IsListed found marks.old members.old }
    requires tiles { length cascade.now.tiles.finished.now ≡ length cascade.now.tiles.cores.now }
    requires live { StandTasksIn cascade.now.tiles cascade.now.tasks.now.slots }
    ensures { let c = cascade.now in
        let test = some_store_conflicts_at c.size c.tasks.now.slots writer.now log.now in
        Finds test (StandsIn c.tiles) found marks.old members.old result marks.new members.new }
{
    let mut many = found;
    for place in 0..log.len() {
        let access = access_at(log, place);
        many = mark_store(cascade, writer, access, marks, members, many);
    }
    many
}

impl Cascade<'_> {
    /// Marks and lists the children of a task, and returns how many are listed then.
    fn mark_children(
        &self,
        creator: usize,
        marks: &mut [bool],
        members: &mut [usize],
        found: usize,
    ) -> usize
        requires marks { length self.now.tasks.now.slots ≤ length marks.old }
        requires members { length members.old ≡ length marks.old }
        requires listed { IsListed found marks.old members.old }
        requires noted { AreNoted self.now.tasks.now.slots self.now.children.now }
        ensures { let test = is_made_by self.now.tasks.now.slots creator in
            let these = IsBelow (length marks.old) in
            Finds test these found marks.old members.old result marks.new members.new }
    {
        match self.children.of(creator) {
            Some(ids) => mark_noted(self.tasks, creator, ids, marks, members, found),
            None => mark_made(self.tasks, creator, marks, members, found),
        }
    }

    /// Marks and lists the tasks that may have read or overwritten a store of this one, and returns how many are listed
    /// then.
    fn mark_readers(
        &self,
        writer: usize,
        marks: &mut [bool],
        members: &mut [usize],
        found: usize,
    ) -> usize
        requires marks { length self.now.tasks.now.slots ≤ length marks.old }
        requires members { length members.old ≡ length marks.old }
        requires listed { IsListed found marks.old members.old }
        requires tiles { length self.now.tiles.finished.now ≡ length self.now.tiles.cores.now }
        requires live { StandTasksIn self.now.tiles self.now.tasks.now.slots }
        ensures { let c = self.now in
            let test = is_read_at c.size c.tasks.now.slots writer in
            Finds test (StandsIn c.tiles) found marks.old members.old result marks.new members.new }
    {
        match self.tasks.get(writer) {
            Some(task) if task.key.tb.is_some() => {
                mark_stores(self, task, task.log.accesses(), marks, members, found)
            }
            _ => found,
        }
    }
}

impl Spreader for Cascade<'_> {
    ghost use Rattle.spec_rollback.specs.Pulled.{pull_in, KnowsTasks};

    ghost count = { λ cascade. cascade.tasks.now.capacity };

    ghost pull = { λ cascade. pull_in cascade.size cascade.tasks.now.slots };

    ghost knows = { λ cascade. KnowsTasks cascade.tasks.now.slots cascade.children.now cascade.tiles };

    fn spread(
        &self,
        node: usize,
        marks: &mut [bool],
        members: &mut [usize],
        found: usize,
    ) -> usize {
        let _slots = self.tasks.capacity();
        let with_children = self.mark_children(node, marks, members, found);
        let many = self.mark_readers(node, marks, members, with_children);
        sort_listed(members, found, many);
        many
    }
}

/// Grows the marks to the cascade of the marked tasks, which are the first `listed` members, and puts all its members
/// at the front of the list. It returns their number.
pub(crate) fn close_marks<N: Naming>(state: &mut State<N>, listed: usize) -> usize
    requires live { let old = state.old in
        (id : ℕ) → Marked old.scratch.marks id → IsSome (task_at old.view id) }
    requires listed { IsListOf state.old.scratch.marks state.old.scratch.members listed }
    ensures size { length state.old.view.tasks ≤ length state.new.scratch.marks }
    ensures least { let marks = state.new.scratch.marks in
        let pull = pull_in state.old.view.settings.line state.old.view.tasks in
        IsLeastClosed (length marks) pull (Marked state.old.scratch.marks) marks }
    ensures listed { ListsMarked state.new.scratch result }
    ensures few { result ≤ 4096 }
    ensures view { state.new.view ≡ state.old.view }
    ensures spare { state.new.spare ≡ state.old.spare }
{
    // Each id is below the number of slots, and there are as many marks.
    let _slots = state.tasks.capacity();
    let cascade = Cascade {
        size: state.settings.line,
        tasks: &state.tasks,
        children: &state.children,
        tiles: Dispatched {
            cores: state.cores.as_slice(),
            finished: state.finished.as_slice(),
        },
    };
    close_listed(
        &cascade,
        state.marks.as_mut_slice(),
        state.members.as_mut_slice(),
        listed,
    )
}
