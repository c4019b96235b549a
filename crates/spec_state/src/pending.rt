//! The tasks that pend: those that a run which went on would have to take up.

ghost use Rattle.std.specs.Prelude.{◌≡◌, ◌++◌, ◌<◌, length, IsPermutation, IfOk, OnOk, flat_map, option_to_list};
ghost use Rattle.std.specs.List.{filter_map};
ghost use Rattle.std.specs.List.Sorted.{IsSortedBy};
ghost use Rattle.slab.specs.Slab.{get};
ghost use Rattle.spill_store.specs.Fronts.{lists_in};
ghost use Rattle.spec_state.specs.Pendings.{pending_before, pending_by, pending_queued, pending_spilled};
ghost use Rattle.spec_state.specs.Pendings.{spilled_pending, pendings_in};

use crate::state::State;
use crate::task::{Creator, Task};
use kept_slab::KeptSlab;
use run_journal::Items;
use rv_core::Naming;
use spill_store::Block;
use std::alloc::AllocError;
use task_desc::{Desc, Name};

/// A task that pends after a run: all that a later run needs of it.
#[derive(Clone, Copy, Debug, PartialEq, Eq)]
pub struct Pending {
    /// The task's name.
    pub name: Name,
    /// The depth of its domain: 1 for the root domain, at most 16.
    pub depth: u8,
    /// Where it starts.
    pub entry: u32,
    /// Its timestamp: 0 in an unordered domain.
    pub ts: u32,
    /// Its arguments, which are in x10 to x12 at its start.
    pub args: [u32; 3],
}

/// The tasks that pend after a run, sorted by their names.
pub type Pendings = Items<Pending>;

/// The task as one that pends; None exactly where its creator has not committed.
fn pending_of(task: &Task) -> Option<Pending>
    ensures { result ≡ pending_by task.now.creator task.now }
{
    match task.creator {
        Creator::Committed { turn, index } => Some(Pending {
            name: Name {
                creator: turn,
                index,
            },
            depth: task.key.domain.levels().len() as u8 + 1,
            entry: task.entry,
            ts: task.key.ts,
            args: task.args,
        }),
        Creator::Live { .. } => None,
    }
}

/// The queued task under an id as one that pends; None where there is none, and where its creator has not committed.
fn queued_at(tasks: &KeptSlab<Task>, id: usize) -> Option<Pending>
    ensures { result ≡ pending_queued (get tasks.now id) }
{
    match tasks.get(id) {
        Some(task) => pending_of(task),
        None => None,
    }
}

/// A spilled task as one that pends; None exactly where neither the image nor one of so many that have committed
/// made it.
fn spilled_as(count: u32, desc: &Desc) -> Option<Pending>
    ensures { result ≡ pending_spilled count desc.now }
{
    if desc.name.creator <= count {
        Some(Pending {
            name: desc.name,
            depth: desc.depth,
            entry: desc.entry,
            ts: desc.ts,
            args: desc.args,
        })
    } else {
        None
    }
}

/// Adds a task at the end, if one is given.
fn add(list: &mut Vec<Pending>, task: Option<Pending>) -> Result<(), AllocError>
    ensures { OnOk result (list.new.items ≡ list.old.items ++ option_to_list task) }
{
    if let Some(task) = task {
        list.push(task)?;
    }
    Ok(())
}

/// Adds the queued tasks that pend, by their ids.
fn add_queued(list: &mut Vec<Pending>, tasks: &KeptSlab<Task>) -> Result<(), AllocError>
    ensures { OnOk result (list.new.items ≡ list.old.items ++ filter_map pending_queued tasks.now.slots) }
{
    for id in 0..tasks.capacity() {
        add(list, queued_at(tasks, id))?;
    }
    Ok(())
}

/// Adds the tasks of a block that pend.
fn add_block(list: &mut Vec<Pending>, count: u32, block: &Block) -> Result<(), AllocError>
    ensures { OnOk result (list.new.items ≡ list.old.items ++ spilled_pending count block.now.tasks) }
{
    for place in 0..block.len() {
        add(list, spilled_as(count, &block.desc_at(place)))?;
    }
    Ok(())
}

/// Adds the spilled tasks that pend, by their tiles.
fn add_spilled(list: &mut Vec<Pending>, count: u32, blocks: &[Block]) -> Result<(), AllocError>
    ensures { OnOk result (list.new.items
        ≡ list.old.items ++ spilled_pending count (flat_map (λ block. block) (lists_in blocks.now))) }
{
    for block in blocks {
        add_block(list, count, block)?;
    }
    Ok(())
}

/// Sorts tasks by their names, in place.
fn sort_by_name(tasks: &mut [Pending])
    ensures moved { IsPermutation tasks.old tasks.new }
    ensures sorted { IsSortedBy pending_before tasks.new }
{
    tasks.sort_unstable_by_key(|task| (task.name.creator, task.name.index));
}

impl<N: Naming> State<N> {
    /// The tasks that pend, spilled ones included, sorted by their names. It takes time for a look at each slot and at
    /// each spilled task, and for a sort.
    ///
    /// `AllocError` where memory runs out.
    pub fn pending(&self) -> Result<Pendings, AllocError>
        ensures held { IfOk result (IsPermutation (pendings_in self.now.view)) }
        ensures sorted { IfOk result (IsSortedBy pending_before) }
    {
        let mut list = Vec::new(self.alloc);
        add_queued(&mut list, &self.tasks)?;
        add_spilled(&mut list, self.history.count(), self.blocks.as_slice())?;
        sort_by_name(&mut list);
        Ok(Pendings::from_vec(list))
    }
}
