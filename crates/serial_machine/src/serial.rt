//! The serial machine.

ghost use Rattle.std.specs.Prelude.{◌≡◌, ◌≢◌, ◌≤◌, ◌<◌, [], length, map, ◌+◌, IfOk, IfErr, OnOk, OnErr, MatchBool};
ghost use Rattle.std.specs.Prelude.{MatchOption};
ghost use Rattle.std.specs.List.{enumerate_from};
ghost use Rattle.serial_machine.specs.Names.{next_in, IsNext};
ghost use Rattle.serial_machine.specs.Run.{opening, image_task};
ghost use Rattle.serial_machine.specs.Stack.{bags};
ghost use Rattle.serial_machine.specs.Turn.{inner, RefusesTurn, TakesTurn};

use crate::bag::Bag;
use crate::fault::TurnFault;
use crate::limits::MAX_COMMITS;
use crate::stack::{bag_at, top};
use crate::turning::take_turn;
use guest_image::{Image, ImageTask, Kind};
use pending_list::{PendingList, PendingTask};
use run_journal::{Bytes, Entry};
use std::alloc::{AllocError, Global};
use std::marker::Model;
use task_desc::Name;
use undo_log::Memory;

/// A machine that runs the tasks of an image one after another.
#[derive(Drop)]
pub struct Serial {
    alloc: Global,
    stack: Vec<Bag>,
    memory: Memory,
    output: Vec<u8>,
    count: u32,
    budget: u32,
}

impl Model for Serial {
    ghost use Rattle.std.specs.Prelude.{◌≤◌, length};
    ghost use Rattle.serial_machine.specs.State.{SerialValue, IsStack};
    ghost use Rattle.serial_machine.specs.Names.{AreNamed};
    ghost use Rattle.serial_machine.specs.Stack.{bags, state_of};

    ghost Value = { SerialValue };

    ghost view = { λ s.
        record { state = state_of s.stack.items s.memory s.output.items s.count; budget = s.budget } };

    ghost invariant = { λ s.
        IsStack (bags s.stack.items) × AreNamed s.count (bags s.stack.items) × (length s.memory ≤ 16777216) };
}

impl Serial {
    /// The machine before its first turn: the image's tasks pend in the root domain. Each task will have the budget.
    pub fn begin(alloc: Global, image: &Image, budget: u32) -> Result<Serial, AllocError>
        ensures { IfOk result (λ s. s ≡ record { state = opening image.now; budget = budget }) }
    {
        let memory = Memory::new(alloc, image.initial(), image.data_size())?;
        let tasks = first_tasks(alloc, image.kind(), image.tasks())?;
        let mut stack = Vec::new(alloc);
        stack.push(Bag {
            depth: 1,
            kind: image.kind(),
            floor: 0,
            owner: 0,
            tasks,
        })?;
        Ok(Serial {
            alloc,
            stack,
            memory,
            output: Vec::new(alloc),
            count: 0,
            budget,
        })
    }

    /// The turn of a name: its task runs whole on the image's text, and its children join their domains.
    ///
    /// A turn that is refused leaves the machine as it was; `Memory` may come in place of another refusal.
    pub fn turn(&mut self, image: &Image, name: Name) -> Result<Entry, TurnFault>
        requires { self.old.state.count < MAX_COMMITS }
        ensures ok { IfOk result (TakesTurn image.now self.old.budget self.old.state name self.new.state) }
        ensures named { IfOk result (λ entry. entry.name ≡ name) }
        ensures counted { OnOk result (self.new.state.count ≡ self.old.state.count + 1) }
        ensures refused { IfErr result (RefusesTurn image.now self.old.budget self.old.state name) }
        ensures unchanged { OnErr result (self.new ≡ self.old) }
        ensures budget { self.new.budget ≡ self.old.budget }
    {
        match take_turn(
            self.alloc,
            image,
            self.budget,
            &mut self.stack,
            &mut self.memory,
            &mut self.output,
            self.count,
            name,
        ) {
            Err(fault) => Err(fault),
            Ok(entry) => {
                self.count += 1;
                Ok(entry)
            }
        }
    }

    /// The name that takes the next turn here: the first task in the innermost bag that isn't empty, of those with
    /// the least timestamp. None where no task is pending.
    pub fn next(&self) -> Option<Name>
        ensures first { result ≡ next_in (inner self.now.state.stack) }
        ensures may { MatchOption result (inner self.now.state.stack ≡ []) (IsNext self.now.state.stack) }
    {
        next_of(&self.stack)
    }

    /// Whether a task waits for its turn.
    pub fn pending(&self) -> bool
        ensures { MatchBool result (inner self.now.state.stack ≢ []) (inner self.now.state.stack ≡ []) }
    {
        is_pending(&self.stack)
    }

    /// The data memory.
    pub fn memory(&self) -> &[u8]
        ensures { result.now ≡ self.now.state.memory }
    {
        self.memory.as_slice()
    }

    /// The bytes that the tasks emitted.
    pub fn output(&self) -> &[u8]
        ensures { result.now ≡ self.now.state.output }
    {
        &self.output
    }

    /// How many tasks took their turns.
    pub fn count(&self) -> u32
        ensures { result ≡ self.now.state.count }
    {
        self.count
    }

    /// The memory and the output, when the run is over.
    pub fn into_parts(self) -> (Bytes, Bytes)
        ensures memory { result.0 ≡ self.state.memory }
        ensures output { result.1 ≡ self.state.output }
    {
        (
            Bytes::from_vec(self.memory.into_vec()),
            Bytes::from_vec(self.output),
        )
    }
}

/// The name of the first task of least timestamp in the innermost bag that isn't empty.
fn next_of(stack: &[Bag]) -> Option<Name>
    ensures { result ≡ next_in (inner (bags stack.now)) }
{
    let place = top(stack)?;
    let (bag, _outer) = bag_at(stack, place);
    match bag.tasks.first_least() {
        None => None,
        Some(task) => Some(task.name),
    }
}

fn is_pending(stack: &[Bag]) -> bool
    ensures { MatchBool result (inner (bags stack.now) ≢ []) (inner (bags stack.now) ≡ []) }
{
    match top(stack) {
        None => false,
        Some(place) => {
            let _there = bag_at(stack, place);
            true
        }
    }
}

/// The tasks of an image, named in order.
fn first_tasks(alloc: Global, kind: Kind, tasks: &[ImageTask]) -> Result<PendingList, AllocError>
    requires { length tasks.now ≤ 65536 }
    ensures { IfOk result (λ list. list.tasks ≡ map (image_task kind) (enumerate_from 0 tasks.now)) }
{
    let mut found = PendingList::new(alloc);
    found.reserve(tasks.len())?;
    for (index, task) in tasks.iter().enumerate() {
        let ts = match kind {
            Kind::Unordered => 0,
            Kind::Ordered => task.ts,
        };
        found.push(PendingTask {
            name: Name {
                creator: 0,
                index: index as u32,
            },
            entry: task.entry,
            ts,
            args: task.args,
        });
    }
    Ok(found)
}
