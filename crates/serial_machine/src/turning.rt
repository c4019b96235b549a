//! A turn of the serial machine, over its bags, memory, output and count.

ghost use Rattle.std.specs.Prelude.{◌≡◌, ◌≤◌, ◌<◌, ◌+◌, ◌++◌, ◌∷◌, ◌^◌, ℕ, length, drop, IfOk, IfErr, OnOk, OnErr};
ghost use Rattle.std.specs.Prelude.{Some, IsSome, ◌↔◌, MatchBool};
ghost use Rattle.serial_machine.specs.Legs.{SubFits, FinishesRun, RunFails};
ghost use Rattle.serial_machine.specs.Names.{AreNamed};
ghost use Rattle.serial_machine.specs.Stack.{bag_value, bags, new_bags, stack_behind_turn, IsSelected, IsUnselected};
ghost use Rattle.serial_machine.specs.Stack.{AreAllOlder, state_of};
ghost use Rattle.serial_machine.specs.State.{IsStack};
ghost use Rattle.serial_machine.specs.TaskRun.{task_run, Done};
ghost use Rattle.serial_machine.specs.Turn.{TakesTurn, RefusesTurn, context_in_bag, children, sub_bags, IsNotTop};
ghost use Rattle.serial_machine.specs.Turn.{is_pending, kind_outside};

use crate::bag::Bag;
use crate::fault::TurnFault;
use crate::limits::MAX_COMMITS;
use crate::progress::{Progress, progress_at_start, taken_back};
use crate::running::{RunEnd, run};
use crate::stack::{bag_at, pending, reserve_tasks, settle, smaller, subdomain, top};
use guest_image::{Image, Kind};
use pending_list::PendingTask;
use run_journal::Entry;
use std::alloc::{AllocError, Global};
use std::mem::replace;
use task_desc::{Ctx, Name, Place};
use undo_log::Memory;

/// Why a name is not in the innermost bag that isn't empty, which has this depth.
fn missing(stack: &[Bag], name: Name, depth: u8) -> TurnFault
    ensures { let pends = is_pending name (bags stack.now) in
        MatchBool pends (result ≡ TurnFault.NotTop depth) (result ≡ TurnFault.NotPending) }
{
    if pending(name, stack) {
        TurnFault::NotTop { depth }
    } else {
        TurnFault::NotPending
    }
}

/// The task of a name, which may take the next turn, and the place of its bag.
fn select(stack: &[Bag], name: Name) -> Result<(usize, PendingTask), TurnFault>
    ensures ok { IfOk result (λ x. IsSelected stack.now name x.0 x.1) }
    ensures refused { IfErr result (IsUnselected (bags stack.now) name) }
{
    let Some(place) = top(stack) else {
        return Err(TurnFault::NotPending);
    };
    let (bag, _outer) = bag_at(stack, place);
    let Some(task) = bag.tasks.find(name) else {
        return Err(missing(stack, name, bag.depth));
    };
    if let Some(ts) = smaller(task.ts, &bag.tasks) {
        return Err(TurnFault::NotLeast { ts });
    }
    Ok((place, task))
}

fn kind_of_first(outer: &[Bag]) -> Option<Kind>
    ensures { result ≡ kind_outside (bags outer.now) }
{
    match outer {
        [] => None,
        [bag, ..] => Some(bag.kind),
    }
}

/// What the calls of a task of a bag depend on as it starts.
fn context(image: &Image, bag: &Bag, outer: &[Bag], task: &PendingTask) -> Ctx
    ensures { result ≡ context_in_bag image.now.version (bag_value bag.now) (bags outer.now) task.now }
{
    Ctx {
        version: image.version(),
        depth: bag.depth,
        own: bag.kind,
        outer: kind_of_first(outer),
        ts: task.ts,
        floor: bag.floor,
        sub: None,
        children: 0,
        bytes: 0,
    }
}

/// Runs the task of a bag on the memory, which the progress takes with it; where the run is not done the memory is
/// as it was.
fn run_done(
    alloc: Global,
    image: &Image,
    budget: u32,
    ctx: &Ctx,
    task: &PendingTask,
    memory: &mut Memory,
) -> Result<Progress, TurnFault>
    requires ts { ctx.now.ts ≡ task.now.ts }
    requires size { length memory.old < 2 ^ 32 }
    ensures done { let end = task_run image.now budget ctx.now task.now.entry task.now.args memory.old in
        IfOk result (λ p. end ≡ Done p.task) }
    ensures first { IfOk result (λ p. p.first ≡ memory.old) }
    ensures sub { IfOk result (λ p. SubFits ctx.now.depth p.task.sub) }
    ensures size { IfOk result (λ p. length p.task.memory ≡ length memory.old) }
    ensures refused { let end = task_run image.now budget ctx.now task.now.entry task.now.args memory.old in
        IfErr result (RunFails end) }
    ensures unchanged { OnErr result (memory.new ≡ memory.old) }
{
    let Ok(empty) = Memory::new(alloc, &[], 0) else {
        return Err(TurnFault::Memory);
    };
    let mut progress = progress_at_start(alloc, image, task, replace(memory, empty));
    match run(&mut progress, image, budget, ctx) {
        Ok(RunEnd::Done) => Ok(progress),
        Ok(RunEnd::Trapped { cause, pc }) => {
            *memory = taken_back(progress);
            Err(TurnFault::Trap { cause, pc })
        }
        Err(_) => {
            *memory = taken_back(progress);
            Err(TurnFault::Memory)
        }
    }
}

/// The children of a task that is done join their domains, and its bytes the output. Nothing changes where memory
/// runs out.
fn join_all(
    alloc: Global,
    stack: &mut Vec<Bag>,
    place: usize,
    entry: Entry,
    owner: u32,
    done: &Progress,
    output: &mut Vec<u8>,
) -> Result<(), AllocError>
    requires within { place < length stack.old.items }
    requires depth { entry.depth < 255 }
    requires older { AreAllOlder owner (drop place (bags stack.old.items)) }
    ensures stack { let spawns = done.now.task.spawns in
        let inside = children Place.Sub owner spawns in
        let new = sub_bags (entry.depth + 1) entry.ts owner inside done.now.task.sub in
        let old = drop place (bags stack.old.items) in
        OnOk result (bags stack.new.items ≡ stack_behind_turn entry.name owner spawns new old) }
    ensures output { OnOk result (output.new.items ≡ output.old.items ++ done.now.task.bytes) }
    ensures stack_unchanged { OnErr result (bags stack.new.items ≡ bags stack.old.items) }
    ensures output_unchanged { OnErr result (output.new.items ≡ output.old.items) }
{
    let new = subdomain(
        alloc,
        entry.depth + 1,
        entry.ts,
        owner,
        done.sub,
        &done.spawns,
    )?;
    reserve_tasks(stack, done.spawns.len())?;
    output.extend_from_slice(&done.bytes)?;
    settle(stack, place, entry.name, owner, new, &done.spawns);
    Ok(())
}

/// The turn of a name. Where it is refused the stack says what it said, and the memory and the output are as they were.
pub(crate) fn take_turn(
    alloc: Global,
    image: &Image,
    budget: u32,
    stack: &mut Vec<Bag>,
    memory: &mut Memory,
    output: &mut Vec<u8>,
    count: u32,
    name: Name,
) -> Result<Entry, TurnFault>
    requires count { count < MAX_COMMITS }
    requires stack { IsStack (bags stack.old.items) }
    requires named { AreNamed count (bags stack.old.items) }
    requires size { length memory.old < 2 ^ 32 }
    ensures ok { let before = state_of stack.old.items memory.old output.old.items count in
        let after = state_of stack.new.items memory.new output.new.items (count + 1) in
        IfOk result (TakesTurn image.now budget before name after) }
    ensures told { IfOk result (λ entry. entry.name ≡ name) }
    ensures refused { let before = state_of stack.old.items memory.old output.old.items count in
        IfErr result (RefusesTurn image.now budget before name) }
    ensures stack_unchanged { OnErr result (bags stack.new.items ≡ bags stack.old.items) }
    ensures memory_unchanged { OnErr result (memory.new ≡ memory.old) }
    ensures output_unchanged { OnErr result (output.new.items ≡ output.old.items) }
    ensures size { length memory.new ≡ length memory.old }
    ensures depths { OnOk result (IsStack (bags stack.new.items)) }
    ensures names { OnOk result (AreNamed (count + 1) (bags stack.new.items)) }
{
    let (place, task) = match select(stack, name) {
        Ok(selected) => selected,
        Err(fault) => return Err(fault),
    };
    let (bag, outer) = bag_at(stack, place);
    let ctx = context(image, bag, outer, &task);
    let done = match run_done(alloc, image, budget, &ctx, &task, memory) {
        Ok(done) => done,
        Err(fault) => return Err(fault),
    };
    let entry = Entry {
        name,
        depth: ctx.depth,
        ts: task.ts,
    };
    match join_all(alloc, stack, place, entry, count + 1, &done, output) {
        Ok(()) => {}
        Err(_) => {
            *memory = taken_back(done);
            return Err(TurnFault::Memory);
        }
    }
    *memory = done.memory;
    Ok(entry)
}
