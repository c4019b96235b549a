//! The stack of bags: looking for a task, and the changes that a turn makes.

ghost use Rattle.std.specs.Prelude.{◌≡◌, ◌≤◌, ◌<◌, ◌+◌, ◌++◌, ◌∷◌, [], ℕ, true, length, drop, map, vec_len};
ghost use Rattle.std.specs.Prelude.{vec_capacity, IfOk, OnOk, IfSome, IfNone, MatchOption, MatchBool, Some};
ghost use Rattle.std.specs.Prelude.{Contains};
ghost use Rattle.std.specs.List.{list_any};
ghost use Rattle.task_desc.specs.declared.calls.TheConstants.{MAX_CHILDREN};
ghost use Rattle.serial_machine.specs.Turn.{is_named, is_least, inner, is_pending, place_number, children};
ghost use Rattle.serial_machine.specs.Turn.{sub_bags, with_super};
ghost use Rattle.serial_machine.specs.Stack.{bags, new_bags, AreOlder, AreAllOlder, HaveSpare, IsTopAt};
ghost use Rattle.serial_machine.specs.Stack.{stack_behind_turn};

use crate::bag::Bag;
use guest_image::Kind;
use pending_list::{PendingList, PendingTask};
use std::alloc::{AllocError, Global};
use task_desc::{Name, Place, Spawn};

/// A smaller timestamp that is pending.
pub(crate) fn smaller(ts: u32, tasks: &PendingList) -> Option<u32>
    ensures some { IfSome result (λ t. (t < ts) × Contains (map (λ x. x.ts) tasks.now.tasks) t) }
    ensures none { IfNone result (is_least ts tasks.now.tasks ≡ true) }
{
    let Some(least) = tasks.first_least() else {
        return None;
    };
    if least.ts < ts {
        return Some(least.ts);
    }
    None
}

/// Where the innermost bag stands that isn't empty.
pub(crate) fn top(stack: &[Bag]) -> Option<usize>
    ensures { MatchOption result (inner (bags stack.now) ≡ []) (IsTopAt stack.now) }
{
    for k in 0..stack.len() {
        if !is_empty_at(stack, k) {
            return Some(k);
        }
    }
    None
}

fn is_empty_at(stack: &[Bag], k: usize) -> bool
    requires { k < length stack.now }
    ensures { let here = bags (drop k stack.now) in
        let outer = bags (drop (k + 1) stack.now) in
        MatchBool result (inner here ≡ inner outer) (inner here ≡ here) }
{
    stack[k].tasks.is_empty()
}

/// The bag at this place, and those outside it.
pub(crate) fn bag_at(stack: &[Bag], k: usize) -> (&Bag, &[Bag])
    requires { k < length stack.now }
    ensures { drop k stack.now ≡ result.0.now ∷ result.1.now }
{
    let (_, rest) = stack.split_at(k);
    match rest.split_first() {
        Some((bag, outer)) => (bag, outer),
        None => unreachable!(),
    }
}

fn holds(name: Name, bag: &Bag) -> bool
    ensures { result ≡ list_any (is_named name) bag.now.tasks.tasks }
{
    bag.tasks.contains(name)
}

/// Whether some bag holds a task of a name.
pub(crate) fn pending(name: Name, stack: &[Bag]) -> bool
    ensures { result ≡ is_pending name (bags stack.now) }
{
    any_holds(name, stack)
}

fn any_holds(name: Name, stack: &[Bag]) -> bool
    ensures { result ≡ list_any (λ b. list_any (is_named name) b.tasks.tasks) stack.now }
{
    stack.iter().any(|bag| holds(name, bag))
}

fn number(place: Place) -> u8
    ensures { result ≡ place_number place }
{
    match place {
        Place::Same => 0,
        Place::Sub => 1,
        Place::Super => 2,
    }
}

/// The children for a domain join the tasks, which have memory for them and were made before.
#[tactic(auto, unfolding(crate::specs::Turn::children))]
fn join(tasks: &mut PendingList, place: Place, owner: u32, spawns: &[Spawn])
    requires few { length spawns.now ≤ MAX_CHILDREN }
    requires spare { length spawns.now ≤ tasks.old.spare }
    requires older { AreOlder owner tasks.old.tasks }
    ensures { tasks.new.tasks ≡ tasks.old.tasks ++ children place owner spawns.now }
{
    for (index, spawn) in spawns.iter().enumerate() {
        if number(spawn.place) == number(place) {
            tasks.push(PendingTask {
                name: Name {
                    creator: owner,
                    index: index as u32,
                },
                entry: spawn.entry,
                ts: spawn.ts,
                args: spawn.args,
            });
        }
    }
}

/// The bag of the new subdomain; none for no task.
pub(crate) fn subdomain(
    alloc: Global,
    depth: u8,
    floor: u32,
    owner: u32,
    kind: Option<Kind>,
    spawns: &[Spawn],
) -> Result<Option<Bag>, AllocError>
    requires { length spawns.now ≤ MAX_CHILDREN }
    ensures { let tasks = children Place.Sub owner spawns.now in
        IfOk result (λ new. new_bags new ≡ sub_bags depth floor owner tasks kind) }
{
    let Some(kind) = kind else {
        return Ok(None);
    };
    let mut tasks = PendingList::new(alloc);
    tasks.reserve(spawns.len())?;
    join(&mut tasks, Place::Sub, owner, spawns);
    if tasks.is_empty() {
        return Ok(None);
    }
    Ok(Some(Bag {
        depth,
        kind,
        floor,
        owner,
        tasks,
    }))
}

/// Takes memory for one more bag, and for so many more tasks in each.
pub(crate) fn reserve_tasks(stack: &mut Vec<Bag>, more: usize) -> Result<(), AllocError>
    ensures same { bags stack.new.items ≡ bags stack.old.items }
    ensures spare { OnOk result (vec_len stack.new < vec_capacity stack.new) }
    ensures each { OnOk result (HaveSpare more stack.new.items) }
{
    stack.reserve(1)?;
    widen(stack, more)
}

fn widen(stack: &mut [Bag], more: usize) -> Result<(), AllocError>
    ensures same { bags stack.new ≡ bags stack.old }
    ensures each { OnOk result (HaveSpare more stack.new) }
{
    for bag in stack.iter_mut() {
        bag.tasks.reserve(more)?;
    }
    Ok(())
}

/// Takes the first bag off. Moving the others up costs little: there are at most as many bags as domains nest.
fn take_first(stack: &mut Vec<Bag>) -> Bag
    requires { 0 < vec_len stack.old }
    ensures taken { stack.old.items ≡ result ∷ stack.new.items }
    ensures len { vec_len stack.new + 1 ≡ vec_len stack.old }
    ensures spare { vec_capacity stack.new ≡ vec_capacity stack.old }
{
    stack.remove(0)
}

/// Puts a bag before the others, in memory that is spare.
fn put_first(stack: &mut Vec<Bag>, bag: Bag)
    requires { vec_len stack.old < vec_capacity stack.old }
    ensures put { stack.new.items ≡ bag ∷ stack.old.items }
    ensures len { vec_len stack.new ≡ vec_len stack.old + 1 }
    ensures spare { vec_capacity stack.old ≤ vec_capacity stack.new }
{
    stack.insert(0, bag).unwrap();
}

/// Drops the first bags, which are empty.
fn drop_first(stack: &mut Vec<Bag>, count: usize)
    requires { count ≤ vec_len stack.old }
    ensures dropped { stack.new.items ≡ drop count stack.old.items }
    ensures len { vec_len stack.new + count ≡ vec_len stack.old }
    ensures spare { vec_capacity stack.new ≡ vec_capacity stack.old }
{
    for done in 0..count {
        let _empty = take_first(stack);
    }
}

/// The children for the superdomain join the first bag, if there is one.
fn join_outside(stack: &mut Vec<Bag>, owner: u32, spawns: &[Spawn])
    requires few { length spawns.now ≤ MAX_CHILDREN }
    requires each { HaveSpare (length spawns.now) stack.old.items }
    requires older { AreAllOlder owner (bags stack.old.items) }
    ensures joined { bags stack.new.items ≡ with_super (children Place.Super owner spawns.now) (bags stack.old.items) }
    ensures len { vec_len stack.new ≡ vec_len stack.old }
    ensures spare { vec_capacity stack.old ≤ vec_capacity stack.new }
{
    if stack.is_empty() {
        return;
    }
    let mut bag = take_first(stack);
    join(&mut bag.tasks, Place::Super, owner, spawns);
    put_first(stack, bag);
}

/// What a turn changes: the emptied bags go, the name leaves its bag, and the children join their domains. All memory
/// was taken before.
pub(crate) fn settle(
    stack: &mut Vec<Bag>,
    top: usize,
    name: Name,
    owner: u32,
    new: Option<Bag>,
    spawns: &[Spawn],
)
    requires top { top < vec_len stack.old }
    requires few { length spawns.now ≤ MAX_CHILDREN }
    requires spare { vec_len stack.old < vec_capacity stack.old }
    requires each { HaveSpare (length spawns.now) stack.old.items }
    requires older { AreAllOlder owner (bags (drop top stack.old.items)) }
    ensures { bags stack.new.items
        ≡ stack_behind_turn name owner spawns.now (new_bags new) (bags (drop top stack.old.items)) }
{
    drop_first(stack, top);
    let mut bag = take_first(stack);
    bag.tasks.remove(name);
    join(&mut bag.tasks, Place::Same, owner, spawns);
    join_outside(stack, owner, spawns);
    put_first(stack, bag);
    if let Some(bag) = new {
        put_first(stack, bag);
    }
}
